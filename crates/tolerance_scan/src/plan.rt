// The scans of a study for all values within its tolerances, with their walks. All are made before the first put, so a walk can't meet want
// of memory.
ghost use Rattle.std.specs.Prelude.{◌≡◌, false, true, IfOk};
ghost use Rattle.study_model.specs.Lawful.{IsLawful, IsLawfulScan};
ghost use Rattle.study_networks.specs.Networks.{AreNetworksOf};
ghost use Rattle.study_scans.specs.Plan.{IsPlanBy};
ghost use Rattle.study_scans.specs.Scan.{spec_of};
ghost use Rattle.study_scans.specs.Walk.{IsWalkBy};
ghost use Rattle.tolerance_scan.specs.Claim.{HoldsOfTolerances};
ghost use Rattle.tolerance_scan.specs.Ends.{AreWide};
ghost use Rattle.tolerance_scan.specs.Report.{tolerance_test};

use crate::ends::{network_in, wide_networks};
use band_subdivision::Scan;
use complex_interval::Enclosure;
use std::alloc::{AllocError, Global};
use std::collections::VecDeque;
use study_model::{ScanItem, Study};
use study_networks::{StudyNetworks, scanned_node};
use study_scans::{PlannedScan, spec_of, walk_between};

/// The walk of a scan over its band, for all values within the study's tolerances: `low` and `high` are the study's networks with every
/// tolerance lower and with every one higher.
fn walk_within<E: Enclosure>(
    alloc: Global,
    study: &Study,
    networks: &StudyNetworks,
    low: &StudyNetworks,
    high: &StudyNetworks,
    scan: &ScanItem,
) -> Result<Scan<E>, AllocError>
    requires study { IsLawful study.now }
    requires networks { AreNetworksOf study.now networks.now }
    requires low { AreWide false study.now.tolerances networks.now low.now }
    requires high { AreWide true study.now.tolerances networks.now high.now }
    requires scan { IsLawfulScan study.now.version study.now.model study.now.buses scan.now }
    requires scale { E.SCALE ≡ study.now.scale }
    ensures { IfOk result (IsWalkBy study.now.scale (spec_of study.now scan.now) (tolerance_test study.now scan.now)) }
{
    let from = network_in(low, scan);
    let to = network_in(high, scan);
    let spec = spec_of(study, scan);
    walk_between(alloc, from, to, scanned_node(scan), spec)
}

/// The plan of all scans, where `low` and `high` are the study's networks with every tolerance lower and with every one higher.
fn plan_within<E: Enclosure>(
    alloc: Global,
    study: &Study,
    networks: &StudyNetworks,
    low: &StudyNetworks,
    high: &StudyNetworks,
) -> Result<VecDeque<PlannedScan<E>>, AllocError>
    requires study { IsLawful study.now }
    requires networks { AreNetworksOf study.now networks.now }
    requires low { AreWide false study.now.tolerances networks.now low.now }
    requires high { AreWide true study.now.tolerances networks.now high.now }
    requires scale { E.SCALE ≡ study.now.scale }
    ensures { IfOk result (λ plan. IsPlanBy (tolerance_test study.now) study.now plan.items) }
{
    let mut plan = VecDeque::new(alloc);
    for scan in study.scans.as_slice() {
        let walk = walk_within(alloc, study, networks, low, high, scan)?;
        plan.push_back(PlannedScan { scan: *scan, walk })?;
    }
    Ok(plan)
}

/// All scans of a study in order, each with its walk for all values within the study's tolerances. All memory that the walks take is taken
/// here. (This project's own.)
#[tactic(auto, using(crate::proofs::Hold::tolerances_hold))]
pub fn tolerance_plan<E: Enclosure>(
    alloc: Global,
    study: &Study,
    networks: &StudyNetworks,
) -> Result<VecDeque<PlannedScan<E>>, AllocError>
    requires study { IsLawful study.now }
    requires networks { AreNetworksOf study.now networks.now }
    requires scale { E.SCALE ≡ study.now.scale }
    ensures plan { IfOk result (λ plan. IsPlanBy (tolerance_test study.now) study.now plan.items) }
    ensures holds { IfOk result (λ plan. HoldsOfTolerances study.now) }
{
    let low = wide_networks(alloc, study, networks, false)?;
    let high = wide_networks(alloc, study, networks, true)?;
    plan_within(alloc, study, networks, &low, &high)
}
