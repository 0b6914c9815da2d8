// The scans of a study with their walks. All are made before the first put, so a walk can't meet want of memory.
ghost use Rattle.std.specs.Prelude.{◌≡◌, IfOk};
ghost use Rattle.study_model.specs.Lawful.{IsLawful};
ghost use Rattle.study_networks.specs.Networks.{AreNetworksOf};
ghost use Rattle.study_scans.specs.Plan.{IsPlan};

use crate::walk::walk_of;
use band_subdivision::Scan;
use complex_interval::Enclosure;
use std::alloc::{AllocError, Global};
use std::collections::VecDeque;
use study_model::{ScanItem, Study};
use study_networks::StudyNetworks;

/// A scan, and the walk over its band.
#[derive(Drop)]
pub struct PlannedScan<E: Enclosure> {
    pub scan: ScanItem,
    pub walk: Scan<E>,
}

/// All scans of a study in order, each with its walk. All memory that the walks take is taken here.
pub fn plan_of<E: Enclosure>(
    alloc: Global,
    study: &Study,
    networks: &StudyNetworks,
) -> Result<VecDeque<PlannedScan<E>>, AllocError>
    requires study { IsLawful study.now }
    requires networks { AreNetworksOf study.now networks.now }
    requires scale { E.SCALE ≡ study.now.scale }
    ensures plan { IfOk result (λ plan. IsPlan study.now plan.items) }
{
    let mut plan = VecDeque::new(alloc);
    for scan in study.scans.as_slice() {
        let walk = walk_of(alloc, study, networks, scan)?;
        plan.push_back(PlannedScan { scan: *scan, walk })?;
    }
    Ok(plan)
}
