// The walks of scans: what a scan is asked, and the boxes of its band.
ghost use Rattle.std.specs.Prelude.{◌≡◌, ◌<◌, ◌^◌, ◌≤ℤ◌, ◌<ℤ◌, pos, IfOk, unsigned_abs};
ghost use Rattle.network_theory.specs.Between.{IsPair};
ghost use Rattle.net_branch.specs.Exact.{exact_network};
ghost use Rattle.net_branch.specs.Whole.{IsWholeNetwork};
ghost use Rattle.band_subdivision.specs.ScanSpec.{IsScanSpec};
ghost use Rattle.study_model.specs.Lawful.{IsLawful, IsLawfulScan};
ghost use Rattle.study_networks.specs.Networks.{AreNetworksOf};
ghost use Rattle.study_scans.specs.Scan.{spec_of};
ghost use Rattle.study_scans.specs.Walk.{IsWalkOver, IsWalkOf};

use band_subdivision::{Scan, ScanSpec};
use complex_interval::Enclosure;
use element_parts::kv;
use fixed_decimal::Decimal;
use net_branch::{Network, NodeId, live};
use std::alloc::{AllocError, Global};
use study_model::{ScanItem, Study};
use study_networks::{StudyNetworks, scanned_network, scanned_node};

/// Micro-orders, as a whole number.
pub fn micro(order: Decimal) -> u32
    requires low { pos 0 ≤ℤ order }
    requires high { order <ℤ pos (2 ^ 32) }
    ensures { result ≡ unsigned_abs order }
{
    order.millionths as u32
}

/// What a scan is asked.
pub fn spec_of(study: &Study, scan: &ScanItem) -> ScanSpec
    requires { IsLawfulScan study.now.version study.now.model study.now.buses scan.now }
    ensures { result ≡ spec_of study.now scan.now }
{
    ScanSpec {
        from: micro(scan.from),
        to: micro(scan.to),
        finest: micro(scan.finest),
        locate: micro(scan.locate),
        curve: scan.curve,
        kv: kv(study, scan.bus),
        mva: study.mva,
        method: study.method,
    }
}

/// The walk of a band at a node of the networks from `low` to `high`; nothing is decided where the node isn't live. All memory that it takes
/// is taken here.
pub fn walk_between<E: Enclosure>(
    alloc: Global,
    low: &Network,
    high: &Network,
    node: u32,
    spec: ScanSpec,
) -> Result<Scan<E>, AllocError>
    requires whole_low { IsWholeNetwork low.now }
    requires whole_high { IsWholeNetwork high.now }
    requires pair { IsPair (exact_network low.now) (exact_network high.now) }
    requires inside { node < low.now.nodes }
    requires spec { IsScanSpec spec }
    ensures { IfOk result (IsWalkOver E.SCALE spec (exact_network low.now) (exact_network high.now) node) }
{
    let marks = live(alloc, low)?;
    if marks[node as usize] {
        Scan::between(alloc, low, high, NodeId { number: node }, spec)
    } else {
        Scan::unfed(alloc, spec)
    }
}

/// The walk of a scan over its band, at the scale of the study, at the node that it looks at; nothing is decided where that isn't live. All
/// memory that it takes is taken here.
pub fn walk_of<E: Enclosure>(
    alloc: Global,
    study: &Study,
    networks: &StudyNetworks,
    scan: &ScanItem,
) -> Result<Scan<E>, AllocError>
    requires study { IsLawful study.now }
    requires networks { AreNetworksOf study.now networks.now }
    requires scan { IsLawfulScan study.now.version study.now.model study.now.buses scan.now }
    requires scale { E.SCALE ≡ study.now.scale }
    ensures { IfOk result (IsWalkOf study.now scan.now) }
{
    let network = scanned_network(study, networks, scan);
    walk_between(
        alloc,
        network,
        network,
        scanned_node(scan),
        spec_of(study, scan),
    )
}
