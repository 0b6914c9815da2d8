// Scans of all networks between two.
ghost use Rattle.std.specs.Prelude.{◌≡◌, [], ◌∷◌, IfOk, IfErr, IfSome, IfNone};
ghost use Rattle.network_theory.specs.Live.{Live};
ghost use Rattle.net_branch.specs.Exact.{exact_network};
ghost use Rattle.net_branch.specs.Whole.{IsWholeNetwork};
ghost use Rattle.band_subdivision.specs.PairTruth.{IsTrueForEach};
ghost use Rattle.band_subdivision.specs.Scan.{IsScanOf};
ghost use Rattle.band_subdivision.specs.ScanSpec.{IsScanSpec};
ghost use Rattle.tolerance_scan.specs.Faults.{IsFaultOf};

use crate::fault::ToleranceFault;
use crate::pair::apart;
use band_subdivision::{Scan, ScanSpec};
use complex_interval::Enclosure;
use net_branch::{Network, NodeId};
use scan_report::BoxRow;
use std::alloc::Global;
use std::marker::Model;

/// A scan of a band of orders at a node of each network between two, which differ in their numbers alone. Contracts see what it is asked,
/// its pair of networks with the driven node, and the boxes that it has still to give. All its memory is taken when it is made.
#[derive(Drop)]
pub struct ToleranceScan<E: Enclosure> {
    scan: Scan<E>,
}

impl<E: Enclosure> Model for ToleranceScan<E> {
    ghost use Rattle.band_subdivision.specs.Scan.{Scanning};

    ghost Value = { Scanning };

    ghost view = { λ s. s.scan };
}

impl<E: Enclosure> ToleranceScan<E> {
    /// The scan of each network from `low` to `high`, driven at a node that is live in `low`. `NotAPair` exactly where the networks aren't
    /// a pair, with the number that says where they differ.
    pub fn new(
        alloc: Global,
        low: &Network,
        high: &Network,
        driven: NodeId,
        spec: ScanSpec,
    ) -> Result<ToleranceScan<E>, ToleranceFault>
        requires whole_low { IsWholeNetwork low.now }
        requires whole_high { IsWholeNetwork high.now }
        requires live { Live (exact_network low.now) driven.number }
        requires spec { IsScanSpec spec }
        ensures made { IfOk result (λ s. IsScanOf E.SCALE (exact_network low.now) (exact_network high.now) driven.number spec s) }
        ensures fault { IfErr result (IsFaultOf (exact_network low.now) (exact_network high.now)) }
    {
        match apart(low, high) {
            Some(number) => Err(ToleranceFault::NotAPair(number)),
            None => match Scan::between(alloc, low, high, driven, spec) {
                Ok(scan) => Ok(ToleranceScan { scan }),
                Err(_) => Err(ToleranceFault::NoMemory),
            },
        }
    }

    /// The next box, or none at the band's end. What it says is true of each network between the two. It takes no memory.
    pub fn next_box(&mut self) -> Option<BoxRow>
        ensures next { IfSome result (λ b. self.old.left ≡ b ∷ self.new.left) }
        ensures none { IfNone result ((self.old.left ≡ []) × (self.new.left ≡ [])) }
        ensures same { self.new ≡ record self.old { left = self.new.left } }
        ensures truth { IfSome result (λ b. IsTrueForEach E.SCALE self.old b) }
    {
        self.scan.next_box()
    }
}
