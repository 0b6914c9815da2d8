// A scan of a band of orders at a node of a network, or of a pair of networks.
ghost use Rattle.std.specs.Prelude.{◌≡◌, pos, ◌≤◌, ◌≤ℤ◌, true, [], ◌∷◌, map, length, IfOk, IfSome, IfNone};
ghost use Rattle.exact_fraction.specs.Fraction.{ratio_of};
ghost use Rattle.network_theory.specs.Between.{IsPair};
ghost use Rattle.network_theory.specs.Box.{Covers};
ghost use Rattle.network_theory.specs.Live.{Live};
ghost use Rattle.net_branch.specs.Exact.{exact_network};
ghost use Rattle.net_branch.specs.Whole.{IsWholeNetwork};
ghost use Rattle.admittance_box.specs.HeldMatrix.{CanAssemble};
ghost use Rattle.admittance_box.specs.Pattern.{IsPattern};
ghost use Rattle.band_subdivision.specs.Cover.{span_of};
ghost use Rattle.band_subdivision.specs.PairTruth.{IsClearForEach, IsAboveForEach, IsTrueForEach};
ghost use Rattle.band_subdivision.specs.Scan.{IsScanOf, test_of, whole_list};
ghost use Rattle.band_subdivision.specs.ScanSpec.{IsScanSpec};
ghost use Rattle.band_subdivision.specs.Testing.{bench_for};
ghost use Rattle.band_subdivision.specs.Unfed.{IsUnfed};

use crate::boxes::settle;
use crate::pair_test::PairTest;
use crate::scan_spec::{ScanSpec, Tested};
use crate::second_bench::{SecondBench, new_bench};
use crate::stack::Stack;
use crate::unfed::without_value;
use admittance_box::Assembly;
use complex_interval::Enclosure;
use exact_fraction::Fraction;
use net_branch::{Network, NodeId};
use plain_elimination::Matrix;
use scan_report::BoxRow;
use sparse_rows::SparseBench;
use std::alloc::{AllocError, Global};
use std::marker::Model;

/// A scan: what it was asked, its pair of networks with the driven node, the extra susceptance there, and the boxes that it has
/// still to give. All its memory is taken when it is made.
#[derive(Drop)]
pub struct Scan<E: Enclosure> {
    test: PairTest<E>,
    stack: Stack,
}

impl<E: Enclosure> Model for Scan<E> {
    ghost use Rattle.band_subdivision.specs.Left.{boxes_left};
    ghost use Rattle.band_subdivision.specs.Scan.{Scanning, IsScan};
    ghost use Rattle.band_subdivision.specs.ScanSpec.{widths_of};
    ghost use Rattle.band_subdivision.specs.Testing.{box_test};

    ghost Value = { Scanning };

    ghost view = { λ s. record {
      spec = s.test.spec;
      low = s.test.low;
      high = s.test.high;
      driven = s.test.driven;
      ordering = s.test.ordering;
      extra = s.test.extra;
      left = boxes_left (box_test E.SCALE s.test) (widths_of s.test.spec) s.stack;
    } };

    ghost invariant = { λ s. IsScan s.test s.stack };
}

/// A scan with this assembly, this matrix and these benches, which has its whole band before it.
fn scan_by<E: Enclosure>(
    spec: ScanSpec,
    assembly: Assembly<E>,
    matrix: Matrix<E>,
    bench: SparseBench<E>,
    second: SecondBench<E>,
) -> Scan<E>
    requires spec { IsScanSpec spec }
    requires ready { CanAssemble assembly.low assembly.high assembly.driven assembly.ordering }
    requires size { matrix.size ≡ length assembly.ordering }
    requires pattern { IsPattern assembly.ordering assembly.low.branches bench.size bench.places }
    requires second { second ≡ bench_for E.SCALE spec.method assembly }
    ensures { IsScanOf E.SCALE assembly.low assembly.high assembly.driven spec result }
{
    let stack = Stack::new(spec.from, spec.to);
    Scan {
        test: PairTest::new(spec, assembly, matrix, bench, second),
        stack,
    }
}

impl<E: Enclosure> Scan<E> {
    /// The scan of each network from `low` to `high`, driven at a live node, without an extra susceptance.
    pub fn between(
        alloc: Global,
        low: &Network,
        high: &Network,
        driven: NodeId,
        spec: ScanSpec,
    ) -> Result<Scan<E>, AllocError>
        requires whole_low { IsWholeNetwork low.now }
        requires whole_high { IsWholeNetwork high.now }
        requires pair { IsPair (exact_network low.now) (exact_network high.now) }
        requires live { Live (exact_network low.now) driven.number }
        requires spec { IsScanSpec spec }
        ensures { IfOk result (λ s. IsScanOf E.SCALE (exact_network low.now) (exact_network high.now) driven.number spec s) }
    {
        let assembly = Assembly::between(alloc, low, high, driven)?;
        let matrix = Matrix::new(alloc, assembly.size())?;
        let bench = SparseBench::new(alloc, &assembly.pattern(alloc)?)?;
        let second = new_bench(alloc, spec.method, &assembly)?;
        Ok(scan_by(spec, assembly, matrix, bench, second))
    }

    /// The scan of a network: the one between it and itself.
    pub fn new(
        alloc: Global,
        network: &Network,
        driven: NodeId,
        spec: ScanSpec,
    ) -> Result<Scan<E>, AllocError>
        requires whole { IsWholeNetwork network.now }
        requires live { Live (exact_network network.now) driven.number }
        requires spec { IsScanSpec spec }
        ensures { IfOk result (λ s. IsScanOf E.SCALE (exact_network network.now) (exact_network network.now) driven.number spec s) }
    {
        Scan::between(alloc, network, network, driven, spec)
    }

    /// The scan of a node that isn't live: its test passes on no box, whatever the extra susceptance. (This project's own.)
    pub fn unfed(alloc: Global, spec: ScanSpec) -> Result<Scan<E>, AllocError>
        requires { IsScanSpec spec }
        ensures { IfOk result (λ s. IsUnfed E.SCALE spec s) }
    {
        let network = without_value(alloc)?;
        Scan::new(alloc, &network, NodeId { number: 0 }, spec)
    }

    /// Begins anew with this extra susceptance, in per unit at order 1, in place of the one before. Condition: it is at least 0.
    /// It takes no memory.
    pub fn restart(&mut self, extra: Fraction)
        requires { pos 0 ≤ℤ extra.num }
        ensures anew { self.new ≡ record self.old { extra = ratio_of extra; left = whole_list E.SCALE self.old (ratio_of extra) } }
        ensures covers { Covers self.old.spec.from self.old.spec.to (map span_of self.new.left) }
    {
        self.test.set_extra(extra);
        let spec = self.test.spec();
        self.stack = Stack::new(spec.from, spec.to);
    }

    /// What the interval test says of the box from `lo` to `hi`, in micro-orders, which lies in the scan's band. Where it says clear,
    /// at every order of the box the impedance of each network exists and is within the threshold. Where the box is one order and
    /// there are micro-ohms, there it exists, is above, and has at least so many. It takes no memory.
    pub fn test(&mut self, lo: u32, hi: u32) -> Tested
        requires from { self.old.spec.from ≤ lo }
        requires ordered { lo ≤ hi }
        requires to { hi ≤ self.old.spec.to }
        ensures clear { result.clear ≡ (test_of E.SCALE self.old).clear lo hi }
        ensures above { result.micro_ohms ≡ (test_of E.SCALE self.old).above lo hi }
        ensures same { self.new ≡ self.old }
        ensures within { result.clear ≡ true → IsClearForEach self.old lo hi }
        ensures at_least { lo ≡ hi → IfSome result.micro_ohms (λ micro_ohms. IsAboveForEach self.old lo micro_ohms) }
    {
        Tested {
            clear: self.test.is_clear(lo, hi),
            micro_ohms: self.test.micro_ohms(lo, hi),
        }
    }

    /// The next box, or none at the band's end. What it says is true of each network. It takes no memory.
    pub fn next_box(&mut self) -> Option<BoxRow>
        ensures next { IfSome result (λ b. self.old.left ≡ b ∷ self.new.left) }
        ensures none { IfNone result ((self.old.left ≡ []) × (self.new.left ≡ [])) }
        ensures same { self.new ≡ record self.old { left = self.new.left } }
        ensures truth { IfSome result (λ b. IsTrueForEach E.SCALE self.old b) }
    {
        'walking: while let Some((lo, hi)) = self.stack.top() {
            match settle(&mut self.test, lo, hi) {
                Some(kind) => {
                    self.stack.pop();
                    return Some(BoxRow { lo, hi, kind });
                }
                None => self.stack.split(lo + (hi - lo) / 2),
            }
        }
        None
    }
}
