// A bench on which the impedance of a pair of networks is estimated over boxes of orders.
ghost use Rattle.std.specs.Prelude.{◌≡◌, ◌<◌, ◌≤◌, IfOk, Some, length, map};
ghost use Rattle.std.specs.Option.{option_map};
ghost use Rattle.exact_fraction.specs.Fraction.{ratio_of};
ghost use Rattle.branchwise_test.specs.Enclosed.{near_of_branches};
ghost use Rattle.drop_bench.specs.Drops.{drop_ends, bare};
ghost use Rattle.branchwise_bench.specs.Layout.{AreInside};
ghost use Rattle.branchwise_live.specs.Live.{live_ends};
ghost use Rattle.drop_bench.specs.Near.{near_of};
ghost use Rattle.branchwise_bench.specs.Pair.{LivePair, BranchwisePair, branchwise_pair, IsLaidOut};
ghost use Rattle.drop_bench.specs.Results.{result_of};
ghost use Rattle.plain_elimination.specs.declared.limits.TheConstants.{MAX_SIZE};

use crate::count::count_all;
use crate::layout::{node_drops, push_own_drops};
use admittance_box::{Assembly, order_range};
use branchwise_live::{LiveBranchIntervals, push_live_branches};
use branchwise_test::BranchwiseFault;
use complex_interval::Enclosure;
use drop_bench::{DropBench, DropIntervals, Near};
use exact_fraction::Fraction;
use std::alloc::{AllocError, Global};
use std::marker::Model;

/// A bench for a pair whose numbers have intervals. Contracts see it as the number of live nodes and the live branches.
#[derive(Drop)]
struct LiveBench<E: Enclosure> {
    nodes: u32,
    branches: Vec<LiveBranchIntervals<E>>,
    drops: Vec<DropIntervals<E>>,
    bench: DropBench<E>,
}

impl<E: Enclosure> Model for LiveBench<E> {
    ghost use Rattle.std.specs.Prelude.{map};
    ghost use Rattle.drop_bench.specs.Drops.{drop_ends, bare};
    ghost use Rattle.branchwise_live.specs.Live.{live_ends};
    ghost use Rattle.branchwise_bench.specs.Pair.{LivePair, IsLaidOut};

    ghost Value = { LivePair };

    ghost view = { λ b. record { nodes = b.nodes; branches = map (live_ends E.ends) b.branches.items } };

    ghost invariant = { λ b. IsLaidOut E.SCALE (record { nodes = b.nodes; branches = map (live_ends E.ends) b.branches.items }) (map bare (map (drop_ends E.ends) b.drops.items)) b.bench };
}

impl<E: Enclosure> LiveBench<E> {
    // A bench for so many nodes, the last of them driven, and these branches.
    fn new(
        alloc: Global,
        nodes: u32,
        branches: Vec<LiveBranchIntervals<E>>,
    ) -> Result<LiveBench<E>, AllocError>
        requires some { 0 < nodes }
        requires few { nodes ≤ MAX_SIZE }
        requires inside { AreInside nodes (map (live_ends E.ends) branches.items) }
        ensures { IfOk result (λ b. b ≡ record { nodes = nodes; branches = map (live_ends E.ends) branches.items }) }
    {
        let mut drops = node_drops(alloc, nodes)?;
        push_own_drops(alloc, &mut drops, branches.as_slice())?;
        let bench = DropBench::new(alloc, nodes, drops.len())?;
        Ok(LiveBench {
            nodes,
            branches,
            drops,
            bench,
        })
    }

    // The estimate over the orders from `lo` to `hi`, in micro-orders, with an extra susceptance at the driven node.
    fn estimate(&mut self, extra: Fraction, lo: u32, hi: u32) -> Result<Near<E>, BranchwiseFault>
        requires { lo ≤ hi }
        ensures value { result_of (near_of E.ends) result ≡ near_of_branches E.SCALE self.old.nodes (Some self.old.branches) (ratio_of extra) lo hi }
        ensures same { self.new ≡ self.old }
    {
        let order = order_range(lo, hi);
        let drops = self.drops.as_mut_slice();
        match count_all(order, self.branches.as_slice(), extra, self.nodes, drops) {
            Some(()) => self.bench.estimate(drops),
            None => Err(BranchwiseFault::OutOfRange),
        }
    }
}

/// A bench for a pair of networks. Contracts see it as the number of live nodes and the live branches, if their numbers and the
/// products of their ratios have intervals.
#[derive(Drop)]
pub struct BranchwiseBench<E: Enclosure> {
    nodes: u32,
    live: Option<LiveBench<E>>,
}

impl<E: Enclosure> Model for BranchwiseBench<E> {
    ghost use Rattle.std.specs.Prelude.{◌≡◌, IfSome};
    ghost use Rattle.std.specs.Option.{option_map};
    ghost use Rattle.branchwise_bench.specs.Pair.{LivePair, BranchwisePair};

    ghost Value = { BranchwisePair };

    ghost view = { λ b. record { nodes = b.nodes; branches = option_map (λ (p : LivePair). p.branches) b.live } };

    ghost invariant = { λ b. IfSome b.live (λ p. p.nodes ≡ b.nodes) };
}

impl<E: Enclosure> BranchwiseBench<E> {
    /// A bench for the pair of an assembly. The only call that takes memory.
    pub fn new(alloc: Global, assembly: &Assembly<E>) -> Result<BranchwiseBench<E>, AllocError>
        ensures { IfOk result (λ b. b ≡ branchwise_pair E.SCALE assembly.now) }
    {
        let ordering = assembly.ordering();
        let nodes = ordering.len() as u32;
        let mut branches = Vec::new(alloc);
        let low = assembly.low().branches.as_slice();
        let high = assembly.high().branches.as_slice();
        let live = match push_live_branches(alloc, &mut branches, ordering, low, high)? {
            Some(()) => Some(LiveBench::new(alloc, nodes, branches)?),
            None => None,
        };
        Ok(BranchwiseBench { nodes, live })
    }

    /// The estimate of the driving-point impedance of the pair over the orders from `lo` to `hi`, in micro-orders, with an extra
    /// susceptance at the driven node, in per unit at order 1, and its error; or why there is none. It takes no memory.
    pub fn estimate(
        &mut self,
        extra: Fraction,
        lo: u32,
        hi: u32,
    ) -> Result<Near<E>, BranchwiseFault>
        requires { lo ≤ hi }
        ensures value { result_of (near_of E.ends) result ≡ near_of_branches E.SCALE self.old.nodes self.old.branches (ratio_of extra) lo hi }
        ensures same { self.new ≡ self.old }
    {
        match &mut self.live {
            Some(live) => live.estimate(extra, lo, hi),
            None => Err(BranchwiseFault::OutOfRange),
        }
    }
}
