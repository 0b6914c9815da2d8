// The assembly of the nodal matrix of a pair of networks over a box of orders.
ghost use Rattle.std.specs.Prelude.{◌≡◌, ◌≤◌, ◌<◌, ◌↔◌, IfOk, IfSome, IsSome, length, Some, slice_get};
ghost use Rattle.std.specs.Option.{option_map};
ghost use Rattle.complex_interval.specs.Rect.{rectangle_of};
ghost use Rattle.network_theory.specs.Live.{Live};
ghost use Rattle.network_theory.specs.Between.{IsPair};
ghost use Rattle.network_theory.specs.Nodal.{ListsLive};
ghost use Rattle.net_branch.specs.declared.limits.TheConstants.{MAX_NODES};
ghost use Rattle.net_branch.specs.Exact.{exact_network};
ghost use Rattle.net_branch.specs.Whole.{IsWholeNetwork};
ghost use Rattle.admittance_box.specs.Assembled.{Assembled, IsMade};
ghost use Rattle.admittance_box.specs.BoxMatrix.{box_matrix};
ghost use Rattle.admittance_box.specs.Current.{terminal_current};
ghost use Rattle.admittance_box.specs.Filled.{FillsAs};
ghost use Rattle.admittance_box.specs.HeldMatrix.{CanAssemble, HoldsEach};
ghost use Rattle.admittance_box.specs.Pattern.{IsPattern};
ghost use Rattle.admittance_box.specs.Terminal.{HoldsTerminal};
ghost use Rattle.admittance_box.specs.declared.fill.Fill.TheVariants.{Filled};

use crate::branches::branches_between;
use crate::copies::copy_of;
use crate::fill::{Fill, add_branches};
use crate::group_bench::GroupBench;
use crate::intervals::BranchIntervals;
use crate::node_ordering::order_nodes;
use crate::orders::order_range;
use crate::spots::pattern_of;
use crate::taps::find_place;
use crate::terminal::sum_of_branches;
use complex_interval::{Enclosure, Rect};
use net_branch::{Network, NodeId, live};
use plain_elimination::{Column, Matrix, Pattern};
use std::alloc::{AllocError, Global};
use std::marker::Model;

/// The assembly of the matrices of a pair of networks and a driven node. Contracts see the pair, the
/// driven node and the node ordering, which the network's live nodes determine.
#[derive(Drop)]
pub struct Assembly<E: Enclosure> {
    low: Network,
    high: Network,
    driven: u32,
    ordering: Vec<u32>,
    branches: Vec<BranchIntervals<E>>,
    bench: GroupBench<E>,
}

impl<E: Enclosure> Model for Assembly<E> {
    ghost use Rattle.std.specs.Prelude.{◌≡◌, map};
    ghost use Rattle.net_branch.specs.Exact.{exact_network};
    ghost use Rattle.admittance_box.specs.Assembled.{Assembled, IsKept};
    ghost use Rattle.admittance_box.specs.Intervals.{addend_of};

    ghost Value = { Assembled };

    ghost view = { λ a. record { low = exact_network a.low; high = exact_network a.high; driven = a.driven; ordering = a.ordering.items } };

    ghost invariant = { λ a. IsKept E.SCALE (record { low = exact_network a.low; high = exact_network a.high; driven = a.driven; ordering = a.ordering.items }) (map (addend_of E.ends) a.branches.items) };
}

impl<E: Enclosure> Assembly<E> {
    /// The assembly of the networks from `low` to `high`, driven at a live node. All intervals are made
    /// here, once.
    pub fn between(
        alloc: Global,
        low: &Network,
        high: &Network,
        driven: NodeId,
    ) -> Result<Assembly<E>, AllocError>
        requires whole_low { IsWholeNetwork low.now }
        requires whole_high { IsWholeNetwork high.now }
        requires pair { IsPair (exact_network low.now) (exact_network high.now) }
        requires live { Live (exact_network low.now) driven.number }
        ensures { IfOk result (λ a. IsMade (exact_network low.now) (exact_network high.now) driven.number a) }
    {
        let marks = live(alloc, low)?;
        let ordering = order_nodes(alloc, low, marks.as_slice(), driven.number)?;
        let low_branches = low.branches.as_slice();
        let high_branches = high.branches.as_slice();
        let branches = branches_between(alloc, ordering.as_slice(), low_branches, high_branches)?;
        Ok(Assembly {
            low: copy_of(alloc, low)?,
            high: copy_of(alloc, high)?,
            driven: driven.number,
            ordering,
            branches,
            bench: GroupBench::new(alloc)?,
        })
    }

    /// The assembly of a network alone: that of the network and itself.
    pub fn new(alloc: Global, network: &Network, driven: NodeId) -> Result<Assembly<E>, AllocError>
        requires whole { IsWholeNetwork network.now }
        requires live { Live (exact_network network.now) driven.number }
        ensures { IfOk result (λ a. IsMade (exact_network network.now) (exact_network network.now) driven.number a) }
    {
        Assembly::between(alloc, network, network, driven)
    }

    /// The number of live nodes.
    pub fn size(&self) -> u32
        ensures count { result ≡ length self.now.ordering }
        ensures few { result ≤ MAX_NODES }
        ensures live { ListsLive self.now.low self.now.ordering }
    {
        self.ordering.len() as u32
    }

    /// The network from whose numbers the intervals run.
    pub fn low(&self) -> &Network
        ensures { exact_network result.now ≡ self.now.low }
    {
        &self.low
    }

    /// The network to whose numbers they run.
    pub fn high(&self) -> &Network
        ensures { exact_network result.now ≡ self.now.high }
    {
        &self.high
    }

    /// The live nodes in their ordering, the driven one last.
    pub fn ordering(&self) -> &[u32]
        ensures nodes { result.now ≡ self.now.ordering }
        ensures few { length result.now ≤ MAX_NODES }
        ensures ready { CanAssemble self.now.low self.now.high self.now.driven self.now.ordering }
    {
        self.ordering.as_slice()
    }

    /// The place of a node in the matrix, counted from 0. None exactly where the node isn't live.
    pub fn position(&self, node: NodeId) -> Option<u32>
        ensures live { IsSome result ↔ Live self.now.low node.number }
        ensures place { IfSome result (λ place. slice_get self.now.ordering place ≡ Some node.number) }
    {
        find_place(self.ordering.as_slice(), node.number)
    }

    /// The pattern of the matrices: outside it each is exact zero.
    pub fn pattern(&self, alloc: Global) -> Result<Pattern, AllocError>
        ensures { IfOk result (λ p. IsPattern self.now.ordering self.now.low.branches p.size p.places.items) }
    {
        pattern_of(
            alloc,
            self.ordering.as_slice(),
            self.low.branches.as_slice(),
        )
    }

    /// Fills the matrix over the orders from `lo` to `hi`, in micro-orders: the nodal matrix in per
    /// unit, as a sum over the branches of the pair for each two live nodes. `OutOfRange` exactly where
    /// it has no value, with the first branch at which it has none, counted from 0; the entries are then
    /// unspecified. It takes no memory.
    pub fn fill(&mut self, lo: u32, hi: u32, matrix: &mut Matrix<E>) -> Fill
        requires ordered { lo ≤ hi }
        requires size { matrix.old.size ≡ length self.old.ordering }
        ensures stated { FillsAs result matrix.new.rows (box_matrix E.SCALE self.old.low self.old.high self.old.ordering lo hi) }
        ensures holds { result ≡ Filled → HoldsEach E.SCALE self.old.low self.old.high self.old.driven self.old.ordering lo hi matrix.new.rows }
        ensures size { matrix.new.size ≡ matrix.old.size }
        ensures unchanged { self.new ≡ self.old }
    {
        let order = order_range(lo, hi);
        matrix.clear();
        add_branches(self.branches.as_slice(), order, &mut self.bench, matrix)
    }
    /// The terminal current, in per unit, of the element of this owner's number at a live node, over the orders from `lo` to `hi`, in
    /// micro-orders: what leaves the node into the element's branches. `volts` are the voltages of the live nodes in the assembly's
    /// ordering. Only the branches with a tap at the node count, and a group where one of its branches has a tap there; of an element
    /// without one the current is 0. None exactly where a step has no value. It takes no memory.
    pub fn current(
        &mut self,
        lo: u32,
        hi: u32,
        owner: u32,
        node: NodeId,
        volts: &Column<E>,
    ) -> Option<Rect<E>>
        requires ordered { lo ≤ hi }
        requires live { Live self.old.low node.number }
        requires size { length volts.now ≡ length self.old.ordering }
        ensures stated { option_map (rectangle_of E.ends) result ≡ terminal_current E.SCALE self.old.low self.old.high self.old.ordering lo hi owner node.number volts.now }
        ensures holds { IfSome result (λ i. HoldsTerminal E.SCALE self.old.low self.old.high self.old.ordering lo hi owner node.number volts.now (rectangle_of E.ends i)) }
        ensures unchanged { self.new ≡ self.old }
    {
        let order = order_range(lo, hi);
        sum_of_branches(
            self.ordering.as_slice(),
            volts,
            order,
            owner,
            node.number,
            self.low.branches.as_slice(),
            self.high.branches.as_slice(),
            &mut self.bench,
        )
    }
}
