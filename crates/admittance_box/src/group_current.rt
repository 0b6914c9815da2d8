// The currents of a group of three coupled branches from the voltages of the nodes, and what leaves a node into it.
ghost use Rattle.std.specs.Prelude.{◌≡◌, ◌≤◌, ◌<◌, length};
ghost use Rattle.std.specs.Option.{option_map};
ghost use Rattle.complex_interval.specs.Rect.{rectangle_of};
ghost use Rattle.network_theory.specs.Between.{BranchUpTo};
ghost use Rattle.net_branch.specs.Exact.{exact_branch};
ghost use Rattle.admittance_box.specs.Current.{live_drop, group_drops, row_current, with_row, with_rows, is_group_at, with_group};
ghost use Rattle.admittance_box.specs.Groups.{drop_ends};
ghost use Rattle.plain_elimination.specs.declared.limits.TheConstants.{MAX_SIZE};

use crate::coupling::CouplingIntervals;
use crate::current::{drop_of, is_at, with_leaving, zero_rectangle};
use crate::group_bench::GroupBench;
use crate::group_taps::BranchPair;
use crate::taps::any_place;
use complex_interval::{Enclosure, Rect};
use plain_elimination::Column;

/// The drops of a group's branches.
#[derive(Clone, Copy)]
pub struct GroupDrops<E: Enclosure> {
    pub first: Rect<E>,
    pub second: Rect<E>,
    pub third: Rect<E>,
}

// The drop of a branch of a group: 0 where its nodes are dead. None where a step has no value.
fn live_drop<E: Enclosure>(
    ordering: &[u32],
    volts: &Column<E>,
    branch: BranchPair,
) -> Option<Rect<E>>
    requires few { length ordering.now ≤ MAX_SIZE }
    requires size { length volts.now ≡ length ordering.now }
    requires ordered { BranchUpTo (exact_branch branch.low.now) (exact_branch branch.high.now) }
    ensures { option_map (rectangle_of E.ends) result ≡ live_drop E.SCALE ordering.now volts.now (exact_branch branch.entry.low.now) (exact_branch branch.entry.high.now) }
{
    let low = branch.low.taps.as_slice();
    if !any_place(ordering, low) {
        return Some(zero_rectangle());
    }
    drop_of(ordering, volts, low, branch.high.taps.as_slice())
}

// The drops of the branches a, b and c of a group. None where a step has no value.
fn group_drops<E: Enclosure>(
    ordering: &[u32],
    volts: &Column<E>,
    a: BranchPair,
    b: BranchPair,
    c: BranchPair,
) -> Option<GroupDrops<E>>
    requires few { length ordering.now ≤ MAX_SIZE }
    requires size { length volts.now ≡ length ordering.now }
    requires a_ordered { BranchUpTo (exact_branch a.low.now) (exact_branch a.high.now) }
    requires b_ordered { BranchUpTo (exact_branch b.low.now) (exact_branch b.high.now) }
    requires c_ordered { BranchUpTo (exact_branch c.low.now) (exact_branch c.high.now) }
    ensures { option_map (drop_ends E.ends) result
        ≡ group_drops E.SCALE ordering.now volts.now (exact_branch a.entry.low.now) (exact_branch b.entry.low.now) (exact_branch c.entry.low.now) (exact_branch a.entry.high.now) (exact_branch b.entry.high.now) (exact_branch c.entry.high.now) }
{
    let first = live_drop(ordering, volts, a)?;
    let second = live_drop(ordering, volts, b)?;
    let third = live_drop(ordering, volts, c)?;
    Some(GroupDrops {
        first,
        second,
        third,
    })
}

// The current of the branch at a place of the group that the bench has solved: its row of the columns times the drops. None where a step
// has no value.
fn row_current<E: Enclosure>(
    bench: &GroupBench<E>,
    place: u32,
    drops: GroupDrops<E>,
) -> Option<Rect<E>>
    requires { place < 3 }
    ensures { option_map (rectangle_of E.ends) result ≡ row_current E.SCALE bench.now (drop_ends E.ends drops) place }
{
    let (a, b, c) = bench.row(place);
    let x = a.mul(drops.first)?;
    let y = b.mul(drops.second)?;
    let z = c.mul(drops.third)?;
    x.add(y)?.add(z)
}

// The sum with what leaves the node into that branch, where it has a tap there. None where a step has no value.
fn with_row<E: Enclosure>(
    sum: Rect<E>,
    node: u32,
    bench: &GroupBench<E>,
    drops: GroupDrops<E>,
    place: u32,
    branch: BranchPair,
) -> Option<Rect<E>>
    requires place_in { place < 3 }
    requires ordered { BranchUpTo (exact_branch branch.low.now) (exact_branch branch.high.now) }
    ensures { option_map (rectangle_of E.ends) result
        ≡ with_row E.SCALE node bench.now (drop_ends E.ends drops) place (rectangle_of E.ends sum) (exact_branch branch.entry.low.now) (exact_branch branch.entry.high.now) }
{
    let low = branch.low.taps.as_slice();
    if !is_at(low, node) {
        return Some(sum);
    }
    let current = row_current(bench, place, drops)?;
    with_leaving(sum, node, current, low, branch.high.taps.as_slice())
}

// So with each branch of the group. None where a step has no value.
fn with_rows<E: Enclosure>(
    sum: Rect<E>,
    node: u32,
    bench: &GroupBench<E>,
    drops: GroupDrops<E>,
    a: BranchPair,
    b: BranchPair,
    c: BranchPair,
) -> Option<Rect<E>>
    requires a_ordered { BranchUpTo (exact_branch a.low.now) (exact_branch a.high.now) }
    requires b_ordered { BranchUpTo (exact_branch b.low.now) (exact_branch b.high.now) }
    requires c_ordered { BranchUpTo (exact_branch c.low.now) (exact_branch c.high.now) }
    ensures { option_map (rectangle_of E.ends) result
        ≡ with_rows E.SCALE node bench.now (drop_ends E.ends drops) (rectangle_of E.ends sum) (exact_branch a.entry.low.now) (exact_branch b.entry.low.now) (exact_branch c.entry.low.now) (exact_branch a.entry.high.now) (exact_branch b.entry.high.now) (exact_branch c.entry.high.now) }
{
    let one = with_row(sum, node, bench, drops, 0, a)?;
    let two = with_row(one, node, bench, drops, 1, b)?;
    with_row(two, node, bench, drops, 2, c)
}

// Whether a group is of the owner and has a tap at the node.
fn is_group_at(owner: u32, node: u32, a: BranchPair, b: BranchPair, c: BranchPair) -> bool
    ensures { result ≡ is_group_at owner node (exact_branch a.entry.low.now) (exact_branch b.entry.low.now) (exact_branch c.entry.low.now) }
{
    a.low.owner == owner
        && (is_at(a.low.taps.as_slice(), node)
            || is_at(b.low.taps.as_slice(), node)
            || is_at(c.low.taps.as_slice(), node))
}

/// The sum with what leaves the node into the group of the branches a, b and c, where that is of the owner and has a tap there. The
/// values are those of a, which the others share. None where a step has no value.
pub fn with_group<E: Enclosure>(
    sum: Rect<E>,
    ordering: &[u32],
    volts: &Column<E>,
    order: E,
    owner: u32,
    node: u32,
    a: BranchPair,
    b: BranchPair,
    c: BranchPair,
    bench: &mut GroupBench<E>,
) -> Option<Rect<E>>
    requires few { length ordering.now ≤ MAX_SIZE }
    requires size { length volts.now ≡ length ordering.now }
    requires a_ordered { BranchUpTo (exact_branch a.low.now) (exact_branch a.high.now) }
    requires b_ordered { BranchUpTo (exact_branch b.low.now) (exact_branch b.high.now) }
    requires c_ordered { BranchUpTo (exact_branch c.low.now) (exact_branch c.high.now) }
    ensures { option_map (rectangle_of E.ends) result
        ≡ with_group E.SCALE (E.ends order) ordering.now volts.now owner node (rectangle_of E.ends sum) (exact_branch a.entry.low.now) (exact_branch b.entry.low.now) (exact_branch c.entry.low.now) (exact_branch a.entry.high.now) (exact_branch b.entry.high.now) (exact_branch c.entry.high.now) }
{
    if !is_group_at(owner, node, a, b, c) {
        return Some(sum);
    }
    let values = CouplingIntervals::between(a.low.law, a.high.law)?;
    bench.solve(&values, order)?;
    let drops = group_drops(ordering, volts, a, b, c)?;
    with_rows(sum, node, bench, drops, a, b, c)
}
