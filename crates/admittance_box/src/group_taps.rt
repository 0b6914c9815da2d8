// What a group of three coupled branches adds to a matrix.
ghost use Rattle.std.specs.Prelude.{◌≡◌, ◌≤◌, IfOk, length, map};
ghost use Rattle.std.specs.Option.{option_map};
ghost use Rattle.network_theory.specs.Between.{BranchUpTo};
ghost use Rattle.net_branch.specs.Exact.{exact_branch};
ghost use Rattle.admittance_box.specs.Addends.{live_taps, pair_row, pair_rows, group_pairs, group_between};
ghost use Rattle.admittance_box.specs.Intervals.{placed_ends, row_ends, rows_ends, addend_of};
ghost use Rattle.plain_elimination.specs.declared.limits.TheConstants.{MAX_SIZE};

use crate::coupling::CouplingIntervals;
use crate::intervals::{BranchIntervals, PlacedTap, TapProduct};
use crate::taps::{any_place, placed_taps, products_with};
use complex_interval::Enclosure;
use net_branch::Branch;
use std::alloc::{AllocError, Global};

/// The pairs of one branch's taps with those of each branch of its group.
#[derive(Drop)]
pub struct RowProducts<E> {
    pub first: Vec<TapProduct<E>>,
    pub second: Vec<TapProduct<E>>,
    pub third: Vec<TapProduct<E>>,
}

/// So for each branch of a group.
#[derive(Drop)]
pub struct GroupProducts<E> {
    pub first: RowProducts<E>,
    pub second: RowProducts<E>,
    pub third: RowProducts<E>,
}

/// A group by the intervals of its values and the pairs of taps of each two of its branches.
#[derive(Drop)]
pub struct GroupIntervals<E> {
    pub values: CouplingIntervals<E>,
    pub products: GroupProducts<E>,
}

/// A branch of the one network and its partner of the other.
#[derive(Clone, Copy)]
pub struct BranchPair<'a> {
    pub low: &'a Branch,
    pub high: &'a Branch,
}

// The taps of a branch of a group: none where its nodes are dead. No value where one has no interval.
fn live_taps<E: Enclosure>(
    alloc: Global,
    ordering: &[u32],
    low: &Branch,
    high: &Branch,
) -> Result<Option<Vec<PlacedTap<E>>>, AllocError>
    requires few { length ordering.now ≤ MAX_SIZE }
    requires ordered { BranchUpTo (exact_branch low.now) (exact_branch high.now) }
    ensures { IfOk result (λ o. option_map (λ taps. map (placed_ends E.ends) taps.items) o ≡ live_taps E.SCALE ordering.now (exact_branch low.now) (exact_branch high.now)) }
{
    let low_taps = low.taps.as_slice();
    if !any_place(ordering, low_taps) {
        return Ok(Some(Vec::new(alloc)));
    }
    placed_taps(alloc, ordering, low_taps, high.taps.as_slice())
}

// The pairs of these taps with those of each branch of the group. None where a product of ratios has no
// value.
fn row_products<E: Enclosure>(
    alloc: Global,
    taps: &[PlacedTap<E>],
    first: &[PlacedTap<E>],
    second: &[PlacedTap<E>],
    third: &[PlacedTap<E>],
) -> Result<Option<RowProducts<E>>, AllocError>
    ensures { IfOk result (λ o. option_map (row_ends E.ends) o
        ≡ pair_row E.SCALE (map (placed_ends E.ends) taps.now) (map (placed_ends E.ends) first.now) (map (placed_ends E.ends) second.now) (map (placed_ends E.ends) third.now)) }
{
    let Some(first) = products_with(alloc, taps, first)? else {
        return Ok(None);
    };
    let Some(second) = products_with(alloc, taps, second)? else {
        return Ok(None);
    };
    let Some(third) = products_with(alloc, taps, third)? else {
        return Ok(None);
    };
    Ok(Some(RowProducts {
        first,
        second,
        third,
    }))
}

// The pairs of taps of each two branches of a group. None where a product of ratios has no value.
fn group_products<E: Enclosure>(
    alloc: Global,
    first: &[PlacedTap<E>],
    second: &[PlacedTap<E>],
    third: &[PlacedTap<E>],
) -> Result<Option<GroupProducts<E>>, AllocError>
    ensures { IfOk result (λ o. option_map (rows_ends E.ends) o
        ≡ pair_rows E.SCALE (map (placed_ends E.ends) first.now) (map (placed_ends E.ends) second.now) (map (placed_ends E.ends) third.now)) }
{
    let Some(first_row) = row_products(alloc, first, first, second, third)? else {
        return Ok(None);
    };
    let Some(second_row) = row_products(alloc, second, first, second, third)? else {
        return Ok(None);
    };
    let Some(third_row) = row_products(alloc, third, first, second, third)? else {
        return Ok(None);
    };
    Ok(Some(GroupProducts {
        first: first_row,
        second: second_row,
        third: third_row,
    }))
}

// So by the taps of three branches. None where a tap has no interval, or a product of ratios no value.
fn products_of_group<E: Enclosure>(
    alloc: Global,
    ordering: &[u32],
    a: BranchPair,
    b: BranchPair,
    c: BranchPair,
) -> Result<Option<GroupProducts<E>>, AllocError>
    requires few { length ordering.now ≤ MAX_SIZE }
    requires a_ordered { BranchUpTo (exact_branch a.low.now) (exact_branch a.high.now) }
    requires b_ordered { BranchUpTo (exact_branch b.low.now) (exact_branch b.high.now) }
    requires c_ordered { BranchUpTo (exact_branch c.low.now) (exact_branch c.high.now) }
    ensures { IfOk result (λ o. option_map (rows_ends E.ends) o
        ≡ group_pairs E.SCALE ordering.now (exact_branch a.entry.low.now) (exact_branch b.entry.low.now) (exact_branch c.entry.low.now) (exact_branch a.entry.high.now) (exact_branch b.entry.high.now) (exact_branch c.entry.high.now)) }
{
    let Some(first) = live_taps(alloc, ordering, a.low, a.high)? else {
        return Ok(None);
    };
    let Some(second) = live_taps(alloc, ordering, b.low, b.high)? else {
        return Ok(None);
    };
    let Some(third) = live_taps(alloc, ordering, c.low, c.high)? else {
        return Ok(None);
    };
    group_products(alloc, first.as_slice(), second.as_slice(), third.as_slice())
}

/// What a group adds, of the three branches a, b and c: nothing where all its nodes are dead. The values
/// are those of a, which the others share.
pub fn group_between<E: Enclosure>(
    alloc: Global,
    ordering: &[u32],
    a: BranchPair,
    b: BranchPair,
    c: BranchPair,
) -> Result<BranchIntervals<E>, AllocError>
    requires few { length ordering.now ≤ MAX_SIZE }
    requires a_ordered { BranchUpTo (exact_branch a.low.now) (exact_branch a.high.now) }
    requires b_ordered { BranchUpTo (exact_branch b.low.now) (exact_branch b.high.now) }
    requires c_ordered { BranchUpTo (exact_branch c.low.now) (exact_branch c.high.now) }
    ensures { IfOk result (λ x. addend_of E.ends x
        ≡ group_between E.SCALE ordering.now (exact_branch a.entry.low.now) (exact_branch b.entry.low.now) (exact_branch c.entry.low.now) (exact_branch a.entry.high.now) (exact_branch b.entry.high.now) (exact_branch c.entry.high.now)) }
{
    let live = any_place(ordering, a.low.taps.as_slice())
        || any_place(ordering, b.low.taps.as_slice())
        || any_place(ordering, c.low.taps.as_slice());
    if !live {
        return Ok(BranchIntervals::Dead);
    }
    let Some(values) = CouplingIntervals::between(a.low.law, a.high.law) else {
        return Ok(BranchIntervals::Absent);
    };
    let Some(products) = products_of_group(alloc, ordering, a, b, c)? else {
        return Ok(BranchIntervals::Absent);
    };
    let group = Box::new(alloc, GroupIntervals { values, products })?;
    Ok(BranchIntervals::Grouped(group))
}
