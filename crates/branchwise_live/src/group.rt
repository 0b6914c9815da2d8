// The live branches of a group of three.
ghost use Rattle.std.specs.Prelude.{◌≡◌, ◌≤◌, ◌++◌, ◌||◌, IfOk, length, map};
ghost use Rattle.std.specs.Option.{option_map};
ghost use Rattle.network_theory.specs.Between.{BranchUpTo};
ghost use Rattle.net_branch.specs.Exact.{exact_branch};
ghost use Rattle.admittance_box.specs.Addends.{has_place, live_taps};
ghost use Rattle.admittance_box.specs.Intervals.{placed_ends};
ghost use Rattle.branchwise_test.specs.Drops.{live_group, group_if_live};
ghost use Rattle.branchwise_live.specs.Live.{live_ends};
ghost use Rattle.plain_elimination.specs.declared.limits.TheConstants.{MAX_SIZE};

use crate::even::{even_between, push_four};
use crate::live::LiveBranchIntervals;
use admittance_box::{PlacedTap, any_place, placed_taps};
use complex_interval::Enclosure;
use net_branch::Branch;
use std::alloc::{AllocError, Global};

/// A branch of the one network and its partner of the other.
#[derive(Clone, Copy)]
pub struct BranchPair<'a> {
    pub low: &'a Branch,
    pub high: &'a Branch,
}

// The taps of a branch of a group: none where its nodes are dead. No value where one has no interval.
fn live_taps<E: Enclosure>(
    alloc: Global,
    ordering: &[u32],
    low: &Branch,
    high: &Branch,
) -> Result<Option<Vec<PlacedTap<E>>>, AllocError>
    requires few { length ordering.now ≤ MAX_SIZE }
    requires ordered { BranchUpTo (exact_branch low.now) (exact_branch high.now) }
    ensures { IfOk result (λ o. option_map (λ taps. map (placed_ends E.ends) taps.items) o ≡ live_taps E.SCALE ordering.now (exact_branch low.now) (exact_branch high.now)) }
{
    let low_taps = low.taps.as_slice();
    if !any_place(ordering, low_taps) {
        return Ok(Some(Vec::new(alloc)));
    }
    placed_taps(alloc, ordering, low_taps, high.taps.as_slice())
}

// Adds those of a group with a live node to those before. None where it isn't even, or a number has no interval.
fn push_live_group<E: Enclosure>(
    alloc: Global,
    branches: &mut Vec<LiveBranchIntervals<E>>,
    ordering: &[u32],
    a: BranchPair,
    b: BranchPair,
    c: BranchPair,
) -> Result<Option<()>, AllocError>
    requires few { length ordering.now ≤ MAX_SIZE }
    requires a_ordered { BranchUpTo (exact_branch a.low.now) (exact_branch a.high.now) }
    requires b_ordered { BranchUpTo (exact_branch b.low.now) (exact_branch b.high.now) }
    requires c_ordered { BranchUpTo (exact_branch c.low.now) (exact_branch c.high.now) }
    ensures { IfOk result (λ o. option_map (λ _. map (live_ends E.ends) branches.new.items) o
        ≡ option_map (λ more. map (live_ends E.ends) branches.old.items ++ more)
        (live_group E.SCALE ordering.now (exact_branch a.entry.low.now) (exact_branch b.entry.low.now) (exact_branch c.entry.low.now) (exact_branch a.entry.high.now) (exact_branch b.entry.high.now) (exact_branch c.entry.high.now))) }
{
    let Some(values) = even_between(a.low.law, a.high.law) else {
        return Ok(None);
    };
    let Some(xs) = live_taps(alloc, ordering, a.low, a.high)? else {
        return Ok(None);
    };
    let Some(ys) = live_taps(alloc, ordering, b.low, b.high)? else {
        return Ok(None);
    };
    let Some(zs) = live_taps(alloc, ordering, c.low, c.high)? else {
        return Ok(None);
    };
    push_four(
        alloc,
        branches,
        values,
        xs.as_slice(),
        ys.as_slice(),
        zs.as_slice(),
    )
}

// Whether a group has a live node.
fn is_live(ordering: &[u32], a: BranchPair, b: BranchPair, c: BranchPair) -> bool
    requires few { length ordering.now ≤ MAX_SIZE }
    ensures { result ≡ (has_place ordering.now (exact_branch a.entry.low.now).taps || has_place ordering.now (exact_branch b.entry.low.now).taps || has_place ordering.now (exact_branch c.entry.low.now).taps) }
{
    any_place(ordering, a.low.taps.as_slice())
        || any_place(ordering, b.low.taps.as_slice())
        || any_place(ordering, c.low.taps.as_slice())
}

/// Adds the live branches of a group to those before: none where all its nodes are dead. None where it isn't even, or a number has no
/// interval.
pub fn push_group<E: Enclosure>(
    alloc: Global,
    branches: &mut Vec<LiveBranchIntervals<E>>,
    ordering: &[u32],
    a: BranchPair,
    b: BranchPair,
    c: BranchPair,
) -> Result<Option<()>, AllocError>
    requires few { length ordering.now ≤ MAX_SIZE }
    requires a_ordered { BranchUpTo (exact_branch a.low.now) (exact_branch a.high.now) }
    requires b_ordered { BranchUpTo (exact_branch b.low.now) (exact_branch b.high.now) }
    requires c_ordered { BranchUpTo (exact_branch c.low.now) (exact_branch c.high.now) }
    ensures { IfOk result (λ o. option_map (λ _. map (live_ends E.ends) branches.new.items) o
        ≡ option_map (λ more. map (live_ends E.ends) branches.old.items ++ more)
        (group_if_live E.SCALE ordering.now (exact_branch a.entry.low.now) (exact_branch b.entry.low.now) (exact_branch c.entry.low.now) (exact_branch a.entry.high.now) (exact_branch b.entry.high.now) (exact_branch c.entry.high.now))) }
{
    if !is_live(ordering, a, b, c) {
        return Ok(Some(()));
    }
    push_live_group(alloc, branches, ordering, a, b, c)
}
