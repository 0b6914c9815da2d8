// The branches of live nodes of a pair of networks.
ghost use Rattle.std.specs.Prelude.{◌≡◌, ◌≤◌, ◌++◌, IfOk, length, map};
ghost use Rattle.std.specs.List.{AllZip};
ghost use Rattle.std.specs.Option.{option_map};
ghost use Rattle.network_theory.specs.Between.{BranchUpTo};
ghost use Rattle.net_branch.specs.Exact.{exact_branch, exact_law};
ghost use Rattle.admittance_box.specs.Addends.{place_in_group};
ghost use Rattle.branchwise_test.specs.Drops.{live_branch, first_group, first_live, live_branches};
ghost use Rattle.branchwise_live.specs.Live.{live_ends, with_live};
ghost use Rattle.plain_elimination.specs.declared.limits.TheConstants.{MAX_SIZE};

use crate::group::{BranchPair, push_group};
use admittance_box::{LawIntervals, PlacedTap, TapProduct, any_place, placed_taps, products};
use complex_interval::Enclosure;
use net_branch::{Branch, Law};
use std::alloc::{AllocError, Global};

/// A branch of live nodes: the intervals of its law, its taps by the places of their nodes, and the pairs of its taps with the
/// products of their ratios.
#[derive(Drop)]
pub struct LiveBranchIntervals<E> {
    pub law: LawIntervals<E>,
    pub taps: Vec<PlacedTap<E>>,
    pub pairs: Vec<TapProduct<E>>,
}

// A branch of live nodes, from `low` to `high`. None where a number, or a product of ratios, has no interval.
fn live_branch<E: Enclosure>(
    alloc: Global,
    ordering: &[u32],
    low: &Branch,
    high: &Branch,
) -> Result<Option<LiveBranchIntervals<E>>, AllocError>
    requires few { length ordering.now ≤ MAX_SIZE }
    requires ordered { BranchUpTo (exact_branch low.now) (exact_branch high.now) }
    ensures { IfOk result (λ o. option_map (live_ends E.ends) o ≡ live_branch E.SCALE ordering.now (exact_branch low.now) (exact_branch high.now)) }
{
    let Some(law) = LawIntervals::between(low.law, high.law) else {
        return Ok(None);
    };
    let low_taps = low.taps.as_slice();
    let Some(taps) = placed_taps(alloc, ordering, low_taps, high.taps.as_slice())? else {
        return Ok(None);
    };
    let Some(pairs) = products(alloc, taps.as_slice())? else {
        return Ok(None);
    };
    Ok(Some(LiveBranchIntervals { law, taps, pairs }))
}

// Adds a branch of its own to those before, if its nodes are live. None where it has no intervals.
fn push_alone<E: Enclosure>(
    alloc: Global,
    branches: &mut Vec<LiveBranchIntervals<E>>,
    ordering: &[u32],
    low: &Branch,
    high: &Branch,
) -> Result<Option<()>, AllocError>
    requires few { length ordering.now ≤ MAX_SIZE }
    requires ordered { BranchUpTo (exact_branch low.now) (exact_branch high.now) }
    ensures { IfOk result (λ o. option_map (λ _. map (live_ends E.ends) branches.new.items) o
        ≡ with_live E.SCALE ordering.now (exact_branch low.now) (exact_branch high.now) (map (live_ends E.ends) branches.old.items)) }
{
    if !any_place(ordering, low.taps.as_slice()) {
        return Ok(Some(()));
    }
    match live_branch(alloc, ordering, low, high)? {
        Some(branch) => {
            branches.push(branch)?;
            Ok(Some(()))
        }
        None => Ok(None),
    }
}

// Adds those of the group of the branches a and the next two. Less than three branches are no group.
fn push_first_group<E: Enclosure>(
    alloc: Global,
    branches: &mut Vec<LiveBranchIntervals<E>>,
    ordering: &[u32],
    a: BranchPair,
    low: &[Branch],
    high: &[Branch],
) -> Result<Option<()>, AllocError>
    requires few { length ordering.now ≤ MAX_SIZE }
    requires a_ordered { BranchUpTo (exact_branch a.low.now) (exact_branch a.high.now) }
    requires ordered { AllZip BranchUpTo (map exact_branch low.now) (map exact_branch high.now) }
    ensures { IfOk result (λ o. option_map (λ _. map (live_ends E.ends) branches.new.items) o
        ≡ option_map (λ more. map (live_ends E.ends) branches.old.items ++ more)
        (first_group E.SCALE ordering.now (exact_branch a.entry.low.now) (map exact_branch low.now) (exact_branch a.entry.high.now) (map exact_branch high.now))) }
{
    let [low_b, low_c, ..] = low else {
        return Ok(None);
    };
    let [high_b, high_c, ..] = high else {
        return Ok(None);
    };
    let b = BranchPair {
        low: low_b,
        high: high_b,
    };
    let c = BranchPair {
        low: low_c,
        high: high_c,
    };
    push_group(alloc, branches, ordering, a, b, c)
}

// The place of a branch in its group, if it belongs to one.
fn place_in_group(law: Law) -> Option<u8>
    ensures { result ≡ place_in_group (exact_law law) }
{
    match law {
        Law::Coupled3 { place, .. } => Some(place),
        _ => None,
    }
}

// Adds those of a branch, with the branches after it: a group goes as one, at its first branch.
fn push_first<E: Enclosure>(
    alloc: Global,
    branches: &mut Vec<LiveBranchIntervals<E>>,
    ordering: &[u32],
    a: BranchPair,
    low: &[Branch],
    high: &[Branch],
) -> Result<Option<()>, AllocError>
    requires few { length ordering.now ≤ MAX_SIZE }
    requires a_ordered { BranchUpTo (exact_branch a.low.now) (exact_branch a.high.now) }
    requires ordered { AllZip BranchUpTo (map exact_branch low.now) (map exact_branch high.now) }
    ensures { IfOk result (λ o. option_map (λ _. map (live_ends E.ends) branches.new.items) o
        ≡ option_map (λ more. map (live_ends E.ends) branches.old.items ++ more)
        (first_live E.SCALE ordering.now (place_in_group (exact_law a.entry.low.now.law)) (exact_branch a.entry.low.now) (map exact_branch low.now) (exact_branch a.entry.high.now) (map exact_branch high.now))) }
{
    match place_in_group(a.low.law) {
        None => push_alone(alloc, branches, ordering, a.low, a.high),
        Some(0) => push_first_group(alloc, branches, ordering, a, low, high),
        Some(_) => Ok(Some(())),
    }
}

/// Adds the branches of live nodes, from those of `low` to those of `high`, to those before. None where one has no intervals, and where a
/// group has live nodes and isn't even.
pub fn push_live_branches<E: Enclosure>(
    alloc: Global,
    branches: &mut Vec<LiveBranchIntervals<E>>,
    ordering: &[u32],
    low: &[Branch],
    high: &[Branch],
) -> Result<Option<()>, AllocError>
    requires few { length ordering.now ≤ MAX_SIZE }
    requires ordered { AllZip BranchUpTo (map exact_branch low.now) (map exact_branch high.now) }
    ensures { IfOk result (λ o. option_map (λ _. map (live_ends E.ends) branches.new.items) o
        ≡ option_map (λ more. map (live_ends E.ends) branches.old.items ++ more)
        (live_branches E.SCALE ordering.now (map exact_branch low.now) (map exact_branch high.now))) }
{
    match low {
        [] => Ok(Some(())),
        [first_low, rest_low @ ..] => match high {
            [] => Ok(Some(())),
            [first_high, rest_high @ ..] => {
                let first = BranchPair {
                    low: first_low,
                    high: first_high,
                };
                if push_first(alloc, branches, ordering, first, rest_low, rest_high)?.is_none() {
                    return Ok(None);
                }
                push_live_branches(alloc, branches, ordering, rest_low, rest_high)
            }
        },
    }
}
