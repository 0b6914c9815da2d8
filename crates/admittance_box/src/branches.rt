// What each branch of a pair of networks adds to a matrix.
ghost use Rattle.std.specs.Prelude.{◌≡◌, ◌≤◌, IfOk, drop, length, map};
ghost use Rattle.std.specs.List.{AllZip};
ghost use Rattle.network_theory.specs.Between.{BranchUpTo};
ghost use Rattle.net_branch.specs.Exact.{exact_branch, exact_law};
ghost use Rattle.admittance_box.specs.Addends.{addend_between, place_in_group, first_group, first_addend, addends_between};
ghost use Rattle.admittance_box.specs.Intervals.{addend_of};
ghost use Rattle.plain_elimination.specs.declared.limits.TheConstants.{MAX_SIZE};

use crate::group_taps::{BranchPair, group_between};
use crate::intervals::{BranchIntervals, LawIntervals};
use crate::taps::{any_place, placed_taps, products};
use complex_interval::Enclosure;
use net_branch::{Branch, Law};
use std::alloc::{AllocError, Global};

// What a branch of its own adds, from `low` to `high`.
fn branch_between<E: Enclosure>(
    alloc: Global,
    ordering: &[u32],
    low: &Branch,
    high: &Branch,
) -> Result<BranchIntervals<E>, AllocError>
    requires few { length ordering.now ≤ MAX_SIZE }
    requires ordered { BranchUpTo (exact_branch low.now) (exact_branch high.now) }
    ensures { IfOk result (λ b. addend_of E.ends b ≡ addend_between E.SCALE ordering.now (exact_branch low.now) (exact_branch high.now)) }
{
    let low_taps = low.taps.as_slice();
    if !any_place(ordering, low_taps) {
        return Ok(BranchIntervals::Dead);
    }
    let Some(law) = LawIntervals::between(low.law, high.law) else {
        return Ok(BranchIntervals::Absent);
    };
    let Some(taps) = placed_taps(alloc, ordering, low_taps, high.taps.as_slice())? else {
        return Ok(BranchIntervals::Absent);
    };
    let Some(pairs) = products(alloc, taps.as_slice())? else {
        return Ok(BranchIntervals::Absent);
    };
    Ok(BranchIntervals::Joined(law, pairs))
}

/// The branches from this place on.
pub fn branches_from(branches: &[Branch], from: usize) -> &[Branch]
    requires { from ≤ length branches.now }
    ensures { result.now ≡ drop from branches.now }
{
    &branches[from..]
}

/// The place of a branch in its group, if it belongs to one.
pub fn place_in_group(law: Law) -> Option<u8>
    ensures { result ≡ place_in_group (exact_law law) }
{
    match law {
        Law::Coupled3 { place, .. } => Some(place),
        _ => None,
    }
}

// What the group of the branches a and the next two adds. Less than three branches are no group.
fn first_group<E: Enclosure>(
    alloc: Global,
    ordering: &[u32],
    a: BranchPair,
    low: &[Branch],
    high: &[Branch],
) -> Result<BranchIntervals<E>, AllocError>
    requires few { length ordering.now ≤ MAX_SIZE }
    requires a_ordered { BranchUpTo (exact_branch a.low.now) (exact_branch a.high.now) }
    requires ordered { AllZip BranchUpTo (map exact_branch low.now) (map exact_branch high.now) }
    ensures { IfOk result (λ x. addend_of E.ends x ≡ first_group E.SCALE ordering.now (exact_branch a.entry.low.now) (map exact_branch low.now) (exact_branch a.entry.high.now) (map exact_branch high.now)) }
{
    let [low_b, low_c, ..] = low else {
        return Ok(BranchIntervals::Absent);
    };
    let [high_b, high_c, ..] = high else {
        return Ok(BranchIntervals::Absent);
    };
    let b = BranchPair {
        low: low_b,
        high: high_b,
    };
    let c = BranchPair {
        low: low_c,
        high: high_c,
    };
    group_between(alloc, ordering, a, b, c)
}

// What a branch adds, with the branches after it: a group goes as one, at its first branch.
fn first_addend<E: Enclosure>(
    alloc: Global,
    ordering: &[u32],
    a: BranchPair,
    low: &[Branch],
    high: &[Branch],
) -> Result<BranchIntervals<E>, AllocError>
    requires few { length ordering.now ≤ MAX_SIZE }
    requires a_ordered { BranchUpTo (exact_branch a.low.now) (exact_branch a.high.now) }
    requires ordered { AllZip BranchUpTo (map exact_branch low.now) (map exact_branch high.now) }
    ensures { IfOk result (λ x. addend_of E.ends x
        ≡ first_addend E.SCALE ordering.now (place_in_group (exact_law a.entry.low.now.law)) (exact_branch a.entry.low.now) (map exact_branch low.now) (exact_branch a.entry.high.now) (map exact_branch high.now)) }
{
    match place_in_group(a.low.law) {
        None => branch_between(alloc, ordering, a.low, a.high),
        Some(0) => first_group(alloc, ordering, a, low, high),
        Some(_) => Ok(BranchIntervals::Dead),
    }
}

/// What each branch adds, from those of `low` to those of `high`.
pub fn branches_between<E: Enclosure>(
    alloc: Global,
    ordering: &[u32],
    low: &[Branch],
    high: &[Branch],
) -> Result<Vec<BranchIntervals<E>>, AllocError>
    requires few { length ordering.now ≤ MAX_SIZE }
    requires ordered { AllZip BranchUpTo (map exact_branch low.now) (map exact_branch high.now) }
    ensures { IfOk result (λ branches. map (addend_of E.ends) branches.items
        ≡ addends_between E.SCALE ordering.now (map exact_branch low.now) (map exact_branch high.now)) }
{
    let mut branches = Vec::new(alloc);
    for i in 0..low.len() {
        let a = BranchPair {
            low: &low[i],
            high: &high[i],
        };
        let branch = first_addend(
            alloc,
            ordering,
            a,
            branches_from(low, i + 1),
            branches_from(high, i + 1),
        )?;
        branches.push(branch)?;
    }
    Ok(branches)
}
