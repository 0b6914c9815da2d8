// The terminal current of an element at a node: what leaves it into the element's branches.
ghost use Rattle.std.specs.Prelude.{◌≡◌, ◌≤◌, length, map};
ghost use Rattle.std.specs.List.{AllZip};
ghost use Rattle.std.specs.Option.{option_map};
ghost use Rattle.complex_interval.specs.Rect.{rectangle_of};
ghost use Rattle.network_theory.specs.Between.{BranchUpTo};
ghost use Rattle.net_branch.specs.Exact.{exact_branch, exact_law};
ghost use Rattle.admittance_box.specs.Addends.{place_in_group};
ghost use Rattle.admittance_box.specs.Current.{with_first_group, with_first, with_all};
ghost use Rattle.plain_elimination.specs.Matrix.{nought_rectangle};
ghost use Rattle.plain_elimination.specs.declared.limits.TheConstants.{MAX_SIZE};

use crate::branches::{branches_from, place_in_group};
use crate::current::{with_branch, zero_rectangle};
use crate::group_bench::GroupBench;
use crate::group_current::with_group;
use crate::group_taps::BranchPair;
use complex_interval::{Enclosure, Rect};
use net_branch::Branch;
use plain_elimination::Column;

// The sum with what leaves the node into the group of a branch and the next two. None where a step has no value, and where there are
// less than two.
fn with_first_group<E: Enclosure>(
    sum: Rect<E>,
    ordering: &[u32],
    volts: &Column<E>,
    order: E,
    owner: u32,
    node: u32,
    a: BranchPair,
    low: &[Branch],
    high: &[Branch],
    bench: &mut GroupBench<E>,
) -> Option<Rect<E>>
    requires few { length ordering.now ≤ MAX_SIZE }
    requires size { length volts.now ≡ length ordering.now }
    requires a_ordered { BranchUpTo (exact_branch a.low.now) (exact_branch a.high.now) }
    requires ordered { AllZip BranchUpTo (map exact_branch low.now) (map exact_branch high.now) }
    ensures { option_map (rectangle_of E.ends) result
        ≡ with_first_group E.SCALE (E.ends order) ordering.now volts.now owner node (rectangle_of E.ends sum) (exact_branch a.entry.low.now) (map exact_branch low.now) (exact_branch a.entry.high.now) (map exact_branch high.now) }
{
    let [low_b, low_c, ..] = low else {
        return None;
    };
    let [high_b, high_c, ..] = high else {
        return None;
    };
    let b = BranchPair {
        low: low_b,
        high: high_b,
    };
    let c = BranchPair {
        low: low_c,
        high: high_c,
    };
    with_group(sum, ordering, volts, order, owner, node, a, b, c, bench)
}

// The sum with what leaves the node into a branch, with the branches after it: a group goes as one, at its first branch. None where a
// step has no value.
fn with_first<E: Enclosure>(
    sum: Rect<E>,
    ordering: &[u32],
    volts: &Column<E>,
    order: E,
    owner: u32,
    node: u32,
    a: BranchPair,
    low: &[Branch],
    high: &[Branch],
    bench: &mut GroupBench<E>,
) -> Option<Rect<E>>
    requires few { length ordering.now ≤ MAX_SIZE }
    requires size { length volts.now ≡ length ordering.now }
    requires a_ordered { BranchUpTo (exact_branch a.low.now) (exact_branch a.high.now) }
    requires ordered { AllZip BranchUpTo (map exact_branch low.now) (map exact_branch high.now) }
    ensures { option_map (rectangle_of E.ends) result
        ≡ with_first E.SCALE (E.ends order) ordering.now volts.now owner node (place_in_group (exact_law a.entry.low.now.law)) (rectangle_of E.ends sum) (exact_branch a.entry.low.now) (map exact_branch low.now) (exact_branch a.entry.high.now) (map exact_branch high.now) }
{
    match place_in_group(a.low.law) {
        None => with_branch(sum, ordering, volts, order, owner, node, a.low, a.high),
        Some(0) => {
            with_first_group(
                sum, ordering, volts, order, owner, node, a, low, high, bench,
            )
        }
        Some(_) => Some(sum),
    }
}

/// The sum of what leaves the node into the branches of the owner, at voltages of the nodes in their ordering, over the orders of
/// `order`. Groups are solved on the bench. None where a step has no value.
pub fn sum_of_branches<E: Enclosure>(
    ordering: &[u32],
    volts: &Column<E>,
    order: E,
    owner: u32,
    node: u32,
    low: &[Branch],
    high: &[Branch],
    bench: &mut GroupBench<E>,
) -> Option<Rect<E>>
    requires few { length ordering.now ≤ MAX_SIZE }
    requires size { length volts.now ≡ length ordering.now }
    requires ordered { AllZip BranchUpTo (map exact_branch low.now) (map exact_branch high.now) }
    ensures { option_map (rectangle_of E.ends) result
        ≡ with_all E.SCALE (E.ends order) ordering.now volts.now owner node nought_rectangle (map exact_branch low.now) (map exact_branch high.now) }
{
    let mut sum = zero_rectangle();
    for i in 0..low.len() {
        let a = BranchPair {
            low: &low[i],
            high: &high[i],
        };
        let next = with_first(
            sum,
            ordering,
            volts,
            order,
            owner,
            node,
            a,
            branches_from(low, i + 1),
            branches_from(high, i + 1),
            bench,
        )?;
        sum = next;
    }
    Some(sum)
}
