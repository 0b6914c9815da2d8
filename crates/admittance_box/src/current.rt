// The current of a branch from the voltages of the nodes, and what leaves a node into it.
ghost use Rattle.std.specs.Prelude.{◌≡◌, ◌≤◌, ◌==◌, ◌&&◌, length, map};
ghost use Rattle.std.specs.List.{AllZip};
ghost use Rattle.std.specs.Option.{option_map};
ghost use Rattle.complex_interval.specs.Rect.{rectangle_of};
ghost use Rattle.network_theory.specs.Between.{TapUpTo, BranchUpTo};
ghost use Rattle.net_branch.specs.Exact.{exact_branch, exact_tap};
ghost use Rattle.admittance_box.specs.Current.{fold_pairs, tap_voltage, with_tap_voltage, drop_between, branch_current, with_tap_current, is_at, with_branch};
ghost use Rattle.plain_elimination.specs.Matrix.{nought_rectangle};
ghost use Rattle.plain_elimination.specs.declared.limits.TheConstants.{MAX_SIZE};

use crate::exact::exact_zero;
use crate::intervals::LawIntervals;
use crate::taps::placed_tap;
use complex_interval::{Enclosure, Rect};
use net_branch::{Branch, Tap};
use plain_elimination::Column;

// The ratio of a tap times the voltage of its node. None where a step has no value.
fn tap_voltage<E: Enclosure>(
    ordering: &[u32],
    volts: &Column<E>,
    low: Tap,
    high: Tap,
) -> Option<Rect<E>>
    requires few { length ordering.now ≤ MAX_SIZE }
    requires size { length volts.now ≡ length ordering.now }
    requires ordered { TapUpTo (exact_tap low) (exact_tap high) }
    ensures { option_map (rectangle_of E.ends) result ≡ tap_voltage E.SCALE ordering.now volts.now (exact_tap low) (exact_tap high) }
{
    let tap = placed_tap(ordering, low, high)?;
    volts.get(tap.place).scale(tap.ratio)
}

// A sum with that. None where a step has no value.
fn with_tap_voltage<E: Enclosure>(
    sum: Rect<E>,
    ordering: &[u32],
    volts: &Column<E>,
    low: Tap,
    high: Tap,
) -> Option<Rect<E>>
    requires few { length ordering.now ≤ MAX_SIZE }
    requires size { length volts.now ≡ length ordering.now }
    requires ordered { TapUpTo (exact_tap low) (exact_tap high) }
    ensures { option_map (rectangle_of E.ends) result ≡ with_tap_voltage E.SCALE ordering.now volts.now (rectangle_of E.ends sum) (exact_tap low) (exact_tap high) }
{
    sum.add(tap_voltage(ordering, volts, low, high)?)
}

/// The drop of a branch: the sum over its taps. None where a step has no value.
pub fn drop_of<E: Enclosure>(
    ordering: &[u32],
    volts: &Column<E>,
    low: &[Tap],
    high: &[Tap],
) -> Option<Rect<E>>
    requires few { length ordering.now ≤ MAX_SIZE }
    requires size { length volts.now ≡ length ordering.now }
    requires ordered { AllZip TapUpTo (map exact_tap low.now) (map exact_tap high.now) }
    ensures { option_map (rectangle_of E.ends) result ≡ drop_between E.SCALE ordering.now volts.now (map exact_tap low.now) (map exact_tap high.now) }
{
    let mut sum = zero_rectangle();
    for i in 0..low.len() {
        let next = with_tap_voltage(sum, ordering, volts, low[i], high[i])?;
        sum = next;
    }
    Some(sum)
}

/// The zero that a sum begins with.
pub fn zero_rectangle<E: Enclosure>() -> Rect<E>
    ensures { rectangle_of E.ends result ≡ nought_rectangle }
{
    Rect {
        re: exact_zero(),
        im: exact_zero(),
    }
}

// The current of a branch over the orders of `order`: its admittance times its drop. None where a step has no value.
fn branch_current<E: Enclosure>(
    ordering: &[u32],
    volts: &Column<E>,
    order: E,
    low: &Branch,
    high: &Branch,
) -> Option<Rect<E>>
    requires few { length ordering.now ≤ MAX_SIZE }
    requires size { length volts.now ≡ length ordering.now }
    requires ordered { BranchUpTo (exact_branch low.now) (exact_branch high.now) }
    ensures { option_map (rectangle_of E.ends) result ≡ branch_current E.SCALE (E.ends order) ordering.now volts.now (exact_branch low.now) (exact_branch high.now) }
{
    let law = LawIntervals::between(low.law, high.law)?;
    let y = law.admittance(order)?;
    let drop = drop_of(ordering, volts, low.taps.as_slice(), high.taps.as_slice())?;
    y.mul(drop)
}

// The sum with the ratio of a tap times a current, where the tap is at the node. None where a step has no value.
fn with_tap_current<E: Enclosure>(
    sum: Rect<E>,
    node: u32,
    current: Rect<E>,
    low: Tap,
    high: Tap,
) -> Option<Rect<E>>
    requires { TapUpTo (exact_tap low) (exact_tap high) }
    ensures { option_map (rectangle_of E.ends) result ≡ with_tap_current E.SCALE node (rectangle_of E.ends current) (rectangle_of E.ends sum) (exact_tap low) (exact_tap high) }
{
    if low.node.number == node {
        let ratio = E::from_range(low.ratio, high.ratio)?;
        sum.add(current.scale(ratio)?)
    } else {
        Some(sum)
    }
}

/// The sum with what leaves the node into a branch of this current. None where a step has no value.
pub fn with_leaving<E: Enclosure>(
    sum: Rect<E>,
    node: u32,
    current: Rect<E>,
    low: &[Tap],
    high: &[Tap],
) -> Option<Rect<E>>
    requires { AllZip TapUpTo (map exact_tap low.now) (map exact_tap high.now) }
    ensures { option_map (rectangle_of E.ends) result
        ≡ fold_pairs (with_tap_current E.SCALE node (rectangle_of E.ends current)) (rectangle_of E.ends sum) (map exact_tap low.now) (map exact_tap high.now) }
{
    let mut sum = sum;
    for i in 0..low.len() {
        let next = with_tap_current(sum, node, current, low[i], high[i])?;
        sum = next;
    }
    Some(sum)
}

/// Whether some tap is at the node.
pub fn is_at(taps: &[Tap], node: u32) -> bool
    ensures { result ≡ is_at node (map exact_tap taps.now) }
{
    for tap in taps {
        if tap.node.number == node {
            return true;
        }
    }
    false
}

// Whether a branch is of the owner and has a tap at the node.
fn is_owned_at(branch: &Branch, owner: u32, node: u32) -> bool
    ensures { result ≡ ((exact_branch branch.now).owner == owner && is_at node (exact_branch branch.now).taps) }
{
    branch.owner == owner && is_at(branch.taps.as_slice(), node)
}

/// The sum with what leaves the node into a branch of its own, where that is of the owner and has a tap there. None where a step has no
/// value.
pub fn with_branch<E: Enclosure>(
    sum: Rect<E>,
    ordering: &[u32],
    volts: &Column<E>,
    order: E,
    owner: u32,
    node: u32,
    low: &Branch,
    high: &Branch,
) -> Option<Rect<E>>
    requires few { length ordering.now ≤ MAX_SIZE }
    requires size { length volts.now ≡ length ordering.now }
    requires ordered { BranchUpTo (exact_branch low.now) (exact_branch high.now) }
    ensures { option_map (rectangle_of E.ends) result
        ≡ with_branch E.SCALE (E.ends order) ordering.now volts.now owner node (rectangle_of E.ends sum) (exact_branch low.now) (exact_branch high.now) }
{
    if !is_owned_at(low, owner, node) {
        return Some(sum);
    }
    let current = branch_current(ordering, volts, order, low, high)?;
    with_leaving(
        sum,
        node,
        current,
        low.taps.as_slice(),
        high.taps.as_slice(),
    )
}
