// The taps of a branch, with their places in the node ordering and the products of their ratios.
ghost use Rattle.std.specs.Prelude.{◌≡◌, ◌+◌, ◌<◌, ◌≤◌, ◌++◌, IfOk, length, map};
ghost use Rattle.std.specs.List.{AllZip};
ghost use Rattle.std.specs.Option.{option_map};
ghost use Rattle.network_theory.specs.Between.{TapUpTo};
ghost use Rattle.net_branch.specs.Exact.{exact_tap};
ghost use Rattle.admittance_box.specs.Addends.{tap_between, taps_between, pair_between, pairs_with, tap_pairs, has_place};
ghost use Rattle.admittance_box.specs.Intervals.{placed_ends, pair_ends};
ghost use Rattle.admittance_box.specs.Places.{place_of};
ghost use Rattle.plain_elimination.specs.declared.limits.TheConstants.{MAX_SIZE};

use crate::intervals::{PlacedTap, TapProduct};
use complex_interval::Enclosure;
use net_branch::Tap;
use std::alloc::{AllocError, Global};

/// The place of a node in the ordering, if it has one.
pub fn find_place(ordering: &[u32], node: u32) -> Option<u32>
    requires { length ordering.now ≤ MAX_SIZE }
    ensures { result ≡ place_of ordering.now node }
{
    for (i, other) in ordering.iter().enumerate() {
        if *other == node {
            return Some(i as u32);
        }
    }
    None
}

/// Whether the node of some tap has a place.
pub fn any_place(ordering: &[u32], taps: &[Tap]) -> bool
    requires { length ordering.now ≤ MAX_SIZE }
    ensures { result ≡ has_place ordering.now (map exact_tap taps.now) }
{
    for tap in taps {
        if find_place(ordering, tap.node.number).is_some() {
            return true;
        }
    }
    false
}

/// A tap from `low` to `high`. None where its node has no place or its ratio no interval.
pub fn placed_tap<E: Enclosure>(ordering: &[u32], low: Tap, high: Tap) -> Option<PlacedTap<E>>
    requires few { length ordering.now ≤ MAX_SIZE }
    requires ordered { TapUpTo (exact_tap low) (exact_tap high) }
    ensures { option_map (placed_ends E.ends) result ≡ tap_between E.SCALE ordering.now (exact_tap low) (exact_tap high) }
{
    let place = find_place(ordering, low.node.number)?;
    let ratio = E::from_range(low.ratio, high.ratio)?;
    Some(PlacedTap { place, ratio })
}

/// The taps of a branch from `low` to `high`. None where one has no place or no interval.
pub fn placed_taps<E: Enclosure>(
    alloc: Global,
    ordering: &[u32],
    low: &[Tap],
    high: &[Tap],
) -> Result<Option<Vec<PlacedTap<E>>>, AllocError>
    requires few { length ordering.now ≤ MAX_SIZE }
    requires ordered { AllZip TapUpTo (map exact_tap low.now) (map exact_tap high.now) }
    ensures { IfOk result (λ o. option_map (λ taps. map (placed_ends E.ends) taps.items) o
        ≡ taps_between E.SCALE ordering.now (map exact_tap low.now) (map exact_tap high.now)) }
{
    let mut taps = Vec::new(alloc);
    for i in 0..low.len() {
        let Some(tap) = placed_tap(ordering, low[i], high[i]) else {
            return Ok(None);
        };
        taps.push(tap)?;
    }
    Ok(Some(taps))
}

// The pair of two taps. None where the product of their ratios has no value.
fn product<E: Enclosure>(tap: PlacedTap<E>, other: PlacedTap<E>) -> Option<TapProduct<E>>
    ensures { option_map (pair_ends E.ends) result ≡ pair_between E.SCALE (placed_ends E.ends tap) (placed_ends E.ends other) }
{
    Some(TapProduct {
        row: tap.place,
        column: other.place,
        factor: tap.ratio.mul(other.ratio)?,
    })
}

// Adds the pairs of a tap with each of `taps`. None where a product of ratios has no value.
fn push_pairs<E: Enclosure>(
    pairs: &mut Vec<TapProduct<E>>,
    tap: PlacedTap<E>,
    taps: &[PlacedTap<E>],
) -> Result<Option<()>, AllocError>
    ensures { IfOk result (λ o. option_map (λ _. map (pair_ends E.ends) pairs.new.items) o
        ≡ option_map (λ more. map (pair_ends E.ends) pairs.old.items ++ more)
        (pairs_with E.SCALE (placed_ends E.ends tap) (map (placed_ends E.ends) taps.now))) }
{
    for other in taps {
        let Some(pair) = product(tap, *other) else {
            return Ok(None);
        };
        pairs.push(pair)?;
    }
    Ok(Some(()))
}

/// The pairs of each of these taps with each of the others in order, rows first. None where a product of
/// ratios has no value.
pub fn products_with<E: Enclosure>(
    alloc: Global,
    taps: &[PlacedTap<E>],
    others: &[PlacedTap<E>],
) -> Result<Option<Vec<TapProduct<E>>>, AllocError>
    ensures { IfOk result (λ o. option_map (λ pairs. map (pair_ends E.ends) pairs.items) o
        ≡ tap_pairs E.SCALE (map (placed_ends E.ends) taps.now) (map (placed_ends E.ends) others.now)) }
{
    let mut pairs = Vec::new(alloc);
    for tap in taps {
        if push_pairs(&mut pairs, *tap, others)?.is_none() {
            return Ok(None);
        }
    }
    Ok(Some(pairs))
}

/// The pairs of a branch's taps in order, rows first. None where a product of ratios has no value.
pub fn products<E: Enclosure>(
    alloc: Global,
    taps: &[PlacedTap<E>],
) -> Result<Option<Vec<TapProduct<E>>>, AllocError>
    ensures { IfOk result (λ o. option_map (λ pairs. map (pair_ends E.ends) pairs.items) o
        ≡ tap_pairs E.SCALE (map (placed_ends E.ends) taps.now) (map (placed_ends E.ends) taps.now)) }
{
    products_with(alloc, taps, taps)
}
