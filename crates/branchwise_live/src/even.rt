// A group of three with equal mutual reactances, as four branches.
ghost use Rattle.std.specs.Prelude.{◌≡◌, ◌++◌, ◌∷◌, [], IfOk, map};
ghost use Rattle.std.specs.Option.{option_map};
ghost use Rattle.exact_fraction.specs.Fraction.{ratio_of};
ghost use Rattle.middle_inverse.specs.Lists.{each};
ghost use Rattle.net_branch.specs.Exact.{exact_law};
ghost use Rattle.admittance_box.specs.Addends.{law_between};
ghost use Rattle.admittance_box.specs.Groups.{coupling_of};
ghost use Rattle.admittance_box.specs.Intervals.{law_ends, placed_ends};
ghost use Rattle.branchwise_laws.specs.Pairs.{apart_law, common_law};
ghost use Rattle.branchwise_test.specs.Drops.{is_same, is_even, are_same, even_between, opposed_tap, branch_with, four_branches};
ghost use Rattle.branchwise_live.specs.Live.{live_ends};
ghost use Rattle.branchwise_live.specs.Series.{series_of};

use crate::live::LiveBranchIntervals;
use admittance_box::{
    CouplingValues, LawIntervals, PlacedTap, SeriesParameters, exact_zero, products,
};
use complex_interval::Enclosure;
use exact_fraction::Fraction;
use fraction_sum::sum_interval;
use net_branch::Law;
use std::alloc::{AllocError, Global};

// Whether two fractions are equal in value.
fn is_same(x: Fraction, y: Fraction) -> bool
    ensures { result ≡ is_same (ratio_of x) (ratio_of y) }
{
    let below = x.at_most(y);
    let above = y.at_most(x);
    below && above
}

// Whether the mutual reactances are equal.
fn is_even(c: CouplingValues) -> bool
    ensures { result ≡ is_even (coupling_of c) }
{
    is_same(c.x_bc, c.x_ab) && is_same(c.x_ca, c.x_ab)
}

// Whether each value equals that of the other.
fn are_same(c: CouplingValues, d: CouplingValues) -> bool
    ensures { result ≡ are_same (coupling_of c) (coupling_of d) }
{
    is_same(c.self_r, d.self_r)
        && is_same(c.self_x, d.self_x)
        && is_same(c.mutual_r, d.mutual_r)
        && is_same(c.x_ab, d.x_ab)
        && is_same(c.x_bc, d.x_bc)
        && is_same(c.x_ca, d.x_ca)
        && is_same(c.k, d.k)
        && is_same(c.m, d.m)
}

/// The values of a group, where they are the same in both laws, with equal mutual reactances.
pub fn even_between(low: Law, high: Law) -> Option<CouplingValues>
    ensures { option_map coupling_of result ≡ even_between (exact_law low) (exact_law high) }
{
    match (low, high) {
        (
            Law::Coupled3 {
                place: _,
                self_r,
                self_x,
                mutual_r,
                x_ab,
                x_bc,
                x_ca,
                k,
                m,
            },
            Law::Coupled3 {
                place: _,
                self_r: self_r2,
                self_x: self_x2,
                mutual_r: mutual_r2,
                x_ab: x_ab2,
                x_bc: x_bc2,
                x_ca: x_ca2,
                k: k2,
                m: m2,
            },
        ) => {
            let c = CouplingValues {
                self_r,
                self_x,
                mutual_r,
                x_ab,
                x_bc,
                x_ca,
                k,
                m,
            };
            let d = CouplingValues {
                self_r: self_r2,
                self_x: self_x2,
                mutual_r: mutual_r2,
                x_ab: x_ab2,
                x_bc: x_bc2,
                x_ca: x_ca2,
                k: k2,
                m: m2,
            };
            if is_even(c) && are_same(c, d) {
                Some(c)
            } else {
                None
            }
        }
        _ => None,
    }
}

const ZERO: Fraction = Fraction { num: 0, den: 1 };

// The law of a Series without capacitive reactance. None where a value has no interval.
fn series_of<E: Enclosure>(
    r: Option<E>,
    k: Fraction,
    m: Fraction,
    x: Option<E>,
) -> Option<LawIntervals<E>>
    ensures { option_map (law_ends E.ends) result ≡ series_of E.SCALE (option_map E.ends r) (ratio_of k) (ratio_of m) (option_map E.ends x) }
{
    Some(LawIntervals::Series(SeriesParameters {
        r: r?,
        k: E::from_fraction(k)?,
        m: E::from_fraction(m)?,
        x: x?,
        xc: E::from_fraction(ZERO)?,
        plain: k.num == 0,
    }))
}

// The law of a difference of two phases. None where a value has no interval.
fn apart_law<E: Enclosure>(c: CouplingValues) -> Option<LawIntervals<E>>
    ensures { option_map (law_ends E.ends) result ≡ law_between E.SCALE (apart_law (coupling_of c)) (apart_law (coupling_of c)) }
{
    let r = sum_interval(c.self_r, 3, c.mutual_r, -3);
    let x = sum_interval(c.self_x, 3, c.x_ab, -3);
    series_of(r, c.k, c.m, x)
}

// That of the sum of all. None where a value has no interval.
fn common_law<E: Enclosure>(c: CouplingValues) -> Option<LawIntervals<E>>
    ensures { option_map (law_ends E.ends) result ≡ law_between E.SCALE (common_law (coupling_of c)) (common_law (coupling_of c)) }
{
    let r = sum_interval(c.self_r, 3, c.mutual_r, 6);
    let x = sum_interval(c.self_x, 3, c.x_ab, 6);
    series_of(r, c.k, c.m, x)
}

// A tap with the opposite ratio.
fn opposed_tap<E: Enclosure>(tap: PlacedTap<E>) -> Option<PlacedTap<E>>
    ensures { option_map (placed_ends E.ends) result ≡ opposed_tap (placed_ends E.ends tap) }
{
    let zero: E = exact_zero();
    Some(PlacedTap {
        place: tap.place,
        ratio: zero.sub(tap.ratio)?,
    })
}

// So each of these.
fn opposed<E: Enclosure>(
    alloc: Global,
    taps: &[PlacedTap<E>],
) -> Result<Option<Vec<PlacedTap<E>>>, AllocError>
    ensures { IfOk result (λ o. option_map (λ all. map (placed_ends E.ends) all.items) o ≡ each opposed_tap (map (placed_ends E.ends) taps.now)) }
{
    let mut all = Vec::new(alloc);
    for i in 0..taps.len() {
        let Some(tap) = opposed_tap(taps[i]) else {
            return Ok(None);
        };
        all.push(tap)?;
    }
    Ok(Some(all))
}

// Adds a branch with this law to those before, whose taps are these and then the others. None where a product of ratios has no value.
fn push_with<E: Enclosure>(
    alloc: Global,
    branches: &mut Vec<LiveBranchIntervals<E>>,
    law: LawIntervals<E>,
    first: &[PlacedTap<E>],
    others: &[PlacedTap<E>],
) -> Result<Option<()>, AllocError>
    ensures { IfOk result (λ o. option_map (λ _. map (live_ends E.ends) branches.new.items) o
        ≡ option_map (λ b. map (live_ends E.ends) branches.old.items ++ b ∷ []) (branch_with E.SCALE (law_ends E.ends law) (map (placed_ends E.ends) first.now ++ map (placed_ends E.ends) others.now))) }
{
    let mut taps = Vec::from_slice(alloc, first)?;
    taps.extend_from_slice(others)?;
    let Some(pairs) = products(alloc, taps.as_slice())? else {
        return Ok(None);
    };
    branches.push(LiveBranchIntervals { law, taps, pairs })?;
    Ok(Some(()))
}

/// Adds the four branches of such a group to those before, by the taps of its three branches: one for each difference of two phases, and
/// one for the sum of all. None where a number, or a product of ratios, has no interval.
pub fn push_four<E: Enclosure>(
    alloc: Global,
    branches: &mut Vec<LiveBranchIntervals<E>>,
    values: CouplingValues,
    xs: &[PlacedTap<E>],
    ys: &[PlacedTap<E>],
    zs: &[PlacedTap<E>],
) -> Result<Option<()>, AllocError>
    ensures { IfOk result (λ o. option_map (λ _. map (live_ends E.ends) branches.new.items) o
        ≡ option_map (λ four. map (live_ends E.ends) branches.old.items ++ four)
        (four_branches E.SCALE (coupling_of values) (map (placed_ends E.ends) xs.now) (map (placed_ends E.ends) ys.now) (map (placed_ends E.ends) zs.now))) }
{
    let Some(apart) = apart_law(values) else {
        return Ok(None);
    };
    let Some(common) = common_law(values) else {
        return Ok(None);
    };
    let Some(less_ys) = opposed(alloc, ys)? else {
        return Ok(None);
    };
    let Some(less_zs) = opposed(alloc, zs)? else {
        return Ok(None);
    };
    if push_with(alloc, branches, apart, xs, less_ys.as_slice())?.is_none() {
        return Ok(None);
    }
    if push_with(alloc, branches, apart, ys, less_zs.as_slice())?.is_none() {
        return Ok(None);
    }
    if push_with(alloc, branches, apart, xs, less_zs.as_slice())?.is_none() {
        return Ok(None);
    }
    let mut both = Vec::from_slice(alloc, xs)?;
    both.extend_from_slice(ys)?;
    push_with(alloc, branches, common, both.as_slice(), zs)
}
