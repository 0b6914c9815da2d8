// Sums of two fractions, each times a small whole number, as intervals. The exact sum may have 240 bits, so it is never formed: its
// ends follow from whole parts, from rests, and from one comparison of two fractions.
ghost use Rattle.std.specs.Prelude.{◌≡◌, ◌+◌, ◌*◌, ◌^◌, ◌≤◌, ◌<◌, ◌↔◌, IsTrue, ◌≤ℤ◌, ◌+ℤ◌, ◌*ℤ◌, pos, unsigned_abs};
ghost use Rattle.std.specs.Option.{option_map};
ghost use Rattle.exact_algebra.specs.Ratio.{whole, times, plus};
ghost use Rattle.exact_algebra.specs.Floor.{floor_div};
ghost use Rattle.exact_fraction.specs.Fraction.{ratio_of};
ghost use Rattle.exact_fraction.specs.Scaled.{end_of, floor_scaled_of, ceil_scaled_of};
ghost use Rattle.complex_interval.specs.Ends.{range_ends};

use crate::end::end_from;
use crate::parts::{multiple, parts_of};
use complex_interval::Enclosure;
use exact_fraction::Fraction;

// num / den.
fn part(num: u128, den: u128) -> Fraction
    requires below { num ≤ den }
    requires positive { 0 < den }
    requires fits { den < 2 ^ 120 }
    ensures num { result.num ≡ pos num }
    ensures den { result.den ≡ pos den }
{
    Fraction {
        num: num as i128,
        den: den as i128,
    }
}

// Whether the two rests make one whole together.
fn carries(first: u128, first_den: u128, second: u128, second_den: u128) -> bool
    requires first { first < first_den }
    requires second { second < second_den }
    requires first_fits { first_den < 2 ^ 120 }
    requires second_fits { second_den < 2 ^ 120 }
    ensures { IsTrue result ↔ (first_den * second_den ≤ first * second_den + second * first_den) }
{
    let missing = part(second_den - second, second_den);
    missing.at_most(part(first, first_den))
}

// The whole part of the sum of the two rests: 0 or 1.
fn carry(first: u128, first_den: u128, second: u128, second_den: u128) -> u128
    requires first { first < first_den }
    requires second { second < second_den }
    requires first_fits { first_den < 2 ^ 120 }
    requires second_fits { second_den < 2 ^ 120 }
    ensures low { result * (first_den * second_den) ≤ first * second_den + second * first_den }
    ensures high { first * second_den + second * first_den < result * (first_den * second_den) + first_den * second_den }
    ensures bound { result ≤ 1 }
{
    if carries(first, first_den, second, second_den) {
        1
    } else {
        0
    }
}

// (m / d + n / e) * 2^s rounded down, where that is an end.
fn floor_end(m: i128, d: i128, n: i128, e: i128, s: u32) -> Option<i64>
    requires m_fits { unsigned_abs m < 2 ^ 124 }
    requires d_fits { unsigned_abs d < 2 ^ 120 }
    requires d_positive { pos 1 ≤ℤ d }
    requires n_fits { unsigned_abs n < 2 ^ 124 }
    requires e_fits { unsigned_abs e < 2 ^ 120 }
    requires e_positive { pos 1 ≤ℤ e }
    requires small { s ≤ 48 }
    ensures { result ≡ end_of (floor_div ((m *ℤ pos (unsigned_abs e) +ℤ n *ℤ pos (unsigned_abs d)) *ℤ pos (2 ^ s)) (unsigned_abs d * unsigned_abs e)) }
{
    let first = parts_of(m, d, s);
    let second = parts_of(n, e, s);
    let carried = carry(first.rest, d.unsigned_abs(), second.rest, e.unsigned_abs());
    let number = first.quotient + second.quotient + carried;
    end_from(first.whole + second.whole, number, s)
}

// (j * x + k * y) * 2^s rounded down, where that is an end.
fn floor_of_sum(x: Fraction, j: i64, y: Fraction, k: i64, s: u32) -> Option<i64>
    requires first { unsigned_abs j ≤ 8 }
    requires second { unsigned_abs k ≤ 8 }
    requires small { s ≤ 48 }
    ensures { result ≡ end_of (floor_scaled_of (plus (times (whole j) (ratio_of x)) (times (whole k) (ratio_of y))) s) }
{
    floor_end(multiple(j, x.num), x.den, multiple(k, y.num), y.den, s)
}

// (j * x + k * y) * 2^s rounded up, where that is an end.
fn ceil_of_sum(x: Fraction, j: i64, y: Fraction, k: i64, s: u32) -> Option<i64>
    requires first { unsigned_abs j ≤ 8 }
    requires second { unsigned_abs k ≤ 8 }
    requires small { s ≤ 48 }
    ensures { result ≡ end_of (ceil_scaled_of (plus (times (whole j) (ratio_of x)) (times (whole k) (ratio_of y))) s) }
{
    match floor_of_sum(x, -j, y, -k, s) {
        Some(end) => Some(-end),
        None => None,
    }
}

/// The least interval that holds `j * x + k * y`, for whole numbers of a size of at most 8: the floor and the ceiling of the exact
/// sum at the scale of the interval's type, also where the product of the two denominators has 240 bits. `None` exactly where one of
/// the two ends has a size above 2^62; the parts `j * x` and `k * y` alone may be out of range.
pub fn sum_interval<E: Enclosure>(x: Fraction, j: i64, y: Fraction, k: i64) -> Option<E>
    requires first { unsigned_abs j ≤ 8 }
    requires second { unsigned_abs k ≤ 8 }
    ensures { option_map E.ends result
        ≡ range_ends E.SCALE (plus (times (whole j) (ratio_of x)) (times (whole k) (ratio_of y))) (plus (times (whole j) (ratio_of x)) (times (whole k) (ratio_of y))) }
{
    let low = floor_of_sum(x, j, y, k, E::SCALE)?;
    let high = ceil_of_sum(x, j, y, k, E::SCALE)?;
    E::from_ends(low, high)
}
