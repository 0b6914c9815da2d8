// Bounds of distortion in ten-thousandths of a percent.
ghost use Rattle.std.specs.Prelude.{◌≡◌, ◌*◌, ◌≤◌, ◌<◌, ◌^◌, ◌⊎◌, ◌*ℤ◌, ◌≤ℤ◌, pos, unsigned_abs};
ghost use Rattle.exact_fraction.specs.Fraction.{ratio_of};
ghost use Rattle.ieee519_limits.specs.Verdicts.{AreOrdered};
ghost use Rattle.distortion_bounds.specs.Distortion.{current_rho};
ghost use Rattle.distortion_bounds.specs.Percents.{low_bound, high_bound, in_range, bounds_of, HoldsRoots};

use crate::squares::Squares;
use exact_fraction::{Fraction, root_ceil, root_floor};
use fixed_decimal::Decimal;
use ieee519_limits::PercentBounds;

/// Rho of the bounds of a voltage, whose square counts 3 times: a voltage of 1 per unit is 10^6 ten-thousandths of a percent.
pub const VOLTAGE_RHO: Fraction = Fraction {
    num: 1_000_000,
    den: 1,
};

// A decimal times a number of at most 10^15.
fn times(d: Decimal, number: i128) -> i128
    requires { unsigned_abs number ≤ 1000000000000000 }
    ensures value { result ≡ d *ℤ number }
    ensures bound { unsigned_abs result < 2 ^ 120 }
{
    i128::from(d.millionths) * number
}

// A decimal above 0 times a number above 0.
#[tactic(auto, using(crate::proofs::Products::product_above, crate::proofs::Products::product_size))]
fn product(d: Decimal, number: i128) -> i128
    requires positive { pos 1 ≤ℤ d }
    requires number { pos 1 ≤ℤ number }
    requires small { unsigned_abs number ≤ 1000000000000000 }
    ensures value { result ≡ d *ℤ number }
    ensures bound { unsigned_abs result < 2 ^ 120 }
    ensures above { pos 1 ≤ℤ result }
{
    times(d, number)
}

/// Rho of the bounds of a current: 10^15·s/(v·il), for a base of s MVA, a bus of v kV and a demand current of il amperes, all in
/// millionths. A current of 1 per unit is so many ten-thousandths of a percent of the demand current.
pub fn current_rho(kv: Decimal, mva: Decimal, il: Decimal) -> Fraction
    requires kv { pos 1 ≤ℤ kv }
    requires mva { pos 1 ≤ℤ mva }
    requires il { pos 1 ≤ℤ il }
    ensures value { ratio_of result ≡ current_rho kv mva il }
    ensures above { pos 0 ≤ℤ result.num }
{
    Fraction {
        num: product(mva, 1_000_000_000_000_000),
        den: product(kv, i128::from(il.millionths)),
    }
}

// A bound below 2^64. None where it is 2^64 or more.
fn small(bound: i128) -> Option<u64>
    requires { pos 0 ≤ℤ bound }
    ensures { result ≡ in_range bound }
{
    if bound < 1 << 64 {
        Some(bound as u64)
    } else {
        None
    }
}

// The root of n, rounded down, times rho/2^scale, rounded down. None where it is 2^64 or more.
fn low_of(rho: Fraction, scale: u32, n: u128) -> Option<u64>
    requires fits { n < 2 ^ 127 }
    requires rho { pos 0 ≤ℤ rho.num }
    requires scale { scale ≤ 48 }
    ensures { result ≡ in_range (low_bound (ratio_of rho) scale n) }
{
    small(rho.floor_times(root_floor(n), scale)?)
}

// The root of n, rounded up, times rho/2^scale, rounded up. None where it is 2^64 or more.
fn high_of(rho: Fraction, scale: u32, n: u128) -> Option<u64>
    requires fits { n < 2 ^ 127 }
    requires rho { pos 0 ≤ℤ rho.num }
    requires scale { scale ≤ 48 }
    ensures { result ≡ in_range (high_bound (ratio_of rho) scale n) }
{
    small(rho.ceil_times(root_ceil(n), scale)?)
}

/// The bounds of the root of `times` squares between two numbers, times `rho`: the low one is the floor of root·rho/2^scale for the root of
/// `times·lo` rounded down, the high one the ceiling of root·rho/2^scale for the root of `times·hi` rounded up. None exactly where one of the two
/// is 2^64 or more. Conditions: `times` is 1 or 3, both squares are at most 2^125, `rho` is at least 0. It takes no memory.
pub fn bounds(squares: Squares, times: u128, rho: Fraction, scale: u32) -> Option<PercentBounds>
    requires times { (times ≡ 1) ⊎ (times ≡ 3) }
    requires lo { squares.lo ≤ 2 ^ 125 }
    requires hi { squares.hi ≤ 2 ^ 125 }
    requires rho { pos 0 ≤ℤ rho.num }
    requires scale { scale ≤ 48 }
    ensures value { result ≡ bounds_of times (ratio_of rho) scale squares }
    ensures ordered { squares.lo ≤ squares.hi → AreOrdered result }
    ensures holds { HoldsRoots times (ratio_of rho) scale squares result }
{
    let lo = low_of(rho, scale, times * squares.lo)?;
    let hi = high_of(rho, scale, times * squares.hi)?;
    Some(PercentBounds { lo, hi })
}
