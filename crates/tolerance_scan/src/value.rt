// Values in thousandths of themselves.
ghost use Rattle.std.specs.Prelude.{◌≡◌, ◌≤◌, ◌<◌, ◌^◌, ◌*ℤ◌, ◌≤ℤ◌, pos, unsigned_abs};
ghost use Rattle.exact_fraction.specs.Fraction.{ratio_of};
ghost use Rattle.net_branch.specs.Exact.{exact_law};
ghost use Rattle.element_parts.specs.Small.{IsSmall};
ghost use Rattle.tolerance_scan.specs.Small.{HasSmallValues};
ghost use Rattle.tolerance_scan.specs.Widened.{factor_of, multiplied, widened_law};

use exact_fraction::Fraction;
use net_branch::Law;

/// What a value becomes, in thousandths of it: so many more upward, else so many less.
pub fn factor_of(permille: u32, upward: bool) -> u32
    requires { permille ≤ 500 }
    ensures factor { result ≡ factor_of permille upward }
    ensures few { result ≤ 1500 }
{
    if upward {
        1_000 + permille
    } else {
        1_000 - permille
    }
}

/// A number times a factor.
#[tactic(auto, using(crate::proofs::Values::num_size))]
fn times(number: i128, factor: u32) -> i128
    requires small { unsigned_abs number < 2 ^ 105 }
    requires few { factor ≤ 1500 }
    ensures value { result ≡ number *ℤ pos factor }
    ensures bound { unsigned_abs result < 2 ^ 120 }
{
    number * i128::from(factor)
}

/// The fraction of two numbers.
fn fraction(num: i128, den: i128) -> Fraction
    requires num { unsigned_abs num < 2 ^ 120 }
    requires den { unsigned_abs den < 2 ^ 120 }
    requires positive { pos 1 ≤ℤ den }
    ensures num { result.num ≡ num }
    ensures den { result.den ≡ den }
{
    Fraction { num, den }
}

/// So many thousandths of a value, not reduced.
#[tactic(auto, using(crate::proofs::Values::multiplied_is, crate::proofs::Values::den_above))]
fn multiplied(x: Fraction, factor: u32) -> Fraction
    requires small { IsSmall (ratio_of x) }
    requires few { factor ≤ 1500 }
    ensures { ratio_of result ≡ multiplied factor (ratio_of x) }
{
    fraction(times(x.num, factor), times(x.den, 1_000))
}

/// A law whose resistance and reactances, or whose susceptance, become so many thousandths of themselves.
pub fn widened_law(law: Law, factor: u32) -> Law
    requires small { HasSmallValues (exact_law law) }
    requires few { factor ≤ 1500 }
    ensures { exact_law result ≡ widened_law factor (exact_law law) }
{
    match law {
        Law::Series { r, k, m, x, xc } => Law::Series {
            r: multiplied(r, factor),
            k,
            m,
            x: multiplied(x, factor),
            xc: multiplied(xc, factor),
        },
        Law::Shunt { b } => Law::Shunt {
            b: multiplied(b, factor),
        },
        Law::Coupled3 { .. } => law,
    }
}
