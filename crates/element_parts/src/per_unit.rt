// Values of elements in per unit, as exact fractions that are not reduced.
ghost use Rattle.std.specs.Prelude.{◌≡◌, ◌≤◌, ◌<◌, ◌≤ℤ◌, ◌*ℤ◌, ◌-ℤ◌, ◌*◌, ◌^◌, pos, length, unsigned_abs};
ghost use Rattle.exact_algebra.specs.Ratio.{whole};
ghost use Rattle.exact_fraction.specs.Fraction.{ratio_of};
ghost use Rattle.study_model.specs.Range.{IsIn};
ghost use Rattle.study_model.specs.declared.range.TheConstants.Range.{BASE_MVA, BUS_KV};
ghost use Rattle.study_model.specs.Voltages.{kv_of};
ghost use Rattle.element_parts.specs.PerUnit.{as_written, self_ohms, mutual_ohms, impedance_per_unit, impedance_share, susceptance_share, impedance_of_rating, susceptance_of_rating, percent_per_unit, inverse_ratio};

use crate::power::Power;
use exact_fraction::Fraction;
use fixed_decimal::Decimal;
use study_model::Study;

const MILLION: i128 = 1_000_000;

/// Percents in millionths, as parts of one.
const PERCENT_MILLIONTHS: i128 = 100_000_000;

/// Microsiemens in millionths, and the millionths of two voltages, as siemens and kV.
const MICROSIEMENS_MILLIONTHS: i128 = 1_000_000_000_000_000_000;

/// The nominal voltage of a bus of the study, in kV.
pub fn kv(study: &Study, bus: u32) -> Decimal
    requires { bus < length study.now.buses }
    ensures { result ≡ kv_of study.now.buses bus }
{
    study.buses.as_slice()[bus as usize].kv
}

/// The product of two decimals, in units of 10^-12.
pub fn product(a: Decimal, b: Decimal) -> i128
    ensures value { result ≡ a *ℤ b }
    ensures bound { unsigned_abs result < 2 ^ 80 }
{
    i128::from(a.millionths) * i128::from(b.millionths)
}

/// The square of a decimal above 0, in units of 10^-12.
#[tactic(auto, using(crate::proofs::Values::square_above))]
fn square(d: Decimal) -> i128
    requires { pos 1 ≤ℤ d }
    ensures value { result ≡ d *ℤ d }
    ensures bound { unsigned_abs result < 2 ^ 80 }
    ensures positive { pos 1 ≤ℤ result }
{
    product(d, d)
}

/// The square of a bus's nominal voltage, in units of 10^-12.
#[tactic(auto, using(crate::proofs::Values::square_of_kv))]
fn kv_square(kv: Decimal) -> i128
    requires { IsIn BUS_KV kv }
    ensures value { result ≡ kv *ℤ kv }
    ensures bound { unsigned_abs result ≤ 4000000000000000000 }
{
    product(kv, kv)
}

/// A decimal times a number of at most 4·10^18.
pub fn times(d: Decimal, number: i128) -> i128
    requires { unsigned_abs number ≤ 4000000000000000000 }
    ensures value { result ≡ d *ℤ number }
    ensures bound { unsigned_abs result < 2 ^ 105 }
{
    i128::from(d.millionths) * number
}

/// A decimal above 0 times a number above 0.
#[tactic(auto, using(crate::proofs::Values::product_above, crate::proofs::Values::product_size))]
pub fn scaled(d: Decimal, number: i128) -> i128
    requires positive { pos 1 ≤ℤ d }
    requires number { pos 1 ≤ℤ number }
    requires small { unsigned_abs number ≤ 4000000000000000000 }
    ensures value { unsigned_abs result ≡ unsigned_abs d * unsigned_abs number }
    ensures bound { unsigned_abs result < 2 ^ 105 }
    ensures positive { pos 1 ≤ℤ result }
{
    times(d, number)
}

/// A power above 0 times a number above 0.
#[tactic(auto, using(crate::proofs::Values::product_above, crate::proofs::Values::product_size))]
pub fn scaled_power(power: Power, number: i128) -> i128
    requires positive { pos 1 ≤ℤ power }
    requires number { pos 1 ≤ℤ number }
    requires small { unsigned_abs number ≤ 4000000000000000000 }
    ensures value { unsigned_abs result ≡ unsigned_abs power * unsigned_abs number }
    ensures bound { unsigned_abs result < 2 ^ 105 }
    ensures positive { pos 1 ≤ℤ result }
{
    times_number(power.millionths, number)
}

/// A number of at least 1 and at most 2^94 times a count of at most 384.
#[tactic(auto, using(crate::proofs::Values::times_parts))]
fn times_parts(number: i128, parts: u32) -> i128
    requires positive { pos 1 ≤ℤ number }
    requires small { unsigned_abs number ≤ 2 ^ 94 }
    requires some { 1 ≤ parts }
    requires few { parts ≤ 384 }
    ensures value { result ≡ number *ℤ pos parts }
    ensures bound { unsigned_abs result < 2 ^ 105 }
{
    number * i128::from(parts)
}

/// The same, as a number of at least 1.
#[tactic(auto, using(crate::proofs::Values::product_above, crate::proofs::Values::product_size))]
fn in_parts(number: i128, parts: u32) -> i128
    requires positive { pos 1 ≤ℤ number }
    requires small { unsigned_abs number ≤ 2 ^ 94 }
    requires some { 1 ≤ parts }
    requires few { parts ≤ 384 }
    ensures value { unsigned_abs result ≡ unsigned_abs number * parts }
    ensures bound { unsigned_abs result < 2 ^ 105 }
    ensures positive { pos 1 ≤ℤ result }
{
    times_parts(number, parts)
}

/// The base MVA with the units of microsiemens and of two voltages.
#[tactic(auto, using(crate::proofs::Values::base_above))]
fn base_of_siemens(mva: Decimal) -> i128
    requires { IsIn BASE_MVA mva }
    ensures value { unsigned_abs result ≡ unsigned_abs mva * 10 ^ 18 }
    ensures bound { unsigned_abs result ≤ 2 ^ 94 }
    ensures positive { pos 1 ≤ℤ result }
{
    i128::from(mva.millionths) * MICROSIEMENS_MILLIONTHS
}

/// The fraction of two numbers below 2^105 in size.
pub fn small(num: i128, den: i128) -> Fraction
    requires num { unsigned_abs num < 2 ^ 105 }
    requires den { unsigned_abs den < 2 ^ 105 }
    requires positive { pos 1 ≤ℤ den }
    ensures num { result.num ≡ num }
    ensures den { result.den ≡ den }
{
    Fraction::new(num, den).unwrap()
}

/// The number 0.
#[tactic(auto, unfolding(exact_algebra::specs::Ratio::whole))]
pub fn zero() -> Fraction
    ensures { ratio_of result ≡ whole (pos 0) }
{
    small(0, 1)
}

/// A decimal as it is written: d/10^6.
#[tactic(auto, unfolding(crate::specs::PerUnit::as_written))]
pub fn as_written(d: Decimal) -> Fraction
    ensures { ratio_of result ≡ as_written d }
{
    small(i128::from(d.millionths), MILLION)
}

/// An impedance of `z` ohms at a bus of `kv`, in per unit: z·s/v².
#[tactic(auto, unfolding(crate::specs::PerUnit::impedance_per_unit))]
pub fn impedance(z: Decimal, mva: Decimal, kv: Decimal) -> Fraction
    requires { pos 1 ≤ℤ kv }
    ensures { ratio_of result ≡ impedance_per_unit z mva kv }
{
    small(product(z, mva), square(kv))
}

/// One of so many equal parts in series of an impedance of `z` ohms at a bus of `kv`, in per unit: z·s/(v²·n).
#[tactic(auto, unfolding(crate::specs::PerUnit::impedance_share))]
pub fn impedance_share(z: Decimal, mva: Decimal, kv: Decimal, parts: u32) -> Fraction
    requires kv { pos 1 ≤ℤ kv }
    requires some { 1 ≤ parts }
    requires few { parts ≤ 384 }
    ensures { ratio_of result ≡ impedance_share z mva kv parts }
{
    small(product(z, mva), in_parts(square(kv), parts))
}

/// z0 + 2·z.
fn self_ohms(z: Decimal, z0: Decimal) -> i64
    ensures value { result ≡ self_ohms z z0 }
    ensures size { unsigned_abs result ≤ 3000000000000 }
{
    z0.millionths + 2 * z.millionths
}

/// z0 - z.
fn mutual_ohms(z: Decimal, z0: Decimal) -> i64
    ensures value { result ≡ mutual_ohms z z0 }
    ensures size { unsigned_abs result ≤ 3000000000000 }
{
    z0.millionths - z.millionths
}

/// A number of size at most 3·10^12, as an impedance of three coupled phases or a power is, times one of at most 4·10^18.
fn times_number(d: i64, number: i128) -> i128
    requires size { unsigned_abs d ≤ 3000000000000 }
    requires number { unsigned_abs number ≤ 4000000000000000000 }
    ensures value { result ≡ d *ℤ number }
    ensures bound { unsigned_abs result < 2 ^ 105 }
{
    i128::from(d) * number
}

/// One of so many equal parts in series of the impedance of a phase by itself, of `z` and `z0` ohms in the two sequences at a bus of `kv`, in
/// per unit: (z0 + 2·z)·s/(3·v²·n).
#[tactic(auto, unfolding(crate::specs::PerUnit::impedance_share))]
pub fn self_share(z: Decimal, z0: Decimal, mva: Decimal, kv: Decimal, parts: u32) -> Fraction
    requires kv { pos 1 ≤ℤ kv }
    requires some { 1 ≤ parts }
    requires few { parts ≤ 64 }
    ensures { ratio_of result ≡ impedance_share (self_ohms z z0) mva kv (3 * parts) }
{
    let ohms = self_ohms(z, z0);
    let base = i128::from(mva.millionths);
    small(times_number(ohms, base), in_parts(square(kv), 3 * parts))
}

/// One of so many equal parts in series of the impedance between two phases: (z0 - z)·s/(3·v²·n).
#[tactic(auto, unfolding(crate::specs::PerUnit::impedance_share))]
pub fn mutual_share(z: Decimal, z0: Decimal, mva: Decimal, kv: Decimal, parts: u32) -> Fraction
    requires kv { pos 1 ≤ℤ kv }
    requires some { 1 ≤ parts }
    requires few { parts ≤ 64 }
    ensures { ratio_of result ≡ impedance_share (mutual_ohms z z0) mva kv (3 * parts) }
{
    let ohms = mutual_ohms(z, z0);
    let base = i128::from(mva.millionths);
    small(times_number(ohms, base), in_parts(square(kv), 3 * parts))
}

/// Three times a decimal, times another.
fn triple(a: Decimal, b: Decimal) -> i128
    ensures value { result ≡ (pos 3 *ℤ a) *ℤ b }
    ensures bound { unsigned_abs result < 2 ^ 105 }
{
    (3 * i128::from(a.millionths)) * i128::from(b.millionths)
}

/// Three times an impedance of `z` ohms at a bus of `kv`, in per unit: 3·z·s/v².
#[tactic(auto, unfolding(crate::specs::PerUnit::impedance_per_unit))]
pub fn triple_impedance(z: Decimal, mva: Decimal, kv: Decimal) -> Fraction
    requires { pos 1 ≤ℤ kv }
    ensures { ratio_of result ≡ impedance_per_unit (pos 3 *ℤ z) mva kv }
{
    small(triple(z, mva), square(kv))
}

/// The impedance of a rating in MW or MVAr, in per unit: s/q.
#[tactic(auto, unfolding(crate::specs::PerUnit::impedance_of_rating))]
pub fn impedance_of_rating(rating: Power, mva: Decimal) -> Fraction
    requires { pos 1 ≤ℤ rating }
    ensures { ratio_of result ≡ impedance_of_rating rating mva }
{
    small(i128::from(mva.millionths), i128::from(rating.millionths))
}

/// The susceptance of a rating in MVAr, in per unit: q/s.
#[tactic(auto, unfolding(crate::specs::PerUnit::susceptance_of_rating))]
pub fn susceptance_of_rating(rating: Power, mva: Decimal) -> Fraction
    requires { pos 1 ≤ℤ mva }
    ensures { ratio_of result ≡ susceptance_of_rating rating mva }
{
    small(i128::from(rating.millionths), i128::from(mva.millionths))
}

/// One of so many equal parts side by side of a susceptance of `b` microsiemens at a bus of `kv`, in per unit: b·v²/(s·10^18·n).
#[tactic(auto, unfolding(crate::specs::PerUnit::susceptance_share))]
pub fn susceptance_share(b: Decimal, mva: Decimal, kv: Decimal, parts: u32) -> Fraction
    requires mva { IsIn BASE_MVA mva }
    requires kv { IsIn BUS_KV kv }
    requires some { 1 ≤ parts }
    requires few { parts ≤ 384 }
    ensures { ratio_of result ≡ susceptance_share b mva kv parts }
{
    small(
        times(b, kv_square(kv)),
        in_parts(base_of_siemens(mva), parts),
    )
}

/// b - b0.
fn difference(b: Decimal, b0: Decimal) -> i64
    ensures value { result ≡ b -ℤ b0 }
    ensures size { unsigned_abs result ≤ 3000000000000 }
{
    b.millionths - b0.millionths
}

/// One of so many equal parts side by side of a susceptance of b - b0 microsiemens at a bus of `kv`, in per unit: (b - b0)·v²/(s·10^18·n).
#[tactic(auto, unfolding(crate::specs::PerUnit::susceptance_share))]
pub fn difference_share(b: Decimal, b0: Decimal, mva: Decimal, kv: Decimal, parts: u32) -> Fraction
    requires mva { IsIn BASE_MVA mva }
    requires kv { IsIn BUS_KV kv }
    requires some { 1 ≤ parts }
    requires few { parts ≤ 384 }
    ensures { ratio_of result ≡ susceptance_share (b -ℤ b0) mva kv parts }
{
    small(
        times_number(difference(b, b0), kv_square(kv)),
        in_parts(base_of_siemens(mva), parts),
    )
}

/// One over a transformer's ratio: 1/t.
#[tactic(auto, unfolding(crate::specs::PerUnit::inverse_ratio))]
pub fn inverse_ratio(ratio: Decimal) -> Fraction
    requires { pos 1 ≤ℤ ratio }
    ensures { ratio_of result ≡ inverse_ratio ratio }
{
    small(MILLION, i128::from(ratio.millionths))
}

/// `z` percent on a transformer's own rating, in per unit: z·s/(10^8·t).
#[tactic(auto, unfolding(crate::specs::PerUnit::percent_per_unit))]
pub fn percent(z: Decimal, mva: Decimal, rating: Decimal) -> Fraction
    requires { pos 1 ≤ℤ rating }
    ensures { ratio_of result ≡ percent_per_unit z mva rating }
{
    small(product(z, mva), scaled(rating, PERCENT_MILLIONTHS))
}
