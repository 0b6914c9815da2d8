// The values of a filter, in per unit: its rating q is in MVAr, the base s in MVA, n is the order that it is tuned to and w its quality.
ghost use Rattle.std.specs.Prelude.{◌≡◌, ◌≤◌, ◌<◌, ◌^◌, ◌≤ℤ◌, ◌<ℤ◌, ◌*◌, ◌*ℤ◌, pos, unsigned_abs};
ghost use Rattle.exact_fraction.specs.Fraction.{ratio_of};
ghost use Rattle.study_model.specs.Range.{IsIn};
ghost use Rattle.study_model.specs.declared.range.TheConstants.Range.{TUNED_ORDER, QUALITY};
ghost use Rattle.load_filter_model.specs.Filters.{tuned_reactance, tuned_resistance, highpass_resistance, above_fundamental, ctype_reactance, ctype_resistance};

use element_parts::{Power, product, scaled_power, small, times};
use exact_fraction::Fraction;
use fixed_decimal::Decimal;

/// The number 1, in units of 10^-12.
const ONE: i128 = 1_000_000_000_000;

/// The square of an order, in units of 10^-12.
#[tactic(auto, using(crate::proofs::TunedValues::order_square))]
fn square(order: Decimal) -> i128
    requires { IsIn TUNED_ORDER order }
    ensures value { result ≡ order *ℤ order }
    ensures bound { unsigned_abs result ≤ 10 ^ 16 }
    ensures above { pos (10 ^ 12) <ℤ result }
{
    product(order, order)
}

/// n² - 1 of an order, in units of 10^-12.
fn above_fundamental(order: Decimal) -> i128
    requires { IsIn TUNED_ORDER order }
    ensures value { result ≡ above_fundamental order }
    ensures bound { unsigned_abs result ≤ 10 ^ 17 }
    ensures positive { pos 1 ≤ℤ result }
{
    square(order) - ONE
}

/// An order times a quality, in units of 10^-12.
#[tactic(auto, using(crate::proofs::TunedValues::order_quality))]
fn order_quality(order: Decimal, quality: Decimal) -> i128
    requires order { IsIn TUNED_ORDER order }
    requires quality { IsIn QUALITY quality }
    ensures value { result ≡ order *ℤ quality }
    ensures bound { unsigned_abs result ≤ 10 ^ 17 }
    ensures positive { pos 1 ≤ℤ result }
{
    product(order, quality)
}

/// The reactance that is tuned with a filter's capacitor: s/(q·n²).
#[tactic(auto, unfolding(crate::specs::Filters::tuned_reactance))]
pub fn tuned_reactance(rating: Power, order: Decimal, mva: Decimal) -> Fraction
    requires rating { pos 1 ≤ℤ rating }
    requires order { IsIn TUNED_ORDER order }
    ensures { ratio_of result ≡ tuned_reactance rating order mva }
{
    small(times(mva, ONE), scaled_power(rating, square(order)))
}

/// The resistance of a single tuned filter: s/(q·n·w).
#[tactic(auto, unfolding(crate::specs::Filters::tuned_resistance))]
pub fn tuned_resistance(rating: Power, order: Decimal, quality: Decimal, mva: Decimal) -> Fraction
    requires rating { pos 1 ≤ℤ rating }
    requires order { IsIn TUNED_ORDER order }
    requires quality { IsIn QUALITY quality }
    ensures { ratio_of result ≡ tuned_resistance rating order quality mva }
{
    small(
        times(mva, ONE),
        scaled_power(rating, order_quality(order, quality)),
    )
}

/// A rating times an order, in units of 10^-12.
fn rating_product(rating: Power, order: Decimal) -> i128
    ensures value { result ≡ rating *ℤ order }
    ensures bound { unsigned_abs result < 2 ^ 105 }
{
    i128::from(rating.millionths) * i128::from(order.millionths)
}

/// The same, as a number of at least 1.
#[tactic(auto, using(element_parts::proofs::Values::product_above))]
fn rating_order(rating: Power, order: Decimal) -> i128
    requires rating { pos 1 ≤ℤ rating }
    requires order { IsIn TUNED_ORDER order }
    ensures value { result ≡ rating *ℤ order }
    ensures bound { unsigned_abs result < 2 ^ 105 }
    ensures positive { pos 1 ≤ℤ result }
{
    rating_product(rating, order)
}

/// The resistance of a high-pass filter: w·s/(q·n).
#[tactic(auto, unfolding(crate::specs::Filters::highpass_resistance))]
pub fn highpass_resistance(
    rating: Power,
    order: Decimal,
    quality: Decimal,
    mva: Decimal,
) -> Fraction
    requires rating { pos 1 ≤ℤ rating }
    requires order { IsIn TUNED_ORDER order }
    ensures { ratio_of result ≡ highpass_resistance rating order quality mva }
{
    small(product(quality, mva), rating_order(rating, order))
}

/// The reactance of a C-type filter: s/(q·(n² - 1)).
#[tactic(auto, unfolding(crate::specs::Filters::ctype_reactance))]
pub fn ctype_reactance(rating: Power, order: Decimal, mva: Decimal) -> Fraction
    requires rating { pos 1 ≤ℤ rating }
    requires order { IsIn TUNED_ORDER order }
    ensures { ratio_of result ≡ ctype_reactance rating order mva }
{
    small(
        times(mva, ONE),
        scaled_power(rating, above_fundamental(order)),
    )
}

/// A quality times an order times a base in MVA, in units of 10^-18.
#[tactic(auto, using(crate::proofs::TunedValues::order_quality))]
fn quality_order_base(quality: Decimal, order: Decimal, mva: Decimal) -> i128
    requires order { IsIn TUNED_ORDER order }
    requires quality { IsIn QUALITY quality }
    ensures value { result ≡ quality *ℤ order *ℤ mva }
    ensures bound { unsigned_abs result < 2 ^ 105 }
{
    order_quality(order, quality) * i128::from(mva.millionths)
}

/// The resistance of a C-type filter: w·n·s/(q·(n² - 1)).
#[tactic(auto, unfolding(crate::specs::Filters::ctype_resistance))]
pub fn ctype_resistance(rating: Power, order: Decimal, quality: Decimal, mva: Decimal) -> Fraction
    requires rating { pos 1 ≤ℤ rating }
    requires order { IsIn TUNED_ORDER order }
    requires quality { IsIn QUALITY quality }
    ensures { ratio_of result ≡ ctype_resistance rating order quality mva }
{
    small(
        quality_order_base(quality, order, mva),
        scaled_power(rating, above_fundamental(order)),
    )
}
