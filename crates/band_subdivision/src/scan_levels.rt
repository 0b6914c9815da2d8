// What the impedance over a box of orders is compared with.
ghost use Rattle.std.specs.Prelude.{◌≡◌, pos, ◌*◌, ◌^◌, ◌≤◌, ◌<◌, ◌*ℤ◌, unsigned_abs};
ghost use Rattle.exact_fraction.specs.Fraction.{ratio_of};
ghost use Rattle.band_subdivision.specs.IntervalTest.{inverse_threshold};
ghost use Rattle.band_subdivision.specs.InverseTest.{unit_threshold};
ghost use Rattle.band_subdivision.specs.Levels.{IsKept, levels_in};

use exact_fraction::Fraction;
use fixed_decimal::Decimal;

/// What a scan compares the impedance over a box with, and its base values.
#[derive(Clone, Copy)]
pub struct ScanLevels {
    /// The threshold of the box, in micro-ohms: above 0, at most 10^20 over at most 10^8.
    pub threshold: Fraction,
    /// The nominal voltage, in kV: in `Range::BUS_KV`.
    pub kv: Decimal,
    /// The base power, in MVA: in `Range::BASE_MVA`.
    pub mva: Decimal,
}

/// 1/T = v²/(threshold·s), for the threshold T per unit.
pub fn inverse_of(levels: &ScanLevels) -> Fraction
    requires { IsKept levels.now }
    ensures { ratio_of result ≡ inverse_threshold (levels_in levels.now) }
{
    let top = signed(volts_of(levels));
    let below = signed(power_of(levels));
    Fraction::new(top, below).unwrap()
}

/// T.
pub fn threshold_of(levels: &ScanLevels) -> Fraction
    requires { IsKept levels.now }
    ensures { ratio_of result ≡ unit_threshold (levels_in levels.now) }
{
    let top = signed(power_of(levels));
    let below = signed(volts_of(levels));
    Fraction::new(top, below).unwrap()
}

/// v² times the threshold's denominator.
fn volts_of(levels: &ScanLevels) -> u128
    requires { IsKept levels.now }
    ensures value { result ≡ unsigned_abs levels.now.kv * unsigned_abs levels.now.kv * unsigned_abs levels.now.threshold.den }
    ensures some { 0 < result }
    ensures bound { result < 2 ^ 120 }
{
    let kv = size_of(levels.kv);
    kv * kv * levels.threshold.den.unsigned_abs()
}

/// The threshold's numerator times s.
fn power_of(levels: &ScanLevels) -> u128
    requires { IsKept levels.now }
    ensures value { result ≡ unsigned_abs levels.now.threshold.num * unsigned_abs levels.now.mva }
    ensures some { 0 < result }
    ensures bound { result < 2 ^ 120 }
{
    levels.threshold.num.unsigned_abs() * size_of(levels.mva)
}

/// How many millionths a value is in size.
pub fn size_of(value: Decimal) -> u128
    ensures size { result ≡ unsigned_abs value }
    ensures bound { result < 10 ^ 12 }
{
    value.millionths.unsigned_abs() as u128
}

/// A number of at most 2^120, as a signed one.
pub fn signed(value: u128) -> i128
    requires { value ≤ 2 ^ 120 }
    ensures { result ≡ pos value }
{
    value as i128
}

/// 2^scale.
pub fn unit_of(scale: u32) -> u128
    requires { scale ≤ 48 }
    ensures value { result ≡ 2 ^ scale }
    ensures bound { result ≤ 2 ^ 48 }
{
    1_u128 << scale
}
