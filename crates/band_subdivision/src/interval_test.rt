// The elimination part of the interval test: what an admittance over a box of orders says of the impedance.
ghost use Rattle.std.specs.Prelude.{◌≡◌, pos, ◌*◌, ◌^◌, ◌≤◌, ◌<◌, ◌≤ℤ◌, unsigned_abs};
ghost use Rattle.std.specs.Option.{option_map};
ghost use Rattle.complex_interval.specs.Rect.{rectangle_of};
ghost use Rattle.band_subdivision.specs.IntervalTest.{clear_bound, above_bound, micro_ohms_of, is_clear_by, ohms_above_by};
ghost use Rattle.band_subdivision.specs.Levels.{IsKept, levels_in};

use crate::scan_levels::{ScanLevels, inverse_of, signed, size_of, unit_of};
use complex_interval::{Enclosure, Rect};
use exact_fraction::root_ceil;

/// 1/T in units of 1 / 2^SCALE, rounded up. None where it is out of range.
#[tactic(auto, unfolding(crate::specs::IntervalTest::clear_bound))]
pub fn bound_to_clear<E: Enclosure>(levels: &ScanLevels) -> Option<i64>
    requires { IsKept levels.now }
    ensures { result ≡ clear_bound E.SCALE (levels_in levels.now) }
{
    inverse_of(levels).ceil_scaled(E::SCALE)
}

/// 1/T in these units, rounded down. None where it is out of range.
#[tactic(auto, unfolding(crate::specs::IntervalTest::above_bound))]
pub fn bound_to_name<E: Enclosure>(levels: &ScanLevels) -> Option<i64>
    requires { IsKept levels.now }
    ensures { result ≡ above_bound E.SCALE (levels_in levels.now) }
{
    inverse_of(levels).floor_scaled(E::SCALE)
}

/// Whether each number of the rectangle is at least the bound in size.
pub fn is_clear_of<E: Enclosure>(bound: Option<i64>, reduced: Option<Rect<E>>) -> bool
    ensures { result ≡ is_clear_by bound (option_map (rectangle_of E.ends) reduced) }
{
    match bound {
        Some(bound) => match reduced {
            Some(y) => square_of(bound) <= y.low_square(),
            None => false,
        },
        None => false,
    }
}

/// The micro-ohms of a rectangle whose numbers are all less than the bound in size, and other than zero.
pub fn ohms_of<E: Enclosure>(
    levels: &ScanLevels,
    bound: Option<i64>,
    reduced: Option<Rect<E>>,
) -> Option<i128>
    requires { IsKept levels.now }
    ensures { result ≡ ohms_above_by E.SCALE (levels_in levels.now) bound (option_map (rectangle_of E.ends) reduced) }
{
    match bound {
        Some(bound) => match reduced {
            Some(y) => {
                let low = y.low_square();
                let high = y.high_square();
                if high < square_of(bound) && 0 < low {
                    Some(micro_ohms(E::SCALE, levels, high))
                } else {
                    None
                }
            }
            None => None,
        },
        None => None,
    }
}

fn square_of(x: i64) -> u128
    ensures value { result ≡ unsigned_abs x * unsigned_abs x }
    ensures bound { result < 2 ^ 127 }
{
    let size = x.unsigned_abs() as u128;
    size * size
}

/// v²/s ohms over the root of `high`, in micro-ohms.
fn micro_ohms(scale: u32, levels: &ScanLevels, high: u128) -> i128
    requires in_range { IsKept levels.now }
    requires small { scale ≤ 48 }
    requires some { 0 < high }
    requires fits { high < 2 ^ 127 }
    ensures { result ≡ pos (micro_ohms_of scale (levels_in levels.now) high) }
{
    let kv = size_of(levels.kv);
    let below = size_of(levels.mva) * root_ceil(high) as u128;
    signed(kv * kv * unit_of(scale) / below)
}
