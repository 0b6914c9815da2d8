// What the size of an impedance in units of 1 / 2^scale says of the threshold.
ghost use Rattle.std.specs.Prelude.{◌≡◌, ℕ, pos, ◌*◌, ◌≤◌, ◌<◌, ◌^◌, int_le};
ghost use Rattle.exact_fraction.specs.Root.{root_ceil_of};
ghost use Rattle.band_subdivision.specs.InverseTest.{most_within, least_above, root_floor_of, micro_ohms_from, is_at_most, ohms_beyond};
ghost use Rattle.band_subdivision.specs.Levels.{IsKept, levels_in};

use crate::scan_levels::{ScanLevels, signed, size_of, threshold_of, unit_of};
use exact_fraction::{root_ceil, root_floor};

/// T in units of 1 / 2^scale, rounded down. None where it is out of range.
#[tactic(auto, unfolding(crate::specs::InverseTest::most_within))]
fn bound_within(scale: u32, levels: &ScanLevels) -> Option<i64>
    requires levels { IsKept levels.now }
    requires small { scale ≤ 48 }
    ensures { result ≡ most_within scale (levels_in levels.now) }
{
    threshold_of(levels).floor_scaled(scale)
}

/// T in these units, rounded up. None where it is out of range.
#[tactic(auto, unfolding(crate::specs::InverseTest::least_above))]
fn bound_above(scale: u32, levels: &ScanLevels) -> Option<i64>
    requires levels { IsKept levels.now }
    requires small { scale ≤ 48 }
    ensures { result ≡ least_above scale (levels_in levels.now) }
{
    threshold_of(levels).ceil_scaled(scale)
}

/// Whether a size is at most the threshold.
pub fn is_size_within(scale: u32, levels: &ScanLevels, size: u128) -> bool
    requires levels { IsKept levels.now }
    requires small { scale ≤ 48 }
    ensures { result ≡ is_at_most size (most_within scale (levels_in levels.now)) }
{
    match bound_within(scale, levels) {
        Some(bound) => is_at_most(size, bound),
        None => false,
    }
}

/// The micro-ohms of a size less an error, where that is more than the threshold.
pub fn ohms_of_size(scale: u32, levels: &ScanLevels, size: u64, error: u64) -> Option<i128>
    requires levels { IsKept levels.now }
    requires small { scale ≤ 48 }
    requires fits { size ≤ 2 ^ 63 }
    ensures { result ≡ ohms_beyond scale (levels_in levels.now) (least_above scale (levels_in levels.now)) size error }
{
    match bound_above(scale, levels) {
        Some(bound) => {
            if bound.unsigned_abs() as u128 + (error as u128) < size as u128 {
                Some(micro_ohms(scale, levels, size - error))
            } else {
                None
            }
        }
        None => None,
    }
}

/// A size against a bound with a sign.
fn is_at_most(size: u128, bound: i64) -> bool
    ensures { result ≡ int_le (pos size) bound }
{
    0 <= bound && size <= bound.unsigned_abs() as u128
}

/// The least whole number whose square is at least `square`.
pub fn root_above(square: u128) -> u64
    requires { square < 2 ^ 126 }
    ensures { result ≡ root_ceil_of square }
{
    root_ceil(square)
}

/// The greatest whole number whose square is at most `square`.
pub fn root_below(square: u128) -> u64
    requires { square < 2 ^ 126 }
    ensures value { result ≡ root_floor_of square }
    ensures bound { result ≤ 2 ^ 63 }
{
    root_floor(square)
}

/// In micro-ohms, a size of so many units of 1 / 2^scale per unit.
fn micro_ohms(scale: u32, levels: &ScanLevels, size: u64) -> i128
    requires in_range { IsKept levels.now }
    requires small { scale ≤ 48 }
    requires fits { size ≤ 2 ^ 63 }
    ensures { result ≡ pos (micro_ohms_from scale (levels_in levels.now) size) }
{
    let kv = size_of(levels.kv);
    let below = unit_of(scale) * size_of(levels.mva);
    signed(size as u128 * (kv * kv) / below)
}
