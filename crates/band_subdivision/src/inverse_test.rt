// The inverse part of the interval test: what an enclosed impedance over a box of orders says.
ghost use Rattle.std.specs.Prelude.{◌≡◌, ◌≤◌, ◌<◌, ◌^◌, unsigned_abs};
ghost use Rattle.certified_inverse.specs.Sizes.{IsInRange};
ghost use Rattle.band_subdivision.specs.InverseTest.{most_within, least_above, point_square, is_within_by, ohms_over_by};
ghost use Rattle.band_subdivision.specs.Levels.{IsKept, levels_in};

use crate::scan_levels::ScanLevels;
use crate::size_test::{is_size_within, ohms_of_size, root_above, root_below};
use certified_inverse::InverseOutcome;

/// Whether each number within the error of an enclosed impedance is at most the threshold in size.
pub fn is_within(scale: u32, levels: &ScanLevels, outcome: InverseOutcome) -> bool
    requires levels { IsKept levels.now }
    requires small { scale ≤ 48 }
    requires sizes { IsInRange outcome }
    ensures { result ≡ is_within_by (most_within scale (levels_in levels.now)) outcome }
{
    match outcome {
        InverseOutcome::Enclosed { re, im, error } => {
            let most = root_above(square_of(re, im)) as u128 + error as u128;
            is_size_within(scale, levels, most)
        }
        _ => false,
    }
}

/// The micro-ohms of an enclosed impedance, where each number within its error is more than the threshold in size.
pub fn ohms_over(scale: u32, levels: &ScanLevels, outcome: InverseOutcome) -> Option<i128>
    requires levels { IsKept levels.now }
    requires small { scale ≤ 48 }
    requires sizes { IsInRange outcome }
    ensures { result ≡ ohms_over_by scale (levels_in levels.now) (least_above scale (levels_in levels.now)) outcome }
{
    match outcome {
        InverseOutcome::Enclosed { re, im, error } => {
            let least = root_below(square_of(re, im));
            ohms_of_size(scale, levels, least, error)
        }
        _ => None,
    }
}

/// re² + im².
fn square_of(re: i64, im: i64) -> u128
    requires re { unsigned_abs re ≤ 2 ^ 62 }
    requires im { unsigned_abs im ≤ 2 ^ 62 }
    ensures value { result ≡ point_square re im }
    ensures bound { result < 2 ^ 126 }
{
    let a = re.unsigned_abs() as u128;
    let b = im.unsigned_abs() as u128;
    a * a + b * b
}
