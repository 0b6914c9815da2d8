// Numbers that are kept: none is above 2^62.
ghost use Rattle.std.specs.Prelude.{◌≡◌, ◌<◌, ◌≤◌, ◌+◌, ◌-◌, ◌*◌, ◌^◌, length, map};
ghost use Rattle.std.specs.Option.{option_map};
ghost use Rattle.complex_interval.specs.Rect.{rectangle_of};
ghost use Rattle.complex_interval.specs.Rectangles.{sub_rectangles};
ghost use Rattle.certified_inverse.specs.Certificate.{each_two, row_size, in_size, ceil_over};
ghost use Rattle.plain_elimination.specs.declared.limits.TheConstants.{MAX_SIZE};

use complex_interval::{Enclosure, Rect};
use middle_inverse::size_of;

// The greatest number that is kept.
const LIMIT: u128 = 1 << 62;

/// The number, if it is at most 2^62.
pub fn in_size(number: u128) -> Option<u64>
    ensures { result ≡ in_size number }
{
    if number <= LIMIT {
        Some(number as u64)
    } else {
        None
    }
}

/// The sum of the sizes of the first row less the second.
pub fn size_apart<E: Enclosure>(row: &[Rect<E>], other: &[Rect<E>]) -> Option<u128>
    requires same { length row.now ≡ length other.now }
    requires few { length row.now ≤ MAX_SIZE }
    ensures { result ≡ option_map row_size (each_two sub_rectangles (map (rectangle_of E.ends) row.now) (map (rectangle_of E.ends) other.now)) }
{
    let mut total: u128 = 0;
    for i in 0..row.len() {
        let apart = row[i].sub(other[i])?;
        total += size_of(apart) as u128;
    }
    Some(total)
}

/// 2^scale.
pub fn unit_of(scale: u32) -> u128
    requires { scale ≤ 48 }
    ensures value { result ≡ 2 ^ scale }
    ensures bound { result ≤ 2 ^ 48 }
{
    1_u128 << scale
}

/// The error: the ceiling of sigma·2^SCALE/(2^SCALE - theta), if it is at most 2^62.
pub fn error_over(scale: u32, theta: u64, sigma: u64) -> Option<u64>
    requires scale_in { scale ≤ 48 }
    requires contracting { theta < 2 ^ scale }
    requires sigma_in { sigma ≤ 2 ^ 62 }
    ensures { result ≡ in_size (ceil_over (sigma * 2 ^ scale) (2 ^ scale - theta)) }
{
    let one = unit_of(scale);
    let left = one - theta as u128;
    let top = sigma as u128 * one;
    in_size((top + (left - 1)) / left)
}
