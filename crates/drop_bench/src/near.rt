// The estimate of the impedance over a box, and its error.
ghost use Rattle.std.specs.Prelude.{◌≡◌, ◌+◌, ◌-◌, ◌*◌, ◌^◌, ◌<◌, ◌≤◌, length, map};
ghost use Rattle.std.specs.List.{All};
ghost use Rattle.std.specs.Option.{option_map};
ghost use Rattle.complex_interval.specs.Rect.{rectangle_of};
ghost use Rattle.certified_inverse.specs.Certificate.{in_size, ceil_over};
ghost use Rattle.branchwise_test.specs.Enclosed.{near_by};
ghost use Rattle.drop_bench.specs.Columns.{column_of, columns};
ghost use Rattle.drop_bench.specs.Drops.{drop_ends};
ghost use Rattle.drop_bench.specs.Near.{near_of, contraction_of};

use crate::column::entry_in;
use crate::drops::DropIntervals;
use crate::estimate::correction;
use crate::sums::ceil_over;
use certified_inverse::{in_size, unit_of};
use complex_interval::{Enclosure, Rect};

/// An estimate, and a bound of the distance of the impedance from a number that it holds, in the sum of the sizes of both parts and in units of 1 / 2^SCALE.
#[derive(Clone, Copy)]
pub struct Near<E> {
    pub estimate: Rect<E>,
    pub error: u64,
}

/// What the sizes of the driven node's column come to: the greatest part of its weight that is reached at a drop, what (unit - C·P)
/// makes of the column at the driven node, and what the weights reach there.
#[derive(Clone, Copy)]
pub struct Contraction {
    pub theta: u64,
    pub edge: u64,
    pub last: u64,
}

// edge + last·2^scale/(2^scale - theta), rounded up.
fn error_of(scale: u32, c: Contraction) -> Option<u64>
    requires scale_in { scale ≤ 48 }
    requires below { c.theta < 2 ^ scale }
    ensures { result ≡ in_size (c.edge + ceil_over (c.last * 2 ^ scale) (2 ^ scale - c.theta)) }
{
    let one = unit_of(scale);
    let tail = ceil_over(c.last as u128 * one, one - c.theta as u128);
    in_size(c.edge as u128 + tail)
}

/// The estimate and its error, where theta is below 1.
pub fn near_by<E: Enclosure>(
    drops: &[DropIntervals<E>],
    voltages: &[Vec<Rect<E>>],
    xs: &[Rect<E>],
    driven: u32,
    c: Contraction,
) -> Option<Near<E>>
    requires voltages_wide { All (λ r. length r.items ≡ length drops.now) voltages.now }
    requires driven_in { driven < length drops.now }
    requires xs_in { length xs.now ≡ length drops.now }
    requires below { c.theta < 2 ^ E.SCALE }
    ensures { option_map (near_of E.ends) result
        ≡ near_by E.SCALE driven (map (drop_ends E.ends) drops.now) (columns (length drops.now) (map (λ r. map (rectangle_of E.ends) r.items) voltages.now)) (column_of driven (map (λ r. map (rectangle_of E.ends) r.items) voltages.now)) (map (rectangle_of E.ends) xs.now) (contraction_of c) }
{
    let error = error_of(E::SCALE, c)?;
    let value = entry_in(voltages, driven as usize, driven)?;
    let estimate = value.sub(correction(drops, voltages, xs, driven)?)?;
    Some(Near { estimate, error })
}
