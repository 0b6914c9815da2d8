// What a matrix in the place of the inverse makes of the drops, and the estimate by it.
ghost use Rattle.std.specs.Prelude.{◌≡◌, ◌<◌, ◌≤◌, length, map};
ghost use Rattle.std.specs.List.{All};
ghost use Rattle.std.specs.Option.{option_map};
ghost use Rattle.complex_interval.specs.Rect.{rectangle_of};
ghost use Rattle.plain_elimination.specs.Matrix.{Square};
ghost use Rattle.branchwise_test.specs.Enclosed.{contracting, found, near_with};
ghost use Rattle.drop_bench.specs.Bounds.{IsOfSize, HasRoom, HasLeftRoom};
ghost use Rattle.drop_bench.specs.Columns.{column_of, columns};
ghost use Rattle.drop_bench.specs.Drops.{drop_ends};
ghost use Rattle.drop_bench.specs.Near.{near_of, contraction_of, found_by};
ghost use Rattle.drop_bench.specs.Results.{result_of};
ghost use Rattle.plain_elimination.specs.declared.limits.TheConstants.{MAX_SIZE};

use crate::column::copy_column;
use crate::drops::DropIntervals;
use crate::left::LeftRoom;
use crate::near::{Contraction, Near, near_by};
use crate::room::Room;
use crate::sizes::{Sizes, write_bounds};
use crate::voltages::{write_all_voltages, write_drops, write_sizes};
use branchwise_test::BranchwiseFault;
use certified_inverse::unit_of;
use complex_interval::{Enclosure, Rect};
use middle_inverse::MiddleInverse;
use plain_elimination::Matrix;

/// The estimate, where theta is below 1.
pub fn contracting<E: Enclosure>(
    drops: &[DropIntervals<E>],
    voltages: &[Vec<Rect<E>>],
    xs: &[Rect<E>],
    driven: u32,
    c: Contraction,
) -> Result<Near<E>, BranchwiseFault>
    requires voltages_wide { All (λ r. length r.items ≡ length drops.now) voltages.now }
    requires driven_in { driven < length drops.now }
    requires xs_in { length xs.now ≡ length drops.now }
    ensures { result_of (near_of E.ends) result
        ≡ contracting E.SCALE driven (map (drop_ends E.ends) drops.now) (columns (length drops.now) (map (λ r. map (rectangle_of E.ends) r.items) voltages.now)) (column_of driven (map (λ r. map (rectangle_of E.ends) r.items) voltages.now)) (map (rectangle_of E.ends) xs.now) (contraction_of c) }
{
    if unit_of(E::SCALE) <= c.theta as u128 {
        return Err(BranchwiseFault::NotContracting(c.theta));
    }
    match near_by(drops, voltages, xs, driven, c) {
        Some(near) => Ok(near),
        None => Err(BranchwiseFault::OutOfRange),
    }
}

/// What the driven node's column comes to, with the voltages and the drops that it was formed by left in place. `column` is overwritten.
pub fn write_found<E: Enclosure>(
    drops: &[DropIntervals<E>],
    matrix: &Matrix<E>,
    inverse: &MiddleInverse<E>,
    driven: u32,
    voltages: &mut [Vec<Rect<E>>],
    column: &mut [Rect<E>],
    xs: &mut [Rect<E>],
    left: &mut LeftRoom<E>,
    sizes: &mut Sizes,
    room: &mut Room,
) -> Option<Contraction>
    requires few { matrix.now.size ≤ MAX_SIZE }
    requires count { matrix.now.size ≤ length drops.now }
    requires driven_in { driven < length drops.now }
    requires same { inverse.now.size ≡ matrix.now.size }
    requires square { length inverse.now.rows ≡ inverse.now.size }
    requires voltages_in { length voltages.old ≡ matrix.now.size }
    requires voltages_wide { All (λ r. length r.items ≡ length drops.now) voltages.old }
    requires column_in { length column.old ≡ matrix.now.size }
    requires xs_in { length xs.old ≡ length drops.now }
    requires left_in { HasLeftRoom matrix.now.size left.old }
    requires sizes_in { IsOfSize matrix.now.size (length drops.now) sizes.old }
    requires room_in { HasRoom matrix.now.size (length drops.now) room.old }
    ensures value { option_map (λ c. found_by (length drops.now) (map (λ r. map (rectangle_of E.ends) r.items) voltages.new) driven (map (rectangle_of E.ends) xs.new) (contraction_of c)) result
        ≡ found E.SCALE driven (map (drop_ends E.ends) drops.now) matrix.now.rows inverse.now.rows }
    ensures voltages_wide { All (λ r. length r.items ≡ length drops.now) voltages.new }
    ensures sizes_in { IsOfSize matrix.now.size (length drops.now) sizes.new }
    ensures left_in { HasLeftRoom matrix.now.size left.new }
    ensures room_in { HasRoom matrix.now.size (length drops.now) room.new }
{
    write_all_voltages(voltages, drops, inverse)?;
    write_bounds(sizes, drops, voltages, inverse, matrix, left)?;
    copy_column(voltages, driven as usize, column);
    write_drops(xs, drops, column)?;
    write_sizes(room.xs.as_mut_slice(), xs)?;
    room.contraction(sizes, drops, driven, matrix.size() as usize)
}

/// The estimate by the matrix C on the inverse's bench.
pub fn near_with<E: Enclosure>(
    drops: &[DropIntervals<E>],
    matrix: &Matrix<E>,
    inverse: &MiddleInverse<E>,
    driven: u32,
    voltages: &mut [Vec<Rect<E>>],
    column: &mut [Rect<E>],
    xs: &mut [Rect<E>],
    left: &mut LeftRoom<E>,
    sizes: &mut Sizes,
    room: &mut Room,
) -> Result<Near<E>, BranchwiseFault>
    requires few { matrix.now.size ≤ MAX_SIZE }
    requires count { matrix.now.size ≤ length drops.now }
    requires driven_in { driven < length drops.now }
    requires same { inverse.now.size ≡ matrix.now.size }
    requires square { length inverse.now.rows ≡ inverse.now.size }
    requires voltages_in { length voltages.old ≡ matrix.now.size }
    requires voltages_wide { All (λ r. length r.items ≡ length drops.now) voltages.old }
    requires column_in { length column.old ≡ matrix.now.size }
    requires xs_in { length xs.old ≡ length drops.now }
    requires left_in { HasLeftRoom matrix.now.size left.old }
    requires sizes_in { IsOfSize matrix.now.size (length drops.now) sizes.old }
    requires room_in { HasRoom matrix.now.size (length drops.now) room.old }
    ensures value { result_of (near_of E.ends) result ≡ near_with E.SCALE driven (map (drop_ends E.ends) drops.now) matrix.now.rows inverse.now.rows }
    ensures voltages_wide { All (λ r. length r.items ≡ length drops.now) voltages.new }
    ensures sizes_in { IsOfSize matrix.now.size (length drops.now) sizes.new }
    ensures left_in { HasLeftRoom matrix.now.size left.new }
    ensures room_in { HasRoom matrix.now.size (length drops.now) room.new }
{
    match write_found(
        drops, matrix, inverse, driven, voltages, column, xs, left, sizes, room,
    ) {
        Some(c) => contracting(drops, voltages, xs, driven, c),
        None => Err(BranchwiseFault::OutOfRange),
    }
}
