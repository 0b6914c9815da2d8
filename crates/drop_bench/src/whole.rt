// The estimate by the drops, from the middle matrix on.
ghost use Rattle.std.specs.Prelude.{◌≡◌, ◌<◌, ◌≤◌, length, map};
ghost use Rattle.std.specs.List.{All};
ghost use Rattle.plain_elimination.specs.Matrix.{Square};
ghost use Rattle.branchwise_test.specs.Enclosed.{near_of_drops};
ghost use Rattle.drop_bench.specs.Bounds.{IsOfSize, HasRoom, HasLeftRoom};
ghost use Rattle.drop_bench.specs.Drops.{drop_ends, IsInside};
ghost use Rattle.drop_bench.specs.Near.{near_of};
ghost use Rattle.drop_bench.specs.Results.{result_of};
ghost use Rattle.plain_elimination.specs.declared.limits.TheConstants.{MAX_SIZE};

use crate::drops::DropIntervals;
use crate::found::near_with;
use crate::left::LeftRoom;
use crate::middle::write_middle;
use crate::near::Near;
use crate::room::Room;
use crate::sizes::Sizes;
use branchwise_test::BranchwiseFault;
use complex_interval::{Enclosure, Rect};
use middle_inverse::{InverseFault, MiddleInverse};
use plain_elimination::Matrix;

/// The estimate by the drops, of which the first are those of the matrix's nodes, the last of these driven.
pub fn near_of_drops<E: Enclosure>(
    drops: &[DropIntervals<E>],
    matrix: &mut Matrix<E>,
    inverse: &mut MiddleInverse<E>,
    voltages: &mut [Vec<Rect<E>>],
    column: &mut [Rect<E>],
    xs: &mut [Rect<E>],
    left: &mut LeftRoom<E>,
    sizes: &mut Sizes,
    room: &mut Room,
) -> Result<Near<E>, BranchwiseFault>
    requires some { 0 < matrix.old.size }
    requires few { matrix.old.size ≤ MAX_SIZE }
    requires count { matrix.old.size ≤ length drops.now }
    requires inside { All (IsInside matrix.old.size) drops.now }
    requires same { inverse.old.size ≡ matrix.old.size }
    requires voltages_in { length voltages.old ≡ matrix.old.size }
    requires voltages_wide { All (λ r. length r.items ≡ length drops.now) voltages.old }
    requires column_in { length column.old ≡ matrix.old.size }
    requires xs_in { length xs.old ≡ length drops.now }
    requires left_in { HasLeftRoom matrix.old.size left.old }
    requires sizes_in { IsOfSize matrix.old.size (length drops.now) sizes.old }
    requires room_in { HasRoom matrix.old.size (length drops.now) room.old }
    ensures value { result_of (near_of E.ends) result ≡ near_of_drops E.SCALE matrix.old.size (map (drop_ends E.ends) drops.now) }
    ensures matrix_in { matrix.new.size ≡ matrix.old.size }
    ensures inverse_in { inverse.new.size ≡ inverse.old.size }
    ensures voltages_wide { All (λ r. length r.items ≡ length drops.now) voltages.new }
    ensures sizes_in { IsOfSize matrix.old.size (length drops.now) sizes.new }
    ensures left_in { HasLeftRoom matrix.old.size left.new }
    ensures room_in { HasRoom matrix.old.size (length drops.now) room.new }
{
    if write_middle(matrix, drops).is_none() {
        return Err(BranchwiseFault::OutOfRange);
    }
    match inverse.invert(matrix) {
        Err(InverseFault::NoInverse(column)) => Err(BranchwiseFault::NoInverse(column)),
        Err(InverseFault::OutOfRange) => Err(BranchwiseFault::OutOfRange),
        Ok(()) => {
            let driven = matrix.size() - 1;
            near_with(
                drops, matrix, inverse, driven, voltages, column, xs, left, sizes, room,
            )
        }
    }
}
