// How far the product of both matrices is from the unit matrix.
ghost use Rattle.std.specs.Prelude.{◌≡◌, ◌<◌, ◌≤◌, length, map};
ghost use Rattle.std.specs.Option.{option_map};
ghost use Rattle.complex_interval.specs.Rect.{rectangle_of};
ghost use Rattle.plain_elimination.specs.Matrix.{Square, nought_rectangle};
ghost use Rattle.certified_inverse.specs.Ways.{AreWays};
ghost use Rattle.certified_inverse.specs.Certificate.{and_then, one_rectangle, unit_row, row_size, row_left, theta_of, in_size};
ghost use Rattle.plain_elimination.specs.declared.limits.TheConstants.{MAX_SIZE};

use crate::size::{in_size, size_apart};
use crate::sums::combine_listed;
use complex_interval::{Enclosure, Rect};
use middle_inverse::{MiddleInverse, write_unit};
use plain_elimination::Matrix;

// The sum of the sizes of the unit row at this place less the matrix's rows, each times its factor.
fn row_total<E: Enclosure>(
    factors: &[Rect<E>],
    matrix: &Matrix<E>,
    ways: &[Vec<u32>],
    place: usize,
    unit: &mut [Rect<E>],
    sums: &mut [Rect<E>],
) -> Option<u128>
    requires few { matrix.now.size ≤ MAX_SIZE }
    requires place_in { place < matrix.now.size }
    requires factors_in { length factors.now ≡ matrix.now.size }
    requires unit_in { length unit.old ≡ matrix.now.size }
    requires sums_in { length sums.old ≡ matrix.now.size }
    requires ways_in { length ways.now ≡ matrix.now.size }
    requires ways { AreWays matrix.now.rows (map (λ r. r.items) ways.now) }
    ensures { result ≡ option_map row_size (row_left E.SCALE matrix.now.rows (unit_row (one_rectangle E.SCALE) nought_rectangle matrix.now.size place) (map (rectangle_of E.ends) factors.now)) }
{
    write_unit(unit, place);
    combine_listed(sums, factors, matrix, ways)?;
    size_apart(unit, sums)
}

/// The greatest row sum, if each operation has a value and it is at most 2^62.
pub fn theta_of<E: Enclosure>(
    inverse: &MiddleInverse<E>,
    matrix: &Matrix<E>,
    ways: &[Vec<u32>],
    unit: &mut [Rect<E>],
    sums: &mut [Rect<E>],
) -> Option<u64>
    requires few { matrix.now.size ≤ MAX_SIZE }
    requires same { inverse.now.size ≡ matrix.now.size }
    requires rows { length inverse.now.rows ≡ inverse.now.size }
    requires unit_in { length unit.old ≡ matrix.now.size }
    requires sums_in { length sums.old ≡ matrix.now.size }
    requires ways_in { length ways.now ≡ matrix.now.size }
    requires ways { AreWays matrix.now.rows (map (λ r. r.items) ways.now) }
    ensures { result ≡ and_then (theta_of E.SCALE inverse.now.rows matrix.now.rows) in_size }
{
    let mut theta: u128 = 0;
    for i in 0..matrix.size() {
        let total = row_total(inverse.row(i), matrix, ways, i as usize, unit, sums)?;
        theta = theta.max(total);
    }
    in_size(theta)
}
