// How far a column is from the solution of the unit right side.
ghost use Rattle.std.specs.Prelude.{◌≡◌, ◌<◌, ◌≤◌, Some, length, map};
ghost use Rattle.std.specs.Option.{option_map};
ghost use Rattle.complex_interval.specs.Rect.{rectangle_of};
ghost use Rattle.complex_interval.specs.Rectangles.{sub_rectangles};
ghost use Rattle.plain_elimination.specs.Matrix.{Square, nought_rectangle};
ghost use Rattle.certified_inverse.specs.Certificate.{and_then, each_two, greatest, one_rectangle, size_of, unit_row, rows_times, column_of, column_left, sigma_of, in_size};

use crate::size::in_size;
use crate::sums::sum_products;
use complex_interval::{Enclosure, Rect};
use middle_inverse::{MiddleInverse, nought_point, size_of, write_unit};
use plain_elimination::Matrix;

/// A column of the inverse.
pub fn copy_column<E: Enclosure>(inverse: &MiddleInverse<E>, column: u32, x: &mut [Rect<E>])
    requires column_in { column < inverse.now.size }
    requires x_in { length x.old ≡ inverse.now.size }
    ensures { column_of column inverse.now.rows ≡ Some (map (rectangle_of E.ends) x.new) }
{
    for i in 0..inverse.size() {
        x[i as usize] = inverse.row(i)[column as usize];
    }
}

// The matrix times a column.
fn multiply<E: Enclosure>(matrix: &Matrix<E>, x: &[Rect<E>], values: &mut [Rect<E>]) -> Option<()>
    requires x_in { length x.now ≡ matrix.now.size }
    requires values_in { length values.old ≡ matrix.now.size }
    ensures value { option_map (λ _. map (rectangle_of E.ends) values.new) result ≡ rows_times E.SCALE matrix.now.rows (map (rectangle_of E.ends) x.now) }
    ensures rows { length matrix.now.rows ≡ matrix.now.size }
{
    for i in 0..matrix.size() {
        values[i as usize] = sum_products(nought_point(), matrix.row(i), x)?;
    }
    Some(())
}

/// The first column less the second, in its place.
pub fn take_away<E: Enclosure>(column: &mut [Rect<E>], other: &[Rect<E>]) -> Option<()>
    requires { length column.old ≡ length other.now }
    ensures { option_map (λ _. map (rectangle_of E.ends) column.new) result ≡ each_two sub_rectangles (map (rectangle_of E.ends) column.old) (map (rectangle_of E.ends) other.now) }
{
    for i in 0..column.len() {
        column[i] = column[i].sub(other[i])?;
    }
    Some(())
}

// The unit column less the matrix times x.
fn residual<E: Enclosure>(
    matrix: &Matrix<E>,
    place: u32,
    x: &[Rect<E>],
    left: &mut [Rect<E>],
    values: &mut [Rect<E>],
) -> Option<()>
    requires place_in { place < matrix.now.size }
    requires x_in { length x.now ≡ matrix.now.size }
    requires left_in { length left.old ≡ matrix.now.size }
    requires values_in { length values.old ≡ matrix.now.size }
    ensures { option_map (λ _. map (rectangle_of E.ends) left.new) result ≡ column_left E.SCALE place matrix.now.rows (map (rectangle_of E.ends) x.now) }
{
    write_unit(left, place as usize);
    multiply(matrix, x, values)?;
    take_away(left, values)
}

// The greatest size of an entry of the inverse times a column.
fn greatest_moved<E: Enclosure>(inverse: &MiddleInverse<E>, left: &[Rect<E>]) -> Option<u64>
    requires { length left.now ≡ inverse.now.size }
    ensures { result ≡ and_then (rows_times E.SCALE inverse.now.rows (map (rectangle_of E.ends) left.now)) (λ moved. Some (greatest (map size_of moved))) }
{
    let mut sigma: u64 = 0;
    for i in 0..inverse.size() {
        let moved = sum_products(nought_point(), inverse.row(i), left)?;
        sigma = sigma.max(size_of(moved));
    }
    Some(sigma)
}

/// The greatest size of the inverse times the residual of x, if each operation has a value and it is at most 2^62.
pub fn sigma_of<E: Enclosure>(
    inverse: &MiddleInverse<E>,
    matrix: &Matrix<E>,
    place: u32,
    x: &[Rect<E>],
    left: &mut [Rect<E>],
    values: &mut [Rect<E>],
) -> Option<u64>
    requires same { inverse.now.size ≡ matrix.now.size }
    requires place_in { place < matrix.now.size }
    requires x_in { length x.now ≡ matrix.now.size }
    requires left_in { length left.old ≡ matrix.now.size }
    requires values_in { length values.old ≡ matrix.now.size }
    ensures { result ≡ and_then (sigma_of E.SCALE place inverse.now.rows matrix.now.rows (map (rectangle_of E.ends) x.now)) in_size }
{
    residual(matrix, place, x, left, values)?;
    let sigma = greatest_moved(inverse, left)?;
    in_size(sigma as u128)
}
