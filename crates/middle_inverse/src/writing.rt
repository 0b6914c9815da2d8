// A bench's rows: the middles of a matrix, and the unit rows beside them.
ghost use Rattle.std.specs.Prelude.{◌≡◌, ◌+◌, ◌<◌, ◌++◌, drop, length, map, replicate};
ghost use Rattle.std.specs.List.{All};
ghost use Rattle.complex_interval.specs.Rect.{rectangle_of};
ghost use Rattle.plain_elimination.specs.Matrix.{Square, nought_rectangle};
ghost use Rattle.middle_inverse.specs.Inverse.{middle_point, one_rectangle, unit_row, with_units};
ghost use Rattle.middle_inverse.specs.Points.{rectangle_at};

use crate::point::{middle_point, nought, one, one_point, rect_at};
use crate::raw::Point;
use complex_interval::{Enclosure, Rect};
use plain_elimination::{Matrix, clear_cells};

// The points of these middles.
fn write_middles<E: Enclosure>(row: &mut [Point], from: &[Rect<E>])
    requires { length row.old ≡ length from.now }
    ensures { map rectangle_at row.new ≡ map middle_point (map (rectangle_of E.ends) from.now) }
{
    for i in 0..row.len() {
        row[i] = middle_point(from[i]);
    }
}

/// The unit row with 1 at this place.
pub fn write_unit<E: Enclosure>(row: &mut [Rect<E>], place: usize)
    requires { place < length row.old }
    ensures { map (rectangle_of E.ends) row.new ≡ unit_row (one_rectangle E.SCALE) nought_rectangle (length row.old) place }
{
    clear_cells(row);
    row[place] = one_point();
}

// Sets each entry to zero.
fn clear_points(row: &mut [Point])
    ensures { map rectangle_at row.new ≡ replicate (length row.old) nought_rectangle }
{
    for i in 0..row.len() {
        row[i] = nought();
    }
}

// The same unit row, of points.
fn write_unit_points<E: Enclosure>(row: &mut [Point], place: usize)
    requires { place < length row.old }
    ensures { map rectangle_at row.new ≡ unit_row (one_rectangle E.SCALE) nought_rectangle (length row.old) place }
{
    clear_points(row);
    row[place] = one::<E>();
}

// A row with its unit row beside it.
fn write_row<E: Enclosure>(row: &mut [Point], from: &[Rect<E>], place: usize)
    requires twice { length row.old ≡ length from.now + length from.now }
    requires place_in { place < length from.now }
    ensures { map rectangle_at row.new
        ≡ map middle_point (map (rectangle_of E.ends) from.now) ++ unit_row (one_rectangle E.SCALE) nought_rectangle (length from.now) place }
{
    let (left, right) = row.split_at_mut(from.len());
    write_middles(left, from);
    write_unit_points::<E>(right, place);
}

/// The middles of the matrix, each row with its unit row beside it.
pub fn write_rows<E: Enclosure>(rows: &mut [Vec<Point>], matrix: &Matrix<E>)
    requires count { length rows.old ≡ matrix.now.size }
    requires wide { All (λ r. length r.items ≡ matrix.now.size + matrix.now.size) rows.old }
    ensures value { map (λ r. map rectangle_at r.items) rows.new ≡ with_units E.SCALE (length matrix.now.rows) 0 matrix.now.rows }
    ensures wide { All (λ r. length r.items ≡ matrix.now.size + matrix.now.size) rows.new }
{
    for i in 0..matrix.size() {
        write_row(rows[i as usize].as_mut_slice(), matrix.row(i), i as usize);
    }
}

// The rectangles of these points.
fn copy_row<E: Enclosure>(row: &mut [Rect<E>], from: &[Point])
    requires { length row.old ≡ length from.now }
    ensures { map (rectangle_of E.ends) row.new ≡ map rectangle_at from.now }
{
    for i in 0..row.len() {
        row[i] = rect_at(from[i]);
    }
}

/// The rectangles of each row's second half.
pub fn copy_rows<E: Enclosure>(rows: &mut [Vec<Rect<E>>], from: &[Vec<Point>], size: usize)
    requires count { length rows.old ≡ length from.now }
    requires wide { All (λ r. length r.items ≡ size) rows.old }
    requires twice { All (λ r. length r.items ≡ size + size) from.now }
    ensures value { map (λ r. map (rectangle_of E.ends) r.items) rows.new ≡ map (λ row. drop size row) (map (λ r. map rectangle_at r.items) from.now) }
    ensures wide { All (λ r. length r.items ≡ size) rows.new }
{
    for i in 0..rows.len() {
        let whole = from[i].as_slice();
        copy_row(rows[i].as_mut_slice(), &whole[size..]);
    }
}
