// A bench on which the middle of a matrix is inverted.
ghost use Rattle.std.specs.Prelude.{◌≡◌, ◌+◌, ◌<◌, ◌≤◌, [], Ok, IfOk, get_or, length, drop, map, replicate};
ghost use Rattle.std.specs.List.{All};
ghost use Rattle.complex_interval.specs.Rect.{rectangle_of};
ghost use Rattle.plain_elimination.specs.Matrix.{Square, nought_rectangle};
ghost use Rattle.middle_inverse.specs.Inverse.{bind, middle_inverse};
ghost use Rattle.middle_inverse.specs.Points.{rectangle_at};
ghost use Rattle.plain_elimination.specs.declared.limits.TheConstants.{MAX_SIZE};

use crate::columns::eliminate_columns;
use crate::fault::InverseFault;
use crate::point::nought;
use crate::raw::Point;
use crate::writing::{copy_rows, write_rows};
use complex_interval::{Enclosure, Rect};
use plain_elimination::{Matrix, nought_cells};
use std::alloc::{AllocError, Global};
use std::marker::Model;

/// A bench, which contracts see as the square matrix that is the inverse: its size and its rows.
#[derive(Drop)]
pub struct MiddleInverse<E: Enclosure> {
    size: u32,
    points: Vec<Vec<Point>>,
    next: Vec<u32>,
    rows: Vec<Vec<Rect<E>>>,
}

impl<E: Enclosure> Model for MiddleInverse<E> {
    ghost use Rattle.std.specs.Prelude.{◌≡◌, ◌+◌, ◌≤◌, length, map};
    ghost use Rattle.std.specs.List.{All};
    ghost use Rattle.complex_interval.specs.Rect.{rectangle_of};
    ghost use Rattle.plain_elimination.specs.Matrix.{Square};
    ghost use Rattle.plain_elimination.specs.declared.limits.TheConstants.{MAX_SIZE};

    ghost Value = { Square };

    ghost view = { λ m. record { size = m.size; rows = map (λ r. map (rectangle_of E.ends) r.items) m.rows.items } };

    ghost invariant = { λ m. record {
      few : m.size ≤ MAX_SIZE;
      points_in : length m.points.items ≡ m.size;
      points_wide : All (λ r. length r.items ≡ m.size + m.size) m.points.items;
      next_in : length m.next.items ≡ m.size + m.size + 1;
      rows_in : length m.rows.items ≡ m.size;
      rows_wide : All (λ r. length r.items ≡ m.size) m.rows.items;
    } };
}

// As many rows of noughts, each as wide as their number.
fn nought_rows<E: Enclosure>(alloc: Global, size: usize) -> Result<Vec<Vec<Rect<E>>>, AllocError>
    ensures { IfOk result (λ rows. map (λ r. map (rectangle_of E.ends) r.items) rows.items ≡ replicate size (replicate size nought_rectangle)) }
{
    let mut rows = Vec::new(alloc);
    for _row in 0..size {
        let cells = nought_cells(alloc, size)?;
        rows.push(cells)?;
    }
    Ok(rows)
}

// So many rows of so many points.
fn point_rows(alloc: Global, size: usize, width: usize) -> Result<Vec<Vec<Point>>, AllocError>
    ensures count { IfOk result (λ rows. length rows.items ≡ size) }
    ensures wide { IfOk result (λ rows. All (λ r. length r.items ≡ width) rows.items) }
{
    let mut rows = Vec::new(alloc);
    for _row in 0..size {
        let mut points = Vec::new(alloc);
        points.resize(width, nought())?;
        rows.push(points)?;
    }
    Ok(rows)
}

// Room for so many places.
fn places(alloc: Global, count: usize) -> Result<Vec<u32>, AllocError>
    ensures { IfOk result (λ next. length next.items ≡ count) }
{
    let mut next = Vec::new(alloc);
    next.resize(count, 0)?;
    Ok(next)
}

// The inverse behind the middles, on these rows of points.
fn invert_points<E: Enclosure>(
    points: &mut [Vec<Point>],
    next: &mut [u32],
    matrix: &Matrix<E>,
) -> Result<(), InverseFault>
    requires few { matrix.now.size ≤ MAX_SIZE }
    requires count { length points.old ≡ matrix.now.size }
    requires wide { All (λ r. length r.items ≡ matrix.now.size + matrix.now.size) points.old }
    requires next_in { length next.old ≡ matrix.now.size + matrix.now.size + 1 }
    ensures value { bind result (λ _. Ok (map (λ row. drop matrix.now.size row) (map (λ r. map rectangle_at r.items) points.new)))
        ≡ middle_inverse E.SCALE matrix.now.rows }
    ensures wide { All (λ r. length r.items ≡ matrix.now.size + matrix.now.size) points.new }
{
    write_rows(points, matrix);
    eliminate_columns::<E>(points, next)
}

impl<E: Enclosure> MiddleInverse<E> {
    /// A bench for matrices of this size. The only call that takes memory.
    pub fn new(alloc: Global, size: u32) -> Result<MiddleInverse<E>, AllocError>
        requires { size ≤ MAX_SIZE }
        ensures { IfOk result (λ m. m ≡ record { size = size; rows = replicate size (replicate size nought_rectangle) }) }
    {
        let count = size as usize;
        let points = point_rows(alloc, count, count + count)?;
        let rows = nought_rows(alloc, count)?;
        let next = places(alloc, count + count + 1)?;
        Ok(MiddleInverse {
            size,
            points,
            next,
            rows,
        })
    }

    /// The number of rows, and of entries in each.
    pub fn size(&self) -> u32
        ensures value { result ≡ self.now.size }
        ensures rows { length self.now.rows ≡ self.now.size }
    {
        self.size
    }

    /// Inverts the middle of the matrix. After `Ok` the bench has the stated inverse, after a fault its entries are unspecified.
    pub fn invert(&mut self, matrix: &Matrix<E>) -> Result<(), InverseFault>
        requires { self.old.size ≡ matrix.now.size }
        ensures value { bind result (λ _. Ok self.new.rows) ≡ middle_inverse E.SCALE matrix.now.rows }
        ensures size { self.new.size ≡ self.old.size }
        ensures rows { length self.new.rows ≡ self.new.size }
    {
        let inverted = invert_points(self.points.as_mut_slice(), self.next.as_mut_slice(), matrix);
        copy_rows(
            self.rows.as_mut_slice(),
            self.points.as_slice(),
            self.size as usize,
        );
        inverted
    }

    /// A row of the inverse, counted from 0.
    pub fn row(&self, row: u32) -> &[Rect<E>]
        requires { row < self.now.size }
        ensures value { map (rectangle_of E.ends) result.now ≡ get_or self.now.rows row [] }
        ensures width { length result.now ≡ self.now.size }
    {
        self.rows[row as usize].as_slice()
    }
}
