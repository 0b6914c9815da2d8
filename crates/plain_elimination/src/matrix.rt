// A square matrix of complex intervals.
ghost use Rattle.std.specs.Prelude.{◌≡◌, ◌+◌, ◌*◌, ◌<◌, ◌≤◌, Some, IfOk, [], get_or, length, map, replicate};
ghost use Rattle.complex_interval.specs.Rect.{rectangle_of};
ghost use Rattle.plain_elimination.specs.Layout.{rows_of};
ghost use Rattle.plain_elimination.specs.Matrix.{Square, entry, set_entry, nought_rectangle};
ghost use Rattle.plain_elimination.specs.declared.limits.TheConstants.{MAX_SIZE};

use crate::cells::{cells_of_row, clear_cells, nought_cells, place_of};
use complex_interval::{Enclosure, Rect};
use std::alloc::{AllocError, Global};
use std::marker::Model;

/// A square matrix, which contracts see as its size and its list of rows of rectangles.
#[derive(Drop)]
pub struct Matrix<E: Enclosure> {
    pub(crate) size: u32,
    pub(crate) cells: Vec<Rect<E>>,
}

impl<E: Enclosure> Model for Matrix<E> {
    ghost use Rattle.std.specs.Prelude.{◌≡◌, ◌*◌, ◌≤◌, length, map};
    ghost use Rattle.complex_interval.specs.Rect.{rectangle_of};
    ghost use Rattle.plain_elimination.specs.Layout.{rows_of};
    ghost use Rattle.plain_elimination.specs.Matrix.{Square};
    ghost use Rattle.plain_elimination.specs.declared.limits.TheConstants.{MAX_SIZE};

    ghost Value = { Square };

    ghost view = { λ m. record { size = m.size; rows = rows_of m.size m.size (map (rectangle_of E.ends) m.cells.items) } };

    ghost invariant = { λ m. (length m.cells.items ≡ m.size * m.size) × (m.size ≤ MAX_SIZE) };
}

impl<E: Enclosure> Matrix<E> {
    /// A matrix of this size with zero in each entry. The only call that takes memory.
    pub fn new(alloc: Global, size: u32) -> Result<Matrix<E>, AllocError>
        requires { size ≤ MAX_SIZE }
        ensures { IfOk result (λ m. m ≡ record { size = size; rows = replicate size (replicate size nought_rectangle) }) }
    {
        let width = size as usize;
        let cells = nought_cells(alloc, width * width)?;
        Ok(Matrix { size, cells })
    }

    /// Sets each entry to zero.
    pub fn clear(&mut self)
        ensures { self.new ≡ record { size = self.old.size; rows = replicate self.old.size (replicate self.old.size nought_rectangle) } }
    {
        clear_cells(self.cells.as_mut_slice());
    }

    /// The number of rows, and of entries in each.
    pub fn size(&self) -> u32
        ensures value { result ≡ self.now.size }
        ensures rows { length self.now.rows ≡ self.now.size }
    {
        self.size
    }

    /// The entries, row after row.
    pub fn cells(&self) -> &[Rect<E>]
        ensures rows { rows_of self.now.size self.now.size (map (rectangle_of E.ends) result.now) ≡ self.now.rows }
        ensures square { length result.now ≡ self.now.size * self.now.size }
        ensures few { self.now.size ≤ MAX_SIZE }
    {
        self.cells.as_slice()
    }

    /// The entry in this row and this column, counted from 0.
    pub fn get(&self, row: u32, column: u32) -> Rect<E>
        requires row_in { row < self.now.size }
        requires column_in { column < self.now.size }
        ensures { entry self.now.rows row column ≡ Some (rectangle_of E.ends result) }
    {
        let place = place_of(self.size, row, column);
        self.cells[place]
    }

    /// The entries of this row, counted from 0.
    pub fn row(&self, row: u32) -> &[Rect<E>]
        requires { row < self.now.size }
        ensures value { map (rectangle_of E.ends) result.now ≡ get_or self.now.rows row [] }
        ensures width { length result.now ≡ self.now.size }
    {
        cells_of_row(self.cells.as_slice(), self.size as usize, row as usize)
    }

    /// Sets the entry in this row and this column, counted from 0.
    pub fn set(&mut self, row: u32, column: u32, value: Rect<E>)
        requires row_in { row < self.old.size }
        requires column_in { column < self.old.size }
        ensures { self.new ≡ record { size = self.old.size; rows = set_entry self.old.rows row column (rectangle_of E.ends value) } }
    {
        let place = place_of(self.size, row, column);
        self.cells[place] = value;
    }
}
