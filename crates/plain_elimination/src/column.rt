// A column of complex intervals: the right side of a system, in whose place the solution is left.
ghost use Rattle.std.specs.Prelude.{◌≡◌, ◌<◌, ◌≤◌, Some, IfOk, length, replicate, slice_get, slice_set};
ghost use Rattle.complex_interval.specs.Rect.{rectangle_of};
ghost use Rattle.plain_elimination.specs.Matrix.{nought_rectangle};
ghost use Rattle.plain_elimination.specs.declared.limits.TheConstants.{MAX_SIZE};

use crate::cells::nought_cells;
use complex_interval::{Enclosure, Rect};
use std::alloc::{AllocError, Global};
use std::marker::Model;

/// A column, which contracts see as a list of rectangles.
#[derive(Drop)]
pub struct Column<E: Enclosure> {
    pub(crate) cells: Vec<Rect<E>>,
}

impl<E: Enclosure> Model for Column<E> {
    ghost use Rattle.std.specs.Prelude.{List, map};
    ghost use Rattle.complex_interval.specs.Rectangles.{Rectangle};
    ghost use Rattle.complex_interval.specs.Rect.{rectangle_of};

    ghost Value = { List Rectangle };

    ghost view = { λ c. map (rectangle_of E.ends) c.cells.items };
}

impl<E: Enclosure> Column<E> {
    /// A column of this size with zero in each row. The only call that takes memory.
    pub fn new(alloc: Global, size: u32) -> Result<Column<E>, AllocError>
        requires { size ≤ MAX_SIZE }
        ensures { IfOk result (λ c. c ≡ replicate size nought_rectangle) }
    {
        let cells = nought_cells(alloc, size as usize)?;
        Ok(Column { cells })
    }

    /// The entry in this row, counted from 0.
    pub fn get(&self, row: u32) -> Rect<E>
        requires { row < length self.now }
        ensures { slice_get self.now row ≡ Some (rectangle_of E.ends result) }
    {
        self.cells[row as usize]
    }

    /// Sets the entry in this row, counted from 0.
    pub fn set(&mut self, row: u32, value: Rect<E>)
        requires { row < length self.old }
        ensures { self.new ≡ slice_set self.old row (rectangle_of E.ends value) }
    {
        self.cells[row as usize] = value;
    }
}
