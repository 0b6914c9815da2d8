// Reduction in place, so that one matrix serves for every box of a scan.
ghost use Rattle.std.specs.Prelude.{◌≡◌, ◌+◌, ◌-◌, ◌*◌, ◌<◌, ◌≤◌, Ok, IfOk, length, map, drop};
ghost use Rattle.complex_interval.specs.Rect.{rectangle_of};
ghost use Rattle.plain_elimination.specs.declared.failure.Failure.TheVariants.{OutOfRange};
ghost use Rattle.plain_elimination.specs.Elimination.{bind, or_fail, split_pivot, later_rows, reduce_step, reduce};
ghost use Rattle.plain_elimination.specs.Layout.{rows_of, from_column, rows_left};
ghost use Rattle.plain_elimination.specs.Matrix.{HoldsComplements};
ghost use Rattle.plain_elimination.specs.Rectangles.{rectangles, reduce_rectangles};
ghost use Rattle.plain_elimination.specs.declared.limits.TheConstants.{MAX_SIZE};

use crate::cells::cells_from;
use crate::failure::Failure;
use crate::matrix::Matrix;
use crate::row::holds_zero;
use crate::rows::eliminate_rows;
use complex_interval::{Enclosure, Rect};

// One step, by the pivot's row from the pivot on.
fn reduce_by<E: Enclosure>(
    first: &[Rect<E>],
    later: &mut [Rect<E>],
    rows: usize,
    column: usize,
) -> Result<(), Failure>
    requires pivot { 0 < length first.now }
    requires row_size { column + length first.now ≤ MAX_SIZE }
    requires few_rows { rows ≤ MAX_SIZE }
    requires rows { length later.old ≡ rows * (column + length first.now) }
    ensures { let size = column + length first.now in
        bind result (λ _. Ok (from_column (column + 1) (rows_of rows size (map (rectangle_of E.ends) later.new))))
        ≡ bind (split_pivot (rectangles E.SCALE) (column + 1) (map (rectangle_of E.ends) first.now)) (λ split.
        or_fail (OutOfRange (column + 1)) (later_rows (rectangles E.SCALE) split.0 split.1 (from_column column (rows_of rows size (map (rectangle_of E.ends) later.old))))) }
{
    let step = column as u32 + 1;
    let pivot = first[0];
    if holds_zero(pivot) {
        return Err(Failure::PivotHoldsZero(step));
    }
    match eliminate_rows(pivot, cells_from(first, 1), later, rows, column) {
        Some(()) => Ok(()),
        None => Err(Failure::OutOfRange(step)),
    }
}

// One step of a square list of rows: the pivot of this column is tested, then the later rows are changed.
fn reduce_column<E: Enclosure>(
    cells: &mut [Rect<E>],
    size: usize,
    column: usize,
) -> Result<(), Failure>
    requires column_in { column < size }
    requires few { size ≤ MAX_SIZE }
    requires square { length cells.old ≡ size * size }
    ensures { bind result (λ _. Ok (rows_left size (column + 1) (map (rectangle_of E.ends) cells.new)))
        ≡ reduce_step (rectangles E.SCALE) (column + 1) (rows_left size column (map (rectangle_of E.ends) cells.old)) }
{
    let (done, later) = cells.split_at_mut((column + 1) * size);
    let first = cells_from(done, column * size + column);
    reduce_by(first, later, size - 1 - column, column)
}

/// The reduction of a square list of rows, in place. What it leaves in the cells is unspecified.
pub fn reduce_cells<E: Enclosure>(cells: &mut [Rect<E>], size: usize) -> Result<Rect<E>, Failure>
    requires some { 0 < size }
    requires few { size ≤ MAX_SIZE }
    requires square { length cells.old ≡ size * size }
    ensures { bind result (λ value. Ok (rectangle_of E.ends value))
        ≡ reduce (rectangles E.SCALE) (rows_of size size (map (rectangle_of E.ends) cells.old)) }
{
    for column in 0..size - 1 {
        reduce_column(cells, size, column)?;
    }
    Ok(cells[cells.len() - 1])
}

/// The value of the matrix reduced to its last row and column: of a nodal matrix whose last node is driven, the admittance that is
/// seen there. It works in place and takes no memory.
///
/// The first row is the pivot row. Each later row whose first entry isn't exactly zero is changed: f is its first entry
/// divided by the pivot, and each further entry a becomes a - f a0, a0 the pivot row's. The later rows go on without their
/// first entries, until one entry is left, which is the value. A step fails where its pivot holds zero, and where an
/// end is out of range. The matrix keeps its size, and its entries are unspecified afterwards.
pub fn reduce_to_last<E: Enclosure>(matrix: &mut Matrix<E>) -> Result<Rect<E>, Failure>
    requires { 1 ≤ matrix.old.size }
    ensures stated { bind result (λ value. Ok (rectangle_of E.ends value)) ≡ reduce_rectangles E.SCALE matrix.old.rows }
    ensures held { IfOk result (λ value. HoldsComplements E.SCALE matrix.old (rectangle_of E.ends value)) }
    ensures size { matrix.new.size ≡ matrix.old.size }
{
    let size = matrix.size as usize;
    reduce_cells(matrix.cells.as_mut_slice(), size)
}
