// Solving in place: the steps of the reduction with the right side beside them, and then the way back.
ghost use Rattle.std.specs.Prelude.{◌≡◌, ◌+◌, ◌-◌, ◌*◌, ◌<◌, ◌≤◌, ℕ, Ok, OnOk, [], ◌∷◌, suc, length, map, take, drop};
ghost use Rattle.std.specs.Option.{option_map};
ghost use Rattle.complex_interval.specs.Rect.{rectangle_of};
ghost use Rattle.plain_elimination.specs.declared.failure.Failure.TheVariants.{OutOfRange};
ghost use Rattle.plain_elimination.specs.Elimination.{and_then, bind, or_fail, split_pivot, later_lines, take_away, solve_step, solve};
ghost use Rattle.plain_elimination.specs.Layout.{rows_of, lines_from, lines_left, pivot_row, with_unknown, way_back};
ghost use Rattle.plain_elimination.specs.Matrix.{HoldsSolutions};
ghost use Rattle.plain_elimination.specs.Rectangles.{rectangles, solve_rectangles};
ghost use Rattle.plain_elimination.specs.declared.limits.TheConstants.{MAX_SIZE};

use crate::cells::{cells_from, cells_up_to, set_cell};
use crate::column::Column;
use crate::failure::Failure;
use crate::matrix::Matrix;
use crate::row::{holds_zero, take_away};
use crate::rows::eliminate_lines;
use complex_interval::{Enclosure, Rect};

// One step, by the pivot's row from the pivot on and its right side.
fn solve_by<E: Enclosure>(
    first: &[Rect<E>],
    first_right: Rect<E>,
    later: &mut [Rect<E>],
    right: &mut [Rect<E>],
    column: usize,
) -> Result<(), Failure>
    requires pivot { 0 < length first.now }
    requires row_size { column + length first.now ≤ MAX_SIZE }
    requires few_rows { length right.old ≤ MAX_SIZE }
    requires rows { length later.old ≡ length right.old * (column + length first.now) }
    ensures { let size = column + length first.now in
        bind result (λ _. Ok (lines_from (rectangles E.SCALE) (column + 1) size (map (rectangle_of E.ends) later.new) (map (rectangle_of E.ends) right.new)))
        ≡ bind (split_pivot (rectangles E.SCALE) (column + 1) (map (rectangle_of E.ends) first.now)) (λ split.
        or_fail (OutOfRange (column + 1)) (later_lines (rectangles E.SCALE) split.0 split.1 (rectangle_of E.ends first_right)
        (lines_from (rectangles E.SCALE) column size (map (rectangle_of E.ends) later.old) (map (rectangle_of E.ends) right.old)))) }
{
    let step = column as u32 + 1;
    let pivot = first[0];
    if holds_zero(pivot) {
        return Err(Failure::PivotHoldsZero(step));
    }
    match eliminate_lines(
        pivot,
        cells_from(first, 1),
        first_right,
        later,
        right,
        column,
    ) {
        Some(()) => Ok(()),
        None => Err(Failure::OutOfRange(step)),
    }
}

// One step of a square system: the pivot of this column is tested, then the later lines are changed.
fn solve_column<E: Enclosure>(
    cells: &mut [Rect<E>],
    right: &mut [Rect<E>],
    size: usize,
    column: usize,
) -> Result<(), Failure>
    requires column_in { column < size }
    requires few { size ≤ MAX_SIZE }
    requires square { length cells.old ≡ size * size }
    requires sides { length right.old ≡ size }
    ensures step { bind result (λ _. Ok (lines_left (rectangles E.SCALE) size (column + 1) (map (rectangle_of E.ends) cells.new) (map (rectangle_of E.ends) right.new)))
        ≡ solve_step (rectangles E.SCALE) (column + 1) (lines_left (rectangles E.SCALE) size column (map (rectangle_of E.ends) cells.old) (map (rectangle_of E.ends) right.old)) }
    ensures rows_kept { take ((column + 1) * size) cells.new ≡ take ((column + 1) * size) cells.old }
    ensures sides_kept { take (column + 1) right.new ≡ take (column + 1) right.old }
{
    let first_right = right[column];
    let (done, later) = cells.split_at_mut((column + 1) * size);
    let first = cells_from(done, column * size + column);
    let (_, later_right) = right.split_at_mut(column + 1);
    solve_by(first, first_right, later, later_right, column)
}

// The steps of a square system.
fn eliminate_system<E: Enclosure>(
    cells: &mut [Rect<E>],
    right: &mut [Rect<E>],
    size: usize,
) -> Result<(), Failure>
    requires few { size ≤ MAX_SIZE }
    requires square { length cells.old ≡ size * size }
    requires sides { length right.old ≡ size }
    ensures { bind result (λ _. way_back (rectangles E.SCALE) size size (map (rectangle_of E.ends) cells.new) (map (rectangle_of E.ends) right.new) (Ok []))
        ≡ solve (rectangles E.SCALE) (rows_of size size (map (rectangle_of E.ends) cells.old)) (map (rectangle_of E.ends) right.old) }
{
    for column in 0..size {
        solve_column(cells, right, size, column)?;
    }
    Ok(())
}

// The unknown of a row, by its right side and the unknowns behind it.
fn unknown_of<E: Enclosure>(
    pivot: Rect<E>,
    first: &[Rect<E>],
    b: Rect<E>,
    xs: &[Rect<E>],
) -> Option<Rect<E>>
    requires { length first.now ≡ length xs.now }
    ensures { option_map (rectangle_of E.ends) result
        ≡ and_then (take_away (rectangles E.SCALE) (rectangle_of E.ends b) (map (rectangle_of E.ends) first.now) (map (rectangle_of E.ends) xs.now))
        (λ d. (rectangles E.SCALE).div d (rectangle_of E.ends pivot)) }
{
    take_away(b, first, xs)?.div(pivot)
}

// The unknown of a row, by its entries from the pivot on.
fn unknown_of_line<E: Enclosure>(line: &[Rect<E>], b: Rect<E>, xs: &[Rect<E>]) -> Option<Rect<E>>
    requires { length line.now ≡ suc (length xs.now) }
    ensures { (step : ℕ) → with_unknown (rectangles E.SCALE) step (map (rectangle_of E.ends) line.now) (rectangle_of E.ends b ∷ []) (map (rectangle_of E.ends) xs.now)
        ≡ bind (or_fail (OutOfRange step) (option_map (rectangle_of E.ends) result)) (λ x. Ok (x ∷ map (rectangle_of E.ends) xs.now)) }
{
    unknown_of(line[0], cells_from(line, 1), b, xs)
}

// The unknown of this row in the place of its right side, from the unknowns behind it.
fn solve_row<E: Enclosure>(
    cells: &[Rect<E>],
    right: &mut [Rect<E>],
    size: usize,
    row: usize,
) -> Result<(), Failure>
    requires row_in { row < size }
    requires few { size ≤ MAX_SIZE }
    requires square { length cells.now ≡ size * size }
    requires sides { length right.old ≡ size }
    ensures unknown { bind result (λ _. Ok (drop row (map (rectangle_of E.ends) right.new)))
        ≡ with_unknown (rectangles E.SCALE) (row + 1) (pivot_row size row (map (rectangle_of E.ends) cells.now))
        (drop row (take (row + 1) (map (rectangle_of E.ends) right.old))) (drop (row + 1) (map (rectangle_of E.ends) right.old)) }
    ensures kept { take row right.new ≡ take row right.old }
{
    let done = cells_up_to(cells, (row + 1) * size);
    let line = cells_from(done, row * size + row);
    let unknown = unknown_of_line(line, right[row], cells_from(right, row + 1));
    match unknown {
        Some(x) => {
            set_cell(right, row, x);
            Ok(())
        }
        None => Err(Failure::OutOfRange(row as u32 + 1)),
    }
}

// The way back, from the last row up.
fn substitute_back<E: Enclosure>(
    cells: &[Rect<E>],
    right: &mut [Rect<E>],
    size: usize,
) -> Result<(), Failure>
    requires few { size ≤ MAX_SIZE }
    requires square { length cells.now ≡ size * size }
    requires sides { length right.old ≡ size }
    ensures { bind result (λ _. Ok (map (rectangle_of E.ends) right.new))
        ≡ way_back (rectangles E.SCALE) size size (map (rectangle_of E.ends) cells.now) (map (rectangle_of E.ends) right.old) (Ok []) }
{
    for row in (0..size).rev() {
        solve_row(cells, right, size, row)?;
    }
    Ok(())
}

/// The solution of a square system, in place. What it leaves in the cells, and after a failure in the right sides, is
/// unspecified.
pub fn solve_cells<E: Enclosure>(
    cells: &mut [Rect<E>],
    right: &mut [Rect<E>],
    size: usize,
) -> Result<(), Failure>
    requires few { size ≤ MAX_SIZE }
    requires square { length cells.old ≡ size * size }
    requires sides { length right.old ≡ size }
    ensures { bind result (λ _. Ok (map (rectangle_of E.ends) right.new))
        ≡ solve (rectangles E.SCALE) (rows_of size size (map (rectangle_of E.ends) cells.old)) (map (rectangle_of E.ends) right.old) }
{
    eliminate_system(cells, right, size)?;
    substitute_back(cells, right, size)
}

/// The solution of the matrix's rows with these right sides, which takes their place. It works in place and takes no memory.
///
/// The steps are those of `reduce_to_last` with the right side as a further column, and the last pivot is tested too.
/// Then, from the last row up, x is the right side less each a x, subtracted in ascending columns, over the pivot. A step
/// fails where its pivot holds zero, and where an end is out of range; on the way back the step is the row's number.
/// Both sizes stay. The entries of the matrix, and after a failure the right sides, are unspecified afterwards.
pub fn solve<E: Enclosure>(matrix: &mut Matrix<E>, right: &mut Column<E>) -> Result<(), Failure>
    requires some { 1 ≤ matrix.old.size }
    requires sizes { length right.old ≡ matrix.old.size }
    ensures stated { bind result (λ _. Ok right.new) ≡ solve_rectangles E.SCALE matrix.old.rows right.old }
    ensures held { OnOk result (HoldsSolutions E.SCALE matrix.old right.old right.new) }
    ensures size { matrix.new.size ≡ matrix.old.size }
    ensures right_size { length right.new ≡ length right.old }
{
    let size = matrix.size as usize;
    solve_cells(
        matrix.cells.as_mut_slice(),
        right.cells.as_mut_slice(),
        size,
    )
}
