// Solving in place at the listed places: each step is one of the reduction and then one of the right sides. Then comes the way back.
ghost use Rattle.std.specs.Prelude.{◌≡◌, ◌+◌, ◌*◌, ◌<◌, ◌≤◌, Ok, [], get_or, length, map, take, drop};
ghost use Rattle.std.specs.Option.{option_map};
ghost use Rattle.complex_interval.specs.Rect.{rectangle_of};
ghost use Rattle.plain_elimination.specs.Elimination.{bind, solve_step, solve};
ghost use Rattle.plain_elimination.specs.Layout.{rows_of, lines_left, way_back};
ghost use Rattle.plain_elimination.specs.Matrix.{nought_rectangle};
ghost use Rattle.plain_elimination.specs.Rectangles.{rectangles};
ghost use Rattle.sparse_rows.specs.Listed.{ZeroOutside, IsFill};
ghost use Rattle.sparse_rows.specs.Sides.{later_entries, later_sides};
ghost use Rattle.plain_elimination.specs.declared.limits.TheConstants.{MAX_SIZE};

use crate::back::substitute_back;
use crate::cells::{cell, gaps_from, gaps_up_to};
use crate::reduction::reduce_column;
use crate::sides::eliminate_sides;
use complex_interval::{Enclosure, Rect};
use plain_elimination::{Failure, cells_from};

// The step of the right sides behind this column. The entries of the column still stand in the rows, whose step is done.
fn solve_sides<E: Enclosure>(
    cells: &[Rect<E>],
    gaps: &[u32],
    right: &mut [Rect<E>],
    size: usize,
    column: usize,
) -> Option<()>
    requires column_in { column < size }
    requires few { size ≤ MAX_SIZE }
    requires square { length cells.now ≡ size * size }
    requires sides { length right.old ≡ size }
    requires gap_size { length gaps.now ≡ size * size }
    requires fill { IsFill gaps.now size }
    requires zeros { ZeroOutside gaps.now (map (rectangle_of E.ends) cells.now) }
    ensures sides { let pivot = get_or (map (rectangle_of E.ends) cells.now) (column * size + column) nought_rectangle in
        let first_right = get_or (map (rectangle_of E.ends) right.old) column nought_rectangle in
        option_map (λ _. drop (column + 1) (map (rectangle_of E.ends) right.new)) result
        ≡ later_sides (rectangles E.SCALE) pivot first_right (later_entries size column (map (rectangle_of E.ends) cells.now)) (drop (column + 1) (map (rectangle_of E.ends) right.old)) }
    ensures kept { take (column + 1) right.new ≡ take (column + 1) right.old }
{
    let pivot = cell(cells, column * size + column);
    let first_right = cell(right, column);
    let done_gaps = gaps_up_to(gaps, (column + 1) * size);
    let line_gaps = gaps_from(done_gaps, column * size + column);
    let start = line_gaps[0] as usize - 1;
    let later = cells_from(cells, (column + 1) * size);
    let (_, later_right) = right.split_at_mut(column + 1);
    eliminate_sides(
        pivot,
        first_right,
        gaps_from(line_gaps, 1),
        start,
        later,
        later_right,
        column,
    )
}

// One step of a square system: the pivot of this column is tested, then the later rows and their right sides are changed.
fn solve_column<E: Enclosure>(
    cells: &mut [Rect<E>],
    gaps: &[u32],
    right: &mut [Rect<E>],
    size: usize,
    column: usize,
) -> Result<(), Failure>
    requires column_in { column < size }
    requires few { size ≤ MAX_SIZE }
    requires square { length cells.old ≡ size * size }
    requires sides { length right.old ≡ size }
    requires gap_size { length gaps.now ≡ size * size }
    requires fill { IsFill gaps.now size }
    requires zeros { ZeroOutside gaps.now (map (rectangle_of E.ends) cells.old) }
    ensures step { bind result (λ _. Ok (lines_left (rectangles E.SCALE) size (column + 1) (map (rectangle_of E.ends) cells.new) (map (rectangle_of E.ends) right.new)))
        ≡ solve_step (rectangles E.SCALE) (column + 1) (lines_left (rectangles E.SCALE) size column (map (rectangle_of E.ends) cells.old) (map (rectangle_of E.ends) right.old)) }
    ensures rows_kept { take ((column + 1) * size) cells.new ≡ take ((column + 1) * size) cells.old }
    ensures sides_kept { take (column + 1) right.new ≡ take (column + 1) right.old }
    ensures zeros { ZeroOutside gaps.now (map (rectangle_of E.ends) cells.new) }
{
    reduce_column(cells, gaps, size, column)?;
    match solve_sides(cells, gaps, right, size, column) {
        Some(()) => Ok(()),
        None => Err(Failure::OutOfRange(column as u32 + 1)),
    }
}

// The steps of a square system.
fn eliminate_system<E: Enclosure>(
    cells: &mut [Rect<E>],
    gaps: &[u32],
    right: &mut [Rect<E>],
    size: usize,
) -> Result<(), Failure>
    requires few { size ≤ MAX_SIZE }
    requires square { length cells.old ≡ size * size }
    requires sides { length right.old ≡ size }
    requires gap_size { length gaps.now ≡ size * size }
    requires fill { IsFill gaps.now size }
    requires zeros { ZeroOutside gaps.now (map (rectangle_of E.ends) cells.old) }
    ensures stated { bind result (λ _. way_back (rectangles E.SCALE) size size (map (rectangle_of E.ends) cells.new) (map (rectangle_of E.ends) right.new) (Ok []))
        ≡ solve (rectangles E.SCALE) (rows_of size size (map (rectangle_of E.ends) cells.old)) (map (rectangle_of E.ends) right.old) }
    ensures zeros { ZeroOutside gaps.now (map (rectangle_of E.ends) cells.new) }
{
    for column in 0..size {
        solve_column(cells, gaps, right, size, column)?;
    }
    Ok(())
}

/// The solution of a square system, in place, at the listed places. What it leaves in the cells is unspecified, but zero where no
/// place is listed. After a failure what it leaves in the right sides is unspecified too.
pub fn solve_listed<E: Enclosure>(
    cells: &mut [Rect<E>],
    gaps: &[u32],
    right: &mut [Rect<E>],
    size: usize,
) -> Result<(), Failure>
    requires few { size ≤ MAX_SIZE }
    requires square { length cells.old ≡ size * size }
    requires sides { length right.old ≡ size }
    requires gap_size { length gaps.now ≡ size * size }
    requires fill { IsFill gaps.now size }
    requires zeros { ZeroOutside gaps.now (map (rectangle_of E.ends) cells.old) }
    ensures stated { bind result (λ _. Ok (map (rectangle_of E.ends) right.new))
        ≡ solve (rectangles E.SCALE) (rows_of size size (map (rectangle_of E.ends) cells.old)) (map (rectangle_of E.ends) right.old) }
    ensures zeros { ZeroOutside gaps.now (map (rectangle_of E.ends) cells.new) }
{
    eliminate_system(cells, gaps, right, size)?;
    substitute_back(cells, gaps, right, size)
}
