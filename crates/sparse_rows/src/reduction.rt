// Reduction in place at the listed places.
ghost use Rattle.std.specs.Prelude.{◌≡◌, ◌+◌, ◌-◌, ◌*◌, ◌<◌, ◌≤◌, Ok, length, map, take, drop, slice_index};
ghost use Rattle.complex_interval.specs.Rect.{rectangle_of};
ghost use Rattle.plain_elimination.specs.declared.failure.Failure.TheVariants.{OutOfRange};
ghost use Rattle.plain_elimination.specs.Elimination.{bind, or_fail, split_pivot, later_rows, reduce_step, reduce};
ghost use Rattle.plain_elimination.specs.Layout.{rows_of, from_column, rows_left};
ghost use Rattle.plain_elimination.specs.Matrix.{nought_rectangle};
ghost use Rattle.plain_elimination.specs.Rectangles.{rectangles};
ghost use Rattle.sparse_rows.specs.Listed.{Skips, ZeroAt, ZeroOutside, KeepsZeros, IsFill};
ghost use Rattle.sparse_rows.specs.Sides.{column_of, later_entries};
ghost use Rattle.plain_elimination.specs.declared.limits.TheConstants.{MAX_SIZE};

use crate::cells::{cell, gaps_from, gaps_up_to};
use crate::rows::eliminate_rows;
use complex_interval::{Enclosure, Rect};
use plain_elimination::{Failure, cells_from, holds_zero};

// One step, by the pivot's row from the pivot on, with its gaps.
fn reduce_by<E: Enclosure>(
    line: &[Rect<E>],
    gaps: &[u32],
    later: &mut [Rect<E>],
    column: usize,
) -> Result<(), Failure>
    requires pivot { 0 < length line.now }
    requires row_size { column + length line.now ≤ MAX_SIZE }
    requires rows { length later.old ≡ (length line.now - 1) * (column + length line.now) }
    requires gap_size { length gaps.now ≡ length line.now }
    requires diagonal { 1 ≤ slice_index gaps.now 0 }
    requires columns_listed { Skips (ZeroAt (map (rectangle_of E.ends) (drop 1 line.now))) (drop 1 gaps.now) (slice_index gaps.now 0 - 1) }
    requires rows_listed { Skips (λ r. ZeroAt (map (rectangle_of E.ends) later.old) (r * (column + length line.now) + column)) (drop 1 gaps.now) (slice_index gaps.now 0 - 1) }
    ensures stated { let size = column + length line.now in
        bind result (λ _. Ok (from_column (column + 1) (rows_of (length line.now - 1) size (map (rectangle_of E.ends) later.new))))
        ≡ bind (split_pivot (rectangles E.SCALE) (column + 1) (map (rectangle_of E.ends) line.now)) (λ split.
        or_fail (OutOfRange (column + 1)) (later_rows (rectangles E.SCALE) split.0 split.1 (from_column column (rows_of (length line.now - 1) size (map (rectangle_of E.ends) later.old))))) }
    ensures entries { let entries = column_of nought_rectangle (length line.now - 1) (column + length line.now) column in
        entries (map (rectangle_of E.ends) later.new) ≡ entries (map (rectangle_of E.ends) later.old) }
    ensures zeros { KeepsZeros (map (rectangle_of E.ends) (drop 1 line.now)) (length line.now - 1) (column + length line.now) column (map (rectangle_of E.ends) later.old) (map (rectangle_of E.ends) later.new) }
{
    let step = column as u32 + 1;
    let pivot = cell(line, 0);
    if holds_zero(pivot) {
        return Err(Failure::PivotHoldsZero(step));
    }
    let start = gaps[0] as usize - 1;
    match eliminate_rows(
        pivot,
        cells_from(line, 1),
        gaps_from(gaps, 1),
        start,
        later,
        column,
    ) {
        Some(()) => Ok(()),
        None => Err(Failure::OutOfRange(step)),
    }
}

/// One step of a square list of rows: the pivot of this column is tested, then the later rows are changed. Their entries in this
/// column stay.
pub fn reduce_column<E: Enclosure>(
    cells: &mut [Rect<E>],
    gaps: &[u32],
    size: usize,
    column: usize,
) -> Result<(), Failure>
    requires column_in { column < size }
    requires few { size ≤ MAX_SIZE }
    requires square { length cells.old ≡ size * size }
    requires gap_size { length gaps.now ≡ size * size }
    requires fill { IsFill gaps.now size }
    requires zeros { ZeroOutside gaps.now (map (rectangle_of E.ends) cells.old) }
    ensures stated { bind result (λ _. Ok (rows_left size (column + 1) (map (rectangle_of E.ends) cells.new)))
        ≡ reduce_step (rectangles E.SCALE) (column + 1) (rows_left size column (map (rectangle_of E.ends) cells.old)) }
    ensures rows_kept { take ((column + 1) * size) cells.new ≡ take ((column + 1) * size) cells.old }
    ensures entries { later_entries size column (map (rectangle_of E.ends) cells.new) ≡ later_entries size column (map (rectangle_of E.ends) cells.old) }
    ensures zeros { ZeroOutside gaps.now (map (rectangle_of E.ends) cells.new) }
{
    let (done, later) = cells.split_at_mut((column + 1) * size);
    let line = cells_from(done, column * size + column);
    let done_gaps = gaps_up_to(gaps, (column + 1) * size);
    let line_gaps = gaps_from(done_gaps, column * size + column);
    reduce_by(line, line_gaps, later, column)
}

/// The reduction of a square list of rows, in place, at the listed places. What it leaves in the cells is unspecified, but zero
/// where no place is listed.
pub fn reduce_listed<E: Enclosure>(
    cells: &mut [Rect<E>],
    gaps: &[u32],
    size: usize,
) -> Result<Rect<E>, Failure>
    requires some { 0 < size }
    requires few { size ≤ MAX_SIZE }
    requires square { length cells.old ≡ size * size }
    requires gap_size { length gaps.now ≡ size * size }
    requires fill { IsFill gaps.now size }
    requires zeros { ZeroOutside gaps.now (map (rectangle_of E.ends) cells.old) }
    ensures stated { bind result (λ value. Ok (rectangle_of E.ends value))
        ≡ reduce (rectangles E.SCALE) (rows_of size size (map (rectangle_of E.ends) cells.old)) }
    ensures zeros { ZeroOutside gaps.now (map (rectangle_of E.ends) cells.new) }
{
    for column in 0..size - 1 {
        reduce_column(cells, gaps, size, column)?;
    }
    Ok(cells[cells.len() - 1])
}
