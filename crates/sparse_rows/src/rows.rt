// One step of the elimination on the listed rows, on cells that hold row after row.
ghost use Rattle.std.specs.Prelude.{◌≡◌, ℕ, ◌+◌, ◌*◌, ◌<◌, ◌≤◌, ◌⊎◌, List, length, map, suc, take, drop};
ghost use Rattle.std.specs.Option.{option_map};
ghost use Rattle.complex_interval.specs.Rect.{rectangle_of};
ghost use Rattle.plain_elimination.specs.Elimination.{later_row, later_rows};
ghost use Rattle.plain_elimination.specs.Layout.{rows_of, from_column};
ghost use Rattle.plain_elimination.specs.Matrix.{nought_rectangle};
ghost use Rattle.plain_elimination.specs.Rectangles.{rectangles};
ghost use Rattle.sparse_rows.specs.Listed.{Skips, ZeroAt, Out, ZeroOutside, KeepsZeros};
ghost use Rattle.sparse_rows.specs.Sides.{column_of};
ghost use Rattle.plain_elimination.specs.declared.limits.TheConstants.{MAX_SIZE};

use crate::cells::cell;
use crate::row::eliminate_listed;
use complex_interval::{Enclosure, Rect};

// The step of this pivot in one row: its entry in the pivot's column lies at `at`.
fn eliminate_at<E: Enclosure>(
    pivot: Rect<E>,
    first: &[Rect<E>],
    gaps: &[u32],
    start: usize,
    cells: &mut [Rect<E>],
    at: usize,
) -> Option<()>
    requires fits { at + 1 + length first.now ≤ length cells.old }
    requires gap_size { length gaps.now ≡ length first.now }
    requires few { length first.now ≤ MAX_SIZE }
    requires listed { Skips (ZeroAt (map (rectangle_of E.ends) first.now)) gaps.now start }
    ensures row { option_map (λ _. take (length first.now) (drop (at + 1) (map (rectangle_of E.ends) cells.new))) result
        ≡ later_row (rectangles E.SCALE) (rectangle_of E.ends pivot) (map (rectangle_of E.ends) first.now)
        (take (suc (length first.now)) (drop at (map (rectangle_of E.ends) cells.old))) }
    ensures before { take (at + 1) cells.new ≡ take (at + 1) cells.old }
    ensures after { drop (at + 1 + length first.now) cells.new ≡ drop (at + 1 + length first.now) cells.old }
    ensures zeros { (all : List ℕ) → ZeroOutside all (map (rectangle_of E.ends) cells.old)
        → ((j : ℕ) → j < length first.now → Out all (at + 1 + j) → ZeroAt (map (rectangle_of E.ends) first.now) j ⊎ Out all at)
        → ZeroOutside all (map (rectangle_of E.ends) cells.new) }
{
    let entry = cell(cells, at);
    let end = at + 1 + first.len();
    eliminate_listed(pivot, first, gaps, start, entry, &mut cells[at + 1..end])
}

/// The later rows after the step of this pivot. `first` has the entries after the pivot in its row, from the column after
/// `column` on, and there are as many rows. `start` and `gaps` list the columns and the rows alike.
pub fn eliminate_rows<E: Enclosure>(
    pivot: Rect<E>,
    first: &[Rect<E>],
    gaps: &[u32],
    start: usize,
    later: &mut [Rect<E>],
    column: usize,
) -> Option<()>
    requires row_size { column + 1 + length first.now ≤ MAX_SIZE }
    requires rows { length later.old ≡ length first.now * (column + 1 + length first.now) }
    requires gap_size { length gaps.now ≡ length first.now }
    requires columns_listed { Skips (ZeroAt (map (rectangle_of E.ends) first.now)) gaps.now start }
    requires rows_listed { Skips (λ r. ZeroAt (map (rectangle_of E.ends) later.old) (r * (column + 1 + length first.now) + column)) gaps.now start }
    ensures stated { let size = column + 1 + length first.now in
        option_map (λ _. from_column (column + 1) (rows_of (length first.now) size (map (rectangle_of E.ends) later.new))) result
        ≡ later_rows (rectangles E.SCALE) (rectangle_of E.ends pivot) (map (rectangle_of E.ends) first.now)
        (from_column column (rows_of (length first.now) size (map (rectangle_of E.ends) later.old))) }
    ensures entries { let entries = column_of nought_rectangle (length first.now) (column + 1 + length first.now) column in
        entries (map (rectangle_of E.ends) later.new) ≡ entries (map (rectangle_of E.ends) later.old) }
    ensures zeros { KeepsZeros (map (rectangle_of E.ends) first.now) (length first.now) (column + 1 + length first.now) column (map (rectangle_of E.ends) later.old) (map (rectangle_of E.ends) later.new) }
{
    let size = column + 1 + first.len();
    let mut i = start;
    while i < first.len() {
        eliminate_at(pivot, first, gaps, start, later, i * size + column)?;
        i += gaps[i] as usize;
    }
    Some(())
}
