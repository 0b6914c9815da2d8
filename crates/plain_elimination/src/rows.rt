// One step of the elimination, on cells that hold row after row.
ghost use Rattle.std.specs.Prelude.{◌≡◌, ◌+◌, ◌-◌, ◌*◌, ◌<◌, ◌≤◌, length, map, suc, take, drop};
ghost use Rattle.std.specs.Option.{option_map};
ghost use Rattle.complex_interval.specs.Rect.{rectangle_of};
ghost use Rattle.plain_elimination.specs.Elimination.{later_row, later_rows, later_line, later_lines};
ghost use Rattle.plain_elimination.specs.Layout.{rows_of, from_column, lines_from};
ghost use Rattle.plain_elimination.specs.Rectangles.{rectangles};
ghost use Rattle.plain_elimination.specs.declared.limits.TheConstants.{MAX_SIZE};

use crate::row::{eliminate_line, eliminate_row};
use complex_interval::{Enclosure, Rect};

// The step of this pivot in one row: its entry in the pivot's column lies at `start`.
fn eliminate_at<E: Enclosure>(
    pivot: Rect<E>,
    first: &[Rect<E>],
    cells: &mut [Rect<E>],
    start: usize,
) -> Option<()>
    requires { start + 1 + length first.now ≤ length cells.old }
    ensures row { option_map (λ _. take (length first.now) (drop (start + 1) (map (rectangle_of E.ends) cells.new))) result
        ≡ later_row (rectangles E.SCALE) (rectangle_of E.ends pivot) (map (rectangle_of E.ends) first.now)
        (take (suc (length first.now)) (drop start (map (rectangle_of E.ends) cells.old))) }
    ensures before { take (start + 1) cells.new ≡ take (start + 1) cells.old }
    ensures after { drop (start + 1 + length first.now) cells.new ≡ drop (start + 1 + length first.now) cells.old }
{
    let entry = cells[start];
    let end = start + 1 + first.len();
    eliminate_row(pivot, first, entry, &mut cells[start + 1..end])
}

/// The later rows after the step of this pivot. `first` has the entries after the pivot in its row, from the column after
/// `column` on.
pub fn eliminate_rows<E: Enclosure>(
    pivot: Rect<E>,
    first: &[Rect<E>],
    later: &mut [Rect<E>],
    rows: usize,
    column: usize,
) -> Option<()>
    requires row_size { column + 1 + length first.now ≤ MAX_SIZE }
    requires few_rows { rows ≤ MAX_SIZE }
    requires rows { length later.old ≡ rows * (column + 1 + length first.now) }
    ensures { let size = column + 1 + length first.now in
        option_map (λ _. from_column (column + 1) (rows_of rows size (map (rectangle_of E.ends) later.new))) result
        ≡ later_rows (rectangles E.SCALE) (rectangle_of E.ends pivot) (map (rectangle_of E.ends) first.now)
        (from_column column (rows_of rows size (map (rectangle_of E.ends) later.old))) }
{
    let size = column + 1 + first.len();
    for i in 0..rows {
        eliminate_at(pivot, first, later, i * size + column)?;
    }
    Some(())
}

// The step of this pivot in one line: its entry in the pivot's column lies at `start`.
fn eliminate_line_at<E: Enclosure>(
    pivot: Rect<E>,
    first: &[Rect<E>],
    first_right: Rect<E>,
    cells: &mut [Rect<E>],
    start: usize,
    right: Rect<E>,
) -> Option<Rect<E>>
    requires { start + 1 + length first.now ≤ length cells.old }
    ensures line { option_map (λ b. record { left = take (length first.now) (drop (start + 1) (map (rectangle_of E.ends) cells.new)); right = rectangle_of E.ends b }) result
        ≡ later_line (rectangles E.SCALE) (rectangle_of E.ends pivot) (map (rectangle_of E.ends) first.now) (rectangle_of E.ends first_right)
        (take (suc (length first.now)) (drop start (map (rectangle_of E.ends) cells.old))) (rectangle_of E.ends right) }
    ensures before { take (start + 1) cells.new ≡ take (start + 1) cells.old }
    ensures after { drop (start + 1 + length first.now) cells.new ≡ drop (start + 1 + length first.now) cells.old }
{
    let entry = cells[start];
    let end = start + 1 + first.len();
    eliminate_line(
        pivot,
        first,
        first_right,
        entry,
        &mut cells[start + 1..end],
        right,
    )
}

/// The later lines after the step of this pivot, whose row has the right side `first_right`.
pub fn eliminate_lines<E: Enclosure>(
    pivot: Rect<E>,
    first: &[Rect<E>],
    first_right: Rect<E>,
    later: &mut [Rect<E>],
    right: &mut [Rect<E>],
    column: usize,
) -> Option<()>
    requires row_size { column + 1 + length first.now ≤ MAX_SIZE }
    requires few_rows { length right.old ≤ MAX_SIZE }
    requires rows { length later.old ≡ length right.old * (column + 1 + length first.now) }
    ensures { let size = column + 1 + length first.now in
        option_map (λ _. lines_from (rectangles E.SCALE) (column + 1) size (map (rectangle_of E.ends) later.new) (map (rectangle_of E.ends) right.new)) result
        ≡ later_lines (rectangles E.SCALE) (rectangle_of E.ends pivot) (map (rectangle_of E.ends) first.now) (rectangle_of E.ends first_right)
        (lines_from (rectangles E.SCALE) column size (map (rectangle_of E.ends) later.old) (map (rectangle_of E.ends) right.old)) }
{
    let size = column + 1 + first.len();
    for i in 0..right.len() {
        let start = i * size + column;
        let changed = eliminate_line_at(pivot, first, first_right, later, start, right[i])?;
        right[i] = changed;
    }
    Some(())
}
