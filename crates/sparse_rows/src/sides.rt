// One step of the elimination on the right sides of a system, at the listed rows.
ghost use Rattle.std.specs.Prelude.{◌≡◌, ◌+◌, ◌*◌, ◌≤◌, length, map};
ghost use Rattle.std.specs.Option.{option_map};
ghost use Rattle.complex_interval.specs.Rect.{rectangle_of};
ghost use Rattle.plain_elimination.specs.Matrix.{nought_rectangle};
ghost use Rattle.plain_elimination.specs.Rectangles.{rectangles};
ghost use Rattle.sparse_rows.specs.Listed.{Skips, ZeroAt};
ghost use Rattle.sparse_rows.specs.Sides.{column_of, later_side, later_sides};
ghost use Rattle.plain_elimination.specs.declared.limits.TheConstants.{MAX_SIZE};

use crate::cells::cell;
use complex_interval::{Enclosure, Rect};
use plain_elimination::{is_zero, set_cell};

// What becomes of a later right side: `entry` is the one of its row in the pivot's column.
fn later_side<E: Enclosure>(
    pivot: Rect<E>,
    first_right: Rect<E>,
    entry: Rect<E>,
    right: Rect<E>,
) -> Option<Rect<E>>
    ensures { option_map (rectangle_of E.ends) result
        ≡ later_side (rectangles E.SCALE) (rectangle_of E.ends pivot) (rectangle_of E.ends first_right) (rectangle_of E.ends entry) (rectangle_of E.ends right) }
{
    if is_zero(entry) {
        return Some(right);
    }
    let f = entry.div(pivot)?;
    let part = f.mul(first_right)?;
    right.sub(part)
}

/// The later right sides after the step of this pivot. `first_right` is the pivot row's, and `later` has the later rows, whose
/// entries in the pivot's column are as before. `start` and `gaps` list the rows.
pub fn eliminate_sides<E: Enclosure>(
    pivot: Rect<E>,
    first_right: Rect<E>,
    gaps: &[u32],
    start: usize,
    later: &[Rect<E>],
    right: &mut [Rect<E>],
    column: usize,
) -> Option<()>
    requires row_size { column + 1 + length right.old ≤ MAX_SIZE }
    requires rows { length later.now ≡ length right.old * (column + 1 + length right.old) }
    requires gap_size { length gaps.now ≡ length right.old }
    requires rows_listed { Skips (λ r. ZeroAt (map (rectangle_of E.ends) later.now) (r * (column + 1 + length right.old) + column)) gaps.now start }
    ensures { option_map (λ _. map (rectangle_of E.ends) right.new) result
        ≡ later_sides (rectangles E.SCALE) (rectangle_of E.ends pivot) (rectangle_of E.ends first_right)
        (column_of nought_rectangle (length right.old) (column + 1 + length right.old) column (map (rectangle_of E.ends) later.now)) (map (rectangle_of E.ends) right.old) }
{
    let size = column + 1 + right.len();
    let mut r = start;
    while r < right.len() {
        let entry = cell(later, r * size + column);
        let side = later_side(pivot, first_right, entry, cell(right, r))?;
        set_cell(right, r, side);
        r += gaps[r] as usize;
    }
    Some(())
}
