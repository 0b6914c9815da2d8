// One step of the elimination on a row, at the listed columns.
ghost use Rattle.std.specs.Prelude.{◌≡◌, ◌≤◌, ◌∷◌, length, map};
ghost use Rattle.std.specs.Option.{option_map};
ghost use Rattle.complex_interval.specs.Rect.{rectangle_of};
ghost use Rattle.plain_elimination.specs.Elimination.{sweep, later_row};
ghost use Rattle.plain_elimination.specs.Rectangles.{rectangles};
ghost use Rattle.sparse_rows.specs.Listed.{Skips, ZeroAt, Agree};
ghost use Rattle.plain_elimination.specs.Matrix.{nought_rectangle};
ghost use Rattle.plain_elimination.specs.declared.limits.TheConstants.{MAX_SIZE};

use crate::cells::cell;
use complex_interval::{Enclosure, Rect};
use plain_elimination::{is_zero, set_cell};

/// Each entry a of the row becomes a - f a0, a0 the entry of the pivot row in the same place. `start` is the first listed
/// place, and `gaps` has the way from each place to the next one. The places between are zero in the pivot's row.
pub fn sweep_listed<E: Enclosure>(
    f: Rect<E>,
    first: &[Rect<E>],
    gaps: &[u32],
    start: usize,
    row: &mut [Rect<E>],
) -> Option<()>
    requires first_size { length first.now ≡ length row.old }
    requires gap_size { length gaps.now ≡ length row.old }
    requires few { length row.old ≤ MAX_SIZE }
    requires listed { Skips (ZeroAt (map (rectangle_of E.ends) first.now)) gaps.now start }
    ensures stated { option_map (λ _. map (rectangle_of E.ends) row.new) result
        ≡ sweep (rectangles E.SCALE) (rectangle_of E.ends f) (map (rectangle_of E.ends) first.now) (map (rectangle_of E.ends) row.old) }
    ensures kept { Agree (ZeroAt (map (rectangle_of E.ends) first.now)) (map (rectangle_of E.ends) row.new) (map (rectangle_of E.ends) row.old) }
{
    let mut i = start;
    while i < row.len() {
        let part = f.mul(first[i])?;
        let now = cell(row, i).sub(part)?;
        set_cell(row, i, now);
        i += gaps[i] as usize;
    }
    Some(())
}

/// The further entries of a later row after the step of this pivot. `entry` is the later row's in the pivot's column.
pub fn eliminate_listed<E: Enclosure>(
    pivot: Rect<E>,
    first: &[Rect<E>],
    gaps: &[u32],
    start: usize,
    entry: Rect<E>,
    row: &mut [Rect<E>],
) -> Option<()>
    requires first_size { length first.now ≡ length row.old }
    requires gap_size { length gaps.now ≡ length row.old }
    requires few { length row.old ≤ MAX_SIZE }
    requires listed { Skips (ZeroAt (map (rectangle_of E.ends) first.now)) gaps.now start }
    ensures stated { option_map (λ _. map (rectangle_of E.ends) row.new) result
        ≡ later_row (rectangles E.SCALE) (rectangle_of E.ends pivot) (map (rectangle_of E.ends) first.now) (rectangle_of E.ends entry ∷ map (rectangle_of E.ends) row.old) }
    ensures kept { Agree (ZeroAt (map (rectangle_of E.ends) first.now)) (map (rectangle_of E.ends) row.new) (map (rectangle_of E.ends) row.old) }
    ensures stays { rectangle_of E.ends entry ≡ nought_rectangle → row.new ≡ row.old }
{
    if is_zero(entry) {
        return Some(());
    }
    let f = entry.div(pivot)?;
    sweep_listed(f, first, gaps, start, row)
}
