// Drops of the columns of rows.
ghost use Rattle.std.specs.Prelude.{◌≡◌, ◌<◌, length, map, slice_get};
ghost use Rattle.std.specs.List.{All};
ghost use Rattle.std.specs.Option.{option_map};
ghost use Rattle.complex_interval.specs.Rect.{rectangle_of};
ghost use Rattle.admittance_box.specs.Intervals.{placed_ends};
ghost use Rattle.branchwise_test.specs.Sizes.{with_tap, drop_over};
ghost use Rattle.drop_bench.specs.Columns.{column_of};

use admittance_box::PlacedTap;
use complex_interval::{Enclosure, Rect};
use middle_inverse::nought_point;

/// The entry of a column at this place, if there is one.
pub fn entry_in<E: Enclosure>(rows: &[Vec<Rect<E>>], column: usize, place: u32) -> Option<Rect<E>>
    requires wide { All (λ r. column < length r.items) rows.now }
    ensures { option_map (rectangle_of E.ends) result ≡ slice_get (column_of column (map (λ r. map (rectangle_of E.ends) r.items) rows.now)) place }
{
    let place = place as usize;
    if place < rows.len() {
        let row = rows[place].as_slice();
        Some(row[column])
    } else {
        None
    }
}

// The sum, and on top of it the column's entry at the tap's place times its ratio.
fn add_tap_in<E: Enclosure>(
    sum: Rect<E>,
    tap: PlacedTap<E>,
    rows: &[Vec<Rect<E>>],
    column: usize,
) -> Option<Rect<E>>
    requires wide { All (λ r. column < length r.items) rows.now }
    ensures { option_map (rectangle_of E.ends) result
        ≡ with_tap E.SCALE (rectangle_of E.ends sum) (placed_ends E.ends tap) (column_of column (map (λ r. map (rectangle_of E.ends) r.items) rows.now)) }
{
    let entry = entry_in(rows, column, tap.place)?;
    let term = entry.scale(tap.ratio)?;
    sum.add(term)
}

/// The drop of these taps where the nodes have the voltages of a column.
pub fn drop_in<E: Enclosure>(
    taps: &[PlacedTap<E>],
    rows: &[Vec<Rect<E>>],
    column: usize,
) -> Option<Rect<E>>
    requires wide { All (λ r. column < length r.items) rows.now }
    ensures { option_map (rectangle_of E.ends) result
        ≡ drop_over E.SCALE (map (placed_ends E.ends) taps.now) (column_of column (map (λ r. map (rectangle_of E.ends) r.items) rows.now)) }
{
    let mut sum = nought_point();
    for tap in taps {
        sum = add_tap_in(sum, *tap, rows, column)?;
    }
    Some(sum)
}

/// The entries of a column.
pub fn copy_column<E: Enclosure>(rows: &[Vec<Rect<E>>], column: usize, values: &mut [Rect<E>])
    requires wide { All (λ r. column < length r.items) rows.now }
    requires count { length values.old ≡ length rows.now }
    ensures { map (rectangle_of E.ends) values.new ≡ column_of column (map (λ r. map (rectangle_of E.ends) r.items) rows.now) }
{
    for i in 0..rows.len() {
        let row = rows[i].as_slice();
        values[i] = row[column];
    }
}
