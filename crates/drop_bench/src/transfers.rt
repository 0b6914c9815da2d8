// How each drop takes part in each other.
ghost use Rattle.std.specs.Prelude.{◌≡◌, ◌<◌, length, map};
ghost use Rattle.std.specs.List.{All};
ghost use Rattle.std.specs.Option.{option_map};
ghost use Rattle.complex_interval.specs.Rect.{rectangle_of};
ghost use Rattle.middle_inverse.specs.Lists.{each};
ghost use Rattle.admittance_box.specs.Intervals.{placed_ends};
ghost use Rattle.branchwise_test.specs.Sizes.{drop_size, drop_sizes};
ghost use Rattle.drop_bench.specs.Columns.{column_of, columns};
ghost use Rattle.drop_bench.specs.Drops.{drop_ends};

use crate::column::drop_in;
use crate::drops::{DropIntervals, kept_size};
use admittance_box::PlacedTap;
use complex_interval::{Enclosure, Rect};

// The size of the drop of these taps at the voltages of a column.
fn drop_size<E: Enclosure>(
    taps: &[PlacedTap<E>],
    voltages: &[Vec<Rect<E>>],
    column: usize,
) -> Option<u64>
    requires { All (λ r. column < length r.items) voltages.now }
    ensures { result ≡ drop_size E.SCALE (map (placed_ends E.ends) taps.now) (column_of column (map (λ r. map (rectangle_of E.ends) r.items) voltages.now)) }
{
    kept_size(drop_in(taps, voltages, column)?)
}

// So at each column.
fn write_row<E: Enclosure>(
    row: &mut [u64],
    taps: &[PlacedTap<E>],
    voltages: &[Vec<Rect<E>>],
) -> Option<()>
    requires { All (λ r. length r.items ≡ length row.old) voltages.now }
    ensures { option_map (λ _. row.new) result ≡ drop_sizes E.SCALE (map (placed_ends E.ends) taps.now) (columns (length row.old) (map (λ r. map (rectangle_of E.ends) r.items) voltages.now)) }
{
    for i in 0..row.len() {
        row[i] = drop_size(taps, voltages, i)?;
    }
    Some(())
}

/// The sizes of all drops where the current 1 flows in through each drop, a row for each drop. The voltages then are a column for each drop.
pub fn write_transfers<E: Enclosure>(
    rows: &mut [Vec<u64>],
    drops: &[DropIntervals<E>],
    voltages: &[Vec<Rect<E>>],
) -> Option<()>
    requires count { length rows.old ≡ length drops.now }
    requires wide { All (λ r. length r.items ≡ length drops.now) rows.old }
    requires voltages_wide { All (λ r. length r.items ≡ length drops.now) voltages.now }
    ensures value { option_map (λ _. map (λ r. r.items) rows.new) result
        ≡ each (λ d. drop_sizes E.SCALE d.taps (columns (length drops.now) (map (λ r. map (rectangle_of E.ends) r.items) voltages.now))) (map (drop_ends E.ends) drops.now) }
    ensures wide { All (λ r. length r.items ≡ length drops.now) rows.new }
{
    for i in 0..drops.len() {
        write_row(rows[i].as_mut_slice(), drops[i].taps.as_slice(), voltages)?;
    }
    Some(())
}
