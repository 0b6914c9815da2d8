// Voltages by a matrix in the place of the inverse, and the drops at them.
ghost use Rattle.std.specs.Prelude.{◌≡◌, ◌<◌, length, map};
ghost use Rattle.std.specs.List.{All};
ghost use Rattle.std.specs.Option.{option_map};
ghost use Rattle.complex_interval.specs.Rect.{rectangle_of};
ghost use Rattle.middle_inverse.specs.Lists.{each};
ghost use Rattle.branchwise_test.specs.Sizes.{drop_over, all_voltages, kept_size};
ghost use Rattle.drop_bench.specs.Columns.{columns};
ghost use Rattle.drop_bench.specs.Drops.{drop_ends};

use crate::drops::{DropIntervals, drop_over, kept_size};
use complex_interval::{Enclosure, Rect};
use middle_inverse::MiddleInverse;

/// The drops at one list of voltages.
pub fn write_drops<E: Enclosure>(
    values: &mut [Rect<E>],
    drops: &[DropIntervals<E>],
    voltages: &[Rect<E>],
) -> Option<()>
    requires { length values.old ≡ length drops.now }
    ensures { option_map (λ _. map (rectangle_of E.ends) values.new) result ≡ each (λ d. drop_over E.SCALE d.taps (map (rectangle_of E.ends) voltages.now)) (map (drop_ends E.ends) drops.now) }
{
    for i in 0..drops.len() {
        values[i] = drop_over(drops[i].taps.as_slice(), voltages)?;
    }
    Some(())
}

/// By the matrix on the inverse's bench, the voltages of all nodes where the current 1 flows in through each drop: a row for each node and
/// in it a column for each drop.
pub fn write_all_voltages<E: Enclosure>(
    rows: &mut [Vec<Rect<E>>],
    drops: &[DropIntervals<E>],
    inverse: &MiddleInverse<E>,
) -> Option<()>
    requires count { length rows.old ≡ inverse.now.size }
    requires wide { All (λ r. length r.items ≡ length drops.now) rows.old }
    requires square { length inverse.now.rows ≡ inverse.now.size }
    ensures value { option_map (λ _. columns (length drops.now) (map (λ r. map (rectangle_of E.ends) r.items) rows.new)) result ≡ all_voltages E.SCALE inverse.now.rows (map (drop_ends E.ends) drops.now) }
    ensures wide { All (λ r. length r.items ≡ length drops.now) rows.new }
{
    for i in 0..inverse.size() {
        write_drops(rows[i as usize].as_mut_slice(), drops, inverse.row(i))?;
    }
    Some(())
}

/// The sizes of rectangles.
pub fn write_sizes<E: Enclosure>(sizes: &mut [u64], values: &[Rect<E>]) -> Option<()>
    requires { length sizes.old ≡ length values.now }
    ensures { option_map (λ _. sizes.new) result ≡ each kept_size (map (rectangle_of E.ends) values.now) }
{
    for i in 0..values.len() {
        sizes[i] = kept_size(values[i])?;
    }
    Some(())
}

/// The sizes of the rests of drops.
pub fn write_rests<E: Enclosure>(rests: &mut [u64], drops: &[DropIntervals<E>]) -> Option<()>
    requires { length rests.old ≡ length drops.now }
    ensures { option_map (λ _. rests.new) result ≡ each (λ d. kept_size d.rest) (map (drop_ends E.ends) drops.now) }
{
    for i in 0..drops.len() {
        rests[i] = kept_size(drops[i].rest)?;
    }
    Some(())
}
