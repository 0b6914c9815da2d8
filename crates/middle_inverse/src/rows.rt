// Whole rows of points.
ghost use Rattle.std.specs.Prelude.{◌≡◌, ◌<◌, ◌+◌, ℕ, length, map, slice_get};
ghost use Rattle.std.specs.List.{All};
ghost use Rattle.std.specs.Option.{option_map};
ghost use Rattle.plain_elimination.specs.Matrix.{nought_rectangle};
ghost use Rattle.middle_inverse.specs.Leads.{LeadsOver};
ghost use Rattle.middle_inverse.specs.Lists.{each, each_two, first_greatest};
ghost use Rattle.middle_inverse.specs.Inverse.{divided_row, cleared_row, point_less, point_quotient, size_at};
ghost use Rattle.middle_inverse.specs.Divisor.{divisor_of, divisor_ends};
ghost use Rattle.middle_inverse.specs.Points.{rectangle_at};

use crate::divisor::{Divisor, divisor_of};
use crate::point::{is_nought, less_times, nought, quotient, rect_at, size_at_point};
use crate::raw::Point;
use complex_interval::Enclosure;

// a/b, where 0/b is known, and what quotients by b need.
fn quotient_by<E: Enclosure>(
    a: Point,
    b: Point,
    divisor: Option<Divisor<E>>,
    of_nought: Option<Point>,
) -> Option<Point>
    requires divisor { option_map (divisor_ends E.ends) divisor ≡ divisor_of E.SCALE (rectangle_at b) }
    requires nought { option_map rectangle_at of_nought ≡ point_quotient E.SCALE nought_rectangle (rectangle_at b) }
    ensures { option_map rectangle_at result ≡ point_quotient E.SCALE (rectangle_at a) (rectangle_at b) }
{
    if is_nought(a) {
        of_nought
    } else {
        quotient::<E>(a, b, divisor)
    }
}

/// Divides each entry by the pivot.
pub fn divide_row<E: Enclosure>(row: &mut [Point], pivot: Point) -> Option<()>
    ensures { option_map (λ _. map rectangle_at row.new) result ≡ divided_row E.SCALE (rectangle_at pivot) (map rectangle_at row.old) }
{
    let divisor = divisor_of(rect_at::<E>(pivot));
    let of_nought = quotient::<E>(nought(), pivot, divisor);
    for i in 0..row.len() {
        row[i] = quotient_by::<E>(row[i], pivot, divisor, of_nought)?;
    }
    Some(())
}

/// From each entry f times that of the pivot's row is subtracted. `next` leads over zeros of the pivot's row, where nothing changes.
pub fn subtract_row<E: Enclosure>(
    row: &mut [Point],
    f: Point,
    first: &[Point],
    next: &[u32],
) -> Option<()>
    requires same { length row.old ≡ length first.now }
    requires leads { LeadsOver (map rectangle_at first.now) next.now }
    ensures { option_map (λ _. map rectangle_at row.new) result
        ≡ each_two (point_less E.SCALE (rectangle_at f)) (map rectangle_at row.old) (map rectangle_at first.now) }
{
    let mut i = next[0] as usize;
    while i < row.len() {
        row[i] = less_times::<E>(f, row[i], first[i])?;
        i = next[i + 1] as usize;
    }
    Some(())
}

/// A row other than the pivot's, whose divided row is `first`: its entry in this column times that row is subtracted.
pub fn clear_row<E: Enclosure>(
    row: &mut [Point],
    column: usize,
    first: &[Point],
    next: &[u32],
) -> Option<()>
    requires { LeadsOver (map rectangle_at first.now) next.now }
    ensures { option_map (λ _. map rectangle_at row.new) result
        ≡ cleared_row E.SCALE column (map rectangle_at first.now) (map rectangle_at row.old) }
{
    let f = entry_at(row, column)?;
    if row.len() != first.len() {
        return None;
    }
    if is_nought(f) {
        return Some(());
    }
    subtract_row::<E>(row, f, first, next)
}

/// So with each of these rows.
pub fn clear_rows<E: Enclosure>(
    rows: &mut [Vec<Point>],
    column: usize,
    first: &[Point],
    next: &[u32],
) -> Option<()>
    requires { LeadsOver (map rectangle_at first.now) next.now }
    ensures value { option_map (λ _. map (λ r. map rectangle_at r.items) rows.new) result
        ≡ each (cleared_row E.SCALE column (map rectangle_at first.now)) (map (λ r. map rectangle_at r.items) rows.old) }
    ensures wide { (w : ℕ) → All (λ r. length r.items ≡ w) rows.old → All (λ r. length r.items ≡ w) rows.new }
{
    for i in 0..rows.len() {
        clear_row::<E>(rows[i].as_mut_slice(), column, first, next)?;
    }
    Some(())
}

/// The entry in this column, if there is one.
pub fn entry_at(row: &[Point], column: usize) -> Option<Point>
    ensures { option_map rectangle_at result ≡ slice_get (map rectangle_at row.now) column }
{
    if column < row.len() {
        Some(row[column])
    } else {
        None
    }
}

/// The size of the entry in this column.
pub fn size_at(row: &[Point], column: usize) -> u64
    ensures { result ≡ size_at column (map rectangle_at row.now) }
{
    match entry_at(row, column) {
        Some(x) => size_at_point(x),
        None => 0,
    }
}

/// The row whose entry in this column is the greatest, the first on ties.
pub fn pivot_place(rows: &[Vec<Point>], column: usize) -> usize
    requires { 0 < length rows.now }
    ensures place { result ≡ first_greatest (map (size_at column) (map (λ r. map rectangle_at r.items) rows.now)) }
    ensures place_in { result < length rows.now }
{
    let mut i = rows.len();
    let mut place = i;
    let mut greatest = 0;
    while 0 < i {
        i -= 1;
        let size = size_at(rows[i].as_slice(), column);
        if greatest <= size {
            place = i;
            greatest = size;
        }
    }
    place
}
