// The five steps of a column, in place.
ghost use Rattle.std.specs.Prelude.{◌≡◌, ◌+◌, ◌-◌, ◌<◌, ◌≤◌, ℕ, ◌++◌, ◌∷◌, Some, Ok, length, map, slice_get};
ghost use Rattle.std.specs.List.{All};
ghost use Rattle.std.specs.Option.{option_map};
ghost use Rattle.middle_inverse.specs.Lists.{and_then, each};
ghost use Rattle.middle_inverse.specs.Inverse.{bind, in_range, divided_row, cleared_row, by_pivot, by_rows, pivot_first, column_step, columns_from};
ghost use Rattle.middle_inverse.specs.Points.{rectangle_at};
ghost use Rattle.plain_elimination.specs.declared.limits.TheConstants.{MAX_SIZE};

use crate::fault::InverseFault;
use crate::next::write_next;
use crate::point::size_at_point;
use crate::raw::Point;
use crate::rows::{clear_rows, divide_row, entry_at, pivot_place};
use complex_interval::Enclosure;

// The pivot's row stands in its place: it is divided, and the other rows are cleared.
fn step_by<E: Enclosure>(
    above: &mut [Vec<Point>],
    first: &mut [Point],
    below: &mut [Vec<Point>],
    column: usize,
    next: &mut [u32],
) -> Result<(), InverseFault>
    requires column_in { column ≤ MAX_SIZE }
    requires next_in { length next.old ≡ length first.old + 1 }
    requires few { length first.old ≤ MAX_SIZE + MAX_SIZE }
    ensures value { bind result (λ _. Ok (map (λ r. map rectangle_at r.items) above.new ++ map rectangle_at first.new ∷ map (λ r. map rectangle_at r.items) below.new))
        ≡ bind (in_range (slice_get (map rectangle_at first.old) column))
        (by_pivot E.SCALE column (map (λ r. map rectangle_at r.items) above.old) (map rectangle_at first.old) (map (λ r. map rectangle_at r.items) below.old)) }
    ensures wide_above { (w : ℕ) → All (λ r. length r.items ≡ w) above.old → All (λ r. length r.items ≡ w) above.new }
    ensures wide_below { (w : ℕ) → All (λ r. length r.items ≡ w) below.old → All (λ r. length r.items ≡ w) below.new }
{
    let pivot = match entry_at(first, column) {
        Some(pivot) => pivot,
        None => return Err(InverseFault::OutOfRange),
    };
    if size_at_point(pivot) == 0 {
        return Err(InverseFault::NoInverse(column as u32 + 1));
    }
    match change_rows::<E>(above, first, below, column, pivot, next) {
        Some(()) => Ok(()),
        None => Err(InverseFault::OutOfRange),
    }
}

// The quotients are written, and the way over their zeros.
fn change_rows<E: Enclosure>(
    above: &mut [Vec<Point>],
    first: &mut [Point],
    below: &mut [Vec<Point>],
    column: usize,
    pivot: Point,
    next: &mut [u32],
) -> Option<()>
    requires next_in { length next.old ≡ length first.old + 1 }
    requires few { length first.old ≤ MAX_SIZE + MAX_SIZE }
    ensures value { option_map (λ _. map (λ r. map rectangle_at r.items) above.new ++ map rectangle_at first.new ∷ map (λ r. map rectangle_at r.items) below.new) result
        ≡ and_then (divided_row E.SCALE (rectangle_at pivot) (map rectangle_at first.old)) (λ q.
        and_then (each (cleared_row E.SCALE column q) (map (λ r. map rectangle_at r.items) above.old)) (λ a.
        and_then (each (cleared_row E.SCALE column q) (map (λ r. map rectangle_at r.items) below.old)) (λ b. Some (a ++ q ∷ b)))) }
    ensures wide_above { (w : ℕ) → All (λ r. length r.items ≡ w) above.old → All (λ r. length r.items ≡ w) above.new }
    ensures wide_below { (w : ℕ) → All (λ r. length r.items ≡ w) below.old → All (λ r. length r.items ≡ w) below.new }
{
    divide_row::<E>(first, pivot)?;
    write_next(next, first);
    clear_rows::<E>(above, column, first, next)?;
    clear_rows::<E>(below, column, first, next)
}

// The pivot's row is the first of the rest.
fn step_first<E: Enclosure>(
    above: &mut [Vec<Point>],
    rest: &mut [Vec<Point>],
    column: usize,
    next: &mut [u32],
) -> Result<(), InverseFault>
    requires some { 0 < length rest.old }
    requires few { column ≤ MAX_SIZE }
    requires next_in { 0 < length next.old }
    requires next_few { length next.old ≤ MAX_SIZE + MAX_SIZE + 1 }
    requires wide { All (λ r. length r.items ≡ length next.old - 1) rest.old }
    ensures value { bind result (λ _. Ok (map (λ r. map rectangle_at r.items) above.new ++ map (λ r. map rectangle_at r.items) rest.new))
        ≡ by_rows E.SCALE column (map (λ r. map rectangle_at r.items) above.old) (map (λ r. map rectangle_at r.items) rest.old) }
    ensures wide_above { (w : ℕ) → All (λ r. length r.items ≡ w) above.old → All (λ r. length r.items ≡ w) above.new }
    ensures wide_rest { (w : ℕ) → All (λ r. length r.items ≡ w) rest.old → All (λ r. length r.items ≡ w) rest.new }
{
    let (first, below) = rest.split_at_mut(1);
    step_by::<E>(above, first[0].as_mut_slice(), below, column, next)
}

// The pivot's row is looked for in the rest.
fn step_rest<E: Enclosure>(
    above: &mut [Vec<Point>],
    rest: &mut [Vec<Point>],
    column: usize,
    next: &mut [u32],
) -> Result<(), InverseFault>
    requires some { 0 < length rest.old }
    requires few { column ≤ MAX_SIZE }
    requires next_in { 0 < length next.old }
    requires next_few { length next.old ≤ MAX_SIZE + MAX_SIZE + 1 }
    requires wide { All (λ r. length r.items ≡ length next.old - 1) rest.old }
    ensures value { bind result (λ _. Ok (map (λ r. map rectangle_at r.items) above.new ++ map (λ r. map rectangle_at r.items) rest.new))
        ≡ by_rows E.SCALE column (map (λ r. map rectangle_at r.items) above.old) (pivot_first column (map (λ r. map rectangle_at r.items) rest.old)) }
    ensures wide_above { (w : ℕ) → All (λ r. length r.items ≡ w) above.old → All (λ r. length r.items ≡ w) above.new }
    ensures wide_rest { (w : ℕ) → All (λ r. length r.items ≡ w) rest.old → All (λ r. length r.items ≡ w) rest.new }
{
    let place = pivot_place(rest, column);
    rest.swap(0, place);
    step_first::<E>(above, rest, column, next)
}

/// The five steps of this column.
pub fn eliminate_column<E: Enclosure>(
    rows: &mut [Vec<Point>],
    column: usize,
    next: &mut [u32],
) -> Result<(), InverseFault>
    requires column_in { column < length rows.old }
    requires few { length rows.old ≤ MAX_SIZE }
    requires next_in { 0 < length next.old }
    requires next_few { length next.old ≤ MAX_SIZE + MAX_SIZE + 1 }
    requires wide { All (λ r. length r.items ≡ length next.old - 1) rows.old }
    ensures value { bind result (λ _. Ok (map (λ r. map rectangle_at r.items) rows.new))
        ≡ column_step E.SCALE column (map (λ r. map rectangle_at r.items) rows.old) }
    ensures wide { (w : ℕ) → All (λ r. length r.items ≡ w) rows.old → All (λ r. length r.items ≡ w) rows.new }
{
    let (above, rest) = rows.split_at_mut(column);
    step_rest::<E>(above, rest, column, next)
}

/// All columns.
pub fn eliminate_columns<E: Enclosure>(
    rows: &mut [Vec<Point>],
    next: &mut [u32],
) -> Result<(), InverseFault>
    requires few { length rows.old ≤ MAX_SIZE }
    requires next_in { 0 < length next.old }
    requires next_few { length next.old ≤ MAX_SIZE + MAX_SIZE + 1 }
    requires wide { All (λ r. length r.items ≡ length next.old - 1) rows.old }
    ensures value { bind result (λ _. Ok (map (λ r. map rectangle_at r.items) rows.new))
        ≡ columns_from E.SCALE 0 (length rows.old) (map (λ r. map rectangle_at r.items) rows.old) }
    ensures wide { (w : ℕ) → All (λ r. length r.items ≡ w) rows.old → All (λ r. length r.items ≡ w) rows.new }
{
    for column in 0..rows.len() {
        eliminate_column::<E>(rows, column, next)?;
    }
    Ok(())
}
