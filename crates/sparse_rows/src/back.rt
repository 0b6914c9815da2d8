// The way back of solving, at the listed places.
ghost use Rattle.std.specs.Prelude.{◌≡◌, ℕ, ◌+◌, ◌-◌, ◌*◌, ◌<◌, ◌≤◌, Ok, [], ◌∷◌, suc, length, map, take, drop, slice_index};
ghost use Rattle.std.specs.Option.{option_map};
ghost use Rattle.complex_interval.specs.Rect.{rectangle_of};
ghost use Rattle.plain_elimination.specs.declared.failure.Failure.TheVariants.{OutOfRange};
ghost use Rattle.plain_elimination.specs.Elimination.{and_then, bind, or_fail, take_away};
ghost use Rattle.plain_elimination.specs.Layout.{pivot_row, with_unknown, way_back};
ghost use Rattle.plain_elimination.specs.Rectangles.{rectangles};
ghost use Rattle.sparse_rows.specs.Listed.{Skips, ZeroAt, ZeroOutside, IsFill};
ghost use Rattle.plain_elimination.specs.declared.limits.TheConstants.{MAX_SIZE};

use crate::cells::{gaps_from, gaps_up_to};
use complex_interval::{Enclosure, Rect};
use plain_elimination::{Failure, cells_from, cells_up_to, set_cell};

// What is left of a right side: b less each a x at the listed places, in order. The places between are zero in the row.
fn take_away_listed<E: Enclosure>(
    b: Rect<E>,
    row: &[Rect<E>],
    gaps: &[u32],
    start: usize,
    xs: &[Rect<E>],
) -> Option<Rect<E>>
    requires sizes { length row.now ≡ length xs.now }
    requires gap_size { length gaps.now ≡ length row.now }
    requires few { length row.now ≤ MAX_SIZE }
    requires listed { Skips (ZeroAt (map (rectangle_of E.ends) row.now)) gaps.now start }
    ensures { option_map (rectangle_of E.ends) result
        ≡ take_away (rectangles E.SCALE) (rectangle_of E.ends b) (map (rectangle_of E.ends) row.now) (map (rectangle_of E.ends) xs.now) }
{
    let mut rest = b;
    let mut i = start;
    while i < row.len() {
        let part = row[i].mul(xs[i])?;
        rest = rest.sub(part)?;
        i += gaps[i] as usize;
    }
    Some(rest)
}

// The unknown of a row, by its right side and the unknowns behind it.
fn unknown_of<E: Enclosure>(
    pivot: Rect<E>,
    first: &[Rect<E>],
    gaps: &[u32],
    start: usize,
    b: Rect<E>,
    xs: &[Rect<E>],
) -> Option<Rect<E>>
    requires sizes { length first.now ≡ length xs.now }
    requires gap_size { length gaps.now ≡ length first.now }
    requires few { length first.now ≤ MAX_SIZE }
    requires listed { Skips (ZeroAt (map (rectangle_of E.ends) first.now)) gaps.now start }
    ensures { option_map (rectangle_of E.ends) result
        ≡ and_then (take_away (rectangles E.SCALE) (rectangle_of E.ends b) (map (rectangle_of E.ends) first.now) (map (rectangle_of E.ends) xs.now))
        (λ d. (rectangles E.SCALE).div d (rectangle_of E.ends pivot)) }
{
    take_away_listed(b, first, gaps, start, xs)?.div(pivot)
}

// The unknown of a row, by its entries from the pivot on, with their gaps.
fn unknown_of_line<E: Enclosure>(
    line: &[Rect<E>],
    gaps: &[u32],
    b: Rect<E>,
    xs: &[Rect<E>],
) -> Option<Rect<E>>
    requires sizes { length line.now ≡ suc (length xs.now) }
    requires gap_size { length gaps.now ≡ length line.now }
    requires few { length line.now ≤ MAX_SIZE }
    requires diagonal { 1 ≤ slice_index gaps.now 0 }
    requires listed { Skips (ZeroAt (map (rectangle_of E.ends) (drop 1 line.now))) (drop 1 gaps.now) (slice_index gaps.now 0 - 1) }
    ensures { (step : ℕ) → with_unknown (rectangles E.SCALE) step (map (rectangle_of E.ends) line.now) (rectangle_of E.ends b ∷ []) (map (rectangle_of E.ends) xs.now)
        ≡ bind (or_fail (OutOfRange step) (option_map (rectangle_of E.ends) result)) (λ x. Ok (x ∷ map (rectangle_of E.ends) xs.now)) }
{
    let start = gaps[0] as usize - 1;
    unknown_of(
        line[0],
        cells_from(line, 1),
        gaps_from(gaps, 1),
        start,
        b,
        xs,
    )
}

// The unknown of this row in the place of its right side, from the unknowns behind it.
fn solve_row<E: Enclosure>(
    cells: &[Rect<E>],
    gaps: &[u32],
    right: &mut [Rect<E>],
    size: usize,
    row: usize,
) -> Result<(), Failure>
    requires row_in { row < size }
    requires few { size ≤ MAX_SIZE }
    requires square { length cells.now ≡ size * size }
    requires sides { length right.old ≡ size }
    requires gap_size { length gaps.now ≡ size * size }
    requires fill { IsFill gaps.now size }
    requires zeros { ZeroOutside gaps.now (map (rectangle_of E.ends) cells.now) }
    ensures unknown { bind result (λ _. Ok (drop row (map (rectangle_of E.ends) right.new)))
        ≡ with_unknown (rectangles E.SCALE) (row + 1) (pivot_row size row (map (rectangle_of E.ends) cells.now))
        (drop row (take (row + 1) (map (rectangle_of E.ends) right.old))) (drop (row + 1) (map (rectangle_of E.ends) right.old)) }
    ensures kept { take row right.new ≡ take row right.old }
{
    let done = cells_up_to(cells, (row + 1) * size);
    let line = cells_from(done, row * size + row);
    let done_gaps = gaps_up_to(gaps, (row + 1) * size);
    let line_gaps = gaps_from(done_gaps, row * size + row);
    let unknown = unknown_of_line(line, line_gaps, right[row], cells_from(right, row + 1));
    match unknown {
        Some(x) => {
            set_cell(right, row, x);
            Ok(())
        }
        None => Err(Failure::OutOfRange(row as u32 + 1)),
    }
}

/// The way back, from the last row up.
pub fn substitute_back<E: Enclosure>(
    cells: &[Rect<E>],
    gaps: &[u32],
    right: &mut [Rect<E>],
    size: usize,
) -> Result<(), Failure>
    requires few { size ≤ MAX_SIZE }
    requires square { length cells.now ≡ size * size }
    requires sides { length right.old ≡ size }
    requires gap_size { length gaps.now ≡ size * size }
    requires fill { IsFill gaps.now size }
    requires zeros { ZeroOutside gaps.now (map (rectangle_of E.ends) cells.now) }
    ensures { bind result (λ _. Ok (map (rectangle_of E.ends) right.new))
        ≡ way_back (rectangles E.SCALE) size size (map (rectangle_of E.ends) cells.now) (map (rectangle_of E.ends) right.old) (Ok []) }
{
    for row in (0..size).rev() {
        solve_row(cells, gaps, right, size, row)?;
    }
    Ok(())
}
