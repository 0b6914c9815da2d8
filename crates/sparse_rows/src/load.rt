// The entries of a matrix at the listed places.
ghost use Rattle.std.specs.Prelude.{◌≡◌, ℕ, ◌+◌, ◌*◌, ◌<◌, ◌≤◌, length, map};
ghost use Rattle.complex_interval.specs.Rect.{rectangle_of};
ghost use Rattle.sparse_rows.specs.Listed.{Out, IsFill, SameAt, CloserTo};
ghost use Rattle.plain_elimination.specs.declared.limits.TheConstants.{MAX_SIZE};

use crate::cells::cell;
use complex_interval::{Enclosure, Rect};
use plain_elimination::{Column, set_cell};

// Copies this cell.
fn load_cell<E: Enclosure>(cells: &mut [Rect<E>], source: &[Rect<E>], at: usize)
    requires inside { at < length cells.old }
    requires sizes { length source.now ≡ length cells.old }
    ensures closer { CloserTo (map (rectangle_of E.ends) source.now) (map (rectangle_of E.ends) cells.old) (map (rectangle_of E.ends) cells.new) }
    ensures here { SameAt (map (rectangle_of E.ends) source.now) (map (rectangle_of E.ends) cells.new) at }
{
    let value = cell(source, at);
    set_cell(cells, at, value);
}

// Copies the listed entries of a row and of the column with its number, from the diagonal on.
fn load_row<E: Enclosure>(
    cells: &mut [Rect<E>],
    source: &[Rect<E>],
    gaps: &[u32],
    size: usize,
    k: usize,
)
    requires row_in { k < size }
    requires few { size ≤ MAX_SIZE }
    requires square { length cells.old ≡ size * size }
    requires sizes { length source.now ≡ length cells.old }
    requires gap_size { length gaps.now ≡ size * size }
    requires fill { IsFill gaps.now size }
    requires outside { (q : ℕ) → Out gaps.now q → SameAt (map (rectangle_of E.ends) source.now) (map (rectangle_of E.ends) cells.old) q }
    ensures closer { CloserTo (map (rectangle_of E.ends) source.now) (map (rectangle_of E.ends) cells.old) (map (rectangle_of E.ends) cells.new) }
    ensures row { (j : ℕ) → k ≤ j → j < size → SameAt (map (rectangle_of E.ends) source.now) (map (rectangle_of E.ends) cells.new) (k * size + j) }
    ensures column { (j : ℕ) → k ≤ j → j < size → SameAt (map (rectangle_of E.ends) source.now) (map (rectangle_of E.ends) cells.new) (j * size + k) }
{
    let mut j = k;
    while j < size {
        load_cell(cells, source, k * size + j);
        load_cell(cells, source, j * size + k);
        j += gaps[k * size + j] as usize;
    }
}

/// Copies the listed entries of a square.
pub fn load_listed<E: Enclosure>(
    cells: &mut [Rect<E>],
    source: &[Rect<E>],
    gaps: &[u32],
    size: usize,
)
    requires few { size ≤ MAX_SIZE }
    requires square { length cells.old ≡ size * size }
    requires sizes { length source.now ≡ length cells.old }
    requires gap_size { length gaps.now ≡ size * size }
    requires fill { IsFill gaps.now size }
    requires outside { (q : ℕ) → Out gaps.now q → SameAt (map (rectangle_of E.ends) source.now) (map (rectangle_of E.ends) cells.old) q }
    ensures { map (rectangle_of E.ends) cells.new ≡ map (rectangle_of E.ends) source.now }
{
    for k in 0..size {
        load_row(cells, source, gaps, size, k);
    }
}

/// Copies a column to cells.
pub fn load_sides<E: Enclosure>(sides: &mut [Rect<E>], right: &Column<E>)
    requires few { length sides.old ≤ MAX_SIZE }
    requires sizes { length right.now ≡ length sides.old }
    ensures { map (rectangle_of E.ends) sides.new ≡ right.now }
{
    for i in 0..sides.len() {
        let value = right.get(i as u32);
        set_cell(sides, i, value);
    }
}

/// Copies cells to a column.
pub fn store_sides<E: Enclosure>(right: &mut Column<E>, sides: &[Rect<E>])
    requires few { length sides.now ≤ MAX_SIZE }
    requires sizes { length right.old ≡ length sides.now }
    ensures { right.new ≡ map (rectangle_of E.ends) sides.now }
{
    for i in 0..sides.len() {
        let value = cell(sides, i);
        right.set(i as u32, value);
    }
}
