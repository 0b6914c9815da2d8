// Where the entries of a matrix lie in its cells, and cells of zeros.
ghost use Rattle.std.specs.Prelude.{◌≡◌, ◌+◌, ◌*◌, ◌<◌, ◌≤◌, IfOk, length, map, take, drop, replicate, slice_set};
ghost use Rattle.complex_interval.specs.Rect.{rectangle_of};
ghost use Rattle.plain_elimination.specs.Matrix.{nought_rectangle};
ghost use Rattle.plain_elimination.specs.declared.limits.TheConstants.{MAX_SIZE};

use complex_interval::{Enclosure, Rect};
use std::alloc::{AllocError, Global};

/// The cell of an entry, where rows lie one after another.
pub fn place_of(size: u32, row: u32, column: u32) -> usize
    requires few { size ≤ MAX_SIZE }
    requires row_in { row < size }
    requires column_in { column < size }
    ensures place { result ≡ row * size + column }
    ensures place_in { result < size * size }
{
    row as usize * size as usize + column as usize
}

// The interval of zero alone.
fn nought<E: Enclosure>() -> E
    ensures { E.ends result ≡ nought_rectangle.re }
{
    match E::from_ends(0, 0) {
        Some(nought) => nought,
        None => unreachable!(),
    }
}

/// This many cells, each with zero.
pub fn nought_cells<E: Enclosure>(alloc: Global, count: usize) -> Result<Vec<Rect<E>>, AllocError>
    ensures { IfOk result (λ cells. map (rectangle_of E.ends) cells.items ≡ replicate count nought_rectangle) }
{
    let re = nought();
    let mut cells = Vec::new(alloc);
    cells.resize(count, Rect { re, im: re })?;
    Ok(cells)
}

/// Sets each cell to zero.
pub fn clear_cells<E: Enclosure>(cells: &mut [Rect<E>])
    ensures { map (rectangle_of E.ends) cells.new ≡ replicate (length cells.old) nought_rectangle }
{
    let re = nought();
    let zero = Rect { re, im: re };
    for cell in cells.iter_mut() {
        *cell = zero;
    }
}

/// The cells from this one on.
pub fn cells_from<E: Enclosure>(cells: &[Rect<E>], start: usize) -> &[Rect<E>]
    requires { start ≤ length cells.now }
    ensures { result.now ≡ drop start cells.now }
{
    &cells[start..]
}

/// The cells before this one.
pub fn cells_up_to<E: Enclosure>(cells: &[Rect<E>], end: usize) -> &[Rect<E>]
    requires { end ≤ length cells.now }
    ensures { result.now ≡ take end cells.now }
{
    &cells[..end]
}

/// The cells of this row.
pub fn cells_of_row<E: Enclosure>(cells: &[Rect<E>], size: usize, row: usize) -> &[Rect<E>]
    requires row_in { row < size }
    requires few { size ≤ MAX_SIZE }
    requires square { length cells.now ≡ size * size }
    ensures { result.now ≡ take size (drop (row * size) cells.now) }
{
    let start = row * size;
    &cells[start..start + size]
}

/// Writes this cell.
pub fn set_cell<E: Enclosure>(cells: &mut [Rect<E>], at: usize, x: Rect<E>)
    requires { at < length cells.old }
    ensures { cells.new ≡ slice_set cells.old at x }
{
    cells[at] = x;
}
