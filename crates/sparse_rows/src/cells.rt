// A cell that is read, and parts of the gaps.
ghost use Rattle.std.specs.Prelude.{◌≡◌, ◌<◌, ◌≤◌, length, take, drop, slice_index_or};

use complex_interval::{Enclosure, Rect};

/// Reads this cell.
pub fn cell<E: Enclosure>(cells: &[Rect<E>], at: usize) -> Rect<E>
    requires { at < length cells.now }
    ensures { result ≡ slice_index_or cells.now at result }
{
    cells[at]
}

/// The gaps from this one on.
pub fn gaps_from(gaps: &[u32], start: usize) -> &[u32]
    requires { start ≤ length gaps.now }
    ensures { result.now ≡ drop start gaps.now }
{
    &gaps[start..]
}

/// The gaps before this one.
pub fn gaps_up_to(gaps: &[u32], end: usize) -> &[u32]
    requires { end ≤ length gaps.now }
    ensures { result.now ≡ take end gaps.now }
{
    &gaps[..end]
}
