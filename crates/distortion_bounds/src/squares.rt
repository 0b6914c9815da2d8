// Squares of sizes, and their sums.
ghost use Rattle.std.specs.Prelude.{◌≡◌, ◌≤◌, ◌<◌, ◌^◌, All, IfSome};
ghost use Rattle.exact_algebra.specs.Complex.{Complex, square_size};
ghost use Rattle.complex_interval.specs.Rect.{rectangle_of};
ghost use Rattle.complex_interval.specs.Rectangles.{EnclosesComplex};
ghost use Rattle.distortion_bounds.specs.Squares.{squares_of, AreSquares, HoldsSquare};
ghost use Rattle.distortion_bounds.specs.Totals.{total_of, HoldsTotal};

use complex_interval::{Enclosure, Rect};

/// The sum of the `hi` of a total is below this, 2^125.
const LIMIT: u128 = 1 << 125;

/// Two numbers between which a square of a size lies, in units of 1 / 4^SCALE.
#[derive(Clone, Copy)]
pub struct Squares {
    pub lo: u128,
    pub hi: u128,
}

/// The least and the greatest square of the size of what a rectangle holds.
pub fn squares_of<E: Enclosure>(value: Rect<E>) -> Squares
    ensures value { result ≡ squares_of (rectangle_of E.ends value) }
    ensures fit { AreSquares result }
    ensures holds { (z : Complex) → EnclosesComplex E.SCALE (rectangle_of E.ends value) z → HoldsSquare E.SCALE result (square_size z) }
{
    Squares {
        lo: value.low_square(),
        hi: value.high_square(),
    }
}

/// The sums of the squares of a list. None exactly where that of `hi` is 2^125 or more. Condition: in each entry `lo` is at most `hi`. It takes
/// no memory.
pub fn total(list: &[Squares]) -> Option<Squares>
    requires { All (λ q. q.lo ≤ q.hi) list.now }
    ensures value { result ≡ total_of list.now }
    ensures fit { IfSome result AreSquares }
    ensures holds { HoldsTotal list.now result }
{
    let mut lo = 0;
    let mut hi = 0;
    for squares in list {
        if squares.hi >= LIMIT - hi {
            return None;
        }
        lo += squares.lo;
        hi += squares.hi;
    }
    Some(Squares { lo, hi })
}
