// Points, and the operations on them. The low ends of each operation are kept.
ghost use Rattle.std.specs.Prelude.{◌≡◌, ℕ, ◌^◌, ◌<◌, ◌≤◌, ◌*ℤ◌, ◌&&◌, Some, IfSome, pos, unsigned_abs};
ghost use Rattle.std.specs.Option.{option_map};
ghost use Rattle.std.specs.Ordering.{int_eq};
ghost use Rattle.exact_algebra.specs.Floor.{floor_div, ceil_div};
ghost use Rattle.complex_interval.specs.Rect.{rectangle_of};
ghost use Rattle.plain_elimination.specs.Matrix.{nought_rectangle};
ghost use Rattle.middle_inverse.specs.Inverse.{point_ends, low_point, middle_of, middle_point, one_rectangle, point_quotient, point_less, size_of};
ghost use Rattle.middle_inverse.specs.Divisor.{divisor_of, divided_by, divisor_ends};
ghost use Rattle.middle_inverse.specs.Points.{rectangle_at};

use crate::divisor::{Divisor, divide};
use crate::raw::Point;
use complex_interval::{Enclosure, Rect};

// The greatest size of a number that is kept.
const LIMIT: i64 = 1 << 62;

// A size far below it.
const NEAR: i128 = 1 << 60;

// The interval of one raw number.
fn point<E: Enclosure>(raw: i64) -> E
    requires { unsigned_abs raw ≤ 2 ^ 62 }
    ensures { E.ends result ≡ point_ends raw }
{
    match E::from_ends(raw, raw) {
        Some(point) => point,
        None => unreachable!(),
    }
}

// The middle, rounded down.
fn middle_of<E: Enclosure>(x: E) -> i64
    ensures value { result ≡ middle_of (E.ends x) }
    ensures bound { unsigned_abs result ≤ 2 ^ 62 }
{
    x.low() + (x.width() / 2) as i64
}

/// Zero alone.
pub fn nought_point<E: Enclosure>() -> Rect<E>
    ensures { rectangle_of E.ends result ≡ nought_rectangle }
{
    Rect {
        re: point(0),
        im: point(0),
    }
}

// 2^scale.
fn unit_of(scale: u32) -> i64
    requires { scale ≤ 48 }
    ensures value { result ≡ pos (2 ^ scale) }
    ensures bound { unsigned_abs result ≤ 2 ^ 62 }
{
    1_i64 << scale
}

/// The number 1 alone.
pub fn one_point<E: Enclosure>() -> Rect<E>
    ensures { rectangle_of E.ends result ≡ one_rectangle E.SCALE }
{
    Rect {
        re: point(unit_of(E::SCALE)),
        im: point(0),
    }
}

/// Zero.
pub fn nought() -> Point
    ensures { rectangle_at result ≡ nought_rectangle }
{
    Point { re: 0, im: 0 }
}

/// The number 1.
pub fn one<E: Enclosure>() -> Point
    ensures { rectangle_at result ≡ one_rectangle E.SCALE }
{
    low_point(one_point::<E>())
}

/// The rectangle of a point.
pub fn rect_at<E: Enclosure>(x: Point) -> Rect<E>
    ensures { rectangle_of E.ends result ≡ rectangle_at x }
{
    Rect {
        re: point(x.re),
        im: point(x.im),
    }
}

/// The point of both low ends.
pub fn low_point<E: Enclosure>(x: Rect<E>) -> Point
    ensures { rectangle_at result ≡ low_point (rectangle_of E.ends x) }
{
    Point {
        re: x.re.low(),
        im: x.im.low(),
    }
}

/// The point of both middles.
pub fn middle_point<E: Enclosure>(x: Rect<E>) -> Point
    ensures { rectangle_at result ≡ middle_point (rectangle_of E.ends x) }
{
    Point {
        re: middle_of(x.re),
        im: middle_of(x.im),
    }
}

/// The same point, as a rectangle.
pub fn middle_rectangle<E: Enclosure>(x: Rect<E>) -> Rect<E>
    ensures { rectangle_of E.ends result ≡ middle_point (rectangle_of E.ends x) }
{
    rect_at(middle_point(x))
}

/// The sum of the sizes of both parts.
pub fn size_of<E: Enclosure>(x: Rect<E>) -> u64
    ensures { result ≡ size_of (rectangle_of E.ends x) }
{
    x.norm1_hi()
}

/// The sum of the sizes of both parts of a point.
pub fn size_at_point(x: Point) -> u64
    ensures { result ≡ size_of (rectangle_at x) }
{
    x.re.unsigned_abs() + x.im.unsigned_abs()
}

/// Both parts are zero.
pub fn is_nought(x: Point) -> bool
    ensures { result ≡ (int_eq x.re (pos 0) && int_eq x.im (pos 0)) }
{
    x.re == 0 && x.im == 0
}

// The quotient of a by a divisor, with the low ends kept.
fn quotient_over<E: Enclosure>(a: Point, d: Divisor<E>) -> Option<Point>
    ensures { option_map rectangle_at result ≡ option_map low_point (divided_by E.SCALE (rectangle_at a) (divisor_ends E.ends d)) }
{
    let whole = divide(rect_at::<E>(a), d)?;
    Some(low_point(whole))
}

/// a/b, with the low ends kept, where it is known what quotients by b need.
pub fn quotient<E: Enclosure>(a: Point, b: Point, divisor: Option<Divisor<E>>) -> Option<Point>
    requires { option_map (divisor_ends E.ends) divisor ≡ divisor_of E.SCALE (rectangle_at b) }
    ensures { option_map rectangle_at result ≡ point_quotient E.SCALE (rectangle_at a) (rectangle_at b) }
{
    match divisor {
        Some(d) => quotient_over(a, d),
        None => None,
    }
}

// a - f a0, by rectangles.
fn less_rectangles<E: Enclosure>(f: Point, a: Point, a0: Point) -> Option<Point>
    ensures { option_map rectangle_at result ≡ point_less E.SCALE (rectangle_at f) (rectangle_at a) (rectangle_at a0) }
{
    let part = low_point(rect_at::<E>(f).mul(rect_at(a0))?);
    let whole = rect_at::<E>(a).sub(rect_at(part))?;
    Some(low_point(whole))
}

// The product of two parts.
fn part_product(a: i64, b: i64) -> i128
    requires first { unsigned_abs a ≤ 2 ^ 62 }
    requires second { unsigned_abs b ≤ 2 ^ 62 }
    ensures value { result ≡ a *ℤ b }
    ensures bound { unsigned_abs result ≤ 2 ^ 124 }
{
    a as i128 * b as i128
}

// A number whose size is far below the limit.
fn near(x: i128) -> Option<i64>
    ensures { IfSome result (λ r. (r ≡ x) × (unsigned_abs r ≤ 2 ^ 60)) }
{
    if -NEAR <= x && x <= NEAR {
        Some(x as i64)
    } else {
        None
    }
}

// x/2^scale, rounded up.
fn ceil_shift(x: i128, scale: u32) -> i128
    requires small { scale ≤ 48 }
    requires in_range { unsigned_abs x < 2 ^ 127 }
    ensures { result ≡ ceil_div x (2 ^ scale) }
{
    -(-x >> scale)
}

// a b/2^scale rounded down, where its size is far below the limit.
fn low_product(scale: u32, a: i64, b: i64) -> Option<i64>
    requires small { scale ≤ 48 }
    requires first { unsigned_abs a ≤ 2 ^ 62 }
    requires second { unsigned_abs b ≤ 2 ^ 62 }
    ensures { IfSome result (λ r. (r ≡ floor_div (a *ℤ b) (2 ^ scale)) × (unsigned_abs r ≤ 2 ^ 60)) }
{
    near(part_product(a, b) >> scale)
}

// The same rounded up.
fn high_product(scale: u32, a: i64, b: i64) -> Option<i64>
    requires small { scale ≤ 48 }
    requires first { unsigned_abs a ≤ 2 ^ 62 }
    requires second { unsigned_abs b ≤ 2 ^ 62 }
    ensures { IfSome result (λ r. (r ≡ ceil_div (a *ℤ b) (2 ^ scale)) × (unsigned_abs r ≤ 2 ^ 60)) }
{
    near(ceil_shift(part_product(a, b), scale))
}

// The point of two parts, where both are in range.
fn point_of(re: i64, im: i64) -> Option<Point>
    ensures { IfSome result (λ x. (x.re ≡ re) × (x.im ≡ im)) }
{
    if -LIMIT <= re && re <= LIMIT && -LIMIT <= im && im <= LIMIT {
        Some(Point { re, im })
    } else {
        None
    }
}

// a - f a0 by four products of parts, where each is far below the limit.
fn less_parts(scale: u32, f: Point, a: Point, a0: Point) -> Option<Point>
    requires { scale ≤ 48 }
    ensures { IfSome result (λ x. point_less scale (rectangle_at f) (rectangle_at a) (rectangle_at a0) ≡ Some (rectangle_at x)) }
{
    let first = low_product(scale, f.re, a0.re)?;
    let second = high_product(scale, f.im, a0.im)?;
    let third = low_product(scale, f.re, a0.im)?;
    let fourth = low_product(scale, f.im, a0.re)?;
    point_of(a.re - (first - second), a.im - (third + fourth))
}

/// a - f a0, with the low ends kept of the product and of the difference.
pub fn less_times<E: Enclosure>(f: Point, a: Point, a0: Point) -> Option<Point>
    ensures { option_map rectangle_at result ≡ point_less E.SCALE (rectangle_at f) (rectangle_at a) (rectangle_at a0) }
{
    match less_parts(E::SCALE, f, a, a0) {
        Some(x) => Some(x),
        None => less_rectangles::<E>(f, a, a0),
    }
}
