// Worked values of the operations on rectangles of the complex plane, at scale 40.
use crate::compare::expect;
use crate::intervals::raw;
use complex_interval::{Enclosure, Rect, Span};
use std::test::Fail;

const ONE: i64 = 1 << 40;

const END: i64 = 1 << 62;

// The raw ends of the real part, and those of the imaginary part.
pub type Corners = [i64; 4];

pub fn corners(z: Rect<Span<40>>) -> Corners {
    [z.re.low(), z.re.high(), z.im.low(), z.im.high()]
}

fn ends(z: Option<Rect<Span<40>>>) -> Option<Corners> {
    match z {
        Some(z) => Some(corners(z)),
        None => None,
    }
}

pub fn rectangle(corners: Corners) -> Result<Rect<Span<40>>, Fail> {
    Ok(Rect {
        re: raw((corners[0], corners[1]))?,
        im: raw((corners[2], corners[3]))?,
    })
}

#[derive(Clone, Copy)]
enum Operation {
    Sum,
    Difference,
    Product,
    // by the real part of the second
    Multiple,
    Quotient,
}

fn result_of(operation: Operation, a: Corners, b: Corners) -> Result<Option<Corners>, Fail> {
    let (z, w) = (rectangle(a)?, rectangle(b)?);
    Ok(ends(match operation {
        Operation::Sum => z.add(w),
        Operation::Difference => z.sub(w),
        Operation::Product => z.mul(w),
        Operation::Multiple => z.scale(w.re),
        Operation::Quotient => z.div(w),
    }))
}

// Quotients by the real part, by the imaginary part, and by a divisor with no part apart from zero. In the last four the divisor's
// lesser part is one raw unit about zero, so that its square reaches zero only by rounding: from -1 to 1, clipped.
#[test]
fn operations(rt: HostRuntime) -> Result<(), Fail> {
    let o = ONE;
    let (z, w) = ([o, o, 2 * o, 2 * o], [3 * o, 3 * o, -o, -o]);
    let (turned, one) = ([2 * o, 2 * o, o, o], [o, o, 0, 0]);
    let largest = [END, END, 0, 0];
    for (label, operation, a, b, wanted) in [
        ("a sum", Operation::Sum, z, w, Some([4 * o, 4 * o, o, o])),
        (
            "a difference",
            Operation::Difference,
            z,
            w,
            Some([-2 * o, -2 * o, 3 * o, 3 * o]),
        ),
        (
            "a product",
            Operation::Product,
            z,
            w,
            Some([5 * o, 5 * o, 5 * o, 5 * o]),
        ),
        (
            "a multiple",
            Operation::Multiple,
            z,
            [-2 * o, -2 * o, 0, 0],
            Some([-2 * o, -2 * o, -4 * o, -4 * o]),
        ),
        ("a sum", Operation::Sum, largest, largest, None),
        ("a product", Operation::Product, largest, w, None),
        (
            "a multiple",
            Operation::Multiple,
            largest,
            [0, 2 * o, 0, 0],
            None,
        ),
        (
            "a quotient",
            Operation::Quotient,
            largest,
            [o / 2, o / 2, 0, 0],
            None,
        ),
        (
            "a quotient",
            Operation::Quotient,
            z,
            turned,
            Some([879609302220, 879609302221, 659706976665, 659706976666]),
        ),
        (
            "a quotient",
            Operation::Quotient,
            turned,
            z,
            Some([879609302220, 879609302221, -659706976666, -659706976665]),
        ),
        ("a quotient", Operation::Quotient, z, [-1, 0, 0, 1], None),
        (
            "a quotient",
            Operation::Quotient,
            one,
            [o, o, -1, 1],
            Some([o - 1, o, -1, 1]),
        ),
        (
            "a quotient",
            Operation::Quotient,
            one,
            [-1, 1, -o, -o],
            Some([-1, 1, o - 1, o]),
        ),
        (
            "a quotient",
            Operation::Quotient,
            one,
            [-o, -o, -1, 1],
            Some([-o, 1 - o, -1, 1]),
        ),
        (
            "a quotient",
            Operation::Quotient,
            one,
            [-1, 1, o, o],
            Some([-1, 1, -o, 1 - o]),
        ),
    ] {
        let found = result_of(operation, a, b)?;
        expect(&rt, (a, b, found), (a, b, wanted), label);
    }
    Ok(())
}

fn sizes_of(z: Rect<Span<40>>) -> (u128, u128, u64) {
    (z.low_square(), z.high_square(), z.norm1_hi())
}

#[test]
fn squares_of_sizes(rt: HostRuntime) -> Result<(), Fail> {
    let square = 1_u128 << 125;
    for (z, wanted) in [
        ([3, 4, -2, 1], (9, 20, 6)),
        ([END, END, -END, -END], (square, square, 1 << 63)),
    ] {
        expect(&rt, (z, sizes_of(rectangle(z)?)), (z, wanted), "the sizes");
    }
    Ok(())
}
