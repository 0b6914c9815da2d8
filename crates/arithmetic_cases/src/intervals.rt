// Worked values of the operations on intervals. A raw end of ONE is the number 1 at scale 40.
use crate::compare::expect;
use complex_interval::{Enclosure, Span};
use exact_fraction::Fraction;
use std::test::Fail;

const ONE: i64 = 1 << 40;

const END: i64 = 1 << 62;

type Ends = (i64, i64);

pub fn ends<E: Enclosure>(interval: Option<E>) -> Option<Ends> {
    match interval {
        Some(interval) => Some((interval.low(), interval.high())),
        None => None,
    }
}

pub fn raw(ends: Ends) -> Result<Span<40>, Fail> {
    Ok(Span::from_ends(ends.0, ends.1).ok_or("no interval")?)
}

#[test]
fn takes_ends_in_range(rt: HostRuntime) {
    for (low, high, found) in [
        (-END, END, true),
        (0, 0, true),
        (2, 1, false),
        (END, END + 1, false),
        (-END - 1, 0, false),
    ] {
        let is_taken = Span::<40>::from_ends(low, high).is_some();
        expect(
            &rt,
            (low, high, is_taken),
            (low, high, found),
            "from low to high",
        );
    }
}

fn of_fraction<E: Enclosure>(num: i128, den: i128) -> Option<E> {
    E::from_fraction(Fraction::new(num, den)?)
}

// At scale 40 and at scale 48.
#[test]
fn rounds_fractions_outward(rt: HostRuntime) {
    for (num, den, wanted, finer) in [
        (
            1,
            3,
            Some((366503875925, 366503875926)),
            Some((93824992236885, 93824992236886)),
        ),
        (
            -1,
            3,
            Some((-366503875926, -366503875925)),
            Some((-93824992236886, -93824992236885)),
        ),
        (4194304, 1, Some((END, END)), None),
        (4194305, 1, None, None),
        (16384, 1, Some((1 << 54, 1 << 54)), Some((END, END))),
    ] {
        let found = ends(of_fraction::<Span<40>>(num, den));
        let found_finer = ends(of_fraction::<Span<48>>(num, den));
        let wanted = (num, den, wanted, finer);
        expect(&rt, (num, den, found, found_finer), wanted, "a fraction");
    }
}

#[test]
fn takes_a_range(rt: HostRuntime) -> Result<(), Fail> {
    let from = Fraction::new(-1, 3).ok_or("from")?;
    let to = Fraction::new(1, 3).ok_or("to")?;
    assert!(rt; from.at_most(to));
    let range = ends(Span::<40>::from_range(from, to));
    expect(&rt, range, Some((-366503875926, 366503875926)), "a range");
    Ok(())
}

#[derive(Clone, Copy)]
enum Operation {
    Sum,
    Difference,
    Product,
    Square,
    Quotient,
}

// The result on intervals of these ends; a square is that of the first.
fn result_of(operation: Operation, a: Ends, b: Ends) -> Result<Option<Ends>, Fail> {
    let (x, y) = (raw(a)?, raw(b)?);
    Ok(ends(match operation {
        Operation::Sum => x.add(y),
        Operation::Difference => x.sub(y),
        Operation::Product => x.mul(y),
        Operation::Square => x.square(),
        Operation::Quotient => x.div(y),
    }))
}

// Up to the largest end, by each sign, and by intervals that hold zero.
#[test]
fn operations(rt: HostRuntime) -> Result<(), Fail> {
    let o = ONE;
    let largest = (END, END);
    let (factor, above) = ((1 << 51, 1 << 51), ((1 << 51) + 1, (1 << 51) + 1));
    let (least, less) = ((1 << 18, 1 << 18), ((1 << 18) - 1, (1 << 18) - 1));
    let (three_halves, third) = (1649267441664, 366503875926);
    for (label, operation, a, b, wanted) in [
        ("a sum", Operation::Sum, largest, (1, 1), None),
        (
            "a sum",
            Operation::Sum,
            largest,
            (-1, 0),
            Some((END - 1, END)),
        ),
        ("a sum", Operation::Sum, largest, (0, 1), None),
        ("a sum", Operation::Sum, largest, (-1, 1), None),
        (
            "a difference",
            Operation::Difference,
            largest,
            (1, 1),
            Some((END - 1, END - 1)),
        ),
        (
            "a difference",
            Operation::Difference,
            largest,
            (-1, 0),
            None,
        ),
        (
            "a difference",
            Operation::Difference,
            largest,
            (0, 1),
            Some((END - 1, END)),
        ),
        (
            "a difference",
            Operation::Difference,
            largest,
            (-1, 1),
            None,
        ),
        (
            "a product",
            Operation::Product,
            factor,
            factor,
            Some(largest),
        ),
        ("a product", Operation::Product, above, above, None),
        (
            "a product",
            Operation::Product,
            (-3 * o, 2 * o),
            (5 * o, 7 * o),
            Some((-21 * o, 14 * o)),
        ),
        (
            "a product",
            Operation::Product,
            (-3 * o, 2 * o),
            (-3 * o, 2 * o),
            Some((-6 * o, 9 * o)),
        ),
        (
            "a product",
            Operation::Product,
            (-3, 2),
            (5, 7),
            Some((-1, 1)),
        ),
        ("a square", Operation::Square, above, (0, 0), None),
        (
            "a square",
            Operation::Square,
            (-3 * o, 2 * o),
            (0, 0),
            Some((0, 9 * o)),
        ),
        (
            "a square",
            Operation::Square,
            (5 * o, 7 * o),
            (0, 0),
            Some((25 * o, 49 * o)),
        ),
        (
            "a square",
            Operation::Square,
            (-3 * o, -2 * o),
            (0, 0),
            Some((4 * o, 9 * o)),
        ),
        (
            "a quotient",
            Operation::Quotient,
            (o, o),
            least,
            Some(largest),
        ),
        ("a quotient", Operation::Quotient, (o, o), less, None),
        (
            "a quotient",
            Operation::Quotient,
            (6, 8),
            (2, 4),
            Some((three_halves, 4 * o)),
        ),
        (
            "a quotient",
            Operation::Quotient,
            (-6, 8),
            (2, 4),
            Some((-3 * o, 4 * o)),
        ),
        (
            "a quotient",
            Operation::Quotient,
            (-8, -6),
            (2, 4),
            Some((-4 * o, -three_halves)),
        ),
        (
            "a quotient",
            Operation::Quotient,
            (6, 8),
            (-4, -2),
            Some((-4 * o, -three_halves)),
        ),
        (
            "a quotient",
            Operation::Quotient,
            (-6, 8),
            (-4, -2),
            Some((-4 * o, 3 * o)),
        ),
        (
            "a quotient",
            Operation::Quotient,
            (-8, -6),
            (-4, -2),
            Some((three_halves, 4 * o)),
        ),
        (
            "a quotient",
            Operation::Quotient,
            (0, 1),
            (3, 3),
            Some((0, third)),
        ),
        (
            "a quotient",
            Operation::Quotient,
            (-1, 0),
            (3, 3),
            Some((-third, 0)),
        ),
        ("a quotient", Operation::Quotient, (1, 1), (0, 4), None),
        ("a quotient", Operation::Quotient, (1, 1), (-4, 0), None),
        ("a quotient", Operation::Quotient, (0, 0), (-1, 1), None),
    ] {
        let found = result_of(operation, a, b)?;
        expect(&rt, (a, b, found), (a, b, wanted), label);
    }
    Ok(())
}

// The parts at and above zero and at and below it, the least and the greatest size, and the width.
type Parts = (Option<Ends>, Option<Ends>, u64, u64, u64);

fn parts_of(x: Span<40>) -> Parts {
    let above = ends(x.not_below_zero());
    let below = ends(x.not_above_zero());
    (above, below, x.mig(), x.mag(), x.width())
}

#[test]
fn parts_and_sizes(rt: HostRuntime) -> Result<(), Fail> {
    let size = 1_u64 << 62;
    for (interval, wanted) in [
        ((-3, 2), (Some((0, 2)), Some((-3, 0)), 0, 3, 5)),
        ((2, 5), (Some((2, 5)), None, 2, 5, 3)),
        ((-5, -2), (None, Some((-5, -2)), 2, 5, 3)),
        ((-3, 0), (Some((0, 0)), Some((-3, 0)), 0, 3, 3)),
        ((0, 3), (Some((0, 3)), Some((0, 0)), 0, 3, 3)),
        (
            (-END, END),
            (Some((0, END)), Some((-END, 0)), 0, size, 2 * size),
        ),
    ] {
        let found = parts_of(raw(interval)?);
        expect(&rt, (interval, found), (interval, wanted), "the parts");
    }
    Ok(())
}
