// Worked values of fractions and whole roots.
use crate::compare::expect;
use exact_fraction::{Fraction, root_ceil, root_floor};
use std::test::Fail;

const ABOVE: i128 = 1 << 120;

const END: i64 = 1 << 62;

const WIDE_END: i128 = 1 << 62;

const HALF_ABOVE: i64 = 1 << 60;

fn fraction(num: i128, den: i128) -> Result<Fraction, Fail> {
    Ok(Fraction::new(num, den).ok_or("no fraction")?)
}

#[test]
fn parts_are_bounded(rt: HostRuntime) -> Result<(), Fail> {
    for (num, den, made) in [
        (0, 1, true),
        (ABOVE - 1, ABOVE - 1, true),
        (1 - ABOVE, 1, true),
        (ABOVE, 1, false),
        (-ABOVE, 1, false),
        (1, 0, false),
        (1, -1, false),
        (1, ABOVE, false),
    ] {
        let found = Fraction::new(num, den).is_some();
        expect(&rt, (num, den, found), (num, den, made), "a fraction");
    }
    Ok(())
}

// The product of the first so many of some numbers, over that of the first so many of others.
fn product(
    top: ([i64; 4], usize),
    bottom: ([i64; 2], usize),
) -> Result<Option<(i128, i128)>, Fail> {
    let above = top.0.get(..top.1).ok_or("too many")?;
    let below = bottom.0.get(..bottom.1).ok_or("too many")?;
    match Fraction::product(above, below) {
        Some(x) => Ok(Some((x.num, x.den))),
        None => Ok(None),
    }
}

#[test]
fn multiplies_lists(rt: HostRuntime) -> Result<(), Fail> {
    let half = HALF_ABOVE;
    let largest = Some((1329227995784915871750885555673497600, 1));
    let greatest = i64::MAX;
    for (label, top, tops, bottom, bottoms, wanted) in [
        ("not reduced", [2, 3, 0, 0], 2, [4, 0], 1, Some((6, 4))),
        ("of nothing", [0, 0, 0, 0], 0, [0, 0], 0, Some((1, 1))),
        ("of signs", [-7, 0, 0, 0], 1, [-1, -1], 2, Some((-7, 1))),
        (
            "nought",
            [greatest, greatest, greatest, 0],
            4,
            [5, 0],
            1,
            Some((0, 5)),
        ),
        ("the largest", [half, half - 1, 0, 0], 2, [1, 0], 1, largest),
        ("too large", [half, half, 0, 0], 2, [1, 0], 1, None),
        ("too large below", [1, 0, 0, 0], 1, [half, half], 2, None),
        ("over nought", [1, 0, 0, 0], 1, [0, 0], 1, None),
        ("over a negative number", [1, 0, 0, 0], 1, [-1, 0], 1, None),
    ] {
        expect(&rt, product((top, tops), (bottom, bottoms))?, wanted, label);
    }
    Ok(())
}

// At scale 40; and at scale 0, where one end alone may be out of range.
#[test]
fn rounds_at_a_scale(rt: HostRuntime) -> Result<(), Fail> {
    let one = Some(1099511627776);
    for (num, den, scale, floor, ceil) in [
        (1, 3, 40, Some(366503875925), Some(366503875926)),
        (-1, 3, 40, Some(-366503875926), Some(-366503875925)),
        (0, 7, 40, Some(0), Some(0)),
        (4194304, 1, 40, Some(END), Some(END)),
        (-4194304, 1, 40, Some(-END), Some(-END)),
        (4194305, 1, 40, None, None),
        (-4194305, 1, 40, None, None),
        (ABOVE - 1, ABOVE - 1, 40, one, one),
        (1, ABOVE - 1, 40, Some(0), Some(1)),
        (2 * WIDE_END + 1, 2, 0, Some(END), None),
        (-2 * WIDE_END - 1, 2, 0, None, Some(-END)),
    ] {
        let x = fraction(num, den)?;
        assert!(rt; scale <= 48);
        let found = (x.floor_scaled(scale), x.ceil_scaled(scale));
        expect(&rt, (num, den, found), (num, den, (floor, ceil)), "scaled");
    }
    Ok(())
}

// The floor and the ceiling of k times half of a fraction that isn't negative.
#[test]
fn multiplies_and_rounds(rt: HostRuntime) -> Result<(), Fail> {
    for (num, den, k, floor, ceil) in [
        (1, 3, 10, Some(1), Some(2)),
        (1, 3, 12, Some(2), Some(2)),
        (5, 7, 0, Some(0), Some(0)),
        (ABOVE - 1, 1, 1, Some(ABOVE / 2 - 1), Some(ABOVE / 2)),
        (ABOVE - 1, 1, 2, None, None),
        (ABOVE - 1, 2, 2, Some(ABOVE / 2 - 1), Some(ABOVE / 2)),
        (ABOVE - 1, 2, 3, None, None),
        (
            ABOVE - 1,
            ABOVE - 1,
            u64::MAX,
            Some(9223372036854775807),
            Some(9223372036854775808),
        ),
    ] {
        let x = fraction(num, den)?;
        assert!(rt; 0 <= x.num);
        let found = (x.floor_times(k, 1), x.ceil_times(k, 1));
        let wanted = (floor, ceil);
        expect(&rt, (k, num, den, found), (k, num, den, wanted), "a half");
    }
    Ok(())
}

#[test]
fn takes_roots(rt: HostRuntime) {
    for (n, floor, ceil) in [
        (0, 0, 0),
        (1, 1, 1),
        (2, 1, 2),
        (4, 2, 2),
        (5, 2, 3),
        ((1 << 126) - 1, 9223372036854775807, 9223372036854775808),
        (1 << 126, 9223372036854775808, 9223372036854775808),
        (u128::MAX / 2, 13043817825332782212, 13043817825332782213),
    ] {
        assert!(rt; n <= u128::MAX / 2);
        let found = (root_floor(n), root_ceil(n));
        expect(&rt, (n, found), (n, (floor, ceil)), "the roots");
    }
}

#[test]
fn orders_values(rt: HostRuntime) -> Result<(), Fail> {
    for (label, a, b, c, d, at_most, at_least) in [
        ("equal", 1, 3, 2, 6, true, true),
        ("less", 1, 3, 1, 2, true, false),
        ("negative", -1, 2, -1, 3, true, false),
        ("below nought", -1, 3, 0, 5, true, false),
        ("greater", 7, 2, 10, 3, false, true),
        (
            "near",
            ABOVE - 1,
            ABOVE - 2,
            ABOVE - 2,
            ABOVE - 3,
            true,
            false,
        ),
        (
            "near and negative",
            1 - ABOVE,
            ABOVE - 2,
            2 - ABOVE,
            ABOVE - 3,
            false,
            true,
        ),
    ] {
        let (x, y) = (fraction(a, b)?, fraction(c, d)?);
        let found = (x.at_most(y), y.at_most(x));
        expect(&rt, found, (at_most, at_least), label);
    }
    Ok(())
}
