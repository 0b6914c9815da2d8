// Worked intervals of sums of two fractions, each times a whole number, at scale 40.
use crate::compare::expect;
use crate::intervals::ends;
use complex_interval::Span;
use exact_fraction::Fraction;
use fraction_sum::sum_interval;
use std::test::Fail;

const ONE: i64 = 1 << 40;

const END: i64 = 1 << 62;

// 4194304, whose raw end is the greatest.
const LARGE: i128 = 1 << 22;

const ABOVE: i128 = 1 << 120;

// The least number that two denominators of 120 bits tell apart from 0.
const TINY: (i128, i128) = (1, ABOVE - 1);

fn fraction(parts: (i128, i128)) -> Result<Fraction, Fail> {
    Ok(Fraction::new(parts.0, parts.1).ok_or("no fraction")?)
}

#[test]
fn adds_multiples_of_fractions(rt: HostRuntime) -> Result<(), Fail> {
    let third = (366503875925, 366503875926);
    for (label, x, j, y, k, wanted) in [
        ("one", (1, 3), 1, (2, 3), 1, Some((ONE, ONE))),
        ("a third", (1, 3), 1, (1, 1), 0, Some(third)),
        (
            "less a third",
            (1, 3),
            -1,
            (0, 1),
            8,
            Some((-third.1, -third.0)),
        ),
        (
            "above one",
            (ABOVE - 2, ABOVE - 1),
            1,
            (1, ABOVE - 3),
            1,
            Some((ONE, ONE + 1)),
        ),
        (
            "below one",
            (ABOVE - 4, ABOVE - 3),
            1,
            TINY,
            1,
            Some((ONE - 1, ONE)),
        ),
        (
            "parts out of range",
            (ABOVE - 1, 1),
            8,
            (ABOVE - 1, 1),
            -8,
            Some((0, 0)),
        ),
        ("the greatest", (LARGE, 1), 1, TINY, 0, Some((END, END))),
        ("above the greatest", (LARGE, 1), 1, TINY, 1, None),
        (
            "below the greatest",
            (LARGE, 1),
            1,
            TINY,
            -1,
            Some((END - 1, END)),
        ),
        ("the least", (-LARGE, 1), 1, TINY, 0, Some((-END, -END))),
        (
            "above the least",
            (-LARGE, 1),
            1,
            TINY,
            8,
            Some((-END, 1 - END)),
        ),
        ("below the least", (-LARGE, 1), 1, TINY, -1, None),
    ] {
        assert!(rt; -8 <= j && j <= 8);
        assert!(rt; -8 <= k && k <= 8);
        let found = sum_interval::<Span<40>>(fraction(x)?, j, fraction(y)?, k);
        expect(&rt, ends(found), wanted, label);
    }
    Ok(())
}
