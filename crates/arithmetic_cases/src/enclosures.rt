// Solutions of one and of two rows by a certified inverse, at scale 40: found by another program and, of one row, by hand.
use crate::compare::expect;
use crate::patterns::{Entry, ONE, TWO, UNIT, matrix_of, pattern_of};
use crate::rectangles::Corners;
use certified_inverse::{InverseBench, InverseOutcome};
use plain_elimination::MAX_SIZE;
use std::alloc::Global;
use std::process::Abort;
use std::test::Fail;

/// The raw value and the error; or what is wrong, with a step or with row sums.
type Enclosed = Result<(i64, i64, u64), (&'static str, u64)>;

const NO_INVERSE: &str = "no inverse";

const NOT_CONTRACTING: &str = "not contracting";

const OUT_OF_RANGE: Enclosed = Err(("out of range", 0));

fn told(outcome: InverseOutcome) -> Enclosed {
    match outcome {
        InverseOutcome::Enclosed { re, im, error } => Ok((re, im, error)),
        InverseOutcome::NoInverse(column) => Err((NO_INVERSE, u64::from(column))),
        InverseOutcome::NotContracting(theta) => Err((NOT_CONTRACTING, theta)),
        InverseOutcome::OutOfRange => OUT_OF_RANGE,
    }
}

/// The outcomes at the first and at the last column, on one bench.
fn outcomes(
    rt: &impl Abort,
    alloc: Global,
    size: u32,
    entries: &[Entry],
) -> Result<(Enclosed, Enclosed), Fail> {
    assert!(rt; 1 <= size && size <= MAX_SIZE);
    let pattern = pattern_of(alloc, size, entries)?;
    let matrix = matrix_of(alloc, &pattern, entries)?;
    let mut bench = InverseBench::new(alloc, size)?;
    let first = told(bench.enclose(&matrix, 0));
    let last = told(bench.enclose(&matrix, size - 1));
    Ok((first, last))
}

const MINUS_ONE: Corners = [-UNIT, -UNIT, 0, 0];

const MINUS_SEVEN: Corners = [-7 * UNIT, -7 * UNIT, 0, 0];

/// 1, 2 and 3, each 1/64 more and less.
const ABOUT_ONE: Corners = [UNIT - UNIT / 64, UNIT + UNIT / 64, 0, 0];

const ABOUT_TWO: Corners = [2 * UNIT - UNIT / 64, 2 * UNIT + UNIT / 64, 0, 0];

const ABOUT_THREE: Corners = [3 * UNIT - UNIT / 64, 3 * UNIT + UNIT / 64, 0, 0];

#[test]
fn first_and_last_columns(rt: HostRuntime) -> Result<(), Fail> {
    let cases: [(&str, u32, &[Entry], [Enclosed; 2]); 12] = [
        ("zero", 1, &[], [Err((NO_INVERSE, 1)); 2]),
        (
            "row sums of 1",
            1,
            &[(0, 0, [0, 2 * UNIT, 0, 0])],
            [Err((NOT_CONTRACTING, 1_099_511_627_776)); 2],
        ),
        ("exact", 1, &[(0, 0, TWO)], [Ok((549_755_813_888, 0, 0)); 2]),
        (
            "1 to 1.5",
            1,
            &[(0, 0, [UNIT, 3 * UNIT / 2, 0, 0])],
            [Ok((879_609_302_220, 0, 219_902_325_557)); 2],
        ),
        (
            "row sums just below 1, and an error above the range",
            1,
            &[(0, 0, [1, 2 * UNIT - 1, 0, 0])],
            [OUT_OF_RANGE; 2],
        ),
        (
            "an inverse above the range",
            1,
            &[(0, 0, [1, 1, 0, 0])],
            [OUT_OF_RANGE; 2],
        ),
        (
            "imaginary",
            1,
            &[(0, 0, [0, 0, 2 * UNIT, 2 * UNIT])],
            [Ok((0, -549_755_813_888, 0)); 2],
        ),
        (
            "rows that change places",
            2,
            &[(0, 1, ONE), (1, 0, ONE), (1, 1, TWO)],
            [Ok((-2_199_023_255_552, 0, 0)), Ok((0, 0, 0))],
        ),
        (
            "no pivot in the second column",
            2,
            &[(0, 0, ONE), (0, 1, ONE), (1, 0, ONE), (1, 1, ONE)],
            [Err((NO_INVERSE, 2)); 2],
        ),
        (
            "the first of two pivots of one size",
            2,
            &[
                (0, 0, ONE),
                (0, 1, MINUS_SEVEN),
                (1, 0, MINUS_ONE),
                (1, 1, MINUS_SEVEN),
            ],
            [Ok((549_755_813_882, 0, 8)), Ok((-78_536_544_842, 0, 8))],
        ),
        (
            "wide entries",
            2,
            &[
                (0, 0, ABOUT_TWO),
                (0, 1, ABOUT_ONE),
                (1, 0, ABOUT_ONE),
                (1, 1, ABOUT_THREE),
            ],
            [
                Ok((659_706_976_666, 0, 11_277_042_338)),
                Ok((439_804_651_110, 0, 8_457_781_754)),
            ],
        ),
        (
            "complex entries",
            2,
            &[
                (0, 0, [UNIT, UNIT, UNIT, UNIT]),
                (0, 1, ONE),
                (1, 0, ONE),
                (1, 1, [UNIT, UNIT, -UNIT, -UNIT + UNIT / 32]),
            ],
            [
                Ok((1_099_234_672_707, -1_116_959_797_184, 37_184_028_048)),
                Ok((1_134_407_966_592, 1_098_957_717_636, 73_206_055_212)),
            ],
        ),
    ];
    for (label, size, entries, wanted) in cases {
        let found = outcomes(&rt, rt.alloc(), size, entries)?;
        expect(&rt, found, (wanted[0], wanted[1]), label);
    }
    Ok(())
}
