// Rows that were worked by hand, and many of them, at scale 40: each matrix is reduced or solved on a bench and in full, with one answer.
ghost use Rattle.std.specs.Prelude.{◌≡◌, ◌≤◌, IfOk, length};
ghost use Rattle.plain_elimination.specs.declared.limits.TheConstants.{MAX_SIZE};

use crate::compare::expect;
use crate::patterns::{Entry, ONE, TWO, UNIT, matrix_of, pattern_of};
use crate::rectangles::{Corners, corners, rectangle};
use complex_interval::{Rect, Span};
use plain_elimination::{Column, Failure, MAX_SIZE, reduce_to_last, solve};
use sparse_rows::SparseBench;
use std::alloc::Global;
use std::process::Abort;
use std::test::Fail;

/// What is wrong at a step.
type Cause = (&'static str, u32);

type Answer = Result<Corners, Cause>;

/// The first and the last unknown.
type Solved = Result<[Corners; 2], Cause>;

const HELD: &str = "the pivot holds zero";

const BEYOND: &str = "out of range";

fn cause(failure: Failure) -> Cause {
    match failure {
        Failure::PivotHoldsZero(step) => (HELD, step),
        Failure::OutOfRange(step) => (BEYOND, step),
    }
}

fn told(answer: Result<Rect<Span<40>>, Failure>) -> Answer {
    match answer {
        Ok(value) => Ok(corners(value)),
        Err(failure) => Err(cause(failure)),
    }
}

/// Reduces the matrix twice on a bench and then in full.
fn reduced(
    rt: &impl Abort,
    alloc: Global,
    size: u32,
    entries: &[Entry],
) -> Result<(Answer, Answer, Answer), Fail> {
    assert!(rt; 1 <= size && size <= MAX_SIZE);
    let pattern = pattern_of(alloc, size, entries)?;
    let mut bench = SparseBench::new(alloc, &pattern)?;
    let mut matrix = matrix_of(alloc, &pattern, entries)?;
    let first = told(bench.reduce(&matrix));
    let again = told(bench.reduce(&matrix));
    Ok((first, again, told(reduce_to_last(&mut matrix))))
}

const FOUR: Corners = [4 * UNIT, 4 * UNIT, 0, 0];

const AROUND_ZERO: Corners = [-1, 1, 0, 0];

/// The greatest number in range, 2^22.
const GREATEST: Corners = [4_611_686_018_427_387_904, 4_611_686_018_427_387_904, 0, 0];

const NOUGHT: Corners = [0, 0, 0, 0];

#[test]
fn rows_are_reduced(rt: HostRuntime) -> Result<(), Fail> {
    let cases: [(&str, u32, &[Entry], Answer); 12] = [
        ("one entry", 1, &[(0, 0, TWO)], Ok(TWO)),
        (
            "one entry is not tested",
            1,
            &[(0, 0, AROUND_ZERO)],
            Ok(AROUND_ZERO),
        ),
        (
            "a place that is named twice",
            1,
            &[(0, 0, FOUR), (0, 0, ONE)],
            Ok(ONE),
        ),
        (
            "2 - 1/2",
            2,
            &[(0, 0, TWO), (0, 1, ONE), (1, 0, ONE), (1, 1, TWO)],
            Ok([1_649_267_441_664, 1_649_267_441_664, 0, 0]),
        ),
        (
            "a row that begins with zero stays",
            2,
            &[(0, 0, ONE), (0, 1, GREATEST), (1, 0, NOUGHT), (1, 1, ONE)],
            Ok(ONE),
        ),
        (
            "whatever stands over its last entry",
            2,
            &[(0, 0, TWO), (0, 1, GREATEST), (1, 0, NOUGHT), (1, 1, ONE)],
            Ok(ONE),
        ),
        // the first row and the first column are 1, and the diagonal behind them is 4
        (
            "the first row fills the others",
            3,
            &[
                (0, 0, ONE),
                (0, 1, ONE),
                (0, 2, ONE),
                (1, 0, ONE),
                (2, 0, ONE),
                (1, 1, FOUR),
                (2, 2, FOUR),
            ],
            Ok([2_932_031_007_402, 2_932_031_007_403, 0, 0]),
        ),
        (
            "a pivot outside the pattern",
            2,
            &[(1, 1, ONE)],
            Err((HELD, 1)),
        ),
        (
            "a pivot of zero",
            2,
            &[(0, 0, NOUGHT), (0, 1, ONE), (1, 0, ONE), (1, 1, ONE)],
            Err((HELD, 1)),
        ),
        (
            "a pivot holds zero",
            2,
            &[(0, 0, AROUND_ZERO), (0, 1, ONE), (1, 1, ONE)],
            Err((HELD, 1)),
        ),
        (
            "a product out of range",
            2,
            &[(0, 0, ONE), (0, 1, GREATEST), (1, 0, FOUR), (1, 1, ONE)],
            Err((BEYOND, 1)),
        ),
        (
            "a smaller product out of range",
            2,
            &[(0, 0, ONE), (0, 1, GREATEST), (1, 0, TWO), (1, 1, ONE)],
            Err((BEYOND, 1)),
        ),
    ];
    for (label, size, entries, wanted) in cases {
        let found = reduced(&rt, rt.alloc(), size, entries)?;
        expect(&rt, found, (wanted, wanted, wanted), label);
    }
    Ok(())
}

/// A right side that is zero but for its first and its last row.
fn column_of(alloc: Global, size: u32, right: [Corners; 2]) -> Result<Column<Span<40>>, Fail>
    requires some { 1 ≤ size }
    requires few { size ≤ MAX_SIZE }
    ensures { IfOk result (λ c. length c ≡ size) }
{
    let [first, last] = right;
    let first = rectangle(first)?;
    let last = rectangle(last)?;
    let mut column = Column::new(alloc, size)?;
    column.set(0, first);
    column.set(size - 1, last);
    Ok(column)
}

fn unknowns(answer: Result<(), Failure>, column: &Column<Span<40>>, size: u32) -> Solved
    requires some { 1 ≤ size }
    requires sizes { length column.now ≡ size }
{
    match answer {
        Ok(()) => Ok([corners(column.get(0)), corners(column.get(size - 1))]),
        Err(failure) => Err(cause(failure)),
    }
}

/// Solves with that right side on a bench and then in full.
fn solved(
    rt: &impl Abort,
    alloc: Global,
    size: u32,
    entries: &[Entry],
    right: [Corners; 2],
) -> Result<(Solved, Solved), Fail> {
    assert!(rt; 1 <= size && size <= MAX_SIZE);
    let pattern = pattern_of(alloc, size, entries)?;
    let mut bench = SparseBench::new(alloc, &pattern)?;
    let mut matrix = matrix_of(alloc, &pattern, entries)?;
    let mut column = column_of(alloc, size, right)?;
    let answer = bench.solve(&matrix, &mut column);
    let on_bench = unknowns(answer, &column, size);
    let mut full = column_of(alloc, size, right)?;
    let answer = solve(&mut matrix, &mut full);
    Ok((on_bench, unknowns(answer, &full, size)))
}

const HALF: Corners = [UNIT / 2, UNIT / 2, 0, 0];

const QUARTER: Corners = [UNIT / 4, UNIT / 4, 0, 0];

const THIRD: Corners = [366_503_875_925, 366_503_875_926, 0, 0];

// 4x = 1; 2x = 1; 2x + y = 2 and x + 2y = 5/2; the last pivot is 1 - 1; y = 2^22 in x + 2y = 0 leaves the range at row 1, and so does
// twice as much in x + 2^22 y = 0.
#[test]
fn systems_are_solved(rt: HostRuntime) -> Result<(), Fail> {
    let unit = [NOUGHT, ONE];
    let cases: [(&str, u32, &[Entry], [Corners; 2], Solved); 8] = [
        ("a quarter", 1, &[(0, 0, FOUR)], unit, Ok([QUARTER; 2])),
        ("a half", 1, &[(0, 0, TWO)], unit, Ok([HALF; 2])),
        (
            "the only pivot is tested",
            1,
            &[(0, 0, AROUND_ZERO)],
            unit,
            Err((HELD, 1)),
        ),
        (
            "two unknowns",
            2,
            &[(0, 0, TWO), (0, 1, ONE), (1, 0, ONE), (1, 1, TWO)],
            [TWO, [2_748_779_069_440, 2_748_779_069_440, 0, 0]],
            Ok([HALF, ONE]),
        ),
        (
            "the last pivot",
            2,
            &[(0, 0, ONE), (0, 1, ONE), (1, 0, ONE), (1, 1, ONE)],
            [ONE, ONE],
            Err((HELD, 2)),
        ),
        (
            "the way back",
            2,
            &[(0, 0, ONE), (0, 1, TWO), (1, 0, NOUGHT), (1, 1, ONE)],
            [NOUGHT, GREATEST],
            Err((BEYOND, 1)),
        ),
        (
            "a great factor on the way back",
            2,
            &[(0, 0, ONE), (0, 1, GREATEST), (1, 1, HALF)],
            unit,
            Err((BEYOND, 1)),
        ),
        // a third, its negative and a third
        (
            "a chain",
            3,
            &[
                (0, 0, ONE),
                (0, 1, ONE),
                (1, 0, ONE),
                (1, 1, TWO),
                (1, 2, ONE),
                (2, 1, ONE),
                (2, 2, FOUR),
            ],
            unit,
            Ok([THIRD; 2]),
        ),
    ];
    for (label, size, entries, right, wanted) in cases {
        let found = solved(&rt, rt.alloc(), size, entries, right)?;
        expect(&rt, found, (wanted, wanted), label);
    }
    Ok(())
}

// The places of a band of three, with 4 on the diagonal and 1 right above and right below it.
fn band(alloc: Global, size: u32) -> Result<Vec<Entry>, Fail> {
    let mut entries = Vec::new(alloc);
    for k in 0..size {
        if 0 < k {
            entries.push((k, k - 1, ONE))?;
        }
        entries.push((k, k, FOUR))?;
        if k < size - 1 {
            entries.push((k, k + 1, ONE))?;
        }
    }
    Ok(entries)
}

#[test]
fn a_long_band_is_reduced_often(rt: HostRuntime) -> Result<(), Fail> {
    let alloc = rt.alloc();
    let entries = band(alloc, 2_000)?;
    let pattern = pattern_of(alloc, 2_000, entries.as_slice())?;
    let mut bench = SparseBench::new(alloc, &pattern)?;
    let mut matrix = matrix_of(alloc, &pattern, entries.as_slice())?;
    let mut alike: u32 = 0;
    let first = told(bench.reduce(&matrix));
    for _time in 1..2_000u32 {
        if told(bench.reduce(&matrix)) == first {
            alike += 1;
        }
    }
    let found = (entries.len(), alike, told(reduce_to_last(&mut matrix)));
    expect(&rt, found, (5_998, 1_999, first), "a long band");
    Ok(())
}
