// Each law is called once, at rows that meet its premises, beside the arithmetic of its conclusion.
use crate::compare::expect;
use exact_fraction::Fraction;
use linear_laws::{Rows, elimination_step, front_of_zero_rows, injective_is_solvable};
use std::alloc::Global;
use std::test::Fail;

const FULL: [[i128; 2]; 2] = [[2, 1], [1, 2]];

const BEGINNING_WITH_ZERO: [[i128; 2]; 2] = [[0, 1], [0, 2]];

fn row_of(alloc: Global, entries: [i128; 2]) -> Result<Vec<Fraction>, Fail> {
    let mut row = Vec::new(alloc);
    for entry in entries {
        row.push(Fraction::new(entry, 1).ok_or("out of range")?)?;
    }
    Ok(row)
}

fn rows_of(alloc: Global, entries: [[i128; 2]; 2]) -> Result<Rows, Fail> {
    let mut list = Vec::new(alloc);
    for entries in entries {
        list.push(row_of(alloc, entries)?)?;
    }
    Ok(Rows { list })
}

fn call_each_law(alloc: Global) -> Result<(), Fail> {
    let beginning_with_zero = rows_of(alloc, BEGINNING_WITH_ZERO)?;
    let full = rows_of(alloc, FULL)?;
    front_of_zero_rows(&beginning_with_zero);
    elimination_step(&full);
    injective_is_solvable(&full);
    Ok(())
}

fn dot(row: [i128; 2], x: [i128; 2]) -> i128 {
    row[0]
        .wrapping_mul(x[0])
        .wrapping_add(row[1].wrapping_mul(x[1]))
}

// What both rows give at x. Twice the second of the full rows less the first is (0, 3), so y = 2 for the right sides 4 and 5,
// and x = 1. The last rows are zero elsewhere too, so the law of one solution says nothing of them.
#[test]
fn laws_at_two_rows(rt: HostRuntime) -> Result<(), Fail> {
    call_each_law(rt.alloc())?;
    for (label, rows, x, wanted) in [
        ("a zero", BEGINNING_WITH_ZERO, [1, 0], [0, 0]),
        ("no zero", BEGINNING_WITH_ZERO, [0, 1], [1, 2]),
        ("the solution", FULL, [1, 2], [4, 5]),
        ("after a step", [[2, 1], [0, 3]], [1, 2], [4, 2 * 5 - 4]),
        ("a further zero", [[1, 2], [2, 4]], [2, -1], [0, 0]),
    ] {
        expect(&rt, [dot(rows[0], x), dot(rows[1], x)], wanted, label);
    }
    Ok(())
}
