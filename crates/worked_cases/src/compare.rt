// How all cases compare.
use crate::answers::{Answer, SCAN, answered, shelf_with};
use harm_io::Shelf;
use std::alloc::Global;
use std::process::Abort;
use std::test::Fail;

// Compares bytes that were put.
fn assert_text(rt: &impl Abort, label: &str, found: &[u8], wanted: &[u8]) {
    assert_eq!(rt; found, wanted, "{label}");
}

// Compares a status.
fn assert_status(rt: &impl Abort, found: u8, wanted: u8) {
    assert_eq!(rt; found, wanted, "status");
}

/// Runs the words and compares the whole answer.
pub fn assert_answer<F: Shelf>(
    rt: &impl Abort,
    alloc: Global,
    words: &[&str],
    shelf: &mut F,
    answer: &Answer<'_>,
) -> Result<(), Fail> {
    let found = answered(alloc, words, shelf)?;
    assert_text(
        rt,
        "standard error",
        found.err.taken(),
        answer.err.as_bytes(),
    );
    assert_text(
        rt,
        "standard output",
        found.out.taken(),
        answer.out.as_bytes(),
    );
    assert_status(rt, found.status, answer.status);
    Ok(())
}

/// Runs `scan` on each study, and compares the report and the status.
pub fn assert_reports(
    rt: &impl Abort,
    alloc: Global,
    cases: &[(&str, &str, u8)],
) -> Result<(), Fail> {
    for (study, report, status) in cases {
        let mut shelf = shelf_with(alloc, study.as_bytes())?;
        let answer = Answer {
            status: *status,
            out: report,
            err: "",
        };
        assert_answer(rt, alloc, &SCAN, &mut shelf, &answer)?;
    }
    Ok(())
}

/// Runs `scan` on a study whose report is too long to be written here: compares how it begins, how it ends and the status, and
/// answers its length.
pub fn assert_long_report(
    rt: &impl Abort,
    alloc: Global,
    study: &str,
    ends: (&str, &str),
    status: u8,
) -> Result<usize, Fail> {
    let mut shelf = shelf_with(alloc, study.as_bytes())?;
    let found = answered(alloc, &SCAN, &mut shelf)?;
    assert_status(rt, found.status, status);
    assert_ends(rt, found.out.taken(), ends.0, ends.1);
    Ok(found.out.taken().len())
}

fn assert_ends(rt: &impl Abort, found: &[u8], front: &str, end: &str) {
    let same = (
        found.starts_with(front.as_bytes()),
        found.ends_with(end.as_bytes()),
    );
    assert_eq!(rt; same, (true, true), "front and end");
}
