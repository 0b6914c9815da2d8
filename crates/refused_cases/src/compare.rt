// How all cases compare.
use harm_io::Shelf;
use std::alloc::Global;
use std::process::Abort;
use std::test::Fail;
use worked_cases::answers::{Answer, answered};

/// Compares bytes that were put.
pub fn assert_text(rt: &impl Abort, label: &str, found: &[u8], wanted: &[u8]) {
    assert_eq!(rt; found, wanted, "{label}");
}

/// Compares a status.
pub fn assert_status(rt: &impl Abort, found: u8, wanted: u8) {
    assert_eq!(rt; found, wanted, "status");
}

/// Runs the words and compares the whole answer.
pub fn assert_answer<F: Shelf>(
    rt: &impl Abort,
    alloc: Global,
    words: &[&str],
    shelf: &mut F,
    answer: &Answer<'_>,
) -> Result<(), Fail> {
    let found = answered(alloc, words, shelf)?;
    assert_text(
        rt,
        "standard error",
        found.err.taken(),
        answer.err.as_bytes(),
    );
    assert_text(
        rt,
        "standard output",
        found.out.taken(),
        answer.out.as_bytes(),
    );
    assert_status(rt, found.status, answer.status);
    Ok(())
}
