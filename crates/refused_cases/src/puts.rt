// Reports of which a line is not taken, through the program.
use crate::compare::{assert_status, assert_text};
use crate::refusing::RefusingSink;
use harm_io::{MemoryShelf, MemorySink, Sink, SteadySink};
use std::alloc::Global;
use std::process::Abort;
use std::test::Fail;
use worked_cases::answers::{
    CANDIDATES, OUTAGES, SCAN, TOLERANCE, VERIFY, joined, shelf_with, shelf_with_report, status_of,
};
use worked_cases::studies;

/// Runs the words where the put of that number keeps so many bytes and fails: `out` takes what is expected, whatever `err` does.
fn assert_front<E: Sink>(
    rt: &impl Abort,
    alloc: Global,
    words: &[&str],
    shelf: &mut MemoryShelf,
    failing: (u32, u32),
    expected: &[u8],
    err: &mut E,
) -> Result<(), Fail> {
    let mut out = MemorySink::new(alloc);
    out.fail_call(failing.0, failing.1)?;
    let status = status_of(alloc, words, shelf, &mut out, err)?;
    assert_text(rt, "standard output", out.taken(), expected);
    assert_status(rt, status, 6);
    Ok(())
}

/// The same with the line on standard error, and where memory is wanting for it.
fn assert_taken(
    rt: &impl Abort,
    alloc: Global,
    words: &[&str],
    shelf: &mut MemoryShelf,
    failing: (u32, u32),
    expected: &[u8],
) -> Result<(), Fail> {
    let mut err = SteadySink::new(alloc);
    assert_front(rt, alloc, words, shelf, failing, expected, &mut err)?;
    assert_text(
        rt,
        "standard error",
        err.taken(),
        b"harmscan: cannot write report\n",
    );
    let mut unheard = RefusingSink::new();
    assert_front(rt, alloc, words, shelf, failing, expected, &mut unheard)
}

/// The put of a line keeps nothing, a part or all of it and fails: the lines before it and that front were taken.
fn assert_line(
    rt: &impl Abort,
    alloc: Global,
    words: &[&str],
    shelf: &mut MemoryShelf,
    before: &[u8],
    (call, line): (u32, &str),
) -> Result<(), Fail> {
    for kept in [0, 5, 300] {
        let mut expected = Vec::from_slice(alloc, before)?;
        let front = line.as_bytes().len().min(kept as usize);
        expected.extend_from_slice(&line.as_bytes()[..front])?;
        assert_taken(rt, alloc, words, shelf, (call, kept), &expected)?;
    }
    Ok(())
}

/// Each line is one put.
fn assert_each_put(
    rt: &impl Abort,
    alloc: Global,
    words: &[&str],
    study: &str,
    report: &[(u32, &str)],
) -> Result<(), Fail> {
    let mut shelf = shelf_with(alloc, study.as_bytes())?;
    let mut lines = Vec::new(alloc);
    for (call, line) in report {
        assert_line(rt, alloc, words, &mut shelf, &lines, (*call, *line))?;
        lines.extend_from_slice(line.as_bytes())?;
    }
    let mut out = SteadySink::new(alloc);
    let mut err = SteadySink::new(alloc);
    status_of(alloc, words, &mut shelf, &mut out, &mut err)?;
    assert_text(rt, "all lines", out.taken(), &lines);
    Ok(())
}

#[test]
fn each_put_that_fails(rt: HostRuntime) -> Result<(), Fail> {
    let lines = &studies::TWO_RESONANCES_LINES;
    assert_each_put(&rt, rt.alloc(), &SCAN, studies::TWO_RESONANCES, lines)
}

#[test]
fn each_put_on_candidates_that_fails(rt: HostRuntime) -> Result<(), Fail> {
    let study = joined(rt.alloc(), &[studies::NO_BANK, studies::TWO_SIZES])?;
    let lines = &studies::TWO_SIZES_LINES;
    assert_each_put(&rt, rt.alloc(), &CANDIDATES, &study, lines)
}

#[test]
fn the_put_of_a_verified_report_that_fails(rt: HostRuntime) -> Result<(), Fail> {
    let report = studies::RESONANCE_REPORT.as_bytes();
    let mut shelf = shelf_with_report(rt.alloc(), studies::RESONANCE, report)?;
    let line = (1, "verified,1,6\n");
    assert_line(&rt, rt.alloc(), &VERIFY, &mut shelf, b"", line)
}

#[test]
fn each_put_on_tolerances_that_fails(rt: HostRuntime) -> Result<(), Fail> {
    let lines = &studies::TOLERANT_LINES;
    assert_each_put(&rt, rt.alloc(), &TOLERANCE, studies::TOLERANT, lines)
}

#[test]
fn each_put_on_outages_that_fails(rt: HostRuntime) -> Result<(), Fail> {
    let lines = &studies::TWO_OUTAGES_LINES;
    assert_each_put(&rt, rt.alloc(), &OUTAGES, studies::TWO_OUTAGES, lines)
}

#[test]
fn each_put_of_a_drill_that_fails(rt: HostRuntime) -> Result<(), Fail> {
    let mut shelf = MemoryShelf::new(rt.alloc());
    let mut lines = Vec::new(rt.alloc());
    for (call, line) in studies::DRILL_7_LINES {
        // the put keeps nothing of its line
        assert_taken(
            &rt,
            rt.alloc(),
            &["drill", "7"],
            &mut shelf,
            (call, 0),
            &lines,
        )?;
        lines.extend_from_slice(line.as_bytes())?;
    }
    Ok(())
}

#[test]
fn puts_that_lack_memory(rt: HostRuntime) -> Result<(), Fail> {
    let mut shelf = shelf_with(rt.alloc(), studies::TWO_RESONANCES.as_bytes())?;
    let mut out = RefusingSink::new();
    let mut err = SteadySink::new(rt.alloc());
    let status = status_of(rt.alloc(), &SCAN, &mut shelf, &mut out, &mut err)?;
    assert_text(
        &rt,
        "standard error",
        err.taken(),
        b"harmscan: out of memory\n",
    );
    assert_status(&rt, status, 7);
    Ok(())
}
