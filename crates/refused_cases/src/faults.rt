// Words without a reading, and faults of files and of standard error, through the program.
use crate::compare::{assert_answer, assert_status, assert_text};
use crate::refusing::RefusingSink;
use harm_io::{MemoryShelf, MemorySink, Shelf, Sink, SteadySink};
use harmscan_core::run_collected;
use std::alloc::Global;
use std::io;
use std::process::Abort;
use std::test::Fail;
use worked_cases::answers::{Answer, SCAN, shelf_with, status_of};
use worked_cases::studies;

const WORDS_REFUSED: Answer<'static> = Answer {
    status: 1,
    out: "",
    err: "harmscan: words refused\n",
};

const CANNOT_READ: Answer<'static> = Answer {
    status: 5,
    out: "",
    err: "harmscan: cannot read study\n",
};

const NOT_TOML: Answer<'static> = Answer {
    status: 2,
    out: "",
    err: "harmscan: study refused: 1 NotToml\n",
};

const TOO_LARGE: Answer<'static> = Answer {
    status: 2,
    out: "",
    err: "harmscan: study too large\n",
};

#[test]
fn words_without_a_reading(rt: HostRuntime) -> Result<(), Fail> {
    let cases: [&[&str]; 31] = [
        &[],
        &["help"],
        &["--help"],
        &["scan"],
        &["scan", ""],
        &["scan", "-a"],
        &["Scan", "study.toml"],
        &["scan", "study.toml", "study.toml"],
        &["candidates"],
        &["candidates", ""],
        &["tolerance", "-a"],
        &["tolerances", "study.toml"],
        &["outages", "study.toml", "study.toml"],
        &["Outages", "study.toml"],
        &["drill"],
        &["drill", ""],
        &["drill", "00"],
        &["drill", "07"],
        &["drill", "-1"],
        &["drill", "+7"],
        &["drill", "7a"],
        &["drill", "1000000"],
        &["drill", "7", "7"],
        &["Drill", "7"],
        &["verify"],
        &["verify", "study.toml"],
        &["verify", "", "study.toml"],
        &["verify", "study.toml", ""],
        &["verify", "study.toml", "-s"],
        &["verify", "study.toml", "study.toml", "study.toml"],
        &["Verify", "study.toml", "study.toml"],
    ];
    let mut shelf = shelf_with(rt.alloc(), studies::BELOW_ITS_THRESHOLD.as_bytes())?;
    for words in cases {
        assert_answer(&rt, rt.alloc(), words, &mut shelf, &WORDS_REFUSED)?;
    }
    Ok(())
}

/// The status where words could not be collected, for this cause.
fn status_without_words<F: Shelf, O: Sink, E: Sink>(
    alloc: Global,
    cause: io::ErrorKind,
    shelf: &mut F,
    out: &mut O,
    err: &mut E,
) -> u8 {
    run_collected(alloc, &Err(io::Error::from(cause)), shelf, out, err)
}

/// Words that could not be collected, for this cause.
fn assert_uncollected(rt: &impl Abort, alloc: Global, cause: io::ErrorKind, answer: &Answer<'_>) {
    let mut shelf = MemoryShelf::new(alloc);
    let mut out = SteadySink::new(alloc);
    let mut err = SteadySink::new(alloc);
    let status = status_without_words(alloc, cause, &mut shelf, &mut out, &mut err);
    assert_text(rt, "standard error", err.taken(), answer.err.as_bytes());
    assert_text(rt, "standard output", out.taken(), answer.out.as_bytes());
    assert_status(rt, status, answer.status);
}

#[test]
fn words_that_are_not_collected(rt: HostRuntime) {
    let no_memory = Answer {
        status: 7,
        out: "",
        err: "harmscan: out of memory\n",
    };
    let cases = [
        (io::ErrorKind::InvalidData, WORDS_REFUSED),
        (io::ErrorKind::OutOfMemory, no_memory),
    ];
    for (cause, answer) in cases {
        assert_uncollected(&rt, rt.alloc(), cause, &answer);
    }
}

#[test]
fn files_that_are_not_read(rt: HostRuntime) -> Result<(), Fail> {
    let mut shelf = shelf_with(rt.alloc(), studies::BELOW_ITS_THRESHOLD.as_bytes())?;
    shelf.fail_call(2)?;
    for name in ["absent.toml", "study.toml"] {
        assert_answer(&rt, rt.alloc(), &["scan", name], &mut shelf, &CANNOT_READ)?;
    }
    Ok(())
}

#[test]
fn files_at_the_limit(rt: HostRuntime) -> Result<(), Fail> {
    // no document from its first byte on, so that the reading is short
    let bytes = Vec::from_elem(rt.alloc(), b']', 4_194_305)?;
    let cases = [(4_194_304, NOT_TOML), (4_194_305, TOO_LARGE)];
    for (size, answer) in cases {
        let mut shelf = shelf_with(rt.alloc(), &bytes[..bytes.len().min(size)])?;
        assert_answer(&rt, rt.alloc(), &SCAN, &mut shelf, &answer)?;
    }
    Ok(())
}

/// Runs the words on a shelf with a file that is no document: whatever `err` does, the status stays and `out` takes nothing.
fn assert_unheard<E: Sink>(
    rt: &impl Abort,
    alloc: Global,
    words: &[&str],
    err: &mut E,
    status: u8,
) -> Result<(), Fail> {
    let mut shelf = shelf_with(alloc, b"[study")?;
    let mut out = SteadySink::new(alloc);
    let found = status_of(alloc, words, &mut shelf, &mut out, err)?;
    assert_status(rt, found, status);
    assert_text(rt, "standard output", out.taken(), b"");
    Ok(())
}

/// The same where the first line on standard error fails after 8 bytes, and where memory is wanting for it.
fn assert_both_unheard(
    rt: &impl Abort,
    alloc: Global,
    words: &[&str],
    status: u8,
) -> Result<(), Fail> {
    let mut failing = MemorySink::new(alloc);
    failing.fail_call(1, 8)?;
    assert_unheard(rt, alloc, words, &mut failing, status)?;
    assert_text(rt, "standard error", failing.taken(), b"harmscan");
    assert_unheard(rt, alloc, words, &mut RefusingSink::new(), status)
}

#[test]
fn standard_error_changes_no_status(rt: HostRuntime) -> Result<(), Fail> {
    let cases: [(&[&str], u8); 9] = [
        (&["help"], 1),
        (&["scan", "study.toml"], 2),
        (&["scan", "absent.toml"], 5),
        (&["candidates", "study.toml"], 2),
        (&["tolerance", "study.toml"], 2),
        (&["outages", "absent.toml"], 5),
        (&["limits", "study.toml", "spectrum.csv"], 2),
        (&["verify", "study.toml", "report.csv"], 2),
        (&["verify", "absent.toml", "report.csv"], 5),
    ];
    for (words, status) in cases {
        assert_both_unheard(&rt, rt.alloc(), words, status)?;
    }
    Ok(())
}
