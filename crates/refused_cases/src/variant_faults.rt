// Reports on candidate banks, on tolerances and on outages that fail, through the program.
use crate::compare::{assert_answer, assert_status, assert_text};
use crate::refusing::RefusingSink;
use harm_io::SteadySink;
use std::alloc::Global;
use std::process::Abort;
use std::test::Fail;
use worked_cases::answers::{
    Answer, CANDIDATES, OUTAGES, TOLERANCE, joined, shelf_with, status_of,
};
use worked_cases::studies::NO_BANK;

/// Runs a command on a study that is refused.
fn assert_refused(
    rt: &impl Abort,
    alloc: Global,
    words: &[&str],
    study: &str,
    fault: &str,
) -> Result<(), Fail> {
    let mut shelf = shelf_with(alloc, study.as_bytes())?;
    let err = joined(alloc, &["harmscan: study refused: ", fault, "\n"])?;
    let answer = Answer {
        status: 2,
        out: "",
        err: &err,
    };
    assert_answer(rt, alloc, words, &mut shelf, &answer)
}

#[test]
fn refused_studies(rt: HostRuntime) -> Result<(), Fail> {
    let cases = [
        (
            CANDIDATES,
            "candidate = [{ scan = \"s9\", sizes = [\"4\"] }]\n",
            "19 UnknownScan candidate 1 scan",
        ),
        (
            TOLERANCE,
            "tolerance = [{ element = \"ZZ\", permille = 100 }]\n",
            "18 UnknownElement tolerance 1 element",
        ),
        (
            OUTAGES,
            "outage = [{ element = \"ZZ\" }]\n",
            "18 UnknownElement outage 1 element",
        ),
    ];
    for (words, entries, fault) in cases {
        let study = joined(rt.alloc(), &[NO_BANK, entries])?;
        assert_refused(&rt, rt.alloc(), &words, &study, fault)?;
    }
    Ok(())
}

#[test]
fn fetches_that_fail(rt: HostRuntime) -> Result<(), Fail> {
    for words in [CANDIDATES, TOLERANCE, OUTAGES] {
        let mut shelf = shelf_with(rt.alloc(), NO_BANK.as_bytes())?;
        shelf.fail_call(1)?;
        let answer = Answer {
            status: 5,
            out: "",
            err: "harmscan: cannot read study\n",
        };
        assert_answer(&rt, rt.alloc(), &words, &mut shelf, &answer)?;
    }
    Ok(())
}

#[test]
fn puts_that_lack_memory(rt: HostRuntime) -> Result<(), Fail> {
    for words in [CANDIDATES, TOLERANCE, OUTAGES] {
        let mut shelf = shelf_with(rt.alloc(), NO_BANK.as_bytes())?;
        let mut out = RefusingSink::new();
        let mut err = SteadySink::new(rt.alloc());
        let status = status_of(rt.alloc(), &words, &mut shelf, &mut out, &mut err)?;
        assert_text(
            &rt,
            "standard error",
            err.taken(),
            b"harmscan: out of memory\n",
        );
        assert_status(&rt, status, 7);
    }
    Ok(())
}
