// Reports that `verify` judges, through the program: those of scans, and changed ones, by the line that has to be named.
use crate::answers::{Answer, VERIFY, joined, shelf_with, shelf_with_report};
use crate::compare::assert_answer;
use crate::{curves, recipes, studies};
use std::alloc::Global;
use std::process::Abort;
use std::test::Fail;

/// What a report is answered: the row where it is right, or why it is refused.
type Verdict<'a> = Result<&'a str, &'a str>;

/// Runs `verify` on a study and a report.
fn assert_verdict(
    rt: &impl Abort,
    alloc: Global,
    study: &str,
    report: &[u8],
    verdict: Verdict<'_>,
) -> Result<(), Fail> {
    let mut shelf = shelf_with_report(alloc, study, report)?;
    match verdict {
        Ok(row) => {
            let out = joined(alloc, &[row, "\n"])?;
            let answer = Answer {
                status: 0,
                out: &out,
                err: "",
            };
            assert_answer(rt, alloc, &VERIFY, &mut shelf, &answer)
        }
        Err(fault) => {
            let err = joined(alloc, &["harmscan: report refused: ", fault, "\n"])?;
            let answer = Answer {
                status: 2,
                out: "",
                err: &err,
            };
            assert_answer(rt, alloc, &VERIFY, &mut shelf, &answer)
        }
    }
}

#[test]
fn reports_of_scans(rt: HostRuntime) -> Result<(), Fail> {
    let cases = [
        (
            studies::BELOW_ITS_THRESHOLD,
            studies::BELOW_ITS_THRESHOLD_REPORT,
            "verified,1,1",
        ),
        (
            studies::WIDE_PEAKS,
            studies::WIDE_PEAKS_REPORT,
            "verified,1,2",
        ),
        (
            studies::RESONANCE,
            studies::RESONANCE_REPORT,
            "verified,1,6",
        ),
        (curves::RISING, curves::RISING_REPORT, "verified,1,5"),
        (
            studies::CLEARED_AND_UNDECIDED,
            studies::CLEARED_AND_UNDECIDED_REPORT,
            "verified,2,2",
        ),
        (studies::NO_SCAN, studies::NO_SCAN_REPORT, "verified,0,0"),
        (recipes::MOVED, recipes::MOVED_REPORT, "verified,2,2"),
    ];
    for (study, report, row) in cases {
        assert_verdict(&rt, rt.alloc(), study, report.as_bytes(), Ok(row))?;
    }
    Ok(())
}

/// A text with other words in the place of some that it has.
fn changed(alloc: Global, text: &str, old: &str, new: &str) -> Result<String, Fail> {
    match text.split_once(old) {
        Some((before, behind)) => joined(alloc, &[before, new, behind]),
        None => Err("nothing to change".into()),
    }
}

/// Runs `verify` on each report with its change.
fn assert_changed(
    rt: &impl Abort,
    alloc: Global,
    (study, report): (&str, &str),
    cases: &[(&str, &str, Verdict<'_>)],
) -> Result<(), Fail> {
    for (old, new, verdict) in cases {
        let text = changed(alloc, report, old, new)?;
        assert_verdict(rt, alloc, study, text.as_bytes(), *verdict)?;
    }
    Ok(())
}

#[test]
fn changed_reports_of_a_resonance(rt: HostRuntime) -> Result<(), Fail> {
    let cases = [
        ("end,3\n", "", Err("1 BadRow 10")),
        ("end,3\n", "end,3", Err("1 BadRow 10")),
        ("end,3\n", "end,4\n", Err("7 WrongCount 10")),
        ("scan,s1,", "scan,s2,", Err("2 WrongScan 1")),
        ("elimination", "both", Err("2 WrongScan 1")),
        // one box in the place of two: the first peak of the resonance lies in it
        (
            "box,1,3.000000,4.000000,cleared,-,-\nbox,2,4.000000,4.500000,peak,4.500000,23.584458\n",
            "box,1,3.000000,4.500000,cleared,-,-\n",
            Err("4 NotCleared 2"),
        ),
        ("box,2,4.000000,", "box,2,4.000001,", Err("3 Gap 3")),
        (
            "box,6,6.000000,7.000000,",
            "box,6,6.000000,7.000001,",
            Err("3 Gap 8"),
        ),
        ("box,6,6.000000,7.000000,cleared,-,-\n", "", Err("3 Gap 8")),
        (
            "box,3,4.500000,5.000000,peak,4.750000,47.829051",
            "box,3,4.500000,5.000000,undecided,-,-",
            Err("6 NotUndecided 4"),
        ),
        ("box,4,", "box,5,", Err("7 WrongCount 5")),
        ("23.584458", "23.584459", Err("5 NotPeak 3")),
        ("peak,4.500000", "peak,4.500001", Err("5 NotPeak 3")),
        (
            "4,0,5.250000,50.186343",
            "4,0,4.750000,47.829051",
            Err("7 WrongCount 7"),
        ),
        ("s1,6,2,4,0,1", "s1,6,2,4,0,2", Err("7 WrongCount 9")),
        // the ohms of a peak may be fewer than the certified ones
        ("23.584458", "23.000000", Ok("verified,1,6")),
    ];
    let scan = (studies::RESONANCE, studies::RESONANCE_REPORT);
    assert_changed(&rt, rt.alloc(), scan, &cases)
}

#[test]
fn changed_reports_of_wide_peaks(rt: HostRuntime) -> Result<(), Fail> {
    let cases = [
        ("3.249999", "3.250000", Err("5 NotPeak 2")),
        ("3.249999", "3.000000", Ok("verified,1,2")),
        (
            "region,1,1.000000,10.000000,50.000000,500.000000,2,0,7.750000,7.749999\n",
            "",
            Err("7 WrongCount 4"),
        ),
    ];
    let scan = (studies::WIDE_PEAKS, studies::WIDE_PEAKS_REPORT);
    assert_changed(&rt, rt.alloc(), scan, &cases)
}

#[test]
fn reports_of_other_studies(rt: HostRuntime) -> Result<(), Fail> {
    let cases = [
        (studies::BELOW_ITS_THRESHOLD, "end,0\n", "2 WrongScan 1"),
        (
            studies::BELOW_ITS_THRESHOLD,
            studies::WIDE_PEAKS_REPORT,
            "2 WrongScan 1",
        ),
        (
            studies::NO_SCAN,
            studies::BELOW_ITS_THRESHOLD_REPORT,
            "2 WrongScan 1",
        ),
        (studies::NO_SCAN, "", "1 BadRow 1"),
    ];
    for (study, report, fault) in cases {
        assert_verdict(&rt, rt.alloc(), study, report.as_bytes(), Err(fault))?;
    }
    Ok(())
}

/// Runs `verify` on a shelf whose fetch of this number fails.
fn assert_failing(
    rt: &impl Abort,
    alloc: Global,
    study: &str,
    call: u32,
    answer: &Answer<'_>,
) -> Result<(), Fail> {
    let mut shelf = shelf_with_report(alloc, study, b"end,0\n")?;
    shelf.fail_call(call)?;
    assert_answer(rt, alloc, &VERIFY, &mut shelf, answer)
}

/// A report isn't asked for behind a study that is refused.
#[test]
fn each_fetch_that_fails(rt: HostRuntime) -> Result<(), Fail> {
    let cases = [
        (studies::NO_SCAN, 1, 5, "harmscan: cannot read study\n"),
        (studies::NO_SCAN, 2, 5, "harmscan: cannot read report\n"),
        ("[study", 2, 2, "harmscan: study refused: 1 NotToml\n"),
    ];
    for (study, call, status, err) in cases {
        let answer = Answer {
            status,
            out: "",
            err,
        };
        assert_failing(&rt, rt.alloc(), study, call, &answer)?;
    }
    Ok(())
}

#[test]
fn reports_at_the_limit(rt: HostRuntime) -> Result<(), Fail> {
    // no row in its first line, so that the reading is short
    let bytes = Vec::from_elem(rt.alloc(), b'\n', 4_194_305)?;
    let cases = [
        (4_194_304, "harmscan: report refused: 1 BadRow 1\n"),
        (4_194_305, "harmscan: report too large\n"),
    ];
    for (size, err) in cases {
        let report = &bytes[..bytes.len().min(size)];
        let mut shelf = shelf_with_report(rt.alloc(), studies::NO_SCAN, report)?;
        let answer = Answer {
            status: 2,
            out: "",
            err,
        };
        assert_answer(&rt, rt.alloc(), &VERIFY, &mut shelf, &answer)?;
    }
    Ok(())
}
