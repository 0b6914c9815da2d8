// Reports on candidate banks, on tolerances and on outages, through the program.
use crate::answers::{Answer, CANDIDATES, OUTAGES, TOLERANCE, joined, shelf_with};
use crate::compare::assert_answer;
use crate::studies;
use std::alloc::Global;
use std::process::Abort;
use std::test::Fail;

/// The larger size alone resonates.
const ONE_SIZE: &str = "candidate = [{ scan = \"s1\", sizes = [\"4\"] }]\n";

const ONE_SIZE_REPORT: &str = r"candidate,s1,B1,3.000000,7.000000,20.000000
size,1,4.000000,2,4,0
first,s1,-
end,3
";

/// The lines of a report, put together.
fn report_of(alloc: Global, lines: &[(u32, &str)]) -> Result<String, Fail> {
    let mut text = String::new(alloc);
    for (_, line) in lines {
        text.push_str(line)?;
    }
    Ok(text)
}

/// Runs a command on a study and compares the report and the status.
pub fn assert_reported(
    rt: &impl Abort,
    alloc: Global,
    words: &[&str],
    study: &str,
    (report, status): (&str, u8),
) -> Result<(), Fail> {
    let mut shelf = shelf_with(alloc, study.as_bytes())?;
    let answer = Answer {
        status,
        out: report,
        err: "",
    };
    assert_answer(rt, alloc, words, &mut shelf, &answer)
}

#[test]
fn reports_on_candidates(rt: HostRuntime) -> Result<(), Fail> {
    let two_sizes = report_of(rt.alloc(), &studies::TWO_SIZES_LINES)?;
    let cases = [
        (studies::TWO_SIZES, two_sizes.as_str(), 0),
        (ONE_SIZE, ONE_SIZE_REPORT, 3),
        ("", "end,0\n", 0),
    ];
    for (candidates, report, status) in cases {
        let study = joined(rt.alloc(), &[studies::NO_BANK, candidates])?;
        assert_reported(&rt, rt.alloc(), &CANDIDATES, &study, (report, status))?;
    }
    Ok(())
}

/// The scan clears the band by the written values.
#[test]
fn reports_on_tolerances(rt: HostRuntime) -> Result<(), Fail> {
    let study = joined(
        rt.alloc(),
        &[
            studies::BELOW_ITS_THRESHOLD,
            "[[tolerance]]\nelement = \"S1\"\npermille = 100\n",
        ],
    )?;
    let report = joined(
        rt.alloc(),
        &["tolerance,1\n", studies::BELOW_ITS_THRESHOLD_REPORT],
    )?;
    assert_reported(&rt, rt.alloc(), &TOLERANCE, &study, (&report, 0))?;
    let none = joined(rt.alloc(), &["tolerance,0\n", studies::RESONANCE_REPORT])?;
    assert_reported(&rt, rt.alloc(), &TOLERANCE, studies::RESONANCE, (&none, 3))?;
    let wide = report_of(rt.alloc(), &studies::TOLERANT_LINES)?;
    assert_reported(&rt, rt.alloc(), &TOLERANCE, studies::TOLERANT, (&wide, 4))?;
    let cleared = r"scan,s1,B1,positive,1.000000,10.000000,10.500000,elimination
box,1,1.000000,10.000000,cleared,-,-
summary,s1,1,1,0,0,0
end,0
";
    assert_reported(
        &rt,
        rt.alloc(),
        &["scan", "study.toml"],
        studies::TOLERANT,
        (cleared, 0),
    )
}

#[test]
fn reports_on_outages(rt: HostRuntime) -> Result<(), Fail> {
    let fed = report_of(rt.alloc(), &studies::TWO_OUTAGES_LINES)?;
    assert_reported(&rt, rt.alloc(), &OUTAGES, studies::TWO_OUTAGES, (&fed, 0))?;
    let study = joined(
        rt.alloc(),
        &[
            studies::BELOW_ITS_THRESHOLD,
            "[[outage]]\nelement = \"S1\"\n",
        ],
    )?;
    let floating = "outage,1,S1,floating\nenvelope,s1,0,0,0,0\nend,3\n";
    assert_reported(&rt, rt.alloc(), &OUTAGES, &study, (floating, 3))
}
