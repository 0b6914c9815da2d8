// Files that are cut after each of their bytes, through the program.
use crate::compare::assert_answer;
use std::alloc::Global;
use std::process::Abort;
use std::test::Fail;
use worked_cases::answers::{Answer, SCAN, VERIFY, joined, shelf_with, shelf_with_report};
use worked_cases::studies;

/// What a study is answered: its report and status, or why it is refused.
type Answered<'a> = Result<(&'a str, u8), &'a str>;

/// The lines of a study whose bank resonates with its source, each with the answer to a study that ends with it.
const LINES: [(&str, Answered<'static>); 23] = [
    ("[study]\n", Err("3 MissingKey study 1 version")),
    ("version = 1\n", Err("3 MissingKey study 1 mva")),
    ("mva = \"100\"\n", Err("3 MissingKey bus 0 -")),
    ("[[bus]]\n", Err("3 MissingKey bus 1 name")),
    ("name = \"B1\"\n", Err("3 MissingKey bus 1 kv")),
    ("kv = \"10\"\n", Err("15 Floating bus 1 -")),
    ("[[source]]\n", Err("3 MissingKey source 1 name")),
    ("name = \"S1\"\n", Err("3 MissingKey source 1 bus")),
    ("bus = \"B1\"\n", Err("3 MissingKey source 1 r")),
    ("r = \"0.1\"\n", Err("3 MissingKey source 1 x")),
    ("x = \"1\"\n", Ok((studies::NO_SCAN_REPORT, 0))),
    ("[[bank]]\n", Err("3 MissingKey bank 1 name")),
    ("name = \"K1\"\n", Err("3 MissingKey bank 1 bus")),
    ("bus = \"B1\"\n", Err("3 MissingKey bank 1 q")),
    ("q = \"4\"\n", Ok((studies::NO_SCAN_REPORT, 0))),
    ("[[scan]]\n", Err("3 MissingKey scan 1 name")),
    ("name = \"s1\"\n", Err("3 MissingKey scan 1 bus")),
    ("bus = \"B1\"\n", Err("3 MissingKey scan 1 from")),
    ("from = \"3\"\n", Err("3 MissingKey scan 1 to")),
    ("to = \"7\"\n", Err("3 MissingKey scan 1 threshold")),
    ("threshold = \"20\"\n", Err("3 MissingKey scan 1 finest")),
    ("locate = \"0.5\"\n", Err("3 MissingKey scan 1 finest")),
    ("finest = \"0.125\"\n", Ok((studies::RESONANCE_REPORT, 3))),
];

/// Runs `scan` on a study.
fn assert_answered(
    rt: &impl Abort,
    alloc: Global,
    study: &[u8],
    answered: Answered<'_>,
) -> Result<(), Fail> {
    let mut shelf = shelf_with(alloc, study)?;
    match answered {
        Ok((out, status)) => {
            let answer = Answer {
                status,
                out,
                err: "",
            };
            assert_answer(rt, alloc, &SCAN, &mut shelf, &answer)
        }
        Err(refusal) => {
            let err = joined(alloc, &["harmscan: study refused: ", refusal, "\n"])?;
            let answer = Answer {
                status: 2,
                out: "",
                err: &err,
            };
            assert_answer(rt, alloc, &SCAN, &mut shelf, &answer)
        }
    }
}

/// The study that begins with these bytes and is cut in the next line: within it, before its line feed and behind it.
fn assert_cut_in(
    rt: &impl Abort,
    alloc: Global,
    before: &[u8],
    line: &[u8],
    answered: Answered<'_>,
) -> Result<(), Fail> {
    for len in 1..line.len() {
        let mut study = Vec::from_slice(alloc, before)?;
        study.extend_from_slice(&line[..len])?;
        let found = if len + 1 < line.len() {
            Err("1 NotToml")
        } else {
            answered
        };
        assert_answered(rt, alloc, &study, found)?;
    }
    let mut study = Vec::from_slice(alloc, before)?;
    study.extend_from_slice(line)?;
    assert_answered(rt, alloc, &study, answered)
}

#[test]
fn a_study_cut_anywhere(rt: HostRuntime) -> Result<(), Fail> {
    assert_answered(&rt, rt.alloc(), b"", Err("3 MissingKey study 0 -"))?;
    let mut before = Vec::new(rt.alloc());
    for (line, answered) in LINES {
        assert_cut_in(&rt, rt.alloc(), &before, line.as_bytes(), answered)?;
        before.extend_from_slice(line.as_bytes())?;
    }
    Ok(())
}

/// The first line that is no row is named: the one that is cut, or the one behind the last that isn't.
#[test]
fn a_report_cut_anywhere(rt: HostRuntime) -> Result<(), Fail> {
    let text = studies::RESONANCE_REPORT.as_bytes();
    let mut line = 1u32;
    for len in 0..text.len() {
        if len > 0 && text[len - 1] == b'\n' {
            line = line.saturating_add(1);
        }
        let err = format!(in rt.alloc(); "harmscan: report refused: 1 BadRow {line}\n")?;
        let mut shelf = shelf_with_report(rt.alloc(), studies::RESONANCE, &text[..len])?;
        let answer = Answer {
            status: 2,
            out: "",
            err: &err,
        };
        assert_answer(&rt, rt.alloc(), &VERIFY, &mut shelf, &answer)?;
    }
    Ok(())
}
