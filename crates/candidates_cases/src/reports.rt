// Reports on candidates, whole, as they are worked by hand.
ghost use Rattle.std.specs.Prelude.{IfOk};
ghost use Rattle.std.specs.List.{AllByRecursion};
ghost use Rattle.scan_report.specs.Rows.{fields_of, HaveText};

use candidates_report::{CandidatesReport, candidates_rows};
use scan_report::{LineBuf, Row, write_row};
use std::alloc::{AllocError, Global};
use std::test::Fail;
use study_networks::study_networks;
use study_reader::read_study;

/// A study, and the text of its report.
#[derive(Clone, Copy)]
struct Case {
    label: &'static str,
    study: &'static str,
    report: &'static str,
}

/// The report of a study.
pub fn report(alloc: Global, study: &[u8]) -> Result<CandidatesReport, Fail>
    ensures { IfOk result (λ report. AllByRecursion (λ row. HaveText (fields_of row)) report.rows) }
{
    let study = read_study(alloc, study)?;
    let networks = study_networks(alloc, &study)?;
    let report = candidates_rows(alloc, &study, &networks)?;
    Ok(report)
}

/// Puts the lines of rows behind a text.
fn push_lines(rows: &[Row], text: &mut Vec<u8>) -> Result<(), AllocError>
    requires { AllByRecursion (λ row. HaveText (fields_of row)) rows.now }
{
    match rows {
        [] => Ok(()),
        [row, rest @ ..] => {
            let mut line = LineBuf::new();
            write_row(row, &mut line);
            text.extend_from_slice(line.as_bytes())?;
            push_lines(rest, text)
        }
    }
}

/// At 10 kV and 100 MVA one ohm is one per unit. A bank of 4 MVAr resonates with the source at order 5; one of half an MVAr does at 14.
const FOUR_AND_HALF: &str =
    "study = { version = 1, mva = 100 }\nbus = [{ name = \"B1\", kv = 10 }]\nsource = [{ name = \"S1\", bus = \"B1\", r = \"0.1\", x = 1 }]\nscan = [{ name = \"s1\", bus = \"B1\", from = 3, to = 7, threshold = 20, finest = \"0.125\", locate = \"0.5\" }]\ncandidate = [{ scan = \"s1\", sizes = [4, \"0.5\"] }]\n";

const FOUR: &str =
    "study = { version = 1, mva = 100 }\nbus = [{ name = \"B1\", kv = 10 }]\nsource = [{ name = \"S1\", bus = \"B1\", r = \"0.1\", x = 1 }]\nscan = [{ name = \"s1\", bus = \"B1\", from = 3, to = 7, threshold = 20, finest = \"0.125\", locate = \"0.5\" }]\ncandidate = [{ scan = \"s1\", sizes = [4] }]\n";

/// The resonance of 4 MVAr, of 250 ohms at order 5, lies between the orders that are tried, 4.625 and 5.1, and that of 3.844675 MVAr, of 260 ohms,
/// at 5.1. Smaller banks resonate above the band. The first size that is safe is neither the first nor the last one.
const COARSE: &str =
    "study = { version = 1, mva = 100 }\nbus = [{ name = \"B0\", kv = 10 }, { name = \"B1\", kv = 10 }]\nsource = [{ name = \"S0\", bus = \"B0\", r = 0, x = 5 }, { name = \"S1\", bus = \"B1\", r = \"0.1\", x = 1 }]\nscan = [{ name = \"s0\", bus = \"B0\", from = 1, to = 2, threshold = 90, finest = 1, locate = 1 }, { name = \"s1\", bus = \"B1\", from = \"3.2\", to = 7, threshold = 240, finest = 1, locate = 1 }]\ncandidate = [{ scan = \"s1\", sizes = [4, \"0.5\", \"0.25\"] }, { scan = \"s1\", sizes = [4, \"3.844675\"] }, { scan = \"s0\", sizes = [\"0.5\"] }]\n";

/// The same, and one whose only size has peaks.
const LOST: &str =
    "study = { version = 1, mva = 100 }\nbus = [{ name = \"B1\", kv = 10 }]\nsource = [{ name = \"S1\", bus = \"B1\", r = \"0.1\", x = 1 }]\nscan = [{ name = \"s1\", bus = \"B1\", from = \"3.2\", to = 7, threshold = 240, finest = 1, locate = 1 }]\ncandidate = [{ scan = \"s1\", sizes = [4, \"3.844675\"] }, { scan = \"s1\", sizes = [\"3.844675\"] }, { scan = \"s1\", sizes = [\"0.25\"] }]\n";

const NONE: &str =
    "study = { version = 1, mva = 100 }\nbus = [{ name = \"B1\", kv = 10 }]\nsource = [{ name = \"S1\", bus = \"B1\", r = \"0.1\", x = 1 }]\n";

fn cases() -> [Case; 5] {
    [
        Case {
            label: "a safe size",
            study: FOUR_AND_HALF,
            report: "candidate,s1,B1,3.000000,7.000000,20.000000\nsize,1,4.000000,2,4,0\nsize,2,0.500000,1,0,0\nfirst,s1,0.500000\nend,0\n",
        },
        Case {
            label: "peaks alone",
            study: FOUR,
            report: "candidate,s1,B1,3.000000,7.000000,20.000000\nsize,1,4.000000,2,4,0\nfirst,s1,-\nend,3\n",
        },
        Case {
            label: "a size that is undecided",
            study: COARSE,
            report: "candidate,s1,B1,3.200000,7.000000,240.000000\nsize,1,4.000000,2,0,1\nsize,2,0.500000,1,0,0\nsize,3,0.250000,1,0,0\nfirst,s1,0.500000\ncandidate,s1,B1,3.200000,7.000000,240.000000\nsize,1,4.000000,2,0,1\nsize,2,3.844675,2,2,0\nfirst,s1,-\ncandidate,s0,B0,1.000000,2.000000,90.000000\nsize,1,0.500000,1,0,0\nfirst,s0,0.500000\nend,4\n",
        },
        Case {
            label: "and one of peaks",
            study: LOST,
            report: "candidate,s1,B1,3.200000,7.000000,240.000000\nsize,1,4.000000,2,0,1\nsize,2,3.844675,2,2,0\nfirst,s1,-\ncandidate,s1,B1,3.200000,7.000000,240.000000\nsize,1,3.844675,2,2,0\nfirst,s1,-\ncandidate,s1,B1,3.200000,7.000000,240.000000\nsize,1,0.250000,1,0,0\nfirst,s1,0.250000\nend,3\n",
        },
        Case {
            label: "no candidates",
            study: NONE,
            report: "end,0\n",
        },
    ]
}

#[test]
fn whole_reports(rt: HostRuntime) -> Result<(), Fail> {
    for case in cases() {
        let found = report(rt.alloc(), case.study.as_bytes())?;
        let mut text = Vec::new(rt.alloc());
        push_lines(found.rows.as_slice(), &mut text)?;
        assert!(rt; text.as_slice() == case.report.as_bytes(), "{}", case.label);
    }
    Ok(())
}
