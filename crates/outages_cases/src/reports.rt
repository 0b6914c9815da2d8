// Reports on outages, whole, as they are worked by hand.
ghost use Rattle.std.specs.Prelude.{IfOk};
ghost use Rattle.std.specs.List.{AllByRecursion};
ghost use Rattle.scan_report.specs.Rows.{fields_of, HaveText};

use outages_report::{OutagesReport, outages_rows};
use scan_report::{LineBuf, Row, write_row};
use std::alloc::{AllocError, Global};
use std::process::Abort;
use std::test::Fail;
use study_networks::study_networks;
use study_reader::read_study;

/// A study, and the text and the status of its report.
#[derive(Clone, Copy)]
struct Worked {
    label: &'static str,
    study: &'static str,
    report: &'static str,
    status: u8,
}

/// The report of the text of a study.
fn report(alloc: Global, study: &str) -> Result<OutagesReport, Fail>
    ensures { IfOk result (λ report. AllByRecursion (λ row. HaveText (fields_of row)) report.rows) }
{
    let study = read_study(alloc, study.as_bytes())?;
    let networks = study_networks(alloc, &study)?;
    let report = outages_rows(alloc, &study, &networks)?;
    Ok(report)
}

/// Puts the lines of rows behind a text.
fn push_lines(rows: &[Row], text: &mut Vec<u8>) -> Result<(), AllocError>
    requires { AllByRecursion (λ row. HaveText (fields_of row)) rows.now }
{
    match rows {
        [] => Ok(()),
        [row, rest @ ..] => {
            let mut line = LineBuf::new();
            write_row(row, &mut line);
            text.extend_from_slice(line.as_bytes())?;
            push_lines(rest, text)
        }
    }
}

/// A bank resonates with the source near order 5; alone, either is within 20 ohms.
const RESONANT: &str =
    "study = { version = 1, mva = 100 }\nbus = [{ name = \"B1\", kv = 10 }]\nsource = [{ name = \"S1\", bus = \"B1\", r = \"0.1\", x = 1 }]\nbank = [{ name = \"K1\", bus = \"B1\", q = 4 }]\nscan = [{ name = \"s1\", bus = \"B1\", from = 3, to = 7, threshold = 20, finest = \"0.125\", locate = \"0.5\" }]\noutage = [{ element = \"K1\" }, { element = \"S1\" }]\n";

/// One source is all that ties the bus to ground.
const ALONE: &str =
    "study = { version = 1, mva = 100 }\nbus = [{ name = \"B1\", kv = 10 }]\nsource = [{ name = \"S1\", bus = \"B1\", r = 0, x = 1 }]\nscan = [{ name = \"s1\", bus = \"B1\", from = 1, to = 10, threshold = 20, finest = \"0.001\" }]\noutage = [{ element = \"S1\" }]\n";

/// With the second bank out, the first resonates with the source near order 5. Both banks alone are within 20 ohms.
const TWO_BANKS: &str =
    "study = { version = 1, mva = 100 }\nbus = [{ name = \"B1\", kv = 10 }]\nsource = [{ name = \"S1\", bus = \"B1\", r = \"0.1\", x = 1 }]\nbank = [{ name = \"K1\", bus = \"B1\", q = 4 }, { name = \"K2\", bus = \"B1\", q = 4 }]\nscan = [{ name = \"s1\", bus = \"B1\", from = 3, to = 7, threshold = 20, finest = \"0.125\", locate = \"0.5\" }]\noutage = [{ element = \"K2\" }, { element = \"S1\" }]\n";

/// Without the source the bank's star, which isn't grounded, leaves the zero sequence without a path. The impedance of the source is h ohms.
const THREE_PHASES: &str =
    "study = { version = 1, mva = 100, model = \"phases\" }\nbus = [{ name = \"B1\", kv = 10 }]\nsource = [{ name = \"S1\", bus = \"B1\", r = 0, x = 1, r0 = 0, x0 = 1 }]\nbank = [{ name = \"K1\", bus = \"B1\", q = 4 }]\nscan = [{ name = \"s1\", bus = \"B1\", phase = \"a\", from = 3, to = 7, threshold = 900, finest = 1 }]\noutage = [{ element = \"S1\" }, { element = \"K1\" }]\n";

fn cases() -> [Worked; 4] {
    [
        Worked {
            label: "each of two elements alone",
            study: RESONANT,
            report: "outage,1,K1,fed\ncase,1,s1,1,1,0,0,-,-\noutage,2,S1,fed\ncase,2,s1,1,1,0,0,-,-\nenvelope,s1,2,2,0,0\nend,0\n",
            status: 0,
        },
        Worked {
            label: "the only source",
            study: ALONE,
            report: "outage,1,S1,floating\nenvelope,s1,0,0,0,0\nend,3\n",
            status: 3,
        },
        Worked {
            label: "a peak before a cleared case",
            study: TWO_BANKS,
            report: "outage,1,K2,fed\ncase,1,s1,6,2,4,0,5.250000,50.186343\noutage,2,S1,fed\ncase,2,s1,1,1,0,0,-,-\nenvelope,s1,2,1,1,0\nend,3\n",
            status: 3,
        },
        Worked {
            label: "a bus without a zero sequence",
            study: THREE_PHASES,
            report: "outage,1,S1,floating\noutage,2,K1,fed\ncase,2,s1,1,1,0,0,-,-\nenvelope,s1,1,1,0,0\nend,3\n",
            status: 3,
        },
    ]
}

/// Compares the lines of a report.
fn assert_text(rt: &impl Abort, label: &str, found: &[u8], wanted: &[u8]) {
    assert_eq!(rt; found, wanted, "{label}");
}

/// Compares a status.
fn assert_status(rt: &impl Abort, label: &str, found: u8, wanted: u8) {
    assert_eq!(rt; found, wanted, "{label}");
}

#[test]
fn reports(rt: HostRuntime) -> Result<(), Fail> {
    for case in cases() {
        let found = report(rt.alloc(), case.study)?;
        let mut text = Vec::new(rt.alloc());
        push_lines(found.rows.as_slice(), &mut text)?;
        assert_text(&rt, case.label, text.as_slice(), case.report.as_bytes());
        assert_status(&rt, case.label, found.status, case.status);
    }
    Ok(())
}
