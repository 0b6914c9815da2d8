// Reports that are right of a study, and others with the first line that isn't.
use report_verify::{Verified, VerifyFault, verify};
use scan_report::{ReportFault, read_report};
use std::alloc::Global;
use std::test::Fail;
use study_networks::study_networks;
use study_reader::read_study;

/// What a report is answered.
#[derive(Clone, Copy, Debug, PartialEq, Eq)]
pub enum Answer {
    /// So many scans and boxes.
    Yes(u32, u32),
    /// The number of a fault, from 1 for a line that is no row to 7, and its line.
    No(u32, u32),
    /// A text that is too long for the reader, or want of memory.
    Nothing,
}

fn after_reading(fault: ReportFault) -> Answer {
    match fault {
        ReportFault::BadRow(line) => Answer::No(1, line),
        ReportFault::NoMemory => Answer::Nothing,
    }
}

fn after_checks(checked: Result<Verified, VerifyFault>) -> Answer {
    match checked {
        Ok(verified) => Answer::Yes(verified.scans, verified.boxes),
        Err(VerifyFault::WrongScan(line)) => Answer::No(2, line),
        Err(VerifyFault::Gap(line)) => Answer::No(3, line),
        Err(VerifyFault::NotCleared(line)) => Answer::No(4, line),
        Err(VerifyFault::NotPeak(line)) => Answer::No(5, line),
        Err(VerifyFault::NotUndecided(line)) => Answer::No(6, line),
        Err(VerifyFault::WrongCount(line)) => Answer::No(7, line),
        Err(VerifyFault::NoMemory) => Answer::Nothing,
    }
}

/// The answer for the bytes of a report of a study.
pub fn answered(alloc: Global, study: &str, report: &[u8]) -> Result<Answer, Fail> {
    if report.len() > 4_000 {
        return Ok(Answer::Nothing);
    }
    let study = read_study(alloc, study.as_bytes())?;
    let networks = study_networks(alloc, &study)?;
    match read_report(alloc, report) {
        Ok(report) => Ok(after_checks(verify(alloc, &study, &networks, &report))),
        Err(fault) => Ok(after_reading(fault)),
    }
}

/// One ohm of reactance at 10 kV and 100 MVA, which is one per unit: the impedance at order h is h ohms.
const PLAIN: &str =
    "study = { version = 1, mva = 100 }\nbus = [{ name = \"B1\", kv = 10 }]\nsource = [{ name = \"S1\", bus = \"B1\", r = 0, x = 1 }]\nscan = [{ name = \"s1\", bus = \"B1\", from = 1, to = 10, threshold = 20, finest = \"0.001\" }]\n";

const PLAIN_REPORT: &str =
    "scan,s1,B1,positive,1.000000,10.000000,20.000000,elimination\nbox,1,1.000000,10.000000,cleared,-,-\nsummary,s1,1,1,0,0,0\nend,0\n";

/// The same above half an ohm.
const PEAKS: &str =
    "study = { version = 1, mva = 100 }\nbus = [{ name = \"B1\", kv = 10 }]\nsource = [{ name = \"S1\", bus = \"B1\", r = 0, x = 1 }]\nscan = [{ name = \"s1\", bus = \"B1\", from = 1, to = 10, threshold = \"0.5\", finest = \"0.001\", locate = 5 }]\n";

/// A bank that resonates with the source near order 5.
pub const RESONANT: &str =
    "study = { version = 1, mva = 100 }\nbus = [{ name = \"B1\", kv = 10 }]\nsource = [{ name = \"S1\", bus = \"B1\", r = \"0.1\", x = 1 }]\nbank = [{ name = \"K1\", bus = \"B1\", q = 4 }]\nscan = [{ name = \"s1\", bus = \"B1\", from = 3, to = 7, threshold = 20, finest = \"0.125\", locate = \"0.5\" }]\n";

pub const RESONANT_REPORT: &str =
    "scan,s1,B1,positive,3.000000,7.000000,20.000000,elimination\nbox,1,3.000000,4.000000,cleared,-,-\nbox,2,4.000000,4.500000,peak,4.500000,23.584458\nbox,3,4.500000,5.000000,peak,4.750000,47.829051\nbox,4,5.000000,5.500000,peak,5.250000,50.186343\nbox,5,5.500000,6.000000,peak,5.500000,26.052232\nregion,1,4.000000,6.000000,200.000000,300.000000,4,0,5.250000,50.186343\nbox,6,6.000000,7.000000,cleared,-,-\nsummary,s1,6,2,4,0,1\nend,3\n";

/// A tie at order 5: the impedance is the threshold there.
const TIE: &str =
    "study = { version = 1, mva = 100 }\nbus = [{ name = \"B1\", kv = 10 }]\nsource = [{ name = \"S1\", bus = \"B1\", r = 0, x = 1 }]\nscan = [{ name = \"s1\", bus = \"B1\", from = 1, to = 9, threshold = 5, finest = 1 }]\n";

/// A threshold of 2h ohms at order h.
pub const CURVE: &str =
    "study = { version = 2, mva = 100 }\nbus = [{ name = \"B1\", kv = 10 }]\nsource = [{ name = \"S1\", bus = \"B1\", r = 0, x = 1 }]\nscan = [{ name = \"s1\", bus = \"B1\", from = 1, to = 10, curve_at = [1, 10], curve_ohms = [2, 20], finest = \"0.001\" }]\n";

pub const CURVE_REPORT: &str =
    "scan,s1,B1,positive,1.000000,10.000000,curve,elimination\nbox,1,1.000000,1.562500,cleared,-,-\nbox,2,1.562500,2.125000,cleared,-,-\nbox,3,2.125000,3.250000,cleared,-,-\nbox,4,3.250000,5.500000,cleared,-,-\nbox,5,5.500000,10.000000,cleared,-,-\nsummary,s1,5,5,0,0,0\nend,0\n";

/// Two scans, the second of a filter's other side.
const TWO: &str =
    "study = { version = 1, mva = 100 }\nbus = [{ name = \"B1\", kv = 10 }]\nsource = [{ name = \"S1\", bus = \"B1\", r = 0, x = 1 }]\nfilter = [{ name = \"F1\", bus = \"B1\", kind = \"single\", q = 4, order = 5, quality = 50 }]\nscan = [{ name = \"s1\", bus = \"B1\", from = \"4.8\", to = \"5.2\", threshold = 2, finest = \"0.001\" }, { name = \"s2\", bus = \"B1\", from = \"3.4\", to = \"3.6\", threshold = 20, finest = \"0.001\", locate = \"0.2\" }]\n";

/// Three phases of which b isn't live.
const DEAD: &str =
    "study = { version = 1, mva = 100, model = \"phases\" }\nbus = [{ name = \"B1\", kv = 10 }]\nload = [{ name = \"D1\", bus = \"B1\", model = \"cigre\", p = 1, q = 1, phase = \"a\" }]\nscan = [{ name = \"s1\", bus = \"B1\", phase = \"b\", from = 1, to = 2, threshold = 20, finest = 1 }]\n";

/// A scan at the scale 48.
const FINE: &str =
    "study = { version = 1, mva = 100, scale = 48 }\nbus = [{ name = \"B1\", kv = 10 }]\nsource = [{ name = \"S1\", bus = \"B1\", r = 0, x = 1 }]\nscan = [{ name = \"s1\", bus = \"B1\", from = 1, to = 10, threshold = 20, finest = \"0.001\" }]\n";

/// No scans.
const NO_SCANS: &str =
    "study = { version = 1, mva = 100 }\nbus = [{ name = \"B1\", kv = 10 }]\nsource = [{ name = \"S1\", bus = \"B1\", r = 0, x = 1 }]\n";

/// A study, a report and its answer.
#[derive(Clone, Copy)]
struct Case {
    label: &'static str,
    study: &'static str,
    report: &'static str,
    answer: Answer,
}

fn right_ones() -> [Case; 13] {
    [
        Case {
            label: "one cleared box",
            study: PLAIN,
            report: PLAIN_REPORT,
            answer: Answer::Yes(1, 1),
        },
        Case {
            label: "a finer scale",
            study: FINE,
            report: PLAIN_REPORT,
            answer: Answer::Yes(1, 1),
        },
        Case {
            label: "boxes that aren't halves",
            study: PLAIN,
            report: "scan,s1,B1,positive,1.000000,10.000000,20.000000,elimination\nbox,1,1.000000,1.000001,cleared,-,-\nbox,2,1.000001,10.000000,cleared,3.000000,4.000000\nsummary,s1,2,2,0,0,0\nend,0\n",
            answer: Answer::Yes(1, 2),
        },
        Case {
            label: "two peaks",
            study: PEAKS,
            report: "scan,s1,B1,positive,1.000000,10.000000,0.500000,elimination\nbox,1,1.000000,5.500000,peak,3.250000,3.249999\nbox,2,5.500000,10.000000,peak,7.750000,7.749999\nregion,1,1.000000,10.000000,50.000000,500.000000,2,0,7.750000,7.749999\nsummary,s1,2,0,2,0,1\nend,3\n",
            answer: Answer::Yes(1, 2),
        },
        Case {
            label: "a bound below the certified one",
            study: PEAKS,
            report: "scan,s1,B1,positive,1.000000,10.000000,0.500000,elimination\nbox,1,1.000000,5.500000,peak,3.250000,3.000000\nbox,2,5.500000,10.000000,peak,7.750000,7.749999\nregion,1,1.000000,10.000000,50.000000,500.000000,2,0,7.750000,7.749999\nsummary,s1,2,0,2,0,1\nend,3\n",
            answer: Answer::Yes(1, 2),
        },
        Case {
            label: "one wide peak at another order",
            study: PEAKS,
            report: "scan,s1,B1,positive,1.000000,10.000000,0.500000,elimination\nbox,1,1.000000,10.000000,peak,10.000000,9.999999\nregion,1,1.000000,10.000000,50.000000,500.000000,1,0,10.000000,9.999999\nsummary,s1,1,0,1,0,1\nend,3\n",
            answer: Answer::Yes(1, 1),
        },
        Case {
            label: "a resonance",
            study: RESONANT,
            report: RESONANT_REPORT,
            answer: Answer::Yes(1, 6),
        },
        Case {
            label: "a tie",
            study: TIE,
            report: "scan,s1,B1,positive,1.000000,9.000000,5.000000,elimination\nbox,1,1.000000,3.000000,cleared,-,-\nbox,2,3.000000,4.000000,cleared,-,-\nbox,3,4.000000,5.000000,undecided,-,-\nbox,4,5.000000,6.000000,peak,5.500000,5.499999\nbox,5,6.000000,7.000000,peak,6.500000,6.499999\nbox,6,7.000000,8.000000,peak,7.500000,7.499999\nbox,7,8.000000,9.000000,peak,8.500000,8.499999\nregion,1,4.000000,9.000000,200.000000,450.000000,4,1,8.500000,8.499999\nsummary,s1,7,2,4,1,1\nend,3\n",
            answer: Answer::Yes(1, 7),
        },
        Case {
            label: "a curve",
            study: CURVE,
            report: CURVE_REPORT,
            answer: Answer::Yes(1, 5),
        },
        Case {
            label: "two scans",
            study: TWO,
            report: "scan,s1,B1,positive,4.800000,5.200000,2.000000,elimination\nbox,1,4.800000,5.200000,cleared,-,-\nsummary,s1,1,1,0,0,0\nscan,s2,B1,positive,3.400000,3.600000,20.000000,elimination\nbox,1,3.400000,3.600000,peak,3.500000,73.143992\nregion,1,3.400000,3.600000,170.000000,180.000000,1,0,3.500000,73.143992\nsummary,s2,1,0,1,0,1\nend,3\n",
            answer: Answer::Yes(2, 2),
        },
        Case {
            label: "a phase that isn't live",
            study: DEAD,
            report: "scan,s1,B1,b,1.000000,2.000000,20.000000,elimination\nbox,1,1.000000,2.000000,undecided,-,-\nregion,1,1.000000,2.000000,50.000000,100.000000,0,1,-,-\nsummary,s1,1,0,0,1,1\nend,4\n",
            answer: Answer::Yes(1, 1),
        },
        Case {
            label: "no scans",
            study: NO_SCANS,
            report: "end,0\n",
            answer: Answer::Yes(0, 0),
        },
        Case {
            label: "a region before a cleared box and another after it",
            study: TIE,
            report: "scan,s1,B1,positive,1.000000,9.000000,5.000000,elimination\nbox,1,1.000000,4.000000,cleared,-,-\nbox,2,4.000000,5.000000,undecided,-,-\nbox,3,5.000000,9.000000,peak,5.000001,5.000000\nregion,1,4.000000,9.000000,200.000000,450.000000,1,1,5.000001,5.000000\nsummary,s1,3,1,1,1,1\nend,3\n",
            answer: Answer::Yes(1, 3),
        },
    ]
}

#[test]
fn right_reports(rt: HostRuntime) -> Result<(), Fail> {
    for case in right_ones() {
        let found = answered(rt.alloc(), case.study, case.report.as_bytes())?;
        assert_eq!(rt; found, case.answer, "{}", case.label);
    }
    Ok(())
}

fn wrong_ones() -> [Case; 20] {
    [
        Case {
            label: "two cleared boxes in one that isn't",
            study: RESONANT,
            report: "scan,s1,B1,positive,3.000000,7.000000,20.000000,elimination\nbox,1,3.000000,4.500000,cleared,-,-\nbox,3,4.500000,5.000000,peak,4.750000,47.829051\nend,3\n",
            answer: Answer::No(1, 4),
        },
        Case {
            label: "a box that isn't cleared",
            study: RESONANT,
            report: "scan,s1,B1,positive,3.000000,7.000000,20.000000,elimination\nbox,1,3.000000,4.500000,cleared,-,-\nbox,3,4.500000,5.000000,peak,4.750000,47.829051\nbox,4,5.000000,5.500000,peak,5.250000,50.186343\nbox,5,5.500000,6.000000,peak,5.500000,26.052232\nregion,1,4.000000,6.000000,200.000000,300.000000,4,0,5.250000,50.186343\nbox,6,6.000000,7.000000,cleared,-,-\nsummary,s1,6,2,4,0,1\nend,3\n",
            answer: Answer::No(4, 2),
        },
        Case {
            label: "a bound above the certified one",
            study: PEAKS,
            report: "scan,s1,B1,positive,1.000000,10.000000,0.500000,elimination\nbox,1,1.000000,5.500000,peak,3.250000,3.250000\nbox,2,5.500000,10.000000,peak,7.750000,7.749999\nregion,1,1.000000,10.000000,50.000000,500.000000,2,0,7.750000,7.749999\nsummary,s1,2,0,2,0,1\nend,3\n",
            answer: Answer::No(5, 2),
        },
        Case {
            label: "a peak outside its box",
            study: PEAKS,
            report: "scan,s1,B1,positive,1.000000,10.000000,0.500000,elimination\nbox,1,1.000000,5.500000,peak,5.500001,3.249999\nsummary,s1,1,0,1,0,1\nend,3\n",
            answer: Answer::No(5, 2),
        },
        Case {
            label: "a peak without an order",
            study: PEAKS,
            report: "scan,s1,B1,positive,1.000000,10.000000,0.500000,elimination\nbox,1,1.000000,5.500000,peak,-,3.249999\nsummary,s1,1,0,1,0,1\nend,3\n",
            answer: Answer::No(5, 2),
        },
        Case {
            label: "a peak where the impedance is within",
            study: RESONANT,
            report: "scan,s1,B1,positive,3.000000,7.000000,20.000000,elimination\nbox,1,3.000000,4.000000,peak,3.500000,1.000000\nsummary,s1,1,0,1,0,0\nend,3\n",
            answer: Answer::No(5, 2),
        },
        Case {
            label: "the wrong status",
            study: PLAIN,
            report: "scan,s1,B1,positive,1.000000,10.000000,20.000000,elimination\nbox,1,1.000000,10.000000,cleared,-,-\nsummary,s1,1,1,0,0,0\nend,3\n",
            answer: Answer::No(7, 4),
        },
        Case {
            label: "no scan",
            study: PLAIN,
            report: "end,0\n",
            answer: Answer::No(2, 1),
        },
        Case {
            label: "a scan too many",
            study: NO_SCANS,
            report: PLAIN_REPORT,
            answer: Answer::No(2, 1),
        },
        Case {
            label: "another threshold",
            study: TIE,
            report: PLAIN_REPORT,
            answer: Answer::No(2, 1),
        },
        Case {
            label: "another method",
            study: PLAIN,
            report: "scan,s1,B1,positive,1.000000,10.000000,20.000000,both\nbox,1,1.000000,10.000000,cleared,-,-\nsummary,s1,1,1,0,0,0\nend,0\n",
            answer: Answer::No(2, 1),
        },
        Case {
            label: "no region",
            study: PEAKS,
            report: "scan,s1,B1,positive,1.000000,10.000000,0.500000,elimination\nbox,1,1.000000,5.500000,peak,3.250000,3.249999\nbox,2,5.500000,10.000000,peak,7.750000,7.749999\nsummary,s1,2,0,2,0,1\nend,3\n",
            answer: Answer::No(7, 4),
        },
        Case {
            label: "a region twice",
            study: PEAKS,
            report: "scan,s1,B1,positive,1.000000,10.000000,0.500000,elimination\nbox,1,1.000000,5.500000,peak,3.250000,3.249999\nbox,2,5.500000,10.000000,peak,7.750000,7.749999\nregion,1,1.000000,10.000000,50.000000,500.000000,2,0,7.750000,7.749999\nregion,2,1.000000,10.000000,50.000000,500.000000,2,0,7.750000,7.749999\nsummary,s1,2,0,2,0,2\nend,3\n",
            answer: Answer::No(7, 5),
        },
        Case {
            label: "a region in the midst of its boxes",
            study: PEAKS,
            report: "scan,s1,B1,positive,1.000000,10.000000,0.500000,elimination\nbox,1,1.000000,5.500000,peak,3.250000,3.249999\nregion,1,1.000000,5.500000,50.000000,275.000000,1,0,3.250000,3.249999\nbox,2,5.500000,10.000000,peak,7.750000,7.749999\nsummary,s1,2,0,2,0,1\nend,3\n",
            answer: Answer::No(7, 4),
        },
        Case {
            label: "a band that ends early",
            study: RESONANT,
            report: "scan,s1,B1,positive,3.000000,7.000000,20.000000,elimination\nbox,1,3.000000,4.000000,cleared,-,-\nsummary,s1,1,1,0,0,0\nend,0\n",
            answer: Answer::No(3, 3),
        },
        Case {
            label: "a box beyond the band",
            study: PLAIN,
            report: "scan,s1,B1,positive,1.000000,10.000000,20.000000,elimination\nbox,1,1.000000,10.000001,cleared,-,-\nsummary,s1,1,1,0,0,0\nend,0\n",
            answer: Answer::No(3, 2),
        },
        Case {
            label: "an empty box",
            study: PLAIN,
            report: "scan,s1,B1,positive,1.000000,10.000000,20.000000,elimination\nbox,1,1.000000,1.000000,cleared,-,-\nsummary,s1,1,1,0,0,0\nend,0\n",
            answer: Answer::No(3, 2),
        },
        Case {
            label: "an undecided box that is cleared",
            study: TIE,
            report: "scan,s1,B1,positive,1.000000,9.000000,5.000000,elimination\nbox,1,1.000000,2.000000,undecided,-,-\nsummary,s1,1,0,0,1,0\nend,4\n",
            answer: Answer::No(6, 2),
        },
        Case {
            label: "an undecided box that is a peak, and one that is too wide",
            study: TIE,
            report: "scan,s1,B1,positive,1.000000,9.000000,5.000000,elimination\nbox,1,1.000000,4.000000,cleared,-,-\nbox,2,4.000000,5.500000,undecided,-,-\nsummary,s1,2,1,0,1,1\nend,4\n",
            answer: Answer::No(6, 3),
        },
        Case {
            label: "a gap before a wrong number and a box that isn't cleared",
            study: RESONANT,
            report: "scan,s1,B1,positive,3.000000,7.000000,20.000000,elimination\nbox,7,3.000001,4.500000,cleared,-,-\nsummary,s1,1,1,0,0,0\nend,0\n",
            answer: Answer::No(3, 2),
        },
    ]
}

#[test]
fn wrong_reports(rt: HostRuntime) -> Result<(), Fail> {
    for case in wrong_ones() {
        let found = answered(rt.alloc(), case.study, case.report.as_bytes())?;
        assert_eq!(rt; found, case.answer, "{}", case.label);
    }
    Ok(())
}
