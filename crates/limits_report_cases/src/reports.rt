// Reports on distortion, whole, as they are worked by hand.
ghost use Rattle.std.specs.Prelude.{IfOk, IfSome};
ghost use Rattle.std.specs.List.{AllByRecursion};
ghost use Rattle.scan_report.specs.Rows.{fields_of, HaveText};

use harmonic_injection::{check_paths, injections_of_an_order};
use limits_report::{LimitsReport, limits_rows};
use scan_report::{LineBuf, Row, write_row};
use spectrum_reader::{read_levels, read_spectrum};
use std::alloc::{AllocError, Global};
use std::test::Fail;
use study_networks::study_networks;
use study_reader::read_study;

/// A study, a spectrum, a levels file, and the text of the report.
#[derive(Clone, Copy)]
struct Case {
    label: &'static str,
    study: &'static str,
    spectrum: &'static str,
    levels: &'static str,
    report: &'static str,
}

/// The report of three texts; none where a text is too long for the readers.
fn report(
    alloc: Global,
    study: &str,
    spectrum: &str,
    levels: &str,
) -> Result<Option<LimitsReport>, Fail>
    ensures { IfOk result (λ found. IfSome found (λ report. AllByRecursion (λ row. HaveText (fields_of row)) report.rows)) }
{
    injections_of_an_order();
    if spectrum.len() > 1_000 || levels.len() > 1_000 {
        return Ok(None);
    }
    let study = read_study(alloc, study.as_bytes())?;
    let networks = study_networks(alloc, &study)?;
    let spectrum = read_spectrum(alloc, spectrum.as_bytes(), &study)?;
    check_paths(alloc, &study, &spectrum)?;
    let levels = read_levels(alloc, levels.as_bytes(), &study)?;
    let report = limits_rows(alloc, &study, &networks, &spectrum, &levels)?;
    Ok(Some(report))
}

/// Puts the lines of rows behind a text.
fn push_lines(rows: &[Row], text: &mut Vec<u8>) -> Result<(), AllocError>
    requires { AllByRecursion (λ row. HaveText (fields_of row)) rows.now }
{
    match rows {
        [] => Ok(()),
        [row, rest @ ..] => {
            let mut line = LineBuf::new();
            write_row(row, &mut line);
            text.extend_from_slice(line.as_bytes())?;
            push_lines(rest, text)
        }
    }
}

/// At 10 kV and 100 MVA one ohm is one per unit, and 100 A are 0.01.
const ONE_OHM: &str =
    "study = { version = 1, mva = 100 }\nbus = [{ name = \"B1\", kv = 10 }]\nsource = [{ name = \"S1\", bus = \"B1\", r = 0, x = 1 }]\n";

/// A tenth of an ohm, and a point at the source whose ratio is 19.999.
const POINT_BELOW_20: &str =
    "study = { version = 1, mva = 100 }\nbus = [{ name = \"B1\", kv = 10 }]\nsource = [{ name = \"S1\", bus = \"B1\", r = 0, x = \"0.1\" }]\npcc = [{ name = \"P1\", bus = \"B1\", element = \"S1\", isc = \"49997.5\", il = 2500 }]\n";

/// The same with the ratio 20.
const POINT_OF_20: &str =
    "study = { version = 1, mva = 100 }\nbus = [{ name = \"B1\", kv = 10 }]\nsource = [{ name = \"S1\", bus = \"B1\", r = 0, x = \"0.1\" }]\npcc = [{ name = \"P1\", bus = \"B1\", element = \"S1\", isc = 50000, il = 2500 }]\n";

/// A source and a bank that resonate at order 5 without a loss.
const RESONANT: &str =
    "study = { version = 1, mva = 100 }\nbus = [{ name = \"B1\", kv = 10 }]\nsource = [{ name = \"S1\", bus = \"B1\", r = 0, x = 1 }]\nbank = [{ name = \"K1\", bus = \"B1\", q = 4 }]\npcc = [{ name = \"P1\", bus = \"B1\", element = \"K1\", isc = 50000, il = 2500 }]\n";

/// A transformer that is grounded on its high side alone: the zero network has no path at its low side.
const GROUNDED: &str =
    "study = { version = 1, mva = 100 }\nbus = [{ name = \"HV\", kv = 100 }, { name = \"LV\", kv = 10 }]\nsource = [{ name = \"S1\", bus = \"HV\", r = 0, x = 1, r0 = 0, x0 = 1 }]\ntransformer = [{ name = \"T1\", from = \"HV\", to = \"LV\", mva = 10, r = 0, x = 10, from_conn = \"grounded\", to_conn = \"delta\" }]\npcc = [{ name = \"P1\", bus = \"LV\", element = \"T1\", isc = 50000, il = 2500 }]\n";

/// One ohm in each of three phases.
const THREE_PHASES: &str =
    "study = { version = 1, mva = 100, model = \"phases\" }\nbus = [{ name = \"B1\", kv = 10 }]\nsource = [{ name = \"S1\", bus = \"B1\", r = 0, x = 1, r0 = 0, x0 = 1 }]\n";

/// The same with a bank of 25 ohms in each phase, and a point at the bank. Its star isn't grounded, so the zero sequence sees the source alone.
const POINT_OF_PHASES: &str =
    "study = { version = 1, mva = 100, model = \"phases\" }\nbus = [{ name = \"B1\", kv = 10 }]\nsource = [{ name = \"S1\", bus = \"B1\", r = 0, x = 1, r0 = 0, x0 = 1 }]\nbank = [{ name = \"K1\", bus = \"B1\", q = 4 }]\npcc = [{ name = \"P1\", bus = \"B1\", element = \"K1\", isc = 50000, il = 2500 }]\n";

/// A bus that a load ties to ground in phase a alone: the nodes of b and c aren't live.
const ONE_PHASE: &str =
    "study = { version = 1, mva = 100, model = \"phases\" }\nbus = [{ name = \"B1\", kv = 10 }]\nload = [{ name = \"D1\", bus = \"B1\", model = \"cigre\", p = 1, q = 1, phase = \"a\" }]\n";

const NO_LEVELS: &str = "bus,order,percent\n";

fn cases() -> [Case; 13] {
    [
        Case {
            label: "a voltage",
            study: ONE_OHM,
            spectrum: "order,bus,re,im\n5,B1,100,0\n",
            levels: NO_LEVELS,
            report: "voltage,B1,s,5,8.6602,8.6603,3.0000,fail\nthd,B1,s,8.6602,8.6603,5.0000,fail\nsummary,limits,0,2,0\nend,3\n",
        },
        Case {
            label: "a ratio below 20",
            study: POINT_BELOW_20,
            spectrum: "order,bus,re,im\n5,B1,100,0\n",
            levels: NO_LEVELS,
            report: "voltage,B1,s,5,0.8660,0.8661,3.0000,pass\nthd,B1,s,0.8660,0.8661,5.0000,pass\ncurrent,P1,s,5,3.9999,4.0001,4.0000,undecided\ntdd,P1,s,3.9999,4.0001,5.0000,pass\nsummary,limits,3,0,1\nend,4\n",
        },
        Case {
            label: "a ratio of 20",
            study: POINT_OF_20,
            spectrum: "order,bus,re,im\n5,B1,100,0\n",
            levels: NO_LEVELS,
            report: "voltage,B1,s,5,0.8660,0.8661,3.0000,pass\nthd,B1,s,0.8660,0.8661,5.0000,pass\ncurrent,P1,s,5,3.9999,4.0001,7.0000,pass\ntdd,P1,s,3.9999,4.0001,8.0000,pass\nsummary,limits,4,0,0\nend,0\n",
        },
        Case {
            label: "no current",
            study: ONE_OHM,
            spectrum: "order,bus,re,im\n5,B1,0,0\n",
            levels: NO_LEVELS,
            report: "voltage,B1,s,5,0.0000,0.0000,3.0000,pass\nthd,B1,s,0.0000,0.0000,5.0000,pass\nsummary,limits,2,0,0\nend,0\n",
        },
        Case {
            label: "no order",
            study: ONE_OHM,
            spectrum: "order,bus,re,im\n",
            levels: NO_LEVELS,
            report: "thd,B1,s,0.0000,0.0000,5.0000,pass\nsummary,limits,1,0,0\nend,0\n",
        },
        Case {
            label: "planning levels",
            study: ONE_OHM,
            spectrum: "order,bus,re,im\n5,B1,100,0\n",
            levels: "bus,order,percent\nB1,5,8.7\nB1,thd,9\n",
            report: "voltage,B1,s,5,8.6602,8.6603,8.7000,pass\nthd,B1,s,8.6602,8.6603,9.0000,pass\nsummary,limits,2,0,0\nend,0\n",
        },
        Case {
            label: "a level between the bounds",
            study: ONE_OHM,
            spectrum: "order,bus,re,im\n5,B1,100,0\n",
            levels: "bus,order,percent\nB1,5,8.6602\n",
            report: "voltage,B1,s,5,8.6602,8.6603,8.6602,undecided\nthd,B1,s,8.6602,8.6603,5.0000,fail\nsummary,limits,0,1,1\nend,3\n",
        },
        Case {
            label: "an order that isn't solved",
            study: RESONANT,
            spectrum: "order,bus,re,im\n5,B1,100,0\n",
            levels: NO_LEVELS,
            report: "voltage,B1,s,5,-,-,3.0000,undecided\nthd,B1,s,-,-,5.0000,undecided\ncurrent,P1,s,5,-,-,7.0000,undecided\ntdd,P1,s,-,-,8.0000,undecided\nsummary,limits,0,0,4\nend,4\n",
        },
        Case {
            label: "orders ascend, and one absent value makes the total absent",
            study: RESONANT,
            spectrum: "order,bus,re,im\n5,B1,100,0\n2,B1,0,0\n",
            levels: NO_LEVELS,
            report: "voltage,B1,s,2,0.0000,0.0000,3.0000,pass\nvoltage,B1,s,5,-,-,3.0000,undecided\nthd,B1,s,-,-,5.0000,undecided\ncurrent,P1,s,2,0.0000,0.0000,3.5000,pass\ncurrent,P1,s,5,-,-,7.0000,undecided\ntdd,P1,s,-,-,8.0000,undecided\nsummary,limits,2,0,4\nend,4\n",
        },
        Case {
            label: "a bus without a path",
            study: GROUNDED,
            spectrum: "order,bus,re,im\n3,HV,100,0\n",
            levels: NO_LEVELS,
            report: "voltage,HV,s,3,0.5144,0.5145,1.5000,pass\nthd,HV,s,0.5144,0.5145,2.5000,pass\nthd,LV,s,0.0000,0.0000,5.0000,pass\ntdd,P1,s,0.0000,0.0000,8.0000,pass\nsummary,limits,4,0,0\nend,0\n",
        },
        Case {
            label: "a current in one of three phases",
            study: THREE_PHASES,
            spectrum: "order,bus,phase,re,im\n5,B1,a,100,0\n",
            levels: NO_LEVELS,
            report: "voltage,B1,a,5,8.6602,8.6603,3.0000,fail\nvoltage,B1,b,5,0.0000,0.0000,3.0000,pass\nvoltage,B1,c,5,0.0000,0.0000,3.0000,pass\nthd,B1,a,8.6602,8.6603,5.0000,fail\nthd,B1,b,0.0000,0.0000,5.0000,pass\nthd,B1,c,0.0000,0.0000,5.0000,pass\nsummary,limits,4,2,0\nend,3\n",
        },
        Case {
            label: "two orders at a point in three phases, beside a level",
            study: POINT_OF_PHASES,
            spectrum: "order,bus,phase,re,im\n3,B1,c,100,0\n2,B1,b,100,0\n",
            levels: "bus,order,percent\nB1,3,8.2\n",
            report: "voltage,B1,a,2,0.2199,0.2200,3.0000,pass\nvoltage,B1,b,2,3.9039,3.9040,3.0000,fail\nvoltage,B1,c,2,0.2199,0.2200,3.0000,pass\nvoltage,B1,a,3,0.9742,0.9743,8.2000,pass\nvoltage,B1,b,3,0.9742,0.9743,8.2000,pass\nvoltage,B1,c,3,7.1447,7.1448,8.2000,pass\nthd,B1,a,0.9987,0.9988,5.0000,pass\nthd,B1,b,4.0237,4.0238,5.0000,pass\nthd,B1,c,7.1480,7.1481,5.0000,fail\ncurrent,P1,a,2,0.2539,0.2540,3.5000,pass\ncurrent,P1,b,2,0.5079,0.5080,3.5000,pass\ncurrent,P1,c,2,0.2539,0.2540,3.5000,pass\ncurrent,P1,a,3,0.7499,0.7501,7.0000,pass\ncurrent,P1,b,3,0.7499,0.7501,7.0000,pass\ncurrent,P1,c,3,1.4999,1.5001,7.0000,pass\ntdd,P1,a,0.7918,0.7919,8.0000,pass\ntdd,P1,b,0.9058,0.9059,8.0000,pass\ntdd,P1,c,1.5213,1.5214,8.0000,pass\nsummary,limits,16,2,0\nend,3\n",
        },
        Case {
            label: "a current into a phase that isn't live",
            study: ONE_PHASE,
            spectrum: "order,bus,phase,re,im\n5,B1,b,0,0\n7,B1,a,0,0\n",
            levels: NO_LEVELS,
            report: "voltage,B1,a,5,-,-,3.0000,undecided\nvoltage,B1,a,7,0.0000,0.0000,3.0000,pass\nthd,B1,a,-,-,5.0000,undecided\nthd,B1,b,0.0000,0.0000,5.0000,pass\nthd,B1,c,0.0000,0.0000,5.0000,pass\nsummary,limits,3,0,2\nend,4\n",
        },
    ]
}

#[test]
fn whole_reports(rt: HostRuntime) -> Result<(), Fail> {
    for case in cases() {
        let found = report(rt.alloc(), case.study, case.spectrum, case.levels)?;
        let Some(found) = found else {
            return Err("no report".into());
        };
        let mut text = Vec::new(rt.alloc());
        push_lines(found.rows.as_slice(), &mut text)?;
        assert!(rt; text.as_slice() == case.report.as_bytes(), "{}", case.label);
    }
    Ok(())
}
