// Rows of candidate banks, of verified reports, of tolerances and of outages, and their text, written by hand.
ghost use Rattle.scan_report.specs.Rows.{HaveText, fields_of};

use fixed_decimal::Decimal;
use scan_report::{
    LineBuf, Row, candidate_row, case_row, envelope_row, first_row, outage_row, size_row,
    tolerance_row, verified_row, write_row,
};
use std::process::Abort;
use std::test::Fail;
use study_model::Name;

fn name(text: &str) -> Result<Name, Fail> {
    Ok(Name::parse(text.as_bytes()).ok_or("no name")?)
}

/// What was written in a line, and that `write_row` writes the same.
fn assert_row(rt: &impl Abort, row: &Row, line: &mut LineBuf, text: &str)
    requires { HaveText (fields_of row.now) }
{
    assert_eq!(rt; line.as_bytes(), text.as_bytes(), "{text}");
    write_row(row, line);
    assert_eq!(rt; line.as_bytes(), text.as_bytes(), "{text}");
}

#[test]
fn a_candidate_with_a_threshold_and_with_a_curve(rt: HostRuntime) -> Result<(), Fail> {
    let mut line = LineBuf::new();
    let candidate = Row::Candidate {
        name: name("s1")?,
        bus: name("B1")?,
        from: 3_000_000,
        to: 7_000_000,
        threshold: Some(Decimal {
            millionths: 20_000_000,
        }),
    };
    candidate_row(&candidate, &mut line);
    let text = "candidate,s1,B1,3.000000,7.000000,20.000000\n";
    assert_row(&rt, &candidate, &mut line, text);
    let curved = Row::Candidate {
        name: name("s1")?,
        bus: name("B1")?,
        from: 1_000_000,
        to: 10_000_000,
        threshold: None,
    };
    candidate_row(&curved, &mut line);
    let text = "candidate,s1,B1,1.000000,10.000000,curve\n";
    assert_row(&rt, &curved, &mut line, text);
    Ok(())
}

#[test]
fn sizes_of_a_candidate(rt: HostRuntime) {
    let mut line = LineBuf::new();
    let four = Row::Size {
        number: 1,
        size: Decimal {
            millionths: 4_000_000,
        },
        cleared: 2,
        peaks: 4,
        undecided: 0,
    };
    size_row(&four, &mut line);
    assert_row(&rt, &four, &mut line, "size,1,4.000000,2,4,0\n");
    let half = Row::Size {
        number: 2,
        size: Decimal {
            millionths: 500_000,
        },
        cleared: 1,
        peaks: 0,
        undecided: 0,
    };
    size_row(&half, &mut line);
    assert_row(&rt, &half, &mut line, "size,2,0.500000,1,0,0\n");
    let last = Row::Size {
        number: 64,
        size: Decimal {
            millionths: 999_999_999_999,
        },
        cleared: 0,
        peaks: 0,
        undecided: u32::MAX,
    };
    size_row(&last, &mut line);
    let text = "size,64,999999.999999,0,0,4294967295\n";
    assert_row(&rt, &last, &mut line, text);
}

#[test]
fn the_first_size_of_a_candidate_and_none(rt: HostRuntime) -> Result<(), Fail> {
    let mut line = LineBuf::new();
    let first = Row::First {
        name: name("s1")?,
        size: Some(Decimal {
            millionths: 500_000,
        }),
    };
    first_row(&first, &mut line);
    assert_row(&rt, &first, &mut line, "first,s1,0.500000\n");
    let none = Row::First {
        name: name("s1")?,
        size: None,
    };
    first_row(&none, &mut line);
    assert_row(&rt, &none, &mut line, "first,s1,-\n");
    Ok(())
}

#[test]
fn a_verified_report_and_tolerances(rt: HostRuntime) {
    let mut line = LineBuf::new();
    let verified = Row::Verified { scans: 1, boxes: 6 };
    verified_row(&verified, &mut line);
    assert_row(&rt, &verified, &mut line, "verified,1,6\n");
    let tolerance = Row::Tolerance { entries: 200 };
    tolerance_row(&tolerance, &mut line);
    assert_row(&rt, &tolerance, &mut line, "tolerance,200\n");
}

#[test]
fn outages_that_are_fed_and_that_float(rt: HostRuntime) -> Result<(), Fail> {
    let mut line = LineBuf::new();
    let fed = Row::Outage {
        number: 1,
        element: name("K1")?,
        floating: false,
    };
    outage_row(&fed, &mut line);
    assert_row(&rt, &fed, &mut line, "outage,1,K1,fed\n");
    let floating = Row::Outage {
        number: 32,
        element: name("S1")?,
        floating: true,
    };
    outage_row(&floating, &mut line);
    assert_row(&rt, &floating, &mut line, "outage,32,S1,floating\n");
    Ok(())
}

#[test]
fn cases_with_a_peak_and_without(rt: HostRuntime) -> Result<(), Fail> {
    let mut line = LineBuf::new();
    let cleared = Row::Case {
        outage: 2,
        name: name("s1")?,
        boxes: 1,
        cleared: 1,
        peaks: 0,
        undecided: 0,
        at: None,
        micro_ohms: None,
    };
    case_row(&cleared, &mut line);
    assert_row(&rt, &cleared, &mut line, "case,2,s1,1,1,0,0,-,-\n");
    let peak = Row::Case {
        outage: 1,
        name: name("s1")?,
        boxes: 7,
        cleared: 2,
        peaks: 4,
        undecided: 1,
        at: Some(5_250_000),
        micro_ohms: Some(50_186_343),
    };
    case_row(&peak, &mut line);
    let text = "case,1,s1,7,2,4,1,5.250000,50.186343\n";
    assert_row(&rt, &peak, &mut line, text);
    Ok(())
}

#[test]
fn an_envelope(rt: HostRuntime) -> Result<(), Fail> {
    let mut line = LineBuf::new();
    let envelope = Row::Envelope {
        name: name("s1")?,
        cases: 6,
        cleared: 3,
        peaks: 2,
        undecided: 1,
    };
    envelope_row(&envelope, &mut line);
    assert_row(&rt, &envelope, &mut line, "envelope,s1,6,3,2,1\n");
    Ok(())
}
