// Rows of a report on distortion and their text, written by hand.
use ieee519_limits::Verdict;
use scan_report::{
    LineBuf, PhaseWord, Row, current_row, limits_summary_row, tdd_row, thd_row, voltage_row,
};
use std::test::Fail;
use study_model::Name;

fn name(text: &str) -> Result<Name, Fail> {
    Ok(Name::parse(text.as_bytes()).ok_or("no name")?)
}

#[test]
fn voltages_and_their_distortion(rt: HostRuntime) -> Result<(), Fail> {
    let mut line = LineBuf::new();
    let voltage = Row::Voltage {
        bus: name("B1")?,
        phase: PhaseWord::S,
        order: 5,
        lo: Some(86_602),
        hi: Some(86_603),
        limit: 30_000,
        verdict: Verdict::Fail,
    };
    voltage_row(&voltage, &mut line);
    let text = "voltage,B1,s,5,8.6602,8.6603,3.0000,fail\n";
    assert_eq!(rt; line.as_bytes(), text.as_bytes());
    let thd = Row::Thd {
        bus: name("B1")?,
        phase: PhaseWord::C,
        lo: Some(0),
        hi: Some(9),
        limit: 10,
        verdict: Verdict::Pass,
    };
    thd_row(&thd, &mut line);
    let text = "thd,B1,c,0.0000,0.0009,0.0010,pass\n";
    assert_eq!(rt; line.as_bytes(), text.as_bytes());
    Ok(())
}

#[test]
fn currents_and_their_distortion(rt: HostRuntime) -> Result<(), Fail> {
    let mut line = LineBuf::new();
    let current = Row::Current {
        point: name("P1")?,
        phase: PhaseWord::A,
        order: 50,
        lo: None,
        hi: None,
        limit: 1_500,
        verdict: Verdict::Undecided,
    };
    current_row(&current, &mut line);
    let text = "current,P1,a,50,-,-,0.1500,undecided\n";
    assert_eq!(rt; line.as_bytes(), text.as_bytes());
    let most = u64::MAX;
    let tdd = Row::Tdd {
        point: name("P1")?,
        phase: PhaseWord::B,
        lo: Some(999),
        hi: Some(most),
        limit: 10_000,
        verdict: Verdict::Undecided,
    };
    tdd_row(&tdd, &mut line);
    let text = "tdd,P1,b,0.0999,1844674407370955.1615,1.0000,undecided\n";
    assert_eq!(rt; line.as_bytes(), text.as_bytes());
    Ok(())
}

#[test]
fn counts_of_verdicts(rt: HostRuntime) {
    let mut line = LineBuf::new();
    let summary = Row::LimitsSummary {
        passes: 0,
        fails: 4_294_967_295,
        undecided: 10,
    };
    limits_summary_row(&summary, &mut line);
    let text = "summary,limits,0,4294967295,10\n";
    assert_eq!(rt; line.as_bytes(), text.as_bytes());
}
