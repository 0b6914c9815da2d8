// Rows and their text, written by hand.
use fixed_decimal::Decimal;
use scan_report::{
    BoxWord, LineBuf, NetWord, Row, box_row, drill_row, end_row, region_row, scan_row, summary_row,
};
use std::process::Abort;
use std::test::Fail;
use study_model::{Method, Name};

fn name(text: &str) -> Result<Name, Fail> {
    Ok(Name::parse(text.as_bytes()).ok_or("no name")?)
}

/// What was written in a line.
fn assert_line(rt: &impl Abort, label: &str, line: &LineBuf, text: &str) {
    assert_eq!(rt; line.as_bytes(), text.as_bytes(), "{label}");
}

#[test]
fn scans_with_a_threshold_and_with_a_curve(rt: HostRuntime) -> Result<(), Fail> {
    let scan = Row::Scan {
        name: name("s1")?,
        bus: name("B1")?,
        network: NetWord::Positive,
        from: 3_000_000,
        to: 7_000_000,
        threshold: Some(Decimal {
            millionths: 20_000_000,
        }),
        method: Method::Elimination,
    };
    let mut line = LineBuf::new();
    scan_row(&scan, &mut line);
    let text = "scan,s1,B1,positive,3.000000,7.000000,20.000000,elimination\n";
    assert_line(&rt, "scan", &line, text);
    let curved = Row::Scan {
        name: name("s1")?,
        bus: name("B1")?,
        network: NetWord::Zero,
        from: 1_000_000,
        to: 10_000_000,
        threshold: None,
        method: Method::Both,
    };
    scan_row(&curved, &mut line);
    let text = "scan,s1,B1,zero,1.000000,10.000000,curve,both\n";
    assert_line(&rt, "curve", &line, text);
    Ok(())
}

#[test]
fn a_drill_a_summary_and_an_end(rt: HostRuntime) -> Result<(), Fail> {
    let mut line = LineBuf::new();
    let drill = Row::Drill {
        number: 999_999,
        nodes: 120,
    };
    drill_row(&drill, &mut line);
    assert_line(&rt, "drill", &line, "drill,999999,120\n");
    let summary = Row::Summary {
        name: name("s1")?,
        boxes: 6,
        cleared: 2,
        peaks: 4,
        undecided: 0,
        regions: 1,
    };
    summary_row(&summary, &mut line);
    assert_line(&rt, "summary", &line, "summary,s1,6,2,4,0,1\n");
    end_row(&Row::End { status: 3 }, &mut line);
    assert_line(&rt, "end", &line, "end,3\n");
    Ok(())
}

#[test]
fn regions_with_a_peak_and_without(rt: HostRuntime) {
    let resonance = Row::Region {
        number: 1,
        lo: 4_000_000,
        hi: 6_000_000,
        hertz_lo: 200_000_000,
        hertz_hi: 300_000_000,
        peaks: 4,
        undecided: 0,
        at: Some(5_250_000),
        micro_ohms: Some(50_186_343),
    };
    let mut line = LineBuf::new();
    region_row(&resonance, &mut line);
    let text = "region,1,4.000000,6.000000,200.000000,300.000000,4,0,5.250000,50.186343\n";
    assert_line(&rt, "resonance", &line, text);
    let undecided = Row::Region {
        number: 2,
        lo: 4_990_000,
        hi: 5_010_000,
        hertz_lo: 249_500_000,
        hertz_hi: 250_500_000,
        peaks: 0,
        undecided: 1,
        at: None,
        micro_ohms: None,
    };
    region_row(&undecided, &mut line);
    let text = "region,2,4.990000,5.010000,249.500000,250.500000,0,1,-,-\n";
    assert_line(&rt, "undecided", &line, text);
}

#[test]
fn boxes_of_each_kind(rt: HostRuntime) {
    let cleared = Row::BoxLine {
        number: 1,
        lo: 3_000_000,
        hi: 4_000_000,
        word: BoxWord::Cleared,
        at: None,
        micro_ohms: None,
    };
    let mut line = LineBuf::new();
    box_row(&cleared, &mut line);
    assert_line(
        &rt,
        "cleared",
        &line,
        "box,1,3.000000,4.000000,cleared,-,-\n",
    );
    let peak = Row::BoxLine {
        number: 2,
        lo: 4_000_000,
        hi: 4_500_000,
        word: BoxWord::Peak,
        at: Some(4_500_000),
        micro_ohms: Some(23_584_458),
    };
    box_row(&peak, &mut line);
    let text = "box,2,4.000000,4.500000,peak,4.500000,23.584458\n";
    assert_line(&rt, "peak", &line, text);
}

#[test]
fn numbers_at_their_ends(rt: HostRuntime) {
    let undecided = Row::BoxLine {
        number: u32::MAX,
        lo: 0,
        hi: 1,
        word: BoxWord::Undecided,
        at: Some(u32::MAX),
        micro_ohms: Some(1 << 120),
    };
    let mut line = LineBuf::new();
    box_row(&undecided, &mut line);
    let text =
        "box,4294967295,0.000000,0.000001,undecided,4294.967295,1329227995784915872903807060280.344576\n";
    assert_line(&rt, "box", &line, text);
    let region = Row::Region {
        number: u32::MAX,
        lo: 0,
        hi: u32::MAX,
        hertz_lo: 0,
        hertz_hi: u64::MAX,
        peaks: u32::MAX,
        undecided: 0,
        at: Some(u32::MAX),
        micro_ohms: Some(1 << 120),
    };
    region_row(&region, &mut line);
    let text =
        "region,4294967295,0.000000,4294.967295,0.000000,18446744073709.551615,4294967295,0,4294.967295,1329227995784915872903807060280.344576\n";
    assert_line(&rt, "region", &line, text);
}
