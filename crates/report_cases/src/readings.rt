// Texts read as reports.
use scan_report::{Report, ReportFault, Row, read_report};
use std::alloc::Global;
use std::process::Abort;

/// What came of reading a text: how many rows, or the line that is none.
fn assert_rows(rt: &impl Abort, alloc: Global, label: &str, text: &str, rows: Result<usize, u32>) {
    let found = match read(alloc, text) {
        Some(Ok(report)) => Some(Ok(report.rows.len())),
        Some(Err(ReportFault::BadRow(line))) => Some(Err(line)),
        _ => None,
    };
    assert_eq!(rt; found, Some(rows), "{label}");
}

/// Reads a text that isn't too long for the reader.
fn read(alloc: Global, text: &str) -> Option<Result<Report, ReportFault>> {
    if text.len() > 1_000 {
        return None;
    }
    Some(read_report(alloc, text.as_bytes()))
}

/// Reports, each with how many rows it has.
const WHOLE: [(&str, &str, usize); 5] = [
    ("an end alone", "end,3\n", 1),
    (
        "a cleared band",
        "scan,s1,B1,positive,1.000000,10.000000,20.000000,elimination\nbox,1,1.000000,10.000000,cleared,-,-\nsummary,s1,1,1,0,0,0\nend,0\n",
        4,
    ),
    (
        "a curve",
        "scan,s1,B1,positive,1.000000,10.000000,curve,both\nbox,1,1.000000,10.000000,cleared,-,-\nsummary,s1,1,1,0,0,0\nend,0\n",
        4,
    ),
    (
        "a peak",
        "scan,s.1,B_1,c,3.000000,7.000000,0.000001,both\nbox,1,3.000000,7.000000,peak,5.250000,50.186343\nregion,1,4.000000,6.000000,200.000000,18446744073709.551615,4,4294967295,5.250000,1329227995784915872903807060280.344576\nsummary,s.1,1,0,1,0,1\nend,3\n",
        5,
    ),
    (
        "two scans",
        "scan,s1,B1,a,1.000000,10.000000,20.000000,both\nsummary,s1,0,0,0,0,0\nscan,s2,B1,b,1.000000,10.000000,20.000000,both\nbox,1,1.000000,10.000000,undecided,-,-\nsummary,s2,0,0,0,0,0\nend,0\n",
        6,
    ),
];

#[test]
fn whole_reports(rt: HostRuntime) {
    for (label, text, rows) in WHOLE {
        assert_rows(&rt, rt.alloc(), label, text, Ok(rows));
    }
}

/// Texts that are no report, each with its first line that is none.
const BAD: [(&str, &str, u32); 29] = [
    ("no bytes", "", 1),
    ("an empty line", "\n", 1),
    ("no line feed", "end,0", 1),
    ("a carriage return", "end,0\r\n", 1),
    ("a number past 32 bits", "end,4294967296\n", 1),
    ("quotes", "\"end\",0\n", 1),
    ("a field too many", "end,0,0\n", 1),
    ("two ends", "end,0\nend,0\n", 2),
    ("no scan", "summary,s1,1,1,0,0,0\nend,0\n", 1),
    (
        "a box before a scan",
        "box,1,1.000000,10.000000,cleared,-,-\nend,0\n",
        1,
    ),
    (
        "a drill",
        "drill,7,120\nsummary,s1,256,0,0,256,1\nend,4\n",
        1,
    ),
    (
        "a report on distortion",
        "thd,B1,s,0.0000,0.0000,5.0000,pass\nsummary,limits,1,0,0\nend,0\n",
        1,
    ),
    (
        "a report on candidates",
        "candidate,s1,B1,3.000000,7.000000,20.000000\nsize,1,4.000000,2,4,0\nfirst,s1,-\nend,3\n",
        1,
    ),
    ("a verified report", "verified,1,6\n", 1),
    (
        "a report on tolerances",
        "tolerance,1\nscan,s1,B1,positive,1.000000,10.000000,20.000000,elimination\nbox,1,1.000000,10.000000,cleared,-,-\nsummary,s1,1,1,0,0,0\nend,0\n",
        1,
    ),
    (
        "a report on outages",
        "outage,1,S1,floating\nenvelope,s1,0,0,0,0\nend,3\n",
        1,
    ),
    (
        "a region before a scan",
        "region,1,4.000000,6.000000,200.000000,300.000000,4,0,5.250000,50.186343\nend,0\n",
        1,
    ),
    (
        "a scan alone",
        "scan,s1,B1,positive,1.000000,10.000000,20.000000,elimination\n",
        2,
    ),
    (
        "an end in a scan",
        "scan,s1,B1,positive,1.000000,10.000000,20.000000,elimination\nend,0\n",
        2,
    ),
    (
        "a scan in a scan",
        "scan,s1,B1,zero,1.000000,10.000000,20.000000,both\nscan,s1,B1,zero,1.000000,10.000000,20.000000,both\nend,0\n",
        2,
    ),
    (
        "a threshold of 0",
        "scan,s1,B1,positive,1.000000,10.000000,0.000000,elimination\n",
        1,
    ),
    (
        "a threshold of a million",
        "scan,s1,B1,positive,1.000000,10.000000,1000000.000000,elimination\n",
        1,
    ),
    (
        "a word that goes on",
        "scan,s1,B1,positive,1.000000,10.000000,curves,elimination\n",
        1,
    ),
    (
        "a word that ends early",
        "scan,s1,B1,positive,1.000000,10.000000,curv,elimination\n",
        1,
    ),
    (
        "no threshold",
        "scan,s1,B1,positive,1.000000,10.000000,-,elimination\n",
        1,
    ),
    (
        "a leading zero",
        "scan,s1,B1,positive,1.000000,10.000000,20.000000,elimination\nbox,01,1.000000,10.000000,cleared,-,-\nsummary,s1,1,1,0,0,0\nend,0\n",
        2,
    ),
    (
        "ohms past 2^120",
        "scan,s1,B1,positive,1.000000,10.000000,20.000000,elimination\nbox,1,1.000000,10.000000,peak,2.000000,1329227995784915872903807060280.344577\nsummary,s1,1,1,0,0,0\nend,0\n",
        2,
    ),
    (
        "no end",
        "scan,s1,B1,positive,1.000000,10.000000,20.000000,elimination\nbox,1,1.000000,10.000000,cleared,-,-\nsummary,s1,1,1,0,0,0\n",
        4,
    ),
    (
        "a row past the end",
        "scan,s1,B1,positive,1.000000,10.000000,20.000000,elimination\nbox,1,1.000000,10.000000,cleared,-,-\nsummary,s1,1,1,0,0,0\nend,0\nend,0\n",
        5,
    ),
];

#[test]
fn bad_lines(rt: HostRuntime) {
    for (label, text, line) in BAD {
        assert_rows(&rt, rt.alloc(), label, text, Err(line));
    }
}

/// The frequency at a region's high end in millionths of a hertz, its order and its bound.
fn region_at(alloc: Global, text: &str, index: usize) -> Option<(u64, Option<u32>, Option<i128>)> {
    let report = read(alloc, text)?.ok()?;
    match report.rows.get(index) {
        Some(
            Row::Region {
                hertz_hi,
                at,
                micro_ohms,
                ..
            },
        ) => Some((*hertz_hi, *at, *micro_ohms)),
        _ => None,
    }
}

#[test]
fn a_region_with_a_peak(rt: HostRuntime) {
    let text =
        "scan,s,B,zero,3.000000,7.000000,0.000001,both\nregion,1,4.000000,6.000000,200.000000,18446744073709.551615,4,0,5.250000,1329227995784915872903807060280.344576\nsummary,s,0,0,0,0,1\nend,3\n";
    assert_eq!(rt;
        region_at(rt.alloc(), text, 1),
        Some((u64::MAX, Some(5_250_000), Some(1 << 120)))
    );
}
