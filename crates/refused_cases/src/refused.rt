// Studies that are refused, through the program.
use crate::compare::assert_answer;
use crate::{curve_refusals, refusals, variant_refusals};
use std::alloc::Global;
use std::process::Abort;
use std::test::Fail;
use worked_cases::answers::{Answer, SCAN, joined, shelf_with};

#[test]
fn no_toml(rt: HostRuntime) -> Result<(), Fail> {
    let cases: [&[u8]; 3] = [b"[study", b"study = \xff\n", b"\xc3"];
    for study in cases {
        let mut shelf = shelf_with(rt.alloc(), study)?;
        let answer = Answer {
            status: 2,
            out: "",
            err: "harmscan: study refused: 1 NotToml\n",
        };
        assert_answer(&rt, rt.alloc(), &SCAN, &mut shelf, &answer)?;
    }
    Ok(())
}

/// Runs `scan` on a study, which has to be refused so.
fn assert_refused(rt: &impl Abort, alloc: Global, study: &str, refusal: &str) -> Result<(), Fail> {
    let line = joined(alloc, &["harmscan: study refused: ", refusal, "\n"])?;
    let mut shelf = shelf_with(alloc, study.as_bytes())?;
    let answer = Answer {
        status: 2,
        out: "",
        err: &line,
    };
    assert_answer(rt, alloc, &SCAN, &mut shelf, &answer)
}

/// Runs `scan` on each piece between those before and behind it.
fn assert_each(
    rt: &impl Abort,
    alloc: Global,
    before: &str,
    cases: &[(&str, &str)],
    behind: &str,
) -> Result<(), Fail> {
    for (piece, refusal) in cases {
        let study = joined(alloc, &[before, piece, behind])?;
        assert_refused(rt, alloc, &study, refusal)?;
    }
    Ok(())
}

#[test]
fn refused_documents(rt: HostRuntime) -> Result<(), Fail> {
    assert_each(&rt, rt.alloc(), "", &refusals::DOCUMENTS, "")
}

#[test]
fn refused_headers(rt: HostRuntime) -> Result<(), Fail> {
    let behind = joined(rt.alloc(), &[" }\n", refusals::ONE_BUS])?;
    assert_each(&rt, rt.alloc(), "study = { ", &refusals::HEADERS, &behind)
}

#[test]
fn refused_buses(rt: HostRuntime) -> Result<(), Fail> {
    assert_each(&rt, rt.alloc(), refusals::STUDY, &refusals::BUS_LISTS, "")
}

/// Refusals of sections behind these pieces.
fn assert_behind(
    rt: &impl Abort,
    alloc: Global,
    pieces: &[&str],
    cases: &[(&str, &str)],
) -> Result<(), Fail> {
    let before = joined(alloc, pieces)?;
    assert_each(rt, alloc, &before, cases, "")
}

const PLANT: [&str; 3] = [refusals::STUDY, refusals::BUSES, refusals::SOURCE];

#[test]
fn refused_sources(rt: HostRuntime) -> Result<(), Fail> {
    let pieces = [refusals::STUDY, refusals::BUSES];
    assert_behind(&rt, rt.alloc(), &pieces, &refusals::SOURCE_LISTS)
}

#[test]
fn refused_branches(rt: HostRuntime) -> Result<(), Fail> {
    assert_behind(&rt, rt.alloc(), &PLANT, &refusals::LINE_LISTS)?;
    assert_behind(&rt, rt.alloc(), &PLANT, &refusals::TRANSFORMER_LISTS)
}

#[test]
fn refused_loads(rt: HostRuntime) -> Result<(), Fail> {
    assert_behind(&rt, rt.alloc(), &PLANT, &refusals::LOAD_LISTS)
}

#[test]
fn refused_scans(rt: HostRuntime) -> Result<(), Fail> {
    assert_behind(&rt, rt.alloc(), &PLANT, &refusals::SCAN_LISTS)
}

#[test]
fn refused_curves(rt: HostRuntime) -> Result<(), Fail> {
    let newer = [curve_refusals::STUDY, refusals::ONE_BUS];
    assert_behind(&rt, rt.alloc(), &newer, &curve_refusals::SCAN_LISTS)?;
    let older = [refusals::STUDY, refusals::ONE_BUS];
    assert_behind(&rt, rt.alloc(), &older, &curve_refusals::OLDER_LISTS)
}

#[test]
fn refused_points(rt: HostRuntime) -> Result<(), Fail> {
    let pieces = [
        refusals::STUDY,
        refusals::BUSES,
        refusals::SOURCE,
        "bank = [{ name = \"K1\", bus = \"B2\", q = 1 }]\n",
    ];
    assert_behind(&rt, rt.alloc(), &pieces, &refusals::POINT_LISTS)
}

#[test]
fn refused_variants(rt: HostRuntime) -> Result<(), Fail> {
    let plant = joined(rt.alloc(), &PLANT)?;
    let pieces = [plant.as_str(), variant_refusals::SCANS];
    assert_behind(&rt, rt.alloc(), &pieces, &variant_refusals::CANDIDATE_LISTS)?;
    assert_behind(&rt, rt.alloc(), &pieces, &variant_refusals::TOLERANCE_LISTS)?;
    assert_behind(&rt, rt.alloc(), &pieces, &variant_refusals::OUTAGE_LISTS)
}

#[test]
fn refused_variants_in_other_forms(rt: HostRuntime) -> Result<(), Fail> {
    let phases = [
        refusals::PHASES,
        refusals::BUSES,
        refusals::SOURCE,
        variant_refusals::PHASE_SCAN,
    ];
    assert_behind(&rt, rt.alloc(), &phases, &variant_refusals::PHASE_LISTS)?;
    let newer = [
        curve_refusals::STUDY,
        refusals::BUSES,
        refusals::SOURCE,
        variant_refusals::CURVE_SCAN,
    ];
    assert_behind(&rt, rt.alloc(), &newer, &variant_refusals::NEWER_LISTS)
}

#[test]
fn refused_phase_networks(rt: HostRuntime) -> Result<(), Fail> {
    let pieces = [refusals::PHASES, refusals::BUSES];
    assert_behind(&rt, rt.alloc(), &pieces, &refusals::PHASE_LISTS)
}

#[test]
fn networks_that_hang_in_the_air(rt: HostRuntime) -> Result<(), Fail> {
    assert_each(&rt, rt.alloc(), refusals::STUDY, &refusals::FLOATING, "")?;
    assert_each(
        &rt,
        rt.alloc(),
        refusals::PHASES,
        &refusals::FLOATING_PHASES,
        "",
    )
}

/// A section of so many empty entries.
fn empty_entries(alloc: Global, section: &str, count: u32) -> Result<String, Fail> {
    let mut text = joined(alloc, &[section, " = ["])?;
    for _ in 0..count {
        text.push_str("{},")?;
    }
    text.push_str("]\n")?;
    Ok(text)
}

/// Runs `scan` on sections of so many empty entries, each behind these lines.
fn assert_counts(
    rt: &impl Abort,
    alloc: Global,
    before: &str,
    cases: &[(&str, u32, &str)],
) -> Result<(), Fail> {
    for (section, count, refusal) in cases {
        let entries = empty_entries(alloc, section, *count)?;
        assert_each(rt, alloc, before, &[(&entries, refusal)], "")?;
    }
    Ok(())
}

const BUS_COUNTS: [(&str, u32, &str); 2] = [
    ("bus", 200, "3 MissingKey bus 1 name"),
    ("bus", 201, "12 TooMany bus 0 -"),
];

const COUNTS: [(&str, u32, &str); 18] = [
    ("source", 200, "3 MissingKey source 1 name"),
    ("source", 201, "12 TooMany source 0 -"),
    ("line", 201, "12 TooMany line 0 -"),
    ("transformer", 201, "12 TooMany transformer 0 -"),
    ("load", 201, "12 TooMany load 0 -"),
    ("bank", 200, "3 MissingKey bank 1 name"),
    ("bank", 201, "12 TooMany bank 0 -"),
    ("filter", 201, "12 TooMany filter 0 -"),
    ("scan", 16, "3 MissingKey scan 1 name"),
    ("scan", 17, "12 TooMany scan 0 -"),
    ("pcc", 32, "3 MissingKey pcc 1 name"),
    ("pcc", 33, "12 TooMany pcc 0 -"),
    ("candidate", 16, "3 MissingKey candidate 1 scan"),
    ("candidate", 17, "12 TooMany candidate 0 -"),
    ("tolerance", 200, "3 MissingKey tolerance 1 element"),
    ("tolerance", 201, "12 TooMany tolerance 0 -"),
    ("outage", 32, "3 MissingKey outage 1 element"),
    ("outage", 33, "12 TooMany outage 0 -"),
];

#[test]
fn sections_of_too_many_entries(rt: HostRuntime) -> Result<(), Fail> {
    let before = joined(rt.alloc(), &[refusals::STUDY, refusals::ONE_BUS])?;
    assert_counts(&rt, rt.alloc(), refusals::STUDY, &BUS_COUNTS)?;
    assert_counts(&rt, rt.alloc(), &before, &COUNTS)
}
