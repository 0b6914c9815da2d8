// Studies as the call of the reader gives them.
use std::alloc::Global;
use std::process::Abort;
use std::test::Fail;
use study_model::{
    Bank, Bus, Candidate, Curve, CurvePoint, Method, Outage, Pcc, ScanItem, Source, Study,
    StudyModel, Tolerance,
};
use study_reader::read_study;
use worked_cases::answers::joined;

const STUDY: &str = "[study]\nversion = 1\nmva = \"100\"\n";

const BUS: &str = "[[bus]]\nname = \"B1\"\nkv = \"10\"\n";

const SOURCE: &str = "[[source]]\nname = \"S1\"\nbus = \"B1\"\nr = \"0\"\nx = \"1.5\"\n";

const SCAN: &str =
    "[[scan]]\nname = \"s1\"\nbus = \"B1\"\nfrom = \"1\"\nto = \"10\"\nthreshold = \"20\"\nfinest = \"0.001\"\n";

const BANK: &str = "[[bank]]\nname = \"K1\"\nbus = \"B1\"\nq = \"4.25\"\n";

fn is_usual(study: &Study) -> bool {
    study.hz.millionths == 50_000_000
        && study.model == StudyModel::Sequence
        && study.scale == 40
        && study.method == Method::Elimination
        && study.root3.millionths == 1_732_051
}

fn is_bus(buses: &[Bus], name: &[u8], kv: i64) -> bool {
    match buses {
        [bus] => bus.name.as_bytes() == name && bus.kv.millionths == kv,
        _ => false,
    }
}

fn is_source(sources: &[Source], name: &[u8], r: i64, x: i64) -> bool {
    match sources {
        [source] => {
            source.name.as_bytes() == name && source.r.millionths == r && source.x.millionths == x
        }
        _ => false,
    }
}

fn is_bank(banks: &[Bank], name: &[u8], q: i64) -> bool {
    match banks {
        [bank] => bank.name.as_bytes() == name && bank.q.millionths == q,
        _ => false,
    }
}

/// Whether there is one scan, of this band, this finest width and this width to locate.
fn is_scan(scans: &[ScanItem], name: &[u8], numbers: [i64; 4]) -> bool {
    match scans {
        [scan] => {
            let found = [
                scan.from.millionths,
                scan.to.millionths,
                scan.finest.millionths,
                scan.locate.millionths,
            ];
            scan.name.as_bytes() == name && found == numbers
        }
        _ => false,
    }
}

/// Whether there is one scan, with this threshold.
fn has_threshold(scans: &[ScanItem], ohms: Option<i64>, curve: Curve) -> bool {
    match scans {
        [scan] => {
            let threshold = scan.threshold.map(|ohms| ohms.millionths);
            threshold == ohms && scan.curve == curve
        }
        _ => false,
    }
}

fn is_point(points: &[Pcc], element: u32, il: i64) -> bool {
    match points {
        [point] => point.element == element && point.il.millionths == il,
        _ => false,
    }
}

/// The study of these pieces. It has no contract, so that no case is proved under what is proved of a reading.
fn read(alloc: Global, pieces: &[&str]) -> Result<Study, Fail> {
    let text = joined(alloc, pieces)?;
    Ok(read_study(alloc, text.as_bytes())?)
}

fn assert_all(rt: &impl Abort, parts: &[(&str, bool)]) {
    for (label, holds) in parts {
        assert!(rt; *holds, "{label}");
    }
}

#[test]
fn one_source(rt: HostRuntime) -> Result<(), Fail> {
    let study = read(rt.alloc(), &[STUDY, BUS, SOURCE, SCAN])?;
    let numbers = [1_000_000, 10_000_000, 1_000, 1_000];
    let scans = study.scans.as_slice();
    let flat = Curve::flat(20_000_000);
    let parts = [
        ("version", study.version == 1),
        ("usual", is_usual(&study)),
        ("mva", study.mva.millionths == 100_000_000),
        ("bus", is_bus(study.buses.as_slice(), b"B1", 10_000_000)),
        (
            "source",
            is_source(study.sources.as_slice(), b"S1", 0, 1_500_000),
        ),
        ("scan", is_scan(scans, b"s1", numbers)),
        ("threshold", has_threshold(scans, Some(20_000_000), flat)),
    ];
    assert_all(&rt, &parts);
    Ok(())
}

#[test]
fn a_bank_and_a_coarser_search(rt: HostRuntime) -> Result<(), Fail> {
    let pieces = [STUDY, BUS, SOURCE, BANK, SCAN, "locate = \"0.25\"\n"];
    let study = read(rt.alloc(), &pieces)?;
    let numbers = [1_000_000, 10_000_000, 1_000, 250_000];
    let parts = [
        ("bank", is_bank(study.banks.as_slice(), b"K1", 4_250_000)),
        ("scan", is_scan(study.scans.as_slice(), b"s1", numbers)),
    ];
    assert_all(&rt, &parts);
    Ok(())
}

const NEWER_STUDY: &str = "[study]\nversion = 2\nmva = \"100\"\nmethod = \"both\"\n";

const CURVE: &str =
    "[[scan]]\nname = \"s1\"\nbus = \"B1\"\nfrom = 1\nto = 10\ncurve_at = [\"0.5\", 2, 10]\ncurve_ohms = [\"0.000001\", \"20\", \"999999.999999\"]\nfinest = \"0.001\"\n";

#[test]
fn a_curve(rt: HostRuntime) -> Result<(), Fail> {
    let study = read(rt.alloc(), &[NEWER_STUDY, BUS, SOURCE, CURVE])?;
    let scans = study.scans.as_slice();
    let curve = Curve::of_points(&[
        CurvePoint {
            at: 500_000,
            ohms: 1,
        },
        CurvePoint {
            at: 2_000_000,
            ohms: 20_000_000,
        },
        CurvePoint {
            at: 10_000_000,
            ohms: 999_999_999_999,
        },
    ]);
    let numbers = [1_000_000, 10_000_000, 1_000, 1_000];
    let parts = [
        ("version", study.version == 2),
        ("method", study.method == Method::Both),
        ("scan", is_scan(scans, b"s1", numbers)),
        ("threshold", has_threshold(scans, None, curve)),
    ];
    assert_all(&rt, &parts);
    Ok(())
}

const LONG_CURVE: &str =
    "[[scan]]\nname = \"s1\"\nbus = \"B1\"\nfrom = \"0.1\"\nto = 100\ncurve_at = [\"0.1\", 1, 2, 3, 4, 5, 6, 7, 8, 9, 10, 11, 12, 13, 14, 100]\ncurve_ohms = [1, 2, 3, 4, 5, 6, 7, 8, 9, 10, 11, 12, 13, 14, 15, 16]\nfinest = 1\n";

#[test]
fn a_curve_of_sixteen_points(rt: HostRuntime) -> Result<(), Fail> {
    let study = read(rt.alloc(), &[NEWER_STUDY, BUS, SOURCE, LONG_CURVE])?;
    let mut points = [CurvePoint::NONE; 16];
    for i in 0..16 {
        points[i] = CurvePoint {
            at: i as u32 * 1_000_000,
            ohms: (i as u64 + 1) * 1_000_000,
        };
    }
    points[0].at = 100_000;
    points[15].at = 100_000_000;
    let curve = Curve::of_points(&points);
    let held = has_threshold(study.scans.as_slice(), None, curve);
    assert_all(&rt, &[("sixteen points", held)]);
    Ok(())
}

const POINT: &str =
    "[[pcc]]\nname = \"P1\"\nbus = \"B1\"\nelement = \"S1\"\nisc = 6000\nil = 200\n";

const LOAD: &str = "[[load]]\nname = \"D1\"\nbus = \"B1\"\nmodel = \"cigre\"\np = 1\nq = 1\n";

#[test]
fn points_and_no_scans(rt: HostRuntime) -> Result<(), Fail> {
    let study = read(rt.alloc(), &[STUDY, BUS, SOURCE, LOAD, POINT])?;
    let parts = [
        ("loads", study.loads.len() == 1),
        ("scans", study.scans.len() == 0),
        ("point", is_point(study.points.as_slice(), 1, 200_000_000)),
    ];
    assert_all(&rt, &parts);
    Ok(())
}

const SECOND_SCAN: &str =
    "[[scan]]\nname = \"s2\"\nbus = \"B1\"\nfrom = 1\nto = 2\nthreshold = 20\nfinest = 1\n";

const VARIANTS: &str =
    "[[outage]]\nelement = \"K1\"\n[[tolerance]]\nelement = \"K1\"\npermille = 500\n[[tolerance]]\nelement = \"S1\"\npermille = 1\n[[candidate]]\nscan = \"s2\"\nsizes = [4, \"0.5\", 4]\n";

/// Whether there is one candidate, of this scan and these sizes.
fn is_candidate(candidates: &[Candidate], scan: u32, sizes: &[i64]) -> bool {
    match candidates {
        [candidate] => {
            let found = candidate.sizes.as_slice();
            let same = found
                .iter()
                .zip(sizes)
                .all(|(size, number)| size.millionths == *number);
            candidate.scan == scan && found.len() == sizes.len() && same
        }
        _ => false,
    }
}

fn are_tolerances(tolerances: &[Tolerance], numbers: [(u32, u32); 2]) -> bool {
    match tolerances {
        [first, second] => {
            let found = [
                (first.element, first.permille),
                (second.element, second.permille),
            ];
            found == numbers
        }
        _ => false,
    }
}

fn is_outage(outages: &[Outage], element: u32) -> bool {
    match outages {
        [outage] => outage.element == element,
        _ => false,
    }
}

#[test]
fn candidates_tolerances_and_outages(rt: HostRuntime) -> Result<(), Fail> {
    let pieces = [STUDY, BUS, SOURCE, BANK, SCAN, SECOND_SCAN, VARIANTS];
    let study = read(rt.alloc(), &pieces)?;
    let sizes = [4_000_000, 500_000, 4_000_000];
    let tolerances = study.tolerances.as_slice();
    let parts = [
        (
            "candidate",
            is_candidate(study.candidates.as_slice(), 2, &sizes),
        ),
        ("tolerances", are_tolerances(tolerances, [(2, 500), (1, 1)])),
        ("outage", is_outage(study.outages.as_slice(), 2)),
    ];
    assert_all(&rt, &parts);
    Ok(())
}
