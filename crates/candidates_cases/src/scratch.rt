// A larger study: the counts of a size are those of a scan of the study that has the bank.
use crate::reports::report;
use complex_interval::Span;
use scan_report::{Kind, Row};
use std::alloc::{AllocError, Global};
use std::test::Fail;
use study_networks::study_networks;
use study_reader::read_study;
use study_scans::plan_of;

/// How many boxes are cleared, peaks and undecided.
#[derive(Clone, Copy, Debug, PartialEq, Eq)]
struct Found {
    cleared: u32,
    peaks: u32,
    undecided: u32,
}

const NOTHING: Found = Found {
    cleared: 0,
    peaks: 0,
    undecided: 0,
};

/// A text of two parts.
fn joined(alloc: Global, first: &str, second: &str) -> Result<Vec<u8>, AllocError> {
    let mut text = Vec::new(alloc);
    text.extend_from_slice(first.as_bytes())?;
    text.extend_from_slice(second.as_bytes())?;
    Ok(text)
}

/// One box more.
fn with_kind(kind: Kind, found: Found) -> Found {
    match kind {
        Kind::Cleared => Found {
            cleared: found.cleared.wrapping_add(1),
            ..found
        },
        Kind::Peak { .. } => Found {
            peaks: found.peaks.wrapping_add(1),
            ..found
        },
        Kind::Undecided => Found {
            undecided: found.undecided.wrapping_add(1),
            ..found
        },
    }
}

/// The boxes of the first scan of a study.
fn from_scratch(alloc: Global, study: &[u8]) -> Result<Found, Fail> {
    let study = read_study(alloc, study)?;
    let networks = study_networks(alloc, &study)?;
    if study.scale != 40 {
        return Err("another scale".into());
    }
    let mut plan = plan_of::<Span<40>>(alloc, &study, &networks)?;
    let Some(mut planned) = plan.pop_front() else {
        return Err("no scan".into());
    };
    let mut found = NOTHING;
    for _ in 0..10_000 {
        match planned.walk.next_box() {
            Some(next) => found = with_kind(next.kind, found),
            None => break,
        }
    }
    Ok(found)
}

/// The counts of a row of a size.
fn counts_of(row: Option<&Row>) -> Option<Found> {
    match row {
        Some(
            Row::Size {
                cleared,
                peaks,
                undecided,
                ..
            },
        ) => Some(Found {
            cleared: *cleared,
            peaks: *peaks,
            undecided: *undecided,
        }),
        _ => None,
    }
}

/// A works behind a transformer with a cable, loads and a filter.
const ELIMINATION: &str =
    "study = { version = 1, mva = 10, method = \"elimination\" }\nbus = [{ name = \"INTAKE\", kv = 33 }, { name = \"MAIN\", kv = 11 }, { name = \"SHOP\", kv = 11 }]\nsource = [{ name = \"GRID\", bus = \"INTAKE\", r = \"0.22\", x = \"2.17\" }]\ntransformer = [{ name = \"T1\", from = \"INTAKE\", to = \"MAIN\", mva = 10, r = \"0.6\", x = 9 }]\nline = [{ name = \"CABLE\", from = \"MAIN\", to = \"SHOP\", r = \"0.15\", x = \"0.12\", b = 132 }]\nload = [{ name = \"MOTORS\", bus = \"MAIN\", model = \"cigre\", p = 3, q = \"1.8\" }]\nfilter = [{ name = \"F5\", bus = \"SHOP\", kind = \"single\", q = \"0.8\", order = \"4.9\", quality = 40 }]\nscan = [{ name = \"s1\", bus = \"MAIN\", from = 6, to = 14, threshold = 30, finest = \"0.1\", locate = \"0.5\" }]\n";

const BRANCHWISE: &str =
    "study = { version = 1, mva = 10, method = \"branchwise\" }\nbus = [{ name = \"INTAKE\", kv = 33 }, { name = \"MAIN\", kv = 11 }, { name = \"SHOP\", kv = 11 }]\nsource = [{ name = \"GRID\", bus = \"INTAKE\", r = \"0.22\", x = \"2.17\" }]\ntransformer = [{ name = \"T1\", from = \"INTAKE\", to = \"MAIN\", mva = 10, r = \"0.6\", x = 9 }]\nline = [{ name = \"CABLE\", from = \"MAIN\", to = \"SHOP\", r = \"0.15\", x = \"0.12\", b = 132 }]\nload = [{ name = \"MOTORS\", bus = \"MAIN\", model = \"cigre\", p = 3, q = \"1.8\" }]\nfilter = [{ name = \"F5\", bus = \"SHOP\", kind = \"single\", q = \"0.8\", order = \"4.9\", quality = 40 }]\nscan = [{ name = \"s1\", bus = \"MAIN\", from = 6, to = 14, threshold = 30, finest = \"0.1\", locate = \"0.5\" }]\n";

const SIZES: &str = "candidate = [{ scan = \"s1\", sizes = [3, \"1.5\", \"0.4\"] }]\n";

const BANKS: [&str; 3] = [
    "bank = [{ name = \"C1\", bus = \"MAIN\", q = 3 }]\n",
    "bank = [{ name = \"C1\", bus = \"MAIN\", q = \"1.5\" }]\n",
    "bank = [{ name = \"C1\", bus = \"MAIN\", q = \"0.4\" }]\n",
];

#[test]
fn as_a_scan_of_the_study_with_the_bank(rt: HostRuntime) -> Result<(), Fail> {
    for study in [ELIMINATION, BRANCHWISE] {
        let candidates = joined(rt.alloc(), study, SIZES)?;
        let found = report(rt.alloc(), candidates.as_slice())?;
        for (bank, number) in BANKS.iter().zip(1..4) {
            let with_bank = joined(rt.alloc(), study, bank)?;
            let wanted = from_scratch(rt.alloc(), with_bank.as_slice())?;
            assert_eq!(rt;
                counts_of(found.rows.as_slice().get(number)),
                Some(wanted),
                "{} {}",
                study,
                bank
            );
        }
    }
    Ok(())
}
