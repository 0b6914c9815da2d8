// The boxes of scans within tolerances.
ghost use Rattle.std.specs.Prelude.{◌≡◌};
ghost use Rattle.study_model.specs.Lawful.{IsLawful};
ghost use Rattle.study_networks.specs.Networks.{AreNetworksOf};

use crate::fixtures::{TENTH, TWENTIETH, WIDE};
use complex_interval::{Enclosure, Span};
use scan_report::{BoxRow, Kind};
use std::alloc::Global;
use std::collections::VecDeque;
use std::process::Abort;
use std::test::Fail;
use study_model::Study;
use study_networks::{StudyNetworks, study_networks};
use study_reader::read_study;
use study_scans::{PlannedScan, plan_of};
use tolerance_scan::tolerance_plan;

/// One box over the band from 1 to 10.
fn whole_band(kind: Kind) -> BoxRow {
    BoxRow {
        lo: 1_000_000,
        hi: 10_000_000,
        kind,
    }
}

/// The plan has one scan, whose one box is of this kind.
fn expect_one<E: Enclosure>(
    rt: &impl Abort,
    plan: VecDeque<PlannedScan<E>>,
    kind: Kind,
    label: &str,
) {
    let mut plan = plan;
    let found = match plan.pop_front() {
        None => None,
        Some(planned) => {
            let mut walk = planned.walk;
            let first = walk.next_box();
            match walk.next_box() {
                None => first,
                Some(_) => None,
            }
        }
    };
    let same = found == Some(whole_band(kind));
    assert!(rt; same, "{label}");
    assert!(rt; plan.is_empty(), "{label}");
}

/// The plan within the tolerances, and that of the values as they are written.
fn expect_both(
    rt: &impl Abort,
    alloc: Global,
    study: &Study,
    networks: &StudyNetworks,
    within: Kind,
    written: Kind,
    label: &str,
) -> Result<(), Fail>
    requires study { IsLawful study.now }
    requires networks { AreNetworksOf study.now networks.now }
    requires scale { study.now.scale ≡ 40 }
{
    let plan = tolerance_plan::<Span<40>>(alloc, study, networks)?;
    expect_one(rt, plan, within, label);
    let plan = plan_of::<Span<40>>(alloc, study, networks)?;
    expect_one(rt, plan, written, label);
    Ok(())
}

#[test]
fn cleared_within_the_tolerance(rt: HostRuntime) -> Result<(), Fail> {
    for (text, within, label) in [
        (WIDE, Kind::Cleared, "up to 11 of 20 ohms"),
        (TENTH, Kind::Undecided, "up to 11 of 10.5 ohms"),
        (TWENTIETH, Kind::Cleared, "up to 10.5 of 10.6 ohms"),
    ] {
        let study = read_study(rt.alloc(), text.as_bytes())?;
        let networks = study_networks(rt.alloc(), &study)?;
        if study.scale != 40 {
            return Err("another scale".into());
        }
        expect_both(
            &rt,
            rt.alloc(),
            &study,
            &networks,
            within,
            Kind::Cleared,
            label,
        )?;
    }
    Ok(())
}
