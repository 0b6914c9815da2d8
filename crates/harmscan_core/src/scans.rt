// The reports of `scan` and `tolerance`: all walks are made before the first line is put.
ghost use Rattle.std.specs.Prelude.{◌≡◌, length, IfOk};
ghost use Rattle.harm_io.specs.Sinks.{Writes};
ghost use Rattle.study_model.specs.Lawful.{IsLawful};
ghost use Rattle.study_networks.specs.Networks.{AreNetworksOf};
ghost use Rattle.harmscan_core.specs.Outcome.{Reports};
ghost use Rattle.harmscan_core.specs.Plans.{AreReady, plan_status};
ghost use Rattle.harmscan_core.specs.Subject.{scanned, within_tolerances};
ghost use Rattle.harmscan_core.specs.Texts.{whole_text, entries_text, tolerant_text};

use crate::outcome::{Outcome, after_put};
use crate::report::{put_line, put_plan};
use complex_interval::{Enclosure, Span};
use harm_io::{PutFault, Sink};
use scan_report::{LineBuf, Row, tolerance_row};
use std::alloc::Global;
use std::collections::VecDeque;
use study_model::Study;
use study_networks::StudyNetworks;
use study_scans::{PlannedScan, plan_of};
use tolerance_scan::tolerance_plan;

/// Puts the report of a study by the plan of its scans, and answers the status.
fn put_report<E: Enclosure, O: Sink>(
    study: &Study,
    plan: &mut VecDeque<PlannedScan<E>>,
    out: &mut O,
) -> Result<u8, PutFault>
    requires study { IsLawful study.now }
    requires plan { AreReady study.now plan.old.items }
    ensures wrote { Writes (whole_text study.now plan.old.items) (O.state out.old) (O.state out.new) result }
    ensures status { IfOk result (λ s. s ≡ plan_status plan.old.items) }
{
    let mut line = LineBuf::new();
    put_plan(study, plan, &mut line, out)
}

/// The report of a study at its scale.
#[tactic(auto, using(crate::proofs::Written::not_reported))]
fn report_scans_at<E: Enclosure, O: Sink>(
    alloc: Global,
    study: &Study,
    networks: &StudyNetworks,
    out: &mut O,
) -> Outcome
    requires study { IsLawful study.now }
    requires networks { AreNetworksOf study.now networks.now }
    requires scale { E.SCALE ≡ study.now.scale }
    ensures { Reports (scanned study.now) (O.state out.old) (O.state out.new) result }
{
    match plan_of::<E>(alloc, study, networks) {
        Err(_) => Outcome::NoMemory,
        Ok(mut plan) => match put_report(study, &mut plan, out) {
            Ok(status) => Outcome::Written(status),
            Err(fault) => after_put(fault),
        },
    }
}

/// The report of a study.
pub fn report_scans<O: Sink>(
    alloc: Global,
    study: &Study,
    networks: &StudyNetworks,
    out: &mut O,
) -> Outcome
    requires study { IsLawful study.now }
    requires networks { AreNetworksOf study.now networks.now }
    ensures { Reports (scanned study.now) (O.state out.old) (O.state out.new) result }
{
    if study.scale == 40 {
        report_scans_at::<Span<40>, O>(alloc, study, networks, out)
    } else {
        report_scans_at::<Span<48>, O>(alloc, study, networks, out)
    }
}

/// Puts the first row of a report within so many tolerances.
#[tactic(auto, unfolding(crate::specs::Texts::entries_text))]
fn put_entries<O: Sink>(entries: u32, line: &mut LineBuf, out: &mut O) -> Result<(), PutFault>
    ensures { Writes (entries_text entries) (O.state out.old) (O.state out.new) result }
{
    tolerance_row(&Row::Tolerance { entries }, line);
    put_line(out, line)
}

/// Puts the report of a study within its tolerances by the plan of its scans, and answers the status.
#[tactic(auto, unfolding(crate::specs::Texts::tolerant_text), using(harm_io::proofs::Writing::second_piece))]
fn put_tolerance<E: Enclosure, O: Sink>(
    study: &Study,
    plan: &mut VecDeque<PlannedScan<E>>,
    out: &mut O,
) -> Result<u8, PutFault>
    requires study { IsLawful study.now }
    requires plan { AreReady study.now plan.old.items }
    ensures wrote { Writes (tolerant_text study.now plan.old.items) (O.state out.old) (O.state out.new) result }
    ensures status { IfOk result (λ s. s ≡ plan_status plan.old.items) }
{
    let mut line = LineBuf::new();
    let entries = study.tolerances.as_slice().len() as u32;
    match put_entries(entries, &mut line, out) {
        Ok(()) => put_plan(study, plan, &mut line, out),
        Err(fault) => Err(fault),
    }
}

/// The report of a study within its tolerances at its scale.
#[tactic(auto, using(crate::proofs::Tolerances::not_reported))]
fn report_tolerance_at<E: Enclosure, O: Sink>(
    alloc: Global,
    study: &Study,
    networks: &StudyNetworks,
    out: &mut O,
) -> Outcome
    requires study { IsLawful study.now }
    requires networks { AreNetworksOf study.now networks.now }
    requires scale { E.SCALE ≡ study.now.scale }
    ensures { Reports (within_tolerances study.now) (O.state out.old) (O.state out.new) result }
{
    match tolerance_plan::<E>(alloc, study, networks) {
        Err(_) => Outcome::NoMemory,
        Ok(mut plan) => match put_tolerance(study, &mut plan, out) {
            Ok(status) => Outcome::Written(status),
            Err(fault) => after_put(fault),
        },
    }
}

/// The report of a study for all values within its tolerances.
pub fn report_tolerance<O: Sink>(
    alloc: Global,
    study: &Study,
    networks: &StudyNetworks,
    out: &mut O,
) -> Outcome
    requires study { IsLawful study.now }
    requires networks { AreNetworksOf study.now networks.now }
    ensures { Reports (within_tolerances study.now) (O.state out.old) (O.state out.new) result }
{
    if study.scale == 40 {
        report_tolerance_at::<Span<40>, O>(alloc, study, networks, out)
    } else {
        report_tolerance_at::<Span<48>, O>(alloc, study, networks, out)
    }
}
