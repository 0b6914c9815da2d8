// The report on the distortion of a study by a spectrum.
ghost use Rattle.std.specs.Prelude.{◌≡◌, ◌<◌, ◌^◌, length, IfOk, OnOk};
ghost use Rattle.std.specs.List.{AllByRecursion, list_any};
ghost use Rattle.study_networks.specs.Networks.{AreNetworksOf};
ghost use Rattle.study_model.specs.Lawful.{IsLawful};
ghost use Rattle.spectrum_reader.specs.Lawful.{IsLawfulSpectrum};
ghost use Rattle.scan_report.specs.Rows.{fields_of, HaveText};
ghost use Rattle.limits_report.specs.Report.{passes, fails, is_undecided, has_verdict, count_of, counts_row, status_of, closed, limits_rows_of, limits_status};
ghost use Rattle.limits_report.specs.Claim.{HoldsOfLimits};

use crate::keep::keep;
use crate::sections::body_rows;
use crate::table::table_of;
use complex_interval::{Enclosure, Span};
use ieee519_limits::Verdict;
use scan_report::Row;
use spectrum_reader::{Levels, Spectrum};
use sqlite_items::Items;
use std::alloc::{AllocError, Global};
use study_model::Study;
use study_networks::StudyNetworks;

/// The rows of a report on distortion, and its status: 3 where some verdict is fail, else 4 where some is undecided, else 0.
#[derive(Drop)]
pub struct LimitsReport {
    pub rows: Items<Row>,
    pub status: u8,
}

#[tactic(auto, unfolding(crate::specs::Report::has_verdict))]
fn passes(row: &Row) -> bool
    ensures { result ≡ has_verdict passes row.now }
{
    match row {
        Row::Voltage { verdict, .. }
        | Row::Thd { verdict, .. }
        | Row::Current { verdict, .. }
        | Row::Tdd { verdict, .. } => matches!(verdict, Verdict::Pass),
        _ => false,
    }
}

#[tactic(auto, unfolding(crate::specs::Report::has_verdict))]
fn fails(row: &Row) -> bool
    ensures { result ≡ has_verdict fails row.now }
{
    match row {
        Row::Voltage { verdict, .. }
        | Row::Thd { verdict, .. }
        | Row::Current { verdict, .. }
        | Row::Tdd { verdict, .. } => matches!(verdict, Verdict::Fail),
        _ => false,
    }
}

#[tactic(auto, unfolding(crate::specs::Report::has_verdict))]
fn is_undecided(row: &Row) -> bool
    ensures { result ≡ has_verdict is_undecided row.now }
{
    match row {
        Row::Voltage { verdict, .. }
        | Row::Thd { verdict, .. }
        | Row::Current { verdict, .. }
        | Row::Tdd { verdict, .. } => matches!(verdict, Verdict::Undecided),
        _ => false,
    }
}

fn count_passes(rows: &[Row]) -> u32
    requires { length rows.now < 2 ^ 32 }
    ensures { result ≡ count_of passes rows.now }
{
    let mut count = 0;
    for row in rows {
        if passes(row) {
            count += 1;
        }
    }
    count
}

fn count_fails(rows: &[Row]) -> u32
    requires { length rows.now < 2 ^ 32 }
    ensures { result ≡ count_of fails rows.now }
{
    let mut count = 0;
    for row in rows {
        if fails(row) {
            count += 1;
        }
    }
    count
}

fn count_undecided(rows: &[Row]) -> u32
    requires { length rows.now < 2 ^ 32 }
    ensures { result ≡ count_of is_undecided rows.now }
{
    let mut count = 0;
    for row in rows {
        if is_undecided(row) {
            count += 1;
        }
    }
    count
}

/// The row that counts the verdicts.
fn counts_row(rows: &[Row]) -> Row
    requires { length rows.now < 2 ^ 32 }
    ensures { result ≡ counts_row rows.now }
{
    Row::LimitsSummary {
        passes: count_passes(rows),
        fails: count_fails(rows),
        undecided: count_undecided(rows),
    }
}

fn some_fails(rows: &[Row]) -> bool
    ensures { result ≡ list_any (has_verdict fails) rows.now }
{
    rows.iter().any(|row| fails(row))
}

fn some_are_undecided(rows: &[Row]) -> bool
    ensures { result ≡ list_any (has_verdict is_undecided) rows.now }
{
    rows.iter().any(|row| is_undecided(row))
}

fn status_of(rows: &[Row]) -> u8
    ensures { result ≡ status_of rows.now }
{
    if some_fails(rows) {
        3
    } else if some_are_undecided(rows) {
        4
    } else {
        0
    }
}

/// The report of these rows: with the row of their counts, and the last row.
fn closed(mut rows: Items<Row>) -> Result<LimitsReport, AllocError>
    requires { length rows < 2 ^ 32 }
    ensures rows { IfOk result (λ report. report.rows ≡ closed rows) }
    ensures status { IfOk result (λ report. report.status ≡ status_of rows) }
{
    let status = status_of(rows.as_slice());
    let counts = counts_row(rows.as_slice());
    keep::<Row>(&mut rows, counts)?;
    let end = Row::End {
        status: u32::from(status),
    };
    keep::<Row>(&mut rows, end)?;
    Ok(LimitsReport { rows, status })
}

/// The report at the scale of a study.
#[tactic(auto, unfolding(crate::specs::Report::limits_rows_of, crate::specs::Report::limits_status), using(crate::proofs::Lengths::few_rows))]
fn report_at<E: Enclosure>(
    alloc: Global,
    study: &Study,
    networks: &StudyNetworks,
    spectrum: &Spectrum,
    levels: &Levels,
) -> Result<LimitsReport, AllocError>
    requires study { IsLawful study.now }
    requires networks { AreNetworksOf study.now networks.now }
    requires spectrum { IsLawfulSpectrum study.now spectrum.now.rows }
    requires scale { E.SCALE ≡ study.now.scale }
    ensures rows { IfOk result (λ report. report.rows ≡ limits_rows_of study.now spectrum.now.rows levels.now.rows) }
    ensures status { IfOk result (λ report. report.status ≡ limits_status study.now spectrum.now.rows levels.now.rows) }
    ensures claim { OnOk result (HoldsOfLimits study.now spectrum.now.rows levels.now.rows) }
{
    let table = table_of::<E>(alloc, study, networks, spectrum)?;
    let rows = body_rows(alloc, study, levels, table.as_slice())?;
    closed(rows)
}

/// The rows of the report on the distortion that a spectrum causes in a study, at the study's scale, beside planning levels (no rows where there
/// are none), and its status. Voltage rows stand by ascending order, then bus, then phase; then the total distortion by bus and phase; then for each
/// point of common coupling its currents by order and phase, and their total demand distortion by phase; the counts of verdicts; the last row. The
/// sequence model has one row where that of three phases has three. A node that isn't live in the network that an order sees has no row of that order.
/// An order that injects at such a node has no solution: its rows have no bounds. Conditions: the study is accepted, the networks are its networks, and
/// the spectrum is one beside it. (This project's own; limits after IEEE Std 519-2022.)
#[tactic(auto, using(crate::proofs::Texts::have_text))]
pub fn limits_rows(
    alloc: Global,
    study: &Study,
    networks: &StudyNetworks,
    spectrum: &Spectrum,
    levels: &Levels,
) -> Result<LimitsReport, AllocError>
    requires study { IsLawful study.now }
    requires networks { AreNetworksOf study.now networks.now }
    requires spectrum { IsLawfulSpectrum study.now spectrum.now.rows }
    ensures rows { IfOk result (λ report. report.rows ≡ limits_rows_of study.now spectrum.now.rows levels.now.rows) }
    ensures status { IfOk result (λ report. report.status ≡ limits_status study.now spectrum.now.rows levels.now.rows) }
    ensures text { IfOk result (λ report. AllByRecursion (λ row. HaveText (fields_of row)) report.rows) }
    ensures claim { OnOk result (HoldsOfLimits study.now spectrum.now.rows levels.now.rows) }
{
    if study.scale == 40 {
        report_at::<Span<40>>(alloc, study, networks, spectrum, levels)
    } else {
        report_at::<Span<48>>(alloc, study, networks, spectrum, levels)
    }
}
