// The report on the outages of a study.
ghost use Rattle.std.specs.Prelude.{◌≡◌, ◌+◌, ◌<◌, ◌^◌, ◌++◌, ◌∷◌, ◌||◌, [], length, map, IfOk, OnOk};
ghost use Rattle.std.specs.List.{AllByRecursion, list_any};
ghost use Rattle.scan_report.specs.Rows.{fields_of, HaveText};
ghost use Rattle.scan_report.specs.declared.rows.Row.TheVariants as row;
ghost use Rattle.study_model.specs.Lawful.{IsLawful};
ghost use Rattle.study_networks.specs.Networks.{AreNetworksOf, HasLive};
ghost use Rattle.outages_report.specs.Cases.{is_peak_case, is_undecided_case, case_row};
ghost use Rattle.outages_report.specs.Claim.{HoldsOfOutages};
ghost use Rattle.outages_report.specs.Envelopes.{envelopes_from};
ghost use Rattle.outages_report.specs.Report.{outages_rows_of, outages_status};
ghost use Rattle.outages_report.specs.Table.{table_of, outage_rows, rows_from, status_of};

use crate::case::Case;
use crate::envelopes::{is_peak_case, is_undecided_case, push_envelopes};
use crate::keep::keep;
use crate::sequences::sequences_of;
use crate::table::{OutageCases, table_of};
use complex_interval::{Enclosure, Span};
use scan_report::Row;
use sqlite_items::Items;
use std::alloc::{AllocError, Global};
use study_model::Study;
use study_networks::StudyNetworks;
use study_scans::Summit;

/// The rows of a report on outages, and its status: 3 where an outage floats or some box of a case is a peak, else 4 where some box is
/// undecided, else 0.
#[derive(Drop)]
pub struct OutagesReport {
    pub rows: Items<Row>,
    pub status: u8,
}

/// The row of a case of the outage of a number.
fn case_row(number: u32, case: &Case) -> Row
    ensures { result ≡ case_row number case.now }
{
    let (at, micro_ohms) = match case.summit {
        Some(Summit { at, micro_ohms }) => (Some(at), Some(micro_ohms)),
        None => (None, None),
    };
    Row::Case {
        outage: number,
        name: case.name,
        boxes: case.counts.boxes,
        cleared: case.counts.cleared,
        peaks: case.counts.peaks,
        undecided: case.counts.undecided,
        at,
        micro_ohms,
    }
}

/// Puts the rows of cases.
fn push_case_rows(number: u32, cases: &[Case], rows: &mut Items<Row>) -> Result<(), AllocError>
    ensures { OnOk result (rows.new ≡ rows.old ++ map (case_row number) cases.now) }
{
    match cases {
        [] => Ok(()),
        [case, rest @ ..] => {
            keep::<Row>(rows, case_row(number, case))?;
            push_case_rows(number, rest, rows)
        }
    }
}

/// Puts the rows of an outage: its own, and those of its cases.
fn push_outage(number: u32, found: &OutageCases, rows: &mut Items<Row>) -> Result<(), AllocError>
    ensures { OnOk result (rows.new ≡ rows.old ++ outage_rows number found.now) }
{
    let row = Row::Outage {
        number,
        element: found.name,
        floating: found.floating,
    };
    keep::<Row>(rows, row)?;
    push_case_rows(number, found.cases.as_slice(), rows)
}

/// Puts the rows of outages that are numbered from here.
fn push_outages(number: u32, table: &[OutageCases], rows: &mut Items<Row>) -> Result<(), AllocError>
    requires { number + length table.now < 2 ^ 32 }
    ensures { OnOk result (rows.new ≡ rows.old ++ rows_from number table.now) }
{
    match table {
        [] => Ok(()),
        [found, rest @ ..] => {
            push_outage(number, found, rows)?;
            push_outages(number + 1, rest, rows)
        }
    }
}

fn some_peak(cases: &[Case]) -> bool
    ensures { result ≡ list_any is_peak_case cases.now }
{
    cases.iter().any(|case| is_peak_case(case))
}

fn some_undecided(cases: &[Case]) -> bool
    ensures { result ≡ list_any is_undecided_case cases.now }
{
    cases.iter().any(|case| is_undecided_case(case))
}

fn is_bad(found: &OutageCases) -> bool
    ensures { result ≡ (found.now.floating || list_any is_peak_case found.now.cases) }
{
    found.floating || some_peak(found.cases.as_slice())
}

fn is_open(found: &OutageCases) -> bool
    ensures { result ≡ list_any is_undecided_case found.now.cases }
{
    some_undecided(found.cases.as_slice())
}

fn some_are_bad(table: &[OutageCases]) -> bool
    ensures { result ≡ list_any (λ found. found.floating || list_any is_peak_case found.cases) table.now }
{
    table.iter().any(|found| is_bad(found))
}

fn some_are_open(table: &[OutageCases]) -> bool
    ensures { result ≡ list_any (λ found. list_any is_undecided_case found.cases) table.now }
{
    table.iter().any(|found| is_open(found))
}

fn status_of(table: &[OutageCases]) -> u8
    ensures { result ≡ status_of table.now }
{
    if some_are_bad(table) {
        3
    } else if some_are_open(table) {
        4
    } else {
        0
    }
}

/// The report of what was found for the outages of a study.
#[tactic(auto, unfolding(crate::specs::Report::outages_rows_of, crate::specs::Report::outages_status), using(crate::proofs::Columns::few_outages, crate::proofs::Columns::envelopes_are))]
fn report_of(
    alloc: Global,
    study: &Study,
    table: &[OutageCases],
) -> Result<OutagesReport, AllocError>
    requires study { IsLawful study.now }
    requires table { table.now ≡ table_of study.now }
    ensures rows { IfOk result (λ report. report.rows ≡ outages_rows_of study.now) }
    ensures status { IfOk result (λ report. report.status ≡ outages_status study.now) }
{
    let status = status_of(table);
    let mut rows = Items::new(alloc);
    push_outages(1, table, &mut rows)?;
    push_envelopes(alloc, table, 0, study.scans.as_slice(), &mut rows)?;
    let end = Row::End {
        status: u32::from(status),
    };
    keep::<Row>(&mut rows, end)?;
    Ok(OutagesReport { rows, status })
}

/// The report at the scale of a study.
#[tactic(auto, using(crate::proofs::Rooms::have_room))]
fn report_at<E: Enclosure>(
    alloc: Global,
    study: &Study,
    networks: &StudyNetworks,
) -> Result<OutagesReport, AllocError>
    requires study { IsLawful study.now }
    requires networks { AreNetworksOf study.now networks.now }
    requires live { HasLive study.now }
    requires scale { E.SCALE ≡ study.now.scale }
    ensures rows { IfOk result (λ report. report.rows ≡ outages_rows_of study.now) }
    ensures status { IfOk result (λ report. report.status ≡ outages_status study.now) }
{
    let sequences = sequences_of(alloc, study)?;
    let table = table_of::<E>(alloc, study, networks, &sequences)?;
    report_of(alloc, study, table.as_slice())
}

/// The rows of the report on the outages of a study, at the study's scale, and its status. For each outage in order stands its row, and where it
/// doesn't float a row for each scan in order: the boxes of the scan in its network without the outage's element, how many are of each kind, and
/// the order and the bound in micro-ohms of the peak with the greatest bound, the first of them. An outage floats where, without its element, some
/// bus isn't live in the positive network, or in the zero network the bus of a scan of it isn't, in the model of three phases any bus. Then come the
/// envelopes of the scans, how many cases each has, and of each kind; the last row. Status 3 where an outage floats or a case has a peak, else 4
/// where a case has an undecided box, else 0. Conditions: the study is accepted, and the networks are its networks. (This project's own.)
#[tactic(auto, using(crate::proofs::Texts::have_text, crate::proofs::Claims::outages_hold))]
pub fn outages_rows(
    alloc: Global,
    study: &Study,
    networks: &StudyNetworks,
) -> Result<OutagesReport, AllocError>
    requires study { IsLawful study.now }
    requires networks { AreNetworksOf study.now networks.now }
    requires live { HasLive study.now }
    ensures rows { IfOk result (λ report. report.rows ≡ outages_rows_of study.now) }
    ensures status { IfOk result (λ report. report.status ≡ outages_status study.now) }
    ensures text { IfOk result (λ report. AllByRecursion (λ row. HaveText (fields_of row)) report.rows) }
    ensures holds { IfOk result (λ report. HoldsOfOutages study.now) }
{
    if study.scale == 40 {
        report_at::<Span<40>>(alloc, study, networks)
    } else {
        report_at::<Span<48>>(alloc, study, networks)
    }
}
