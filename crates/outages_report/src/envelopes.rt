// The envelopes of scans: their cases over all outages, counted.
ghost use Rattle.std.specs.Prelude.{◌≡◌, ◌+◌, ◌<◌, ◌^◌, ◌++◌, length, count_by, slice_get, IfOk, OnOk};
ghost use Rattle.outages_report.specs.Cases.{is_peak_case, is_undecided_case, is_cleared_case};
ghost use Rattle.outages_report.specs.Envelopes.{envelope_over, case_at, column_of, envelopes_from};

use crate::case::Case;
use crate::keep::keep;
use crate::table::OutageCases;
use scan_report::Row;
use sqlite_items::Items;
use std::alloc::{AllocError, Global};
use study_model::{Name, ScanItem};

/// Whether some box of a case is a peak.
pub(crate) fn is_peak_case(case: &Case) -> bool
    ensures { result ≡ is_peak_case case.now }
{
    case.counts.peaks > 0
}

/// Whether no box of a case is a peak, and some is undecided.
pub(crate) fn is_undecided_case(case: &Case) -> bool
    ensures { result ≡ is_undecided_case case.now }
{
    !is_peak_case(case) && case.counts.undecided > 0
}

/// Whether no box of a case is a peak or undecided.
fn is_cleared_case(case: &Case) -> bool
    ensures { result ≡ is_cleared_case case.now }
{
    !is_peak_case(case) && case.counts.undecided == 0
}

fn count_peaks(cases: &[Case]) -> u32
    requires { length cases.now < 2 ^ 32 }
    ensures { result ≡ count_by is_peak_case cases.now }
{
    let mut count = 0;
    for case in cases {
        if is_peak_case(case) {
            count += 1;
        }
    }
    count
}

fn count_undecided(cases: &[Case]) -> u32
    requires { length cases.now < 2 ^ 32 }
    ensures { result ≡ count_by is_undecided_case cases.now }
{
    let mut count = 0;
    for case in cases {
        if is_undecided_case(case) {
            count += 1;
        }
    }
    count
}

fn count_cleared(cases: &[Case]) -> u32
    requires { length cases.now < 2 ^ 32 }
    ensures { result ≡ count_by is_cleared_case cases.now }
{
    let mut count = 0;
    for case in cases {
        if is_cleared_case(case) {
            count += 1;
        }
    }
    count
}

/// The row of a scan of this name that has these cases.
fn envelope_over(name: Name, cases: &[Case]) -> Row
    requires { length cases.now < 2 ^ 32 }
    ensures { result ≡ envelope_over name cases.now }
{
    Row::Envelope {
        name,
        cases: cases.len() as u32,
        cleared: count_cleared(cases),
        peaks: count_peaks(cases),
        undecided: count_undecided(cases),
    }
}

/// Puts the case of the scan of a number, from 0, where there is one.
fn push_case(cases: &[Case], place: usize, column: &mut Items<Case>) -> Result<(), AllocError>
    ensures { OnOk result (column.new ≡ column.old ++ case_at (slice_get cases.now place)) }
{
    match cases.get(place) {
        Some(case) => keep::<Case>(column, *case),
        None => Ok(()),
    }
}

/// Puts the cases of the scan of a number, over all outages.
fn push_column(
    table: &[OutageCases],
    place: usize,
    column: &mut Items<Case>,
) -> Result<(), AllocError>
    ensures { OnOk result (column.new ≡ column.old ++ column_of place table.now) }
{
    match table {
        [] => Ok(()),
        [found, rest @ ..] => {
            push_case(found.cases.as_slice(), place, column)?;
            push_column(rest, place, column)
        }
    }
}

/// The row of the scan of a number.
fn envelope_at(
    alloc: Global,
    table: &[OutageCases],
    place: usize,
    name: Name,
) -> Result<Row, AllocError>
    requires { length table.now < 2 ^ 32 }
    ensures { IfOk result (λ row. row ≡ envelope_over name (column_of place table.now)) }
{
    let mut column = Items::new(alloc);
    push_column(table, place, &mut column)?;
    Ok(envelope_over(name, column.as_slice()))
}

/// Puts the rows of scans that are numbered from here.
pub(crate) fn push_envelopes(
    alloc: Global,
    table: &[OutageCases],
    place: usize,
    scans: &[ScanItem],
    rows: &mut Items<Row>,
) -> Result<(), AllocError>
    requires table { length table.now < 2 ^ 32 }
    requires scans { place + length scans.now < 2 ^ 32 }
    ensures { OnOk result (rows.new ≡ rows.old ++ envelopes_from table.now place scans.now) }
{
    match scans {
        [] => Ok(()),
        [scan, rest @ ..] => {
            keep::<Row>(rows, envelope_at(alloc, table, place, scan.name)?)?;
            push_envelopes(alloc, table, place + 1, rest, rows)
        }
    }
}
