// The rows of an entry: its scan, its sizes, and the first safe one.
ghost use Rattle.std.specs.Prelude.{◌≡◌, ◌+◌, ◌<◌, ◌^◌, ◌++◌, length, OnOk};
ghost use Rattle.std.specs.List.{AllByRecursion, flat_map};
ghost use Rattle.study_model.specs.Lawful.{IsLawfulScan};
ghost use Rattle.candidates_report.specs.Entries.{IsLawfulEntry};
ghost use Rattle.candidates_report.specs.Rows.{candidate_row, size_row, size_rows, first_row, entry_rows};

use crate::entry::Entry;
use crate::first::first_safe;
use crate::keep::keep;
use scan_report::Row;
use sqlite_items::Items;
use std::alloc::AllocError;
use study_model::{ScanItem, Study};
use study_scans::spec_of;
use study_variants::SizeRow;

/// The first row of a candidate of a scan.
fn candidate_row(study: &Study, scan: &ScanItem) -> Row
    requires { IsLawfulScan study.now.version study.now.model study.now.buses scan.now }
    ensures { result ≡ candidate_row study.now scan.now }
{
    let asked = spec_of(study, scan);
    Row::Candidate {
        name: scan.name,
        bus: study.buses.as_slice()[scan.bus as usize].name,
        from: asked.from,
        to: asked.to,
        threshold: scan.threshold,
    }
}

/// The row of a size, by its number.
fn size_row(number: u32, row: &SizeRow) -> Row
    ensures { result ≡ size_row number row.now }
{
    Row::Size {
        number,
        size: row.size,
        cleared: row.cleared,
        peaks: row.peaks,
        undecided: row.undecided,
    }
}

/// Puts the rows of sizes that are numbered from here.
fn push_sizes(number: u32, sizes: &[SizeRow], rows: &mut Items<Row>) -> Result<(), AllocError>
    requires { number + length sizes.now < 2 ^ 32 }
    ensures { OnOk result (rows.new ≡ rows.old ++ size_rows number sizes.now) }
{
    match sizes {
        [] => Ok(()),
        [row, rest @ ..] => {
            keep::<Row>(rows, size_row(number, row))?;
            push_sizes(number + 1, rest, rows)
        }
    }
}

/// Puts the rows of an entry.
fn push_entry(study: &Study, entry: &Entry, rows: &mut Items<Row>) -> Result<(), AllocError>
    requires { IsLawfulEntry study.now entry.now }
    ensures { OnOk result (rows.new ≡ rows.old ++ entry_rows study.now entry.now) }
{
    keep::<Row>(rows, candidate_row(study, &entry.scan))?;
    push_sizes(1, entry.sizes.as_slice(), rows)?;
    let first = Row::First {
        name: entry.scan.name,
        size: first_safe(entry.sizes.as_slice()),
    };
    keep::<Row>(rows, first)
}

/// Puts the rows of entries.
pub(crate) fn push_rows(
    study: &Study,
    entries: &[Entry],
    rows: &mut Items<Row>,
) -> Result<(), AllocError>
    requires { AllByRecursion (IsLawfulEntry study.now) entries.now }
    ensures { OnOk result (rows.new ≡ rows.old ++ flat_map (entry_rows study.now) entries.now) }
{
    match entries {
        [] => Ok(()),
        [entry, rest @ ..] => {
            push_entry(study, entry, rows)?;
            push_rows(study, rest, rows)
        }
    }
}
