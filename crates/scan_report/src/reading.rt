// Reports read back: a text is read as a row, whatever stands in it, and is that row where it is the row's own text.
ghost use Rattle.std.specs.Prelude.{◌≡◌, ◌≢◌, ◌<◌, ◌^◌, ◌↔◌, IsTrue, IfOk, IfErr, OnOk, IfSome, IfNone, ℕ, List, [], ◌∷◌, ◌++◌, length, MatchOption};
ghost use Rattle.scan_report.specs.Rows.{row_text};
ghost use Rattle.scan_report.specs.Reading.{ended, MayStand, IsRow, IsReport, BadLine, NoReportIsBad, stage_after};
ghost use Rattle.scan_report.specs.Stands.{stage_of, BeginsText, BeginsWith, BeginsWithNone};

use crate::line::LineBuf;
use crate::loose::row_of;
use crate::rows::{Row, write_row};
use sqlite_items::Items;
use std::alloc::Global;
use thiserror::Error;

/// The rows of a report.
#[derive(Drop)]
pub struct Report {
    pub rows: Items<Row>,
}

/// Why a text is no report.
#[derive(Clone, Copy, Debug, PartialEq, Eq, Error)]
pub enum ReportFault {
    /// This line, from 1 on, is no row that may stand there.
    #[error("line {0} is not a row that may stand there")]
    BadRow(u32),
    #[error("no memory for the rows of the report")]
    NoMemory,
}

/// Where a reader stands.
#[derive(Clone, Copy)]
enum Stand {
    Between,
    Within,
    Ended,
}

/// A row and the length of its text.
#[derive(Clone, Copy)]
struct Found {
    row: Row,
    len: usize,
}

fn may_stand(stand: Stand, row: &Row) -> bool
    ensures { IsTrue result ↔ MayStand (stage_of stand) row.now }
{
    match (stand, row) {
        (Stand::Between, Row::Scan { .. } | Row::End { .. }) => true,
        (Stand::Within, Row::BoxLine { .. } | Row::Region { .. } | Row::Summary { .. }) => true,
        _ => false,
    }
}

fn stand_after(row: &Row) -> Stand
    ensures { stage_of result ≡ stage_after row.now }
{
    match row {
        Row::Summary { .. } => Stand::Between,
        Row::End { .. } => Stand::Ended,
        _ => Stand::Within,
    }
}

/// The length of a row's text, where a text begins with it.
fn text_len(text: &[u8], row: &Row) -> Option<usize>
    requires { IsRow row.now }
    ensures { MatchOption result ((after : List ℕ) → ¬ (text.now ≡ row_text row.now ++ after)) (λ len. BeginsText text.now (row_text row.now) len) }
{
    let mut line = LineBuf::new();
    write_row(row, &mut line);
    let own = line.as_bytes();
    if text.starts_with(own) {
        Some(own.len())
    } else {
        None
    }
}

/// The row that a text begins with, if it begins with one that may stand there.
fn read_row(stand: Stand, text: &[u8]) -> Option<Found>
    ensures none { IfNone result (BeginsWithNone (stage_of stand) text.now) }
    ensures some { IfSome result (λ found. BeginsWith (stage_of stand) text.now found.row found.len) }
{
    let row = row_of(text);
    if !may_stand(stand, &row) {
        return None;
    }
    match text_len(text, &row) {
        Some(len) => Some(Found { row, len }),
        None => None,
    }
}

/// Whether a report is at its end.
fn is_done(stand: Stand, rest: &[u8]) -> bool
    ensures { IsTrue result ↔ ((stage_of stand ≡ ended) × (rest.now ≡ [])) }
{
    matches!(stand, Stand::Ended) && rest.is_empty()
}

/// Keeps an item behind those before.
fn keep<T: Copy>(items: &mut Items<T>, item: T) -> Result<(), ReportFault>
    ensures kept { OnOk result (items.new ≡ items.old ++ item ∷ []) }
    ensures memory { IfErr result (λ fault. fault ≡ ReportFault.NoMemory) }
{
    if items.push(item).is_err() {
        return Err(ReportFault::NoMemory);
    }
    Ok(())
}

/// The rows of a report, from its bytes. `BadRow` with the number, from 1, of the first line that is no row which may stand there, or of the line
/// past the last one where the last row of a report is absent. A line that differs in one byte from a row's own text, as by a leading zero,
/// a quote or a carriage return, is no row.
pub fn read_report(alloc: Global, bytes: &[u8]) -> Result<Report, ReportFault>
    requires { length bytes.now < 2 ^ 32 }
    ensures read { IfOk result (λ report. IsReport bytes.now report.rows) }
    ensures refused { IfErr result (λ fault. fault ≢ ReportFault.NoMemory → BadLine bytes.now fault) }
{
    let mut rows = Items::new(alloc);
    let mut place = 0;
    let mut stand = Stand::Between;
    'rows: loop {
        if is_done(stand, &bytes[place..]) {
            return Ok(Report { rows });
        }
        let Some(found) = read_row(stand, &bytes[place..]) else {
            return Err(ReportFault::BadRow(rows.len() as u32 + 1));
        };
        stand = stand_after(&found.row);
        place += found.len;
        keep::<Row>(&mut rows, found.row)?;
    }
}

/// Bytes that are a report have no bad line.
pub fn no_report_is_bad()
    ensures law { NoReportIsBad }
{}
