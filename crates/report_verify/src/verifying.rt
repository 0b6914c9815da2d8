// A yes for a report, or its first line that isn't right.
ghost use Rattle.std.specs.Prelude.{◌≡◌, ◌≢◌, ◌≤◌, drop, length, unsigned_abs, Some, None, Ok, Err, IfOk, IfErr, IfSome, IfNone, OnOk};
ghost use Rattle.report_verify.specs.Told.{told_at};
ghost use Rattle.report_verify.specs.Checks.{checking_of, scan_check};
ghost use Rattle.std.specs.List.{AllByRecursion};
ghost use Rattle.scan_report.specs.Reading.{between, ended, IsRow, IsInOrder};
ghost use Rattle.study_model.specs.Lawful.{IsLawful, IsLawfulScan};
ghost use Rattle.study_networks.specs.Networks.{AreNetworksOf};
ghost use Rattle.report_verify.specs.Claim.{HoldsOfReport};
ghost use Rattle.report_verify.specs.FirstFault.{first_fault, last_check, is_scan_row, is_box_row, counted_by, HasPassed, HasFailed};

use crate::checker::checker_of;
use crate::fault::VerifyFault;
use crate::lines::is_line;
use crate::scans::{Ended, check_scan};
use crate::told::next_line;
use complex_interval::{Enclosure, Span};
use scan_report::{Report, Row};
use std::alloc::Global;
use study_model::{ScanItem, Study};
use study_networks::StudyNetworks;
use study_scans::{Found, head_row};

/// A report that is right of a study: how many scans and how many boxes it has.
#[derive(Clone, Copy, Debug, PartialEq, Eq)]
pub struct Verified {
    pub scans: u32,
    pub boxes: u32,
}

fn is_scan_row(row: &Row) -> bool
    ensures { result ≡ is_scan_row row.now }
{
    matches!(row, Row::Scan { .. })
}

fn is_box_row(row: &Row) -> bool
    ensures { result ≡ is_box_row row.now }
{
    matches!(row, Row::BoxLine { .. })
}

/// How many scans a report has, in 32 bits.
fn scans_in(rows: &[Row]) -> u32
    ensures { result ≡ counted_by is_scan_row rows.now }
{
    let count = rows.iter().filter(|row| is_scan_row(row)).count();
    count.min(4_294_967_295) as u32
}

/// How many boxes a report has, in 32 bits.
fn boxes_in(rows: &[Row]) -> u32
    ensures { result ≡ counted_by is_box_row rows.now }
{
    let count = rows.iter().filter(|row| is_box_row(row)).count();
    count.min(4_294_967_295) as u32
}

/// The fault of a report's last row, after all scans, if it has one.
fn last_fault(found: Found, line: u32, row: &Row) -> Option<VerifyFault>
    requires { IsRow row.now }
    ensures { result ≡ last_check found line row.now }
{
    if is_scan_row(row) {
        return Some(VerifyFault::WrongScan(line));
    }
    let wanted = Row::End {
        status: u32::from(found.status()),
    };
    if is_line(row, &wanted) {
        None
    } else {
        Some(VerifyFault::WrongCount(line))
    }
}

/// The lines of a scan from its second on: how they end, or the fault of the first of them whose check fails, or want of memory.
#[tactic(auto, using(crate::proofs::Steps::checked_as))]
fn check_lines<E: Enclosure>(
    alloc: Global,
    study: &Study,
    networks: &StudyNetworks,
    scan: &ScanItem,
    first: u32,
    rows: &[Row],
) -> Result<Ended, VerifyFault>
    requires study { IsLawful study.now }
    requires networks { AreNetworksOf study.now networks.now }
    requires scan { IsLawfulScan study.now.version study.now.model study.now.buses scan.now }
    requires scale { E.SCALE ≡ study.now.scale }
    requires rows { AllByRecursion IsRow rows.now }
    ensures passed { IfOk result (λ ended. scan_check (checking_of study.now scan.now) (told_at (unsigned_abs scan.now.from)) first rows.now
        ≡ Ok (record { counts = ended.counts; next = ended.next; rest = drop ended.lines rows.now })) }
    ensures failed { IfErr result (λ fault. fault ≢ VerifyFault.NoMemory
        → scan_check (checking_of study.now scan.now) (told_at (unsigned_abs scan.now.from)) first rows.now ≡ Err fault) }
    ensures within { IfOk result (λ ended. ended.lines ≤ length rows.now) }
{
    match checker_of::<E>(alloc, study, networks, scan) {
        Ok(mut checker) => check_scan(&mut checker, first, rows),
        Err(_) => Err(VerifyFault::NoMemory),
    }
}

/// The first row of a scan and its lines: how they end, or the fault of the first of them whose check fails, or want of memory.
#[tactic(auto, using(crate::proofs::Steps::no_rows, crate::proofs::Steps::wrong_at, crate::proofs::Steps::fails_at, crate::proofs::Steps::passes_at))]
fn check_next<E: Enclosure>(
    alloc: Global,
    study: &Study,
    networks: &StudyNetworks,
    scan: &ScanItem,
    line: u32,
    rows: &[Row],
) -> Result<Ended, VerifyFault>
    requires study { IsLawful study.now }
    requires networks { AreNetworksOf study.now networks.now }
    requires scan { IsLawfulScan study.now.version study.now.model study.now.buses scan.now }
    requires scale { E.SCALE ≡ study.now.scale }
    requires rows { AllByRecursion IsRow rows.now }
    ensures passed { IfOk result (λ ended. HasPassed study.now scan.now line rows.now ended) }
    ensures failed { IfErr result (λ fault. fault ≢ VerifyFault.NoMemory → HasFailed study.now scan.now line rows.now fault) }
    ensures within { IfOk result (λ ended. ended.lines ≤ length rows.now) }
{
    let [head, lines @ ..] = rows else {
        return Err(VerifyFault::WrongScan(line));
    };
    if !is_line(head, &head_row(study, scan)) {
        return Err(VerifyFault::WrongScan(line));
    }
    match check_lines::<E>(alloc, study, networks, scan, next_line(line), lines) {
        Ok(ended) => Ok(Ended {
            counts: ended.counts,
            lines: ended.lines + 1,
            next: ended.next,
        }),
        Err(fault) => Err(fault),
    }
}

/// The fault of the first line whose check fails, if there is one, or want of memory, at the scale of the enclosures.
#[tactic(auto, using(crate::proofs::Steps::standing_start, crate::proofs::Steps::standing_next, crate::proofs::Steps::standing_stop, crate::proofs::Steps::standing_last, crate::proofs::Steps::standing_none, crate::proofs::Steps::rows_from, crate::proofs::Steps::row_at))]
fn fault_by<E: Enclosure>(
    alloc: Global,
    study: &Study,
    networks: &StudyNetworks,
    rows: &[Row],
) -> Option<VerifyFault>
    requires study { IsLawful study.now }
    requires networks { AreNetworksOf study.now networks.now }
    requires scale { E.SCALE ≡ study.now.scale }
    requires rows { AllByRecursion IsRow rows.now }
    ensures none { IfNone result (first_fault study.now rows.now ≡ None) }
    ensures first { IfSome result (λ fault. fault ≢ VerifyFault.NoMemory → first_fault study.now rows.now ≡ Some fault) }
{
    let mut found = Found::NOTHING;
    let mut line = 1;
    let mut place = 0;
    for scan in study.scans.as_slice() {
        match check_next::<E>(alloc, study, networks, scan, line, &rows[place..]) {
            Ok(ended) => {
                found = found.and(ended.counts);
                line = ended.next;
                place += ended.lines;
            }
            Err(fault) => return Some(fault),
        }
    }
    match rows.get(place) {
        Some(last) => last_fault(found, line, last),
        None => Some(VerifyFault::WrongScan(line)),
    }
}

/// The fault of the first line whose check fails, if there is one, or want of memory.
fn fault_of(
    alloc: Global,
    study: &Study,
    networks: &StudyNetworks,
    rows: &[Row],
) -> Option<VerifyFault>
    requires study { IsLawful study.now }
    requires networks { AreNetworksOf study.now networks.now }
    requires rows { AllByRecursion IsRow rows.now }
    ensures none { IfNone result (first_fault study.now rows.now ≡ None) }
    ensures first { IfSome result (λ fault. fault ≢ VerifyFault.NoMemory → first_fault study.now rows.now ≡ Some fault) }
{
    if study.scale == 40 {
        fault_by::<Span<40>>(alloc, study, networks, rows)
    } else {
        fault_by::<Span<48>>(alloc, study, networks, rows)
    }
}

/// Whether a report is right of a study, wherever the report comes from, by one test of each box; the fault is the first line's whose check
/// fails. The checks of a line are, in this order: of a scan's first row, and of the last row where the study has a further scan, that it is
/// that of the study's next scan; of a box, its place in the band, what it says, and its number; of a region, a summary and the last row, that
/// they are what the lines before them give, a summary only where its boxes reach the end of the band. A region's row stands right after the
/// last of its boxes. A true row that the test can't show is refused. It takes memory for the tests alone. (This project's own.)
pub fn verify(
    alloc: Global,
    study: &Study,
    networks: &StudyNetworks,
    report: &Report,
) -> Result<Verified, VerifyFault>
    requires study { IsLawful study.now }
    requires networks { AreNetworksOf study.now networks.now }
    requires order { IsInOrder between report.now.rows ended }
    // No check fails, and the boxes are true of the study.
    ensures passed { OnOk result (first_fault study.now report.now.rows ≡ None) }
    ensures holds { OnOk result (HoldsOfReport study.now report.now.rows) }
    ensures scans { IfOk result (λ verified. verified.scans ≡ counted_by is_scan_row report.now.rows) }
    ensures boxes { IfOk result (λ verified. verified.boxes ≡ counted_by is_box_row report.now.rows) }
    // The fault is that of the first line whose check fails.
    ensures first { IfErr result (λ fault. fault ≢ VerifyFault.NoMemory → first_fault study.now report.now.rows ≡ Some fault) }
{
    let rows = report.rows.as_slice();
    match fault_of(alloc, study, networks, rows) {
        Some(fault) => Err(fault),
        None => Ok(Verified {
            scans: scans_in(rows),
            boxes: boxes_in(rows),
        }),
    }
}
