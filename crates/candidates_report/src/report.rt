// The report on the candidates of a study.
ghost use Rattle.std.specs.Prelude.{◌≡◌, IfOk};
ghost use Rattle.std.specs.List.{AllByRecursion, list_all, list_any};
ghost use Rattle.candidates_report.specs.First.{has_first, is_lost};
ghost use Rattle.study_model.specs.Lawful.{IsLawful};
ghost use Rattle.study_networks.specs.Networks.{AreNetworksOf, HasLive};
ghost use Rattle.scan_report.specs.Rows.{fields_of, HaveText};
ghost use Rattle.candidates_report.specs.Claim.{HoldsOfCandidates};
ghost use Rattle.candidates_report.specs.Entries.{entries_of, IsLawfulEntry};
ghost use Rattle.candidates_report.specs.Report.{closed, status_of, candidates_rows_of, candidates_status};

use crate::entry::{Entry, push_entries};
use crate::first::{has_first, is_lost};
use crate::keep::keep;
use crate::rows::push_rows;
use complex_interval::{Enclosure, Span};
use scan_report::Row;
use sqlite_items::Items;
use std::alloc::{AllocError, Global};
use study_model::Study;
use study_networks::StudyNetworks;

/// The rows of a report on candidate banks, and its status.
#[derive(Drop)]
pub struct CandidatesReport {
    pub rows: Items<Row>,
    pub status: u8,
}

/// Whether an entry has a safe size.
fn entry_has_first(entry: &Entry) -> bool
    ensures { result ≡ has_first entry.now.sizes }
{
    has_first(entry.sizes.as_slice())
}

/// Whether an entry has no safe size, and each of its sizes has a peak.
fn entry_is_lost(entry: &Entry) -> bool
    ensures { result ≡ is_lost entry.now.sizes }
{
    is_lost(entry.sizes.as_slice())
}

fn all_have_first(entries: &[Entry]) -> bool
    ensures { result ≡ list_all (λ e. has_first e.sizes) entries.now }
{
    entries.iter().all(|entry| entry_has_first(entry))
}

fn some_is_lost(entries: &[Entry]) -> bool
    ensures { result ≡ list_any (λ e. is_lost e.sizes) entries.now }
{
    entries.iter().any(|entry| entry_is_lost(entry))
}

/// The status: 0 where each entry has a safe size, else 3 where in some entry without one every size has a peak, else 4.
fn status_of(entries: &[Entry]) -> u8
    ensures { result ≡ status_of entries.now }
{
    if all_have_first(entries) {
        0
    } else if some_is_lost(entries) {
        3
    } else {
        4
    }
}

/// All entries of a study.
#[tactic(auto, unfolding(crate::specs::Entries::entries_of), using(crate::proofs::Listed::lawful_candidates))]
fn entries_of<E: Enclosure>(
    alloc: Global,
    study: &Study,
    networks: &StudyNetworks,
) -> Result<Items<Entry>, AllocError>
    requires study { IsLawful study.now }
    requires networks { AreNetworksOf study.now networks.now }
    requires live { HasLive study.now }
    requires scale { E.SCALE ≡ study.now.scale }
    ensures { IfOk result (λ entries. entries ≡ entries_of study.now) }
{
    let mut entries = Items::new(alloc);
    push_entries::<E>(
        alloc,
        study,
        networks,
        study.candidates.as_slice(),
        &mut entries,
    )?;
    Ok(entries)
}

/// The report of entries.
fn closed(alloc: Global, study: &Study, entries: &[Entry]) -> Result<CandidatesReport, AllocError>
    requires { AllByRecursion (IsLawfulEntry study.now) entries.now }
    ensures { IfOk result (λ report. (report.rows ≡ closed study.now entries.now) × (report.status ≡ status_of entries.now)) }
{
    let mut rows = Items::new(alloc);
    push_rows(study, entries, &mut rows)?;
    let status = status_of(entries);
    let end = Row::End {
        status: u32::from(status),
    };
    keep::<Row>(&mut rows, end)?;
    Ok(CandidatesReport { rows, status })
}

/// The report at the scale of a study.
#[tactic(auto, unfolding(crate::specs::Report::candidates_rows_of, crate::specs::Report::candidates_status), using(crate::proofs::Listed::lawful_entries))]
fn report_at<E: Enclosure>(
    alloc: Global,
    study: &Study,
    networks: &StudyNetworks,
) -> Result<CandidatesReport, AllocError>
    requires study { IsLawful study.now }
    requires networks { AreNetworksOf study.now networks.now }
    requires live { HasLive study.now }
    requires scale { E.SCALE ≡ study.now.scale }
    ensures { IfOk result (λ report. (report.rows ≡ candidates_rows_of study.now) × (report.status ≡ candidates_status study.now)) }
{
    let entries = entries_of::<E>(alloc, study, networks)?;
    closed(alloc, study, entries.as_slice())
}

/// The rows of the report on the candidates of a study, at the study's scale, and its status. For each candidate in order: a row with its scan, a
/// row for each of its sizes, in MVAr, with how many boxes of each kind the scan has when a bank of that size stands at its bus, and the first size
/// whose boxes are all cleared, or none; then the last row. The status is 0 where each candidate has such a size, else 3 where in some candidate
/// without one every size has a peak, else 4. Where a size is named, at every order of the scan's band the impedance of the positive network with
/// that bank exists and is within the threshold. Conditions: the study is accepted, and the networks are its networks. Want of memory is the only
/// error. (This project's own.)
#[tactic(auto, using(crate::proofs::Texts::have_text, crate::proofs::Claims::candidates_hold))]
pub fn candidates_rows(
    alloc: Global,
    study: &Study,
    networks: &StudyNetworks,
) -> Result<CandidatesReport, AllocError>
    requires study { IsLawful study.now }
    requires networks { AreNetworksOf study.now networks.now }
    requires live { HasLive study.now }
    ensures rows { IfOk result (λ r. r.rows ≡ candidates_rows_of study.now) }
    ensures status { IfOk result (λ r. r.status ≡ candidates_status study.now) }
    ensures text { IfOk result (λ r. AllByRecursion (λ row. HaveText (fields_of row)) r.rows) }
    ensures holds { IfOk result (λ r. HoldsOfCandidates study.now) }
{
    if study.scale == 40 {
        report_at::<Span<40>>(alloc, study, networks)
    } else {
        report_at::<Span<48>>(alloc, study, networks)
    }
}
