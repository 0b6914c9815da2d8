// The entry of a candidate: a scan, and sizes of a bank at its bus.
ghost use Rattle.std.specs.Prelude.{◌≡◌, ◌≤◌, not, is_some, unwrap_or, ◌&&◌, length};
ghost use Rattle.toml.specs.View.{view, items_view};
ghost use Rattle.study_model.specs.declared.fault.Key.TheVariants.{Sizes as sizes_key};
ghost use Rattle.study_model.specs.declared.limits.TheConstants.{MAX_SCANS, MAX_SIZES};
ghost use Rattle.study_model.specs.declared.range.TheConstants.Range.{ABOVE_ZERO};
ghost use Rattle.study_reader.specs.Checks.{Reads, ReadsInMemory};
ghost use Rattle.study_reader.specs.Curves.{items_fault, counted_fault, decimals_fault};
ghost use Rattle.study_reader.specs.References.{is_positive, scan_at, scan_of, positive_fault, scan_fault, scan_value};
ghost use Rattle.study_reader.specs.Variants.{decimals_in, sizes_value, candidate_entry_fault, candidate_entry};

use crate::curves::has_length;
use crate::decimals::decimal_in;
use crate::keys::{entry_keys, find, key_of};
use crate::reference::{Reference, Targets};
use fixed_decimal::Decimal;
use sqlite_items::Items;
use std::alloc::Global;
use study_model::{Candidate, Key, MAX_SIZES, Name, Place, Range, ScanItem, Sequence, StudyFault};
use toml::Value;

fn is_positive(network: Sequence) -> bool
    ensures { result ≡ is_positive network }
{
    match network {
        Sequence::Positive => true,
        Sequence::Zero => false,
    }
}

/// Whether a scan is of the positive network, and of no phase.
fn is_of_positive(scan: &ScanItem) -> bool
    ensures { result ≡ (is_positive scan.now.network && not (is_some scan.now.phase)) }
{
    match scan.phase {
        Some(_) => false,
        None => is_positive(scan.network),
    }
}

/// The number of the scan of a name, which is one of the positive network.
fn number_of_scan(scans: &[ScanItem], text: &[u8], place: Place) -> Result<u32, StudyFault>
    requires { length scans.now ≤ MAX_SCANS }
    ensures read { Reads result (positive_fault place (scan_of scans.now text.now)) (unwrap_or (scan_at 1 scans.now text.now) 0) }
{
    let mut number = 1;
    for scan in scans {
        if scan.name.as_bytes() == text {
            if is_of_positive(scan) {
                return Ok(number);
            }
            return Err(StudyFault::OutOfRange(place));
        }
        number += 1;
    }
    Err(StudyFault::UnknownScan(place))
}

/// The number of the scan at a key.
#[tactic(auto, unfolding(crate::specs::References::scan_fault, crate::specs::References::scan_value))]
fn scan(entry: &Value, place: Place, scans: &[ScanItem]) -> Result<u32, StudyFault>
    requires { length scans.now ≤ MAX_SCANS }
    ensures read { Reads result (scan_fault place scans.now (view entry.now)) (scan_value scans.now (view entry.now)) }
{
    match find(entry, Key::Scan) {
        None => Err(StudyFault::MissingKey(key_of(place, Key::Scan))),
        Some(Value::String(text)) => match Name::parse(text.as_bytes()) {
            None => Err(StudyFault::BadName(key_of(place, Key::Scan))),
            Some(_) => number_of_scan(scans, text.as_bytes(), key_of(place, Key::Scan)),
        },
        Some(_) => Err(StudyFault::WrongKind(key_of(place, Key::Scan))),
    }
}

/// The values of an array, each a decimal above 0.
fn sizes_in(alloc: Global, values: &[Value], place: Place) -> Result<Items<Decimal>, StudyFault>
    ensures read { ReadsInMemory result (items_fault place ABOVE_ZERO (items_view values.now)) (decimals_in (items_view values.now)) }
{
    let mut sizes = Vec::new(alloc);
    for value in values {
        let size = decimal_in(value, place, Range::ABOVE_ZERO)?;
        if sizes.push(size).is_err() {
            return Err(StudyFault::NoMemory);
        }
    }
    Ok(Items::from_vec(sizes))
}

/// The values of an array of 1 to 64 decimals above 0.
#[tactic(auto, using(crate::proofs::Counts::count_of_items))]
fn counted_sizes(
    alloc: Global,
    values: &[Value],
    place: Place,
) -> Result<Items<Decimal>, StudyFault>
    ensures read { ReadsInMemory result (counted_fault place 1 MAX_SIZES ABOVE_ZERO (items_view values.now)) (decimals_in (items_view values.now)) }
{
    has_length(values.len(), place, 1, MAX_SIZES as usize)?;
    sizes_in(alloc, values, place)
}

/// The sizes of a candidate.
#[tactic(auto, unfolding(crate::specs::Curves::decimals_fault, crate::specs::Variants::sizes_value))]
fn sizes(alloc: Global, entry: &Value, place: Place) -> Result<Items<Decimal>, StudyFault>
    ensures read { ReadsInMemory result (decimals_fault place sizes_key 1 MAX_SIZES ABOVE_ZERO (view entry.now)) (sizes_value (view entry.now)) }
{
    match find(entry, Key::Sizes) {
        None => Err(StudyFault::MissingKey(key_of(place, Key::Sizes))),
        Some(Value::Array(values)) => {
            counted_sizes(alloc, values.as_slice(), key_of(place, Key::Sizes))
        }
        Some(_) => Err(StudyFault::WrongKind(key_of(place, Key::Sizes))),
    }
}

impl Reference for Candidate {
    ghost fault = { candidate_entry_fault };

    ghost value = { candidate_entry };

    #[tactic(auto, unfolding(crate::specs::Variants::candidate_entry_fault, crate::specs::Variants::candidate_entry))]
    fn read(
        alloc: Global,
        entry: &Value,
        place: Place,
        _earlier: &[Candidate],
        targets: &Targets,
    ) -> Result<Candidate, StudyFault> {
        let keys = [Key::Scan, Key::Sizes];
        entry_keys(entry, place, place, &keys)?;
        let scan = scan(entry, place, targets.scans.as_slice())?;
        let sizes = sizes(alloc, entry, place)?;
        Ok(Candidate { scan, sizes })
    }
}
