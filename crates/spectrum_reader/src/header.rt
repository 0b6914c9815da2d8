// The header of a file.
ghost use Rattle.std.specs.Prelude.{◌≡◌, ◌+◌, ◌≤◌, ◌<◌, ◌^◌, length, drop, map, IfOk};
ghost use Rattle.csv.specs.Records.{fields_of};
ghost use Rattle.spectrum_reader.specs.Records.{IsReading};
ghost use Rattle.spectrum_reader.specs.Rows.{is_header};
ghost use Rattle.spectrum_reader.specs.Reads.{ReadsHeader};

use crate::records::read_record;
use csv::{ByteRecord, Reader};
use std::alloc::AllocError;

/// Whether the fields of a record from a place on are these names.
#[tactic(auto, using(crate::proofs::Places::header_steps))]
fn are_names(names: &[&str], row: &ByteRecord, place: usize) -> bool
    requires { place + length names.now < 2 ^ 32 }
    ensures { result ≡ is_header (map (λ name. name.now) names.now) (drop place (fields_of row.now)) }
{
    match (names.split_first(), row.get(place)) {
        (None, field) => field.is_none(),
        (Some(_), None) => false,
        (Some((name, rest)), Some(field)) => {
            name.as_bytes() == field && are_names(rest, row, place + 1)
        }
    }
}

/// Reads the first record, and answers whether it is the header of these names.
pub(crate) fn read_header(
    reader: &mut Reader<&[u8]>,
    row: &mut ByteRecord,
    names: &[&str],
) -> Result<bool, AllocError>
    requires reading { IsReading reader.old }
    requires few { length names.now < 2 ^ 32 }
    ensures { IfOk result (ReadsHeader reader.old reader.new (map (λ name. name.now) names.now)) }
{
    let found = read_record(reader, row)?;
    Ok(found && are_names(names, row, 0))
}
