// The records of a file, one by one.
ghost use Rattle.std.specs.Prelude.{◌≡◌, ◌∷◌, [], ◌++◌, IfOk, OnOk};
ghost use Rattle.csv.specs.Records.{fields_of};
ghost use Rattle.spectrum_reader.specs.Records.{IsReading, ReadsFirst, left_of, records_of};

use csv::{ByteRecord, Reader, ReaderBuilder};
use sqlite_items::Items;
use std::alloc::{AllocError, Global};

/// A reader of all records of a file: they may differ in length, and none is a header.
pub(crate) fn records(alloc: Global, bytes: &[u8]) -> Reader<&[u8]>
    ensures reading { IsReading result }
    ensures all { left_of result ≡ records_of bytes.now }
{
    ReaderBuilder::new()
        .has_headers(false)
        .flexible(true)
        .from_reader(alloc, bytes)
}

/// The next record, and whether there was one. Over bytes in memory a read fails for want of memory alone.
pub(crate) fn read_record(
    reader: &mut Reader<&[u8]>,
    row: &mut ByteRecord,
) -> Result<bool, AllocError>
    requires { IsReading reader.old }
    ensures { IfOk result (ReadsFirst reader.old reader.new (fields_of row.new)) }
{
    match reader.read_byte_record(row) {
        Ok(found) => Ok(found),
        Err(_) => Err(AllocError),
    }
}

/// Keeps a row behind those before.
pub(crate) fn keep<T: Copy>(rows: &mut Items<T>, row: T) -> Result<(), AllocError>
    ensures { OnOk result (rows.new ≡ rows.old ++ row ∷ []) }
{
    rows.push(row)
}
