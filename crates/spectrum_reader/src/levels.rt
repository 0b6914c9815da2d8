// A whole levels file.
ghost use Rattle.std.specs.Prelude.{◌≡◌, ◌<◌, ◌^◌, [], length, map};
ghost use Rattle.study_model.specs.Lawful.{IsLawful};
ghost use Rattle.spectrum_reader.specs.Records.{IsReading, left_of};
ghost use Rattle.spectrum_reader.specs.Rows.{ReadsInMemory, rows_from};
ghost use Rattle.spectrum_reader.specs.LevelRows.{level_names, level_row};
ghost use Rattle.spectrum_reader.specs.LevelsOf.{levels_of};
ghost use Rattle.spectrum_reader.specs.declared.fault.LevelsFault.TheVariants.{NoMemory};

use crate::fault::LevelsFault;
use crate::header::read_header;
use crate::level::{Level, Levels, level_row};
use crate::records::{keep, read_record, records};
use csv::{ByteRecord, Reader};
use sqlite_items::Items;
use std::alloc::Global;
use study_model::Study;

/// The names of the header.
fn level_names() -> &'static [&'static str]
    ensures names { map (λ name. name.now) result.now ≡ level_names }
    ensures few { length result.now < 2 ^ 32 }
{
    &["bus", "order", "percent"]
}

/// The levels of the records that a reader has still to give, or the first refusal of one.
fn levels(
    alloc: Global,
    study: &Study,
    reader: &mut Reader<&[u8]>,
) -> Result<Items<Level>, LevelsFault>
    requires study { IsLawful study.now }
    requires reading { IsReading reader.old }
    requires few { length (left_of reader.old) < 2 ^ 32 }
    ensures read { ReadsInMemory NoMemory (λ rows. rows) result (rows_from (level_row study.now) [] (left_of reader.old)) }
{
    let mut row = ByteRecord::new(alloc);
    let mut rows = Items::new(alloc);
    'rows: loop {
        let Ok(found) = read_record(reader, &mut row) else {
            return Err(LevelsFault::NoMemory);
        };
        if !found {
            return Ok(rows);
        }
        let level = level_row(study, rows.as_slice(), &row)?;
        if keep::<Level>(&mut rows, level).is_err() {
            return Err(LevelsFault::NoMemory);
        }
    }
}

/// The planning levels that the bytes of a file of CSV are, in this project's own format (docs/spectrum.md).
///
/// # Errors
///
/// The first refusal: `BadHeader`, or that of the first bad row, whose faults are judged in the order `BadRow`, `BadOrder`, `UnknownBus`, `BadPercent`,
/// `Repeated`. `NoMemory`.
#[tactic(auto, unfolding(crate::specs::LevelsOf::levels_of))]
pub fn read_levels(alloc: Global, bytes: &[u8], study: &Study) -> Result<Levels, LevelsFault>
    requires bytes { length bytes.now < 2 ^ 32 }
    requires study { IsLawful study.now }
    ensures read { ReadsInMemory NoMemory (λ levels. levels.rows) result (levels_of study.now bytes.now) }
{
    let mut reader = records(alloc, bytes);
    let mut row = ByteRecord::new(alloc);
    let Ok(headed) = read_header(&mut reader, &mut row, level_names()) else {
        return Err(LevelsFault::NoMemory);
    };
    if !headed {
        return Err(LevelsFault::BadHeader);
    }
    let rows = levels(alloc, study, &mut reader)?;
    Ok(Levels { rows })
}
