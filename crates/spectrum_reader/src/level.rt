// A row of a levels file.
ghost use Rattle.std.specs.Prelude.{◌≡◌, ◌<◌, ◌^◌, ◌-◌, length, option_map};
ghost use Rattle.csv.specs.Records.{fields_of};
ghost use Rattle.study_model.specs.Lawful.{IsLawful};
ghost use Rattle.spectrum_reader.specs.LevelRows.{level_texts, level_order_of, percent_of, percent_in, is_level, level_in, level_row, level_of};
ghost use Rattle.spectrum_reader.specs.Seen.{level_seen};
ghost use Rattle.std.specs.List.{list_any};

use crate::fault::LevelsFault;
use crate::fields::{bus_named, decimal_in, order_of};
use csv::ByteRecord;
use fixed_decimal::Decimal;
use sqlite_items::Items;
use study_model::Study;

/// The least level, in millionths of a percent.
pub(crate) const MIN_LEVEL: u64 = 100;

/// The greatest level, in millionths of a percent.
pub(crate) const MAX_LEVEL: u64 = 100_000_000;

/// How many millionths of a percent are one of its ten-thousandths.
pub(crate) const PLACES: u64 = 100;

/// A planning level of the voltage of a bus, by the bus's number from 0: an order from 2 to 50, or 0 for the total distortion, and
/// ten-thousandths of a percent of the nominal voltage.
#[derive(Clone, Copy)]
pub struct Level {
    pub bus: u32,
    pub order: u32,
    pub percent: u64,
}

/// The planning levels of a study, in the order of their rows.
#[derive(Drop)]
pub struct Levels {
    pub rows: Items<Level>,
}

/// The texts of a row, by the names of the header.
#[derive(Clone, Copy)]
pub(crate) struct LevelTexts<'a> {
    pub(crate) bus: &'a [u8],
    pub(crate) order: &'a [u8],
    pub(crate) percent: &'a [u8],
}

/// The texts of a record that has as many fields as the header.
#[tactic(auto, using(crate::proofs::Places::three_fields))]
fn level_texts(row: &ByteRecord) -> Option<LevelTexts<'_>>
    ensures { option_map level_seen result ≡ level_texts (fields_of row.now) }
{
    let texts = LevelTexts {
        bus: row.get(0)?,
        order: row.get(1)?,
        percent: row.get(2)?,
    };
    match row.get(3) {
        None => Some(texts),
        Some(_) => None,
    }
}

/// The order that a field writes, or 0 for the total distortion.
#[tactic(auto, unfolding(crate::specs::LevelRows::level_order_of))]
fn level_order_of(field: &[u8]) -> Option<u32>
    ensures { result ≡ level_order_of field.now }
{
    if field == b"thd".as_slice() {
        return Some(0);
    }
    order_of(field)
}

/// The ten-thousandths of a percent that a decimal is.
fn percent_of(decimal: Option<Decimal>) -> Option<u64>
    ensures { result ≡ percent_of decimal }
{
    let millionths = decimal?.millionths;
    if millionths < MIN_LEVEL as i64 || millionths > MAX_LEVEL as i64 {
        return None;
    }
    let size = millionths as u64;
    if size % PLACES != 0 {
        return None;
    }
    Some(size / PLACES)
}

/// The percent that a field writes, in ten-thousandths.
#[tactic(auto, unfolding(crate::specs::LevelRows::percent_in))]
fn percent_in(field: &[u8]) -> Option<u64>
    ensures { result ≡ percent_in field.now }
{
    percent_of(decimal_in(field))
}

/// Whether an earlier row has the bus and the order.
fn is_repeated(earlier: &[Level], bus: u32, order: u32) -> bool
    ensures { result ≡ list_any (is_level bus order) earlier.now }
{
    earlier
        .iter()
        .any(|row| row.bus == bus && row.order == order)
}

/// The level that the texts of the row of a number write.
#[tactic(auto, unfolding(crate::specs::LevelRows::level_in))]
fn level_in(
    study: &Study,
    earlier: &[Level],
    number: u32,
    texts: LevelTexts<'_>,
) -> Result<Level, LevelsFault>
    requires { IsLawful study.now }
    ensures { result ≡ level_in study.now earlier.now number (level_seen texts.entry) }
{
    let Some(order) = level_order_of(texts.order) else {
        return Err(LevelsFault::BadOrder(number));
    };
    let Some(bus) = bus_named(study.buses.as_slice(), texts.bus) else {
        return Err(LevelsFault::UnknownBus(number));
    };
    let Some(percent) = percent_in(texts.percent) else {
        return Err(LevelsFault::BadPercent(number));
    };
    if is_repeated(earlier, bus, order) {
        return Err(LevelsFault::Repeated(number));
    }
    Ok(Level {
        bus,
        order,
        percent,
    })
}

/// The level of a record beside the rows before it.
#[tactic(auto, unfolding(crate::specs::LevelRows::level_row))]
pub(crate) fn level_row(
    study: &Study,
    earlier: &[Level],
    row: &ByteRecord,
) -> Result<Level, LevelsFault>
    requires study { IsLawful study.now }
    requires few { length earlier.now < 2 ^ 32 - 1 }
    ensures { result ≡ level_row study.now earlier.now (fields_of row.now) }
{
    let number = earlier.len() as u32 + 1;
    let Some(texts) = level_texts(row) else {
        return Err(LevelsFault::BadRow(number));
    };
    level_in(study, earlier, number, texts)
}

/// The level of a bus at an order, or at 0 for the total distortion, in ten-thousandths of a percent: that of the first row of both.
#[tactic(auto, unfolding(crate::specs::LevelRows::level_of))]
pub fn level_of(levels: &Levels, bus: u32, order: u32) -> Option<u64>
    ensures { result ≡ level_of levels.now.rows bus order }
{
    let row = levels
        .rows
        .as_slice()
        .iter()
        .find(|row| row.bus == bus && row.order == order)?;
    Some(row.percent)
}
