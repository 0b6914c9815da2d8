// A row of a spectrum.
ghost use Rattle.std.specs.Prelude.{◌≡◌, ◌<◌, ◌+◌, ◌≤◌, length, option_map, ◌^◌, ◌-◌};
ghost use Rattle.study_model.specs.declared.words.StudyModel.TheVariants as study_model;
ghost use Rattle.csv.specs.Records.{fields_of};
ghost use Rattle.study_model.specs.Lawful.{IsLawful};
ghost use Rattle.spectrum_reader.specs.SpectrumRows.{spectrum_texts, phase_in, is_repeated, injection_of, spectrum_row};
ghost use Rattle.spectrum_reader.specs.Seen.{spectrum_seen};

use crate::fault::SpectrumFault;
use crate::fields::{bus_named, decimal_in, order_of};
use csv::ByteRecord;
use fixed_decimal::Decimal;
use sqlite_items::Items;
use study_model::{Study, StudyModel};

/// The most rows of a spectrum.
pub const MAX_INJECTIONS: u32 = 10_000;

/// A harmonic current into a bus, in amperes: a whole order from 2 to 50, the bus by its number from 0, and the phase, which is 0, 1 or 2 for
/// a, b or c and 0 in the sequence model.
#[derive(Clone, Copy)]
pub struct Injection {
    pub order: u32,
    pub bus: u32,
    pub phase: u32,
    pub re: Decimal,
    pub im: Decimal,
}

/// The injections of a study, in the order of their rows.
#[derive(Drop)]
pub struct Spectrum {
    pub rows: Items<Injection>,
}

/// The texts of a row, by the names of the header; the sequence model has no phase.
#[derive(Clone, Copy)]
pub(crate) struct SpectrumTexts<'a> {
    pub(crate) order: &'a [u8],
    pub(crate) bus: &'a [u8],
    pub(crate) phase: Option<&'a [u8]>,
    pub(crate) re: &'a [u8],
    pub(crate) im: &'a [u8],
}

/// The texts of a record of four fields.
#[tactic(auto, using(crate::proofs::Places::four_fields))]
fn four_texts(row: &ByteRecord) -> Option<SpectrumTexts<'_>>
    ensures { option_map spectrum_seen result ≡ spectrum_texts study_model.Sequence (fields_of row.now) }
{
    let texts = SpectrumTexts {
        order: row.get(0)?,
        bus: row.get(1)?,
        phase: None,
        re: row.get(2)?,
        im: row.get(3)?,
    };
    match row.get(4) {
        None => Some(texts),
        Some(_) => None,
    }
}

/// The texts of a record of five fields.
#[tactic(auto, using(crate::proofs::Places::five_fields))]
fn five_texts(row: &ByteRecord) -> Option<SpectrumTexts<'_>>
    ensures { option_map spectrum_seen result ≡ spectrum_texts study_model.Phases (fields_of row.now) }
{
    let texts = SpectrumTexts {
        order: row.get(0)?,
        bus: row.get(1)?,
        phase: Some(row.get(2)?),
        re: row.get(3)?,
        im: row.get(4)?,
    };
    match row.get(5) {
        None => Some(texts),
        Some(_) => None,
    }
}

/// The texts of a record that has as many fields as the header.
fn spectrum_texts(model: StudyModel, row: &ByteRecord) -> Option<SpectrumTexts<'_>>
    ensures { option_map spectrum_seen result ≡ spectrum_texts model (fields_of row.now) }
{
    match model {
        StudyModel::Sequence => four_texts(row),
        StudyModel::Phases => five_texts(row),
    }
}

/// The number of the phase of a row, which is 0 where it has none.
#[tactic(auto, unfolding(crate::specs::SpectrumRows::phase_in))]
fn phase_in(field: Option<&[u8]>) -> Option<u32>
    ensures { result ≡ phase_in (option_map (λ text. text.now) field.entry) }
{
    match field {
        None => Some(0),
        Some([b'a']) => Some(0),
        Some([b'b']) => Some(1),
        Some([b'c']) => Some(2),
        Some(_) => None,
    }
}

/// Whether an earlier row has the order, the bus and the phase.
fn is_repeated(earlier: &[Injection], order: u32, bus: u32, phase: u32) -> bool
    ensures { result ≡ is_repeated earlier.now order bus phase }
{
    earlier.iter().any(|row| row.order == order && row.bus == bus && row.phase == phase)
}

/// The injection that the texts of the row of a number write.
#[tactic(auto, unfolding(crate::specs::SpectrumRows::injection_of))]
fn injection_of(
    study: &Study,
    earlier: &[Injection],
    number: u32,
    texts: SpectrumTexts<'_>,
) -> Result<Injection, SpectrumFault>
    requires { IsLawful study.now }
    ensures { result ≡ injection_of study.now earlier.now number (spectrum_seen texts.entry) }
{
    let Some(order) = order_of(texts.order) else {
        return Err(SpectrumFault::BadOrder(number));
    };
    let Some(bus) = bus_named(study.buses.as_slice(), texts.bus) else {
        return Err(SpectrumFault::UnknownBus(number));
    };
    let Some(phase) = phase_in(texts.phase) else {
        return Err(SpectrumFault::BadPhase(number));
    };
    let Some(re) = decimal_in(texts.re) else {
        return Err(SpectrumFault::BadDecimal(number));
    };
    let Some(im) = decimal_in(texts.im) else {
        return Err(SpectrumFault::BadDecimal(number));
    };
    if is_repeated(earlier, order, bus, phase) {
        return Err(SpectrumFault::Repeated(number));
    }
    Ok(Injection {
        order,
        bus,
        phase,
        re,
        im,
    })
}

/// The injection of a record beside the rows before it.
#[tactic(auto, unfolding(crate::specs::SpectrumRows::spectrum_row))]
pub(crate) fn spectrum_row(
    study: &Study,
    earlier: &[Injection],
    row: &ByteRecord,
) -> Result<Injection, SpectrumFault>
    requires study { IsLawful study.now }
    requires few { length earlier.now < 2 ^ 32 - 1 }
    ensures { result ≡ spectrum_row study.now earlier.now (fields_of row.now) }
{
    let number = earlier.len() as u32 + 1;
    if number > MAX_INJECTIONS {
        return Err(SpectrumFault::BadRow(number));
    }
    let Some(texts) = spectrum_texts(study.model, row) else {
        return Err(SpectrumFault::BadRow(number));
    };
    injection_of(study, earlier, number, texts)
}
