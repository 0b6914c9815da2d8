// A whole spectrum.
ghost use Rattle.std.specs.Prelude.{◌≡◌, ◌<◌, ◌^◌, [], length, map, IfOk};
ghost use Rattle.study_model.specs.Lawful.{IsLawful};
ghost use Rattle.spectrum_reader.specs.Records.{IsReading, left_of};
ghost use Rattle.spectrum_reader.specs.Rows.{ReadsInMemory, rows_from};
ghost use Rattle.spectrum_reader.specs.SpectrumRows.{spectrum_names, spectrum_row};
ghost use Rattle.spectrum_reader.specs.Lawful.{IsLawfulSpectrum};
ghost use Rattle.spectrum_reader.specs.SpectrumOf.{spectrum_of};
ghost use Rattle.spectrum_reader.specs.declared.fault.SpectrumFault.TheVariants.{NoMemory};

use crate::fault::SpectrumFault;
use crate::header::read_header;
use crate::injection::{Injection, Spectrum, spectrum_row};
use crate::records::{keep, read_record, records};
use csv::{ByteRecord, Reader};
use sqlite_items::Items;
use std::alloc::Global;
use study_model::{Study, StudyModel};

/// The names of the header of a model's spectrum.
fn spectrum_names(model: StudyModel) -> &'static [&'static str]
    ensures names { map (λ name. name.now) result.now ≡ spectrum_names model }
    ensures few { length result.now < 2 ^ 32 }
{
    match model {
        StudyModel::Sequence => &["order", "bus", "re", "im"],
        StudyModel::Phases => &["order", "bus", "phase", "re", "im"],
    }
}

/// The injections of the records that a reader has still to give, or the first refusal of one.
fn injections(
    alloc: Global,
    study: &Study,
    reader: &mut Reader<&[u8]>,
) -> Result<Items<Injection>, SpectrumFault>
    requires study { IsLawful study.now }
    requires reading { IsReading reader.old }
    requires few { length (left_of reader.old) < 2 ^ 32 }
    ensures read { ReadsInMemory NoMemory (λ rows. rows) result (rows_from (spectrum_row study.now) [] (left_of reader.old)) }
{
    let mut row = ByteRecord::new(alloc);
    let mut rows = Items::new(alloc);
    'rows: loop {
        let Ok(found) = read_record(reader, &mut row) else {
            return Err(SpectrumFault::NoMemory);
        };
        if !found {
            return Ok(rows);
        }
        let injection = spectrum_row(study, rows.as_slice(), &row)?;
        if keep::<Injection>(&mut rows, injection).is_err() {
            return Err(SpectrumFault::NoMemory);
        }
    }
}

/// The spectrum that the bytes of a file of CSV are, in this project's own format (docs/spectrum.md): the injections of its rows, in amperes.
///
/// # Errors
///
/// The first refusal: `BadHeader`, or that of the first bad row, whose faults are judged in the order `BadRow`, `BadOrder`, `UnknownBus`, `BadPhase`,
/// `BadDecimal`, `Repeated`. `NoMemory`.
#[tactic(auto, unfolding(crate::specs::SpectrumOf::spectrum_of))]
pub fn read_spectrum(alloc: Global, bytes: &[u8], study: &Study) -> Result<Spectrum, SpectrumFault>
    requires bytes { length bytes.now < 2 ^ 32 }
    requires study { IsLawful study.now }
    ensures read { ReadsInMemory NoMemory (λ spectrum. spectrum.rows) result (spectrum_of study.now bytes.now) }
    ensures lawful { IfOk result (λ spectrum. IsLawfulSpectrum study.now spectrum.rows) }
{
    let mut reader = records(alloc, bytes);
    let mut row = ByteRecord::new(alloc);
    let Ok(headed) = read_header(&mut reader, &mut row, spectrum_names(study.model)) else {
        return Err(SpectrumFault::NoMemory);
    };
    if !headed {
        return Err(SpectrumFault::BadHeader);
    }
    let rows = injections(alloc, study, &mut reader)?;
    Ok(Spectrum { rows })
}
