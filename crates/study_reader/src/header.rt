// The one table of the study as a whole.
ghost use Rattle.std.specs.Prelude.{◌≡◌};
ghost use Rattle.toml.specs.View.{view};
ghost use Rattle.study_model.specs.declared.fault.Section.TheVariants.{Study as study_word};
ghost use Rattle.study_model.specs.declared.fault.Key.TheVariants.{Nothing};
ghost use Rattle.study_reader.specs.Checks.{Reads, place_of};
ghost use Rattle.study_reader.specs.Header.{header_fault, header_value, study_section_fault, study_section_value};
ghost use Rattle.study_reader.specs.Sections.{section_in};

use crate::arrays::section;
use crate::decimals::{decimal, decimal_or, scale, version};
use crate::keys::entry_keys;
use crate::words::word;
use fixed_decimal::Decimal;
use study_model::{Key, Method, Place, Range, Section, StudyFault, StudyModel};
use toml::Value;

/// The keys of the study as a whole.
#[derive(Clone, Copy)]
pub(crate) struct Header {
    pub(crate) version: u32,
    pub(crate) mva: Decimal,
    pub(crate) hz: Decimal,
    pub(crate) model: StudyModel,
    pub(crate) scale: u32,
    pub(crate) method: Method,
    pub(crate) root3: Decimal,
}

const USUAL_HERTZ: Decimal = Decimal {
    millionths: 50_000_000,
};

const USUAL_ROOT3: Decimal = Decimal {
    millionths: 1_732_051,
};

fn place(entry: u32) -> Place
    ensures { result ≡ place_of study_word entry Nothing }
{
    Place {
        section: Section::Study,
        entry,
        key: Key::Nothing,
    }
}

#[tactic(auto, unfolding(crate::specs::Header::header_fault, crate::specs::Header::header_value))]
fn header_of(entry: &Value) -> Result<Header, StudyFault>
    ensures read { Reads result (header_fault (view entry.now)) (header_value (view entry.now)) }
{
    let keys = [
        Key::Version,
        Key::Mva,
        Key::Hz,
        Key::Model,
        Key::Scale,
        Key::Method,
        Key::Root3,
    ];
    entry_keys(entry, place(0), place(1), &keys)?;
    let version = version(entry, place(1))?;
    let mva = decimal(entry, place(1), Key::Mva, Range::BASE_MVA)?;
    let hz = decimal_or(entry, place(1), Key::Hz, Range::HERTZ, USUAL_HERTZ)?;
    let model = word::<StudyModel>(entry, place(1), Key::Model, false)?;
    let scale = scale(entry, place(1))?;
    let method = word::<Method>(entry, place(1), Key::Method, false)?;
    let root3 = decimal_or(entry, place(1), Key::Root3, Range::ROOT3, USUAL_ROOT3)?;
    Ok(Header {
        version,
        mva,
        hz,
        model: model.unwrap_or(StudyModel::Sequence),
        scale,
        method: method.unwrap_or(Method::Elimination),
        root3,
    })
}

/// The section of the study as a whole.
#[tactic(auto, unfolding(crate::specs::Header::study_section_fault, crate::specs::Header::study_section_value))]
pub(crate) fn study_section(document: &Value) -> Result<Header, StudyFault>
    ensures read { Reads result (study_section_fault (section_in study_word (view document.now))) (study_section_value (section_in study_word (view document.now))) }
{
    match section(document, Section::Study) {
        None => Err(StudyFault::MissingKey(place(0))),
        Some(entry) => header_of(entry),
    }
}
