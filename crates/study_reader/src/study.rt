// A whole study: its sections in the order of the format, so that the first fault is the one that is named.
ghost use Rattle.std.specs.Prelude.{◌≡◌, ◌≢◌, ◌+◌, ◌≤◌, ◌∷◌, [], ◌++◌, None, length, IfOk, IfErr, OnOk};
ghost use Rattle.toml.specs.Data.{table as table_data};
ghost use Rattle.toml.specs.Errors.{IsMemory};
ghost use Rattle.toml.specs.View.{view, items_view, table_view};
ghost use Rattle.study_model.specs.declared.fault.StudyFault.TheVariants.{NoMemory, NotToml};
ghost use Rattle.study_model.specs.Lawful.{IsLawful};
ghost use Rattle.study_reader.specs.Checks.{ReadsInMemory, first_fault, name_value};
ghost use Rattle.study_reader.specs.Sections.{entries_fault, entries_of, section_fault, section_value, section_names};
ghost use Rattle.study_reader.specs.StudyOf.{some_buses, plant_fault, plant_names, plant_value, with_elements, plant_elements, sections_fault, study_fault, study_value, IsStudy, Refused};
ghost use Rattle.study_model.specs.declared.limits.TheConstants.{MAX_NAMES, MAX_ALL_ELEMENTS};

use crate::arrays::{Occurrence, array, at_most, known_sections};
use crate::context::Context;
use crate::elements::elements_of;
use crate::entry::Entry;
use crate::header::study_section;
use crate::reference::Targets;
use crate::variants::variants_of;
use sqlite_items::Items;
use std::alloc::Global;
use study_model::{
    Bank, Bus, Filter, Key, Line, Load, MAX_BUSES, MAX_ELEMENTS, MAX_POINTS, MAX_SCANS, Name, Pcc,
    Place, ScanItem, Section, Source, Study, StudyFault, Transformer,
};
use toml::{Table, Value};

/// Keeps an entry and its name behind those before.
fn keep<E: Copy>(
    names: &mut Vec<Name>,
    made: &mut Vec<E>,
    name: Name,
    entry: E,
) -> Result<(), StudyFault>
    ensures names { OnOk result (names.new.items ≡ names.old.items ++ name ∷ []) }
    ensures made { OnOk result (made.new.items ≡ made.old.items ++ entry ∷ []) }
    ensures memory { IfErr result (λ fault. fault ≡ NoMemory) }
    ensures few { length names.new.items ≤ length names.old.items + 1 }
{
    if names.push(name).is_err() || made.push(entry).is_err() {
        return Err(StudyFault::NoMemory);
    }
    Ok(())
}

/// The entries of an array in order, whose names are added to the names before them.
fn entries<E: Entry>(
    alloc: Global,
    values: &[Value],
    section: Section,
    context: &Context,
    names: &mut Vec<Name>,
) -> Result<Items<E>, StudyFault>
    requires few { length values.now ≤ MAX_ELEMENTS }
    requires names { length names.old.items + length values.now ≤ MAX_NAMES }
    requires buses { length context.now.buses ≤ MAX_BUSES }
    requires elements { length context.now.elements ≤ MAX_ALL_ELEMENTS }
    ensures read { ReadsInMemory result (entries_fault E.fault context.now section names.old.items 1 (items_view values.now))
        (entries_of (E.value context.now) (items_view values.now)) }
    ensures names { OnOk result (names.new.items ≡ names.old.items ++ entries_of name_value (items_view values.now)) }
    ensures few { length names.new.items ≤ length names.old.items + length values.now }
{
    let mut made = Vec::new(alloc);
    let mut number = 1;
    for value in values {
        let place = Place {
            section,
            entry: number,
            key: Key::Nothing,
        };
        let (name, entry) = E::read(value, place, names, context)?;
        number += 1;
        keep::<E>(names, &mut made, name, entry)?;
    }
    Ok(Items::from_vec(made))
}

/// The entries of a section, whose names are added to the names before them.
#[tactic(auto, unfolding(crate::specs::Sections::section_fault, crate::specs::Sections::section_value, crate::specs::Sections::section_names), using(crate::proofs::Counts::entries_counted))]
fn section_entries<E: Entry>(
    alloc: Global,
    document: &Value,
    occurrence: Occurrence,
    context: &Context,
    names: &mut Vec<Name>,
) -> Result<Items<E>, StudyFault>
    requires most { occurrence.most ≤ MAX_ELEMENTS }
    requires names { length names.old.items + occurrence.most ≤ MAX_NAMES }
    requires buses { length context.now.buses ≤ MAX_BUSES }
    requires elements { length context.now.elements ≤ MAX_ALL_ELEMENTS }
    ensures read { ReadsInMemory result (section_fault E.fault occurrence context.now names.old.items (view document.now))
        (section_value (E.value context.now) occurrence.section (view document.now)) }
    ensures names { OnOk result (names.new.items ≡ names.old.items ++ section_names occurrence.section (view document.now)) }
    ensures few { IfOk result (λ made. length made ≤ occurrence.most) }
    ensures few_names { length names.new.items ≤ length names.old.items + occurrence.most }
{
    let values = array(document, occurrence)?;
    entries::<E>(alloc, values, occurrence.section, context, names)
}

/// The section of buses, which has to be there.
fn some_buses() -> Occurrence
    ensures { result ≡ some_buses }
{
    Occurrence {
        section: Section::Bus,
        optional: false,
        least: 1,
        most: MAX_BUSES as usize,
    }
}

/// The elements of a study.
#[derive(Drop)]
pub(crate) struct Plant {
    pub(crate) sources: Items<Source>,
    pub(crate) lines: Items<Line>,
    pub(crate) transformers: Items<Transformer>,
    pub(crate) loads: Items<Load>,
    pub(crate) banks: Items<Bank>,
    pub(crate) filters: Items<Filter>,
}

/// The elements of a document, whose names are added to those of the buses.
#[tactic(auto, unfolding(crate::specs::StudyOf::plant_fault, crate::specs::StudyOf::plant_names, crate::specs::StudyOf::plant_value), using(crate::proofs::PlantElements::counted))]
fn plant_of(
    alloc: Global,
    document: &Value,
    context: &Context,
    names: &mut Vec<Name>,
) -> Result<Plant, StudyFault>
    requires names { length names.old.items ≤ MAX_BUSES }
    requires buses { length context.now.buses ≤ MAX_BUSES }
    requires elements { length context.now.elements ≤ MAX_ALL_ELEMENTS }
    ensures few { IfOk result (λ plant. length (plant_elements plant) ≤ MAX_ALL_ELEMENTS) }
    ensures few_names { length names.new.items ≤ length names.old.items + MAX_ALL_ELEMENTS }
    ensures names { OnOk result (names.new.items ≡ plant_names names.old.items (view document.now)) }
    ensures read { ReadsInMemory result (plant_fault context.now names.old.items (view document.now)) (plant_value context.now (view document.now)) }
{
    let at = at_most(Section::Source, MAX_ELEMENTS);
    let sources = section_entries::<Source>(alloc, document, at, context, names)?;
    let at = at_most(Section::Line, MAX_ELEMENTS);
    let lines = section_entries::<Line>(alloc, document, at, context, names)?;
    let at = at_most(Section::Transformer, MAX_ELEMENTS);
    let transformers = section_entries::<Transformer>(alloc, document, at, context, names)?;
    let at = at_most(Section::Load, MAX_ELEMENTS);
    let loads = section_entries::<Load>(alloc, document, at, context, names)?;
    let at = at_most(Section::Bank, MAX_ELEMENTS);
    let banks = section_entries::<Bank>(alloc, document, at, context, names)?;
    let at = at_most(Section::Filter, MAX_ELEMENTS);
    let filters = section_entries::<Filter>(alloc, document, at, context, names)?;
    Ok(Plant {
        sources,
        lines,
        transformers,
        loads,
        banks,
        filters,
    })
}

/// The context of the points of common coupling.
#[tactic(auto, unfolding(crate::specs::StudyOf::with_elements))]
fn with_elements(alloc: Global, context: Context, plant: &Plant) -> Result<Context, StudyFault>
    ensures same { IfOk result (λ whole. whole ≡ record { version = context.version; model = context.model; buses = context.buses; elements = plant_elements plant.now }) }
    ensures read { ReadsInMemory result None (with_elements context plant.now) }
{
    let Ok(elements) = elements_of(alloc, plant) else {
        return Err(StudyFault::NoMemory);
    };
    Ok(Context {
        version: context.version,
        model: context.model,
        buses: context.buses,
        elements,
    })
}

/// The study of a document of these sections, or its first fault.
#[tactic(auto, unfolding(crate::specs::StudyOf::context_of, crate::specs::StudyOf::targets_of, crate::specs::StudyOf::sections_fault, crate::specs::StudyOf::study_value))]
fn study_in(alloc: Global, document: &Value) -> Result<Study, StudyFault>
    ensures read { ReadsInMemory result (sections_fault (view document.now)) (study_value (view document.now)) }
{
    let header = study_section(document)?;
    let mut names = Vec::new(alloc);
    let before = Context {
        version: header.version,
        model: header.model,
        buses: Items::new(alloc),
        elements: Items::new(alloc),
    };
    let buses = section_entries::<Bus>(alloc, document, some_buses(), &before, &mut names)?;
    let context = Context {
        version: header.version,
        model: header.model,
        buses,
        elements: Items::new(alloc),
    };
    let plant = plant_of(alloc, document, &context, &mut names)?;
    let at = at_most(Section::Scan, MAX_SCANS);
    let scans = section_entries::<ScanItem>(alloc, document, at, &context, &mut names)?;
    let context = with_elements(alloc, context, &plant)?;
    let at = at_most(Section::Pcc, MAX_POINTS);
    let points = section_entries::<Pcc>(alloc, document, at, &context, &mut names)?;
    let targets = Targets {
        model: header.model,
        elements: context.elements,
        scans,
    };
    let variants = variants_of(alloc, document, &targets)?;
    Ok(Study {
        version: header.version,
        mva: header.mva,
        hz: header.hz,
        model: header.model,
        scale: header.scale,
        method: header.method,
        root3: header.root3,
        buses: context.buses,
        sources: plant.sources,
        lines: plant.lines,
        transformers: plant.transformers,
        loads: plant.loads,
        banks: plant.banks,
        filters: plant.filters,
        scans: targets.scans,
        points,
        candidates: variants.candidates,
        tolerances: variants.tolerances,
        outages: variants.outages,
    })
}

/// The study of a document, or its first fault.
#[tactic(auto, unfolding(crate::specs::StudyOf::study_fault))]
fn study_of(alloc: Global, table: Table) -> Result<Study, StudyFault>
    ensures lawful { IfOk result IsLawful }
    ensures read { ReadsInMemory result (study_fault (table_view table)) (study_value (table_data (table_view table))) }
{
    known_sections(&table)?;
    let study = study_in(alloc, &Value::Table(table))?;
    Ok(study)
}

/// The fault of bytes that have no table: they are no TOML, or memory ran out.
fn fault_of(error: &toml::de::Error) -> StudyFault
    ensures memory { IsMemory error.now → result ≡ NoMemory }
    ensures none { ¬ (IsMemory error.now) → result ≡ NotToml }
{
    if error.is_memory() {
        StudyFault::NoMemory
    } else {
        StudyFault::NotToml
    }
}

/// The study of the bytes of a TOML document, in this project's own format (docs/study.md). A bus is its number
/// from 0, and an absent key has its default.
///
/// # Errors
///
/// The first refusal in the order of the format, and `NoMemory`.
pub fn read_study(alloc: Global, bytes: &[u8]) -> Result<Study, StudyFault>
    ensures study { IfOk result (IsStudy bytes.now) }
    ensures refused { IfErr result (λ fault. fault ≢ NoMemory → Refused bytes.now fault) }
    ensures lawful { IfOk result IsLawful }
{
    let table = match toml::table_from_slice(alloc, bytes) {
        Ok(table) => table,
        Err(error) => return Err(fault_of(&error)),
    };
    match study_of(alloc, table) {
        Ok(study) => Ok(study),
        Err(fault) => Err(fault),
    }
}
