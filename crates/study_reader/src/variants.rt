// The sections that come after the points: candidates, tolerances and outages.
ghost use Rattle.std.specs.Prelude.{◌≡◌, ◌≤◌, ◌∷◌, [], ◌++◌, length, IfErr, OnOk};
ghost use Rattle.toml.specs.View.{view, items_view};
ghost use Rattle.study_model.specs.declared.fault.StudyFault.TheVariants.{NoMemory};
ghost use Rattle.study_model.specs.declared.limits.TheConstants.{MAX_ALL_ELEMENTS, MAX_SCANS};
ghost use Rattle.study_reader.specs.Checks.{ReadsInMemory};
ghost use Rattle.study_reader.specs.Sections.{entries_of, section_value};
ghost use Rattle.study_reader.specs.References.{references_fault, reference_section_fault};
ghost use Rattle.study_reader.specs.StudyOf.{variants_fault, variants_value};

use crate::arrays::{Occurrence, array, at_most};
use crate::reference::{Reference, Targets};
use sqlite_items::Items;
use std::alloc::Global;
use study_model::{
    Candidate, Key, MAX_CANDIDATES, MAX_ELEMENTS, MAX_OUTAGES, MAX_TOLERANCES, Outage, Place,
    Section, StudyFault, Tolerance,
};
use toml::Value;

/// Keeps an entry behind those before.
fn keep<R: Drop>(made: &mut Vec<R>, entry: R) -> Result<(), StudyFault>
    ensures made { OnOk result (made.new.items ≡ made.old.items ++ entry ∷ []) }
    ensures memory { IfErr result (λ fault. fault ≡ NoMemory) }
{
    if made.push(entry).is_err() {
        return Err(StudyFault::NoMemory);
    }
    Ok(())
}

/// The entries of an array in order.
fn references<R: Reference>(
    alloc: Global,
    values: &[Value],
    section: Section,
    targets: &Targets,
) -> Result<Items<R>, StudyFault>
    requires few { length values.now ≤ MAX_ELEMENTS }
    requires elements { length targets.now.elements ≤ MAX_ALL_ELEMENTS }
    requires scans { length targets.now.scans ≤ MAX_SCANS }
    ensures read { ReadsInMemory result (references_fault R.fault R.value targets.now section [] 1 (items_view values.now))
        (entries_of (R.value targets.now) (items_view values.now)) }
{
    let mut made = Vec::new(alloc);
    let mut number = 1;
    for value in values {
        let place = Place {
            section,
            entry: number,
            key: Key::Nothing,
        };
        let entry = R::read(alloc, value, place, made.as_slice(), targets)?;
        number += 1;
        keep::<R>(&mut made, entry)?;
    }
    Ok(Items::from_vec(made))
}

/// The entries of a section.
#[tactic(auto, unfolding(crate::specs::References::reference_section_fault, crate::specs::Sections::section_value))]
fn section_references<R: Reference>(
    alloc: Global,
    document: &Value,
    occurrence: Occurrence,
    targets: &Targets,
) -> Result<Items<R>, StudyFault>
    requires most { occurrence.most ≤ MAX_ELEMENTS }
    requires elements { length targets.now.elements ≤ MAX_ALL_ELEMENTS }
    requires scans { length targets.now.scans ≤ MAX_SCANS }
    ensures read { ReadsInMemory result (reference_section_fault R.fault R.value occurrence targets.now (view document.now))
        (section_value (R.value targets.now) occurrence.section (view document.now)) }
{
    let values = array(document, occurrence)?;
    references::<R>(alloc, values, occurrence.section, targets)
}

/// What differs in other studies: banks to be added, tolerances of elements, and elements out of service.
#[derive(Drop)]
pub(crate) struct Variants {
    pub(crate) candidates: Items<Candidate>,
    pub(crate) tolerances: Items<Tolerance>,
    pub(crate) outages: Items<Outage>,
}

/// The candidates, tolerances and outages of a document.
#[tactic(auto, unfolding(crate::specs::StudyOf::variants_fault, crate::specs::StudyOf::variants_value))]
pub(crate) fn variants_of(
    alloc: Global,
    document: &Value,
    targets: &Targets,
) -> Result<Variants, StudyFault>
    requires elements { length targets.now.elements ≤ MAX_ALL_ELEMENTS }
    requires scans { length targets.now.scans ≤ MAX_SCANS }
    ensures read { ReadsInMemory result (variants_fault targets.now (view document.now)) (variants_value targets.now (view document.now)) }
{
    let at = at_most(Section::Candidate, MAX_CANDIDATES);
    let candidates = section_references::<Candidate>(alloc, document, at, targets)?;
    let at = at_most(Section::Tolerance, MAX_TOLERANCES);
    let tolerances = section_references::<Tolerance>(alloc, document, at, targets)?;
    let at = at_most(Section::Outage, MAX_OUTAGES);
    let outages = section_references::<Outage>(alloc, document, at, targets)?;
    Ok(Variants {
        candidates,
        tolerances,
        outages,
    })
}
