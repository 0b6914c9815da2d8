// The sections of a document, and the arrays of their entries.
ghost use Rattle.std.specs.Prelude.{◌≡◌, ◌≤◌, Some, length, option_map, IfOk, OnOk};
ghost use Rattle.toml.specs.View.{view, items_view, table_view};
ghost use Rattle.study_reader.specs.Checks.{Reads, ReadsBy, place_of};
ghost use Rattle.study_reader.specs.Sections.{is_section, are_sections, top_fault, section_in, array_check, array_fault, items_in, count_fault, count_items};
ghost use Rattle.study_reader.specs.StudyOf.{at_most};
ghost use Rattle.study_model.specs.declared.fault.Key.TheVariants.{Nothing};

use study_model::{Key, Place, Section, StudyFault};
use toml::{Table, Value};

/// How a section may occur: whether it may be absent, and how many entries it may have where it is there.
#[derive(Clone, Copy)]
pub(crate) struct Occurrence {
    pub(crate) section: Section,
    pub(crate) optional: bool,
    pub(crate) least: usize,
    pub(crate) most: usize,
}

/// A section that may be absent, of at most so many entries.
pub(crate) fn at_most(section: Section, most: u32) -> Occurrence
    ensures { result ≡ at_most section most }
{
    Occurrence {
        section,
        optional: true,
        least: 0,
        most: most as usize,
    }
}

/// The value at the word of a section.
pub(crate) fn section<'a>(document: &'a Value, at: Section) -> Option<&'a Value>
    ensures { option_map (λ v. view v.now) result ≡ section_in at (view document.now) }
{
    document.get(at.text())
}

fn is_section(sections: &[Section], name: &str) -> bool
    ensures { result ≡ is_section sections.now name.now }
{
    for section in sections {
        if section.text() == name {
            return true;
        }
    }
    false
}

/// Whether the keys of a document are the words of these sections.
fn are_sections(sections: &[Section], table: &Table) -> bool
    ensures { result ≡ are_sections sections.now (table_view table.now) }
{
    'members: for (key, _value) in table.iter() {
        if !is_section(sections, key.as_str()) {
            return false;
        }
    }
    true
}

/// A document has no section that a study hasn't.
#[tactic(auto, unfolding(crate::specs::Sections::top_fault))]
pub(crate) fn known_sections(table: &Table) -> Result<(), StudyFault>
    ensures read { Reads result (top_fault (table_view table.now)) tt }
{
    let sections = [
        Section::Study,
        Section::Bus,
        Section::Source,
        Section::Line,
        Section::Transformer,
        Section::Load,
        Section::Bank,
        Section::Filter,
        Section::Scan,
        Section::Pcc,
        Section::Candidate,
        Section::Tolerance,
        Section::Outage,
    ];
    if are_sections(&sections, table) {
        Ok(())
    } else {
        Err(StudyFault::UnknownKey(whole_section(Section::Top)))
    }
}

/// The place of a section as a whole.
fn whole_section(at: Section) -> Place
    ensures { result ≡ place_of at 0 Nothing }
{
    Place {
        section: at,
        entry: 0,
        key: Key::Nothing,
    }
}

#[tactic(auto, using(crate::proofs::Counts::count_of_items))]
fn counted(values: &[Value], place: Place, least: usize, most: usize) -> Result<(), StudyFault>
    ensures read { Reads result (count_fault place least most (count_items (items_view values.now))) tt }
    ensures few { OnOk result (length values.now ≤ most) }
{
    if values.len() < least {
        return Err(StudyFault::MissingKey(place));
    }
    if values.len() > most {
        return Err(StudyFault::TooMany(place));
    }
    Ok(())
}

fn array_of<'a>(value: &'a Value, occurrence: Occurrence) -> Result<&'a [Value], StudyFault>
    ensures read { ReadsBy (λ values. items_view values.now) result (array_check occurrence (view value.now))
        (items_in (Some (view value.now))) }
    ensures few { IfOk result (λ values. length values.now ≤ occurrence.most) }
{
    let place = whole_section(occurrence.section);
    match value {
        Value::Array(values) => {
            counted(values, place, occurrence.least, occurrence.most)?;
            Ok(values.as_slice())
        }
        _ => Err(StudyFault::WrongKind(place)),
    }
}

/// The array of a section's entries.
pub(crate) fn array<'a>(
    document: &'a Value,
    occurrence: Occurrence,
) -> Result<&'a [Value], StudyFault>
    ensures read { ReadsBy (λ values. items_view values.now) result (array_fault occurrence (section_in occurrence.section (view document.now)))
        (items_in (section_in occurrence.section (view document.now))) }
    ensures few { IfOk result (λ values. length values.now ≤ occurrence.most) }
{
    match section(document, occurrence.section) {
        Some(value) => array_of(value, occurrence),
        None => {
            if occurrence.optional {
                Ok(&[])
            } else {
                Err(StudyFault::MissingKey(whole_section(occurrence.section)))
            }
        }
    }
}
