// The entries of tolerances and outages, each of which names an element.
ghost use Rattle.std.specs.Prelude.{◌≡◌, ◌≤◌, length, unsigned_abs};
ghost use Rattle.toml.specs.View.{view};
ghost use Rattle.study_model.specs.declared.limits.TheConstants.{MAX_ALL_ELEMENTS};
ghost use Rattle.study_reader.specs.Checks.{Reads};
ghost use Rattle.study_reader.specs.References.{named_at, named_fault, named_value, repeated_fault};
ghost use Rattle.study_reader.specs.Variants.{model_fault, permille_of, permille_fault, permille_value, has_tolerance, tolerance_entry_fault, tolerance_entry, has_outage, outage_entry_fault, outage_entry};

use crate::context::Element;
use crate::groups::in_phases;
use crate::keys::{entry_keys, find, key_of};
use crate::reference::{Reference, Targets};
use std::alloc::Global;
use study_model::{Key, MAX_PERMILLE, Name, Outage, Place, StudyFault, StudyModel, Tolerance};
use toml::Value;

/// The number of the element of a name.
fn number_of_element(elements: &[Element], text: &[u8]) -> Option<u32>
    requires { length elements.now ≤ MAX_ALL_ELEMENTS }
    ensures found { result ≡ named_at 1 elements.now text.now }
{
    let mut number = 1;
    for element in elements {
        if element.name.as_bytes() == text {
            return Some(number);
        }
        number += 1;
    }
    None
}

/// The number of the element at a key.
#[tactic(auto, unfolding(crate::specs::References::named_fault, crate::specs::References::named_value))]
fn element(entry: &Value, place: Place, elements: &[Element]) -> Result<u32, StudyFault>
    requires { length elements.now ≤ MAX_ALL_ELEMENTS }
    ensures read { Reads result (named_fault place elements.now (view entry.now)) (named_value elements.now (view entry.now)) }
{
    match find(entry, Key::Element) {
        None => Err(StudyFault::MissingKey(key_of(place, Key::Element))),
        Some(Value::String(text)) => match Name::parse(text.as_bytes()) {
            None => Err(StudyFault::BadName(key_of(place, Key::Element))),
            Some(_) => match number_of_element(elements, text.as_bytes()) {
                Some(number) => Ok(number),
                None => Err(StudyFault::UnknownElement(key_of(place, Key::Element))),
            },
        },
        Some(_) => Err(StudyFault::WrongKind(key_of(place, Key::Element))),
    }
}

/// No earlier entry is of the element.
#[tactic(auto, unfolding(crate::specs::References::repeated_fault))]
fn not_repeated(place: Place, repeated: bool) -> Result<(), StudyFault>
    ensures read { Reads result (repeated_fault place repeated) tt }
{
    if repeated {
        return Err(StudyFault::OutOfRange(key_of(place, Key::Element)));
    }
    Ok(())
}

/// In the phases model no text at the key of an element is in range.
#[tactic(auto, unfolding(crate::specs::Variants::model_fault))]
fn in_sequences(entry: &Value, place: Place, model: StudyModel) -> Result<(), StudyFault>
    ensures read { Reads result (model_fault place model (view entry.now)) tt }
{
    match find(entry, Key::Element) {
        Some(Value::String(_)) => {
            if in_phases(model) {
                Err(StudyFault::OutOfRange(key_of(place, Key::Element)))
            } else {
                Ok(())
            }
        }
        _ => Ok(()),
    }
}

fn thousandths(number: i64, place: Place) -> Result<u32, StudyFault>
    ensures read { Reads result (permille_of place number) (unsigned_abs number) }
{
    if number < 1 || number > i64::from(MAX_PERMILLE) {
        return Err(StudyFault::OutOfRange(place));
    }
    Ok(number as u32)
}

/// The thousandths of a tolerance.
#[tactic(auto, unfolding(crate::specs::Variants::permille_fault, crate::specs::Variants::permille_value))]
fn permille(entry: &Value, place: Place) -> Result<u32, StudyFault>
    ensures read { Reads result (permille_fault place (view entry.now)) (permille_value (view entry.now)) }
{
    match find(entry, Key::Permille) {
        None => Err(StudyFault::MissingKey(key_of(place, Key::Permille))),
        Some(Value::Integer(number)) => thousandths(*number, key_of(place, Key::Permille)),
        Some(_) => Err(StudyFault::WrongKind(key_of(place, Key::Permille))),
    }
}

fn has_tolerance(earlier: &[Tolerance], number: u32) -> bool
    ensures { result ≡ has_tolerance earlier.now number }
{
    earlier.iter().any(|tolerance| tolerance.element == number)
}

impl Reference for Tolerance {
    ghost fault = { tolerance_entry_fault };

    ghost value = { tolerance_entry };

    #[tactic(auto, unfolding(crate::specs::Variants::tolerance_entry_fault, crate::specs::Variants::tolerance_entry))]
    fn read(
        _alloc: Global,
        entry: &Value,
        place: Place,
        earlier: &[Tolerance],
        targets: &Targets,
    ) -> Result<Tolerance, StudyFault> {
        let keys = [Key::Element, Key::Permille];
        entry_keys(entry, place, place, &keys)?;
        in_sequences(entry, place, targets.model)?;
        let element = element(entry, place, targets.elements.as_slice())?;
        not_repeated(place, has_tolerance(earlier, element))?;
        let permille = permille(entry, place)?;
        Ok(Tolerance { element, permille })
    }
}

fn has_outage(earlier: &[Outage], number: u32) -> bool
    ensures { result ≡ has_outage earlier.now number }
{
    earlier.iter().any(|outage| outage.element == number)
}

impl Reference for Outage {
    ghost fault = { outage_entry_fault };

    ghost value = { outage_entry };

    #[tactic(auto, unfolding(crate::specs::Variants::outage_entry_fault, crate::specs::Variants::outage_entry))]
    fn read(
        _alloc: Global,
        entry: &Value,
        place: Place,
        earlier: &[Outage],
        targets: &Targets,
    ) -> Result<Outage, StudyFault> {
        let keys = [Key::Element];
        entry_keys(entry, place, place, &keys)?;
        let element = element(entry, place, targets.elements.as_slice())?;
        not_repeated(place, has_outage(earlier, element))?;
        Ok(Outage { element })
    }
}
