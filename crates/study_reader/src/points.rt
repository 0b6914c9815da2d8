// The entry of a point of common coupling: the only one that names an element, so it stands last.
ghost use Rattle.std.specs.Prelude.{◌≡◌, ◌≤◌, length};
ghost use Rattle.toml.specs.View.{view};
ghost use Rattle.study_reader.specs.Checks.{Reads};
ghost use Rattle.study_reader.specs.Points.{is_element, element_at, element_fault, element_value, point_entry_fault, point_entry};
ghost use Rattle.study_model.specs.declared.limits.TheConstants.{MAX_ALL_ELEMENTS};

use crate::context::{Context, Element};
use crate::decimals::decimal;
use crate::entry::Entry;
use crate::keys::{bus, entry_keys, find, key_of, name};
use study_model::{Key, Name, Pcc, Place, Range, StudyFault};
use toml::Value;

fn is_element(text: &[u8], bus: u32, element: &Element) -> bool
    ensures { result ≡ is_element text.now bus element.now }
{
    element.name.as_bytes() == text && (element.from == bus || element.to == bus)
}

/// The number of the element of a name that touches a bus.
fn place_of_element(elements: &[Element], text: &[u8], bus: u32) -> Option<u32>
    requires { length elements.now ≤ MAX_ALL_ELEMENTS }
    ensures found { result ≡ element_at 1 elements.now text.now bus }
{
    let mut number = 1;
    for element in elements {
        if is_element(text, bus, element) {
            return Some(number);
        }
        number += 1;
    }
    None
}

#[tactic(auto, unfolding(crate::specs::Points::element_fault, crate::specs::Points::element_value))]
fn element_of(
    entry: &Value,
    place: Place,
    elements: &[Element],
    bus: u32,
) -> Result<u32, StudyFault>
    requires { length elements.now ≤ MAX_ALL_ELEMENTS }
    ensures read { Reads result (element_fault place elements.now bus (view entry.now)) (element_value elements.now bus (view entry.now)) }
{
    match find(entry, Key::Element) {
        None => Err(StudyFault::MissingKey(key_of(place, Key::Element))),
        Some(Value::String(text)) => match Name::parse(text.as_bytes()) {
            None => Err(StudyFault::BadName(key_of(place, Key::Element))),
            Some(_) => match place_of_element(elements, text.as_bytes(), bus) {
                Some(number) => Ok(number),
                None => Err(StudyFault::UnknownElement(key_of(place, Key::Element))),
            },
        },
        Some(_) => Err(StudyFault::WrongKind(key_of(place, Key::Element))),
    }
}

impl Entry for Pcc {
    ghost fault = { point_entry_fault };

    ghost value = { point_entry };

    #[tactic(auto, unfolding(crate::specs::Points::point_entry_fault, crate::specs::Points::point_entry))]
    fn read(
        entry: &Value,
        place: Place,
        earlier: &[Name],
        context: &Context,
    ) -> Result<(Name, Pcc), StudyFault> {
        let keys = [Key::Name, Key::Bus, Key::Element, Key::Isc, Key::Il];
        entry_keys(entry, place, place, &keys)?;
        let name = name(entry, place, earlier)?;
        let bus = bus(entry, place, Key::Bus, context.buses.as_slice())?;
        let element = element_of(entry, place, context.elements.as_slice(), bus)?;
        let isc = decimal(entry, place, Key::Isc, Range::AMPERES)?;
        let il = decimal(entry, place, Key::Il, Range::AMPERES)?;
        let point = Pcc {
            name,
            bus,
            element,
            isc,
            il,
        };
        Ok((name, point))
    }
}
