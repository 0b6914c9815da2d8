// The keys of an entry, and its names.
ghost use Rattle.std.specs.Prelude.{◌≡◌, ◌≤◌, length, option_map};
ghost use Rattle.toml.specs.View.{view, table_view};
ghost use Rattle.study_reader.specs.Checks.{Reads, key_of, at, has, stray_fault, flag_fault, flag_value, name_at, bus_at, name_fault, name_value, reserved_fault, bus_fault, bus_value, is_listed, are_listed, keys_fault};
ghost use Rattle.study_model.specs.declared.limits.TheConstants.{MAX_NAMES, MAX_BUSES};

use study_model::{Bus, Key, Name, Place, StudyFault};
use toml::{Table, Value};

/// A key of the entry at a place.
pub(crate) fn key_of(place: Place, key: Key) -> Place
    ensures { result ≡ key_of place key }
{
    Place {
        section: place.section,
        entry: place.entry,
        key,
    }
}

/// The value at a key of an entry.
pub(crate) fn find<'a>(entry: &'a Value, key: Key) -> Option<&'a Value>
    ensures { option_map (λ v. view v.now) result ≡ at key (view entry.now) }
{
    entry.get(key.text())
}

/// Whether an entry has a key.
pub(crate) fn has(entry: &Value, key: Key) -> bool
    ensures { result ≡ has key (view entry.now) }
{
    match find(entry, key) {
        Some(_) => true,
        None => false,
    }
}

/// A key that is there belongs there.
#[tactic(auto, unfolding(crate::specs::Checks::stray_fault))]
pub(crate) fn not_stray(
    entry: &Value,
    place: Place,
    key: Key,
    belongs: bool,
) -> Result<(), StudyFault>
    ensures read { Reads result (stray_fault place key belongs (view entry.now)) tt }
{
    if belongs {
        return Ok(());
    }
    if has(entry, key) {
        Err(StudyFault::UnknownKey(key_of(place, key)))
    } else {
        Ok(())
    }
}

/// What stands at a key that is true or false, which is false where it is absent.
#[tactic(auto, unfolding(crate::specs::Checks::flag_fault, crate::specs::Checks::flag_value))]
pub(crate) fn flag(entry: &Value, place: Place, key: Key) -> Result<bool, StudyFault>
    ensures { Reads result (flag_fault place key (view entry.now)) (flag_value key (view entry.now)) }
{
    match find(entry, key) {
        None => Ok(false),
        Some(Value::Boolean(flag)) => Ok(*flag),
        Some(_) => Err(StudyFault::WrongKind(key_of(place, key))),
    }
}

/// The place of a name among names.
fn place_of_name(names: &[Name], text: &[u8]) -> Option<u32>
    requires { length names.now ≤ MAX_NAMES }
    ensures { result ≡ name_at 0 names.now text.now }
{
    let mut place = 0;
    for name in names {
        if name.as_bytes() == text {
            return Some(place);
        }
        place += 1;
    }
    None
}

/// A name that no earlier entry has.
#[tactic(auto, unfolding(crate::specs::Checks::name_fault, crate::specs::Checks::name_value))]
pub(crate) fn name(entry: &Value, place: Place, earlier: &[Name]) -> Result<Name, StudyFault>
    requires { length earlier.now ≤ MAX_NAMES }
    ensures read { Reads result (name_fault place earlier.now (view entry.now)) (name_value (view entry.now)) }
{
    match find(entry, Key::Name) {
        None => Err(StudyFault::MissingKey(key_of(place, Key::Name))),
        Some(Value::String(text)) => match Name::parse(text.as_bytes()) {
            None => Err(StudyFault::BadName(key_of(place, Key::Name))),
            Some(name) => match place_of_name(earlier, text.as_bytes()) {
                Some(_) => Err(StudyFault::DuplicateName(key_of(place, Key::Name))),
                None => Ok(name),
            },
        },
        Some(_) => Err(StudyFault::WrongKind(key_of(place, Key::Name))),
    }
}

/// No text at a name's key is this word.
#[tactic(auto, unfolding(crate::specs::Checks::reserved_fault, crate::specs::Checks::name_value))]
pub(crate) fn not_reserved(entry: &Value, place: Place, word: &str) -> Result<(), StudyFault>
    ensures read { Reads result (reserved_fault place word.now (view entry.now)) tt }
{
    match find(entry, Key::Name) {
        Some(Value::String(text)) => {
            if text.as_str() == word {
                Err(StudyFault::BadName(key_of(place, Key::Name)))
            } else {
                Ok(())
            }
        }
        _ => Ok(()),
    }
}

/// The place of the bus of a name.
fn place_of_bus(buses: &[Bus], text: &[u8]) -> Option<u32>
    requires { length buses.now ≤ MAX_BUSES }
    ensures { result ≡ bus_at 0 buses.now text.now }
{
    let mut place = 0;
    for bus in buses {
        if bus.name.as_bytes() == text {
            return Some(place);
        }
        place += 1;
    }
    None
}

/// The number of the bus of a name.
#[tactic(auto, unfolding(crate::specs::Checks::bus_fault, crate::specs::Checks::bus_value))]
pub(crate) fn bus(entry: &Value, place: Place, key: Key, buses: &[Bus]) -> Result<u32, StudyFault>
    requires { length buses.now ≤ MAX_BUSES }
    ensures read { Reads result (bus_fault place key buses.now (view entry.now)) (bus_value key buses.now (view entry.now)) }
{
    match find(entry, key) {
        None => Err(StudyFault::MissingKey(key_of(place, key))),
        Some(Value::String(text)) => match Name::parse(text.as_bytes()) {
            None => Err(StudyFault::BadName(key_of(place, key))),
            Some(_) => match place_of_bus(buses, text.as_bytes()) {
                Some(number) => Ok(number),
                None => Err(StudyFault::UnknownBus(key_of(place, key))),
            },
        },
        Some(_) => Err(StudyFault::WrongKind(key_of(place, key))),
    }
}

fn is_listed(keys: &[Key], name: &str) -> bool
    ensures { result ≡ is_listed keys.now name.now }
{
    for key in keys {
        if key.text() == name {
            return true;
        }
    }
    false
}

fn are_listed(keys: &[Key], table: &Table) -> bool
    ensures { result ≡ are_listed keys.now (table_view table.now) }
{
    'members: for (key, _value) in table.iter() {
        if !is_listed(keys, key.as_str()) {
            return false;
        }
    }
    true
}

/// An entry is a table that has no key beyond these. `kind` and `unknown` are the places of the two faults.
#[tactic(auto, unfolding(crate::specs::Checks::keys_fault))]
pub(crate) fn entry_keys(
    entry: &Value,
    kind: Place,
    unknown: Place,
    keys: &[Key],
) -> Result<(), StudyFault>
    ensures { Reads result (keys_fault kind unknown keys.now (view entry.now)) tt }
{
    match entry {
        Value::Table(table) => {
            if are_listed(keys, table) {
                Ok(())
            } else {
                Err(StudyFault::UnknownKey(unknown))
            }
        }
        _ => Err(StudyFault::WrongKind(kind)),
    }
}
