// The entry of a load. Which keys belong to it depends on its model, so the model is read first.
ghost use Rattle.std.specs.Prelude.{◌≡◌};
ghost use Rattle.toml.specs.View.{view};
ghost use Rattle.study_reader.specs.Checks.{Reads};
ghost use Rattle.study_reader.specs.Loads.{is_series, power_range, part_fault, parts_fault, part, load_entry_fault, load_entry};
ghost use Rattle.study_reader.specs.Checks.{option_value};

use crate::context::Context;
use crate::decimals::{not_both_zero, optional_decimal};
use crate::entry::Entry;
use crate::groups::wiring_of;
use crate::keys::{bus, entry_keys, name, not_stray};
use crate::words::word;
use fixed_decimal::Decimal;
use study_model::{Key, Load, LoadModel, Name, Place, Range, StudyFault};
use toml::Value;

/// Two decimals that belong together: a power, or an impedance.
#[derive(Clone, Copy)]
pub(crate) struct Part {
    pub(crate) first: Option<Decimal>,
    pub(crate) second: Option<Decimal>,
}

fn is_series(model: LoadModel) -> bool
    ensures { result ≡ is_series model }
{
    match model {
        LoadModel::Cigre => false,
        LoadModel::Parallel => false,
        LoadModel::Series => true,
    }
}

fn power_range(model: LoadModel) -> Range
    ensures { result ≡ power_range model }
{
    match model {
        LoadModel::Cigre => Range::ABOVE_ZERO,
        LoadModel::Parallel => Range::ORDINARY,
        LoadModel::Series => Range::ORDINARY,
    }
}

/// A decimal that stands there exactly where it belongs.
#[tactic(auto, unfolding(crate::specs::Loads::part_fault))]
fn belonging(
    entry: &Value,
    place: Place,
    key: Key,
    belongs: bool,
    range: Range,
) -> Result<Option<Decimal>, StudyFault>
    ensures read { Reads result (part_fault place key belongs range (view entry.now)) (option_value key (view entry.now)) }
{
    not_stray(entry, place, key, belongs)?;
    optional_decimal(entry, place, key, belongs, range)
}

#[tactic(auto, unfolding(crate::specs::Loads::parts_fault))]
fn part_of(
    entry: &Value,
    place: Place,
    keys: (Key, Key),
    belongs: bool,
    range: Range,
) -> Result<Part, StudyFault>
    ensures read { Reads result (parts_fault place keys.0 keys.1 belongs range (view entry.now)) (part keys.0 keys.1 (view entry.now)) }
{
    let first = belonging(entry, place, keys.0, belongs, range)?;
    let second = belonging(entry, place, keys.1, belongs, Range::ORDINARY)?;
    not_both_zero(place, keys.1, &first, &second)?;
    Ok(Part { first, second })
}

impl Entry for Load {
    ghost fault = { load_entry_fault };

    ghost value = { load_entry };

    #[tactic(auto, unfolding(crate::specs::Loads::load_entry_fault, crate::specs::Loads::load_entry))]
    fn read(
        entry: &Value,
        place: Place,
        earlier: &[Name],
        context: &Context,
    ) -> Result<(Name, Load), StudyFault> {
        let keys = [
            Key::Name,
            Key::Bus,
            Key::Model,
            Key::P,
            Key::Q,
            Key::R,
            Key::X,
            Key::Grounded,
            Key::Phase,
        ];
        entry_keys(entry, place, place, &keys)?;
        let name = name(entry, place, earlier)?;
        let bus = bus(entry, place, Key::Bus, context.buses.as_slice())?;
        let model = word::<LoadModel>(entry, place, Key::Model, true)?;
        let model = model.unwrap_or(LoadModel::Cigre);
        let has_power = !is_series(model);
        let power = part_of(
            entry,
            place,
            (Key::P, Key::Q),
            has_power,
            power_range(model),
        )?;
        let ohms = part_of(
            entry,
            place,
            (Key::R, Key::X),
            is_series(model),
            Range::ORDINARY,
        )?;
        let wiring = wiring_of(entry, place, context.model)?;
        let load = Load {
            name,
            bus,
            model,
            p: power.first,
            q: power.second,
            r: ohms.first,
            x: ohms.second,
            grounded: wiring.grounded,
            phase: wiring.phase,
        };
        Ok((name, load))
    }
}
