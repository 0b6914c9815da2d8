// The entries of lines and transformers.
ghost use Rattle.std.specs.Prelude.{◌≡◌, ◌≤◌, false, length};
ghost use Rattle.toml.specs.View.{view};
ghost use Rattle.study_reader.specs.Checks.{Reads, word_fault};
ghost use Rattle.study_model.specs.Voltages.{kv_of};
ghost use Rattle.study_model.specs.ValueWords.{connection_of};
ghost use Rattle.study_reader.specs.Branches.{line_ends_fault, at_most_fault, has_mutual, mutual_fault, mutuals, line_front_fault, line_entry_fault, line_entry, ends, ends_fault, rating_fault, rating, is_grounded, connection_at, neutral_fault, neutral, transformer_front_fault, transformer_entry_fault, transformer_entry};
ghost use Rattle.study_model.specs.declared.limits.TheConstants.{MAX_NAMES, MAX_BUSES};

use crate::context::Context;
use crate::decimals::{decimal, decimal_or, optional_decimal, sections};
use crate::entry::Entry;
use crate::groups::{NONE, ONE, impedance_of, in_phases, skin_of, zero_sequence_of};
use crate::keys::{bus, entry_keys, has, key_of, name, not_stray};
use crate::words::word;
use fixed_decimal::Decimal;
use study_model::{
    Bus, Connection, Key, Line, Name, Place, Range, StudyFault, StudyModel, Transformer,
};
use toml::Value;

/// The nominal voltage of a bus.
fn kv_of(buses: &[Bus], number: u32) -> Decimal
    ensures { result ≡ kv_of buses.now number }
{
    match buses.get(number as usize) {
        Some(bus) => bus.kv,
        None => NONE,
    }
}

/// The ends of a line are two buses of one voltage.
#[tactic(auto, unfolding(crate::specs::Branches::line_ends_fault))]
fn line_ends(place: Place, buses: &[Bus], from: u32, to: u32) -> Result<(), StudyFault>
    ensures read { Reads result (line_ends_fault place buses.now from to) tt }
{
    if from == to {
        return Err(StudyFault::OutOfRange(key_of(place, Key::To)));
    }
    if kv_of(buses, from).millionths != kv_of(buses, to).millionths {
        return Err(StudyFault::OutOfRange(key_of(place, Key::To)));
    }
    Ok(())
}

/// A decimal is at most another.
#[tactic(auto, unfolding(crate::specs::Branches::at_most_fault))]
fn at_most(place: Place, key: Key, value: Decimal, most: Decimal) -> Result<(), StudyFault>
    ensures read { Reads result (at_most_fault place key value most) tt }
{
    if value.millionths > most.millionths {
        return Err(StudyFault::OutOfRange(key_of(place, key)));
    }
    Ok(())
}

/// The mutual reactances of a line's phases in ohms.
#[derive(Clone, Copy)]
pub(crate) struct Mutual {
    pub(crate) xab: Option<Decimal>,
    pub(crate) xbc: Option<Decimal>,
    pub(crate) xca: Option<Decimal>,
}

fn has_mutual(entry: &Value) -> bool
    ensures { result ≡ has_mutual (view entry.now) }
{
    has(entry, Key::Xab) || has(entry, Key::Xbc) || has(entry, Key::Xca)
}

#[tactic(auto, unfolding(crate::specs::Branches::mutual_fault))]
fn mutual_of(entry: &Value, place: Place, model: StudyModel) -> Result<Mutual, StudyFault>
    ensures read { Reads result (mutual_fault model place (view entry.now)) (mutuals (view entry.now)) }
{
    let phases = in_phases(model);
    let needed = phases && has_mutual(entry);
    not_stray(entry, place, Key::Xab, phases)?;
    let xab = optional_decimal(entry, place, Key::Xab, needed, Range::ORDINARY)?;
    not_stray(entry, place, Key::Xbc, phases)?;
    let xbc = optional_decimal(entry, place, Key::Xbc, needed, Range::ORDINARY)?;
    not_stray(entry, place, Key::Xca, phases)?;
    let xca = optional_decimal(entry, place, Key::Xca, needed, Range::ORDINARY)?;
    Ok(Mutual { xab, xbc, xca })
}

/// The name and the two buses of a line or a transformer.
#[derive(Clone, Copy)]
pub(crate) struct Ends {
    pub(crate) name: Name,
    pub(crate) from: u32,
    pub(crate) to: u32,
}

#[tactic(auto, unfolding(crate::specs::Branches::line_front_fault))]
fn line_front(
    entry: &Value,
    place: Place,
    earlier: &[Name],
    context: &Context,
) -> Result<Ends, StudyFault>
    requires earlier { length earlier.now ≤ MAX_NAMES }
    requires buses { length context.now.buses ≤ MAX_BUSES }
    ensures read { Reads result (line_front_fault context.now earlier.now place (view entry.now))
        (ends context.now (view entry.now)) }
{
    let keys = [
        Key::Name,
        Key::From,
        Key::To,
        Key::R,
        Key::X,
        Key::B,
        Key::R0,
        Key::X0,
        Key::B0,
        Key::Sections,
        Key::Xab,
        Key::Xbc,
        Key::Xca,
        Key::SkinK,
        Key::SkinM,
    ];
    entry_keys(entry, place, place, &keys)?;
    let name = name(entry, place, earlier)?;
    let from = bus(entry, place, Key::From, context.buses.as_slice())?;
    let to = bus(entry, place, Key::To, context.buses.as_slice())?;
    line_ends(place, context.buses.as_slice(), from, to)?;
    Ok(Ends { name, from, to })
}

impl Entry for Line {
    ghost fault = { line_entry_fault };

    ghost value = { line_entry };

    #[tactic(auto, unfolding(crate::specs::Branches::line_entry_fault, crate::specs::Branches::line_entry))]
    fn read(
        entry: &Value,
        place: Place,
        earlier: &[Name],
        context: &Context,
    ) -> Result<(Name, Line), StudyFault> {
        let ends = line_front(entry, place, earlier, context)?;
        let impedance = impedance_of(entry, place)?;
        let b = decimal_or(entry, place, Key::B, Range::ORDINARY, NONE)?;
        let zero = zero_sequence_of(entry, place, in_phases(context.model))?;
        let b0 = decimal_or(entry, place, Key::B0, Range::ORDINARY, NONE)?;
        at_most(place, Key::B0, b0, b)?;
        let sections = sections(entry, place)?;
        let mutual = mutual_of(entry, place, context.model)?;
        let skin = skin_of(entry, place)?;
        let line = Line {
            name: ends.name,
            from: ends.from,
            to: ends.to,
            r: impedance.r,
            x: impedance.x,
            b,
            r0: zero.r0,
            x0: zero.x0,
            b0,
            sections,
            xab: mutual.xab,
            xbc: mutual.xbc,
            xca: mutual.xca,
            skin_k: skin.k,
            skin_m: skin.m,
        };
        Ok((ends.name, line))
    }
}

/// The ends of a transformer are two buses.
#[tactic(auto, unfolding(crate::specs::Branches::ends_fault))]
fn two_ends(place: Place, from: u32, to: u32) -> Result<(), StudyFault>
    ensures read { Reads result (ends_fault place from to) tt }
{
    if from == to {
        return Err(StudyFault::OutOfRange(key_of(place, Key::To)));
    }
    Ok(())
}

/// A transformer's own MVA, its impedance in percent, and its ratio.
#[derive(Clone, Copy)]
pub(crate) struct Rating {
    pub(crate) mva: Decimal,
    pub(crate) r: Decimal,
    pub(crate) x: Decimal,
    pub(crate) ratio: Decimal,
}

#[tactic(auto, unfolding(crate::specs::Branches::rating_fault))]
fn rating_of(entry: &Value, place: Place) -> Result<Rating, StudyFault>
    ensures read { Reads result (rating_fault place (view entry.now)) (rating (view entry.now)) }
{
    let mva = decimal(entry, place, Key::Mva, Range::BASE_MVA)?;
    let r = decimal(entry, place, Key::R, Range::RESISTANCE_PERCENT)?;
    let x = decimal(entry, place, Key::X, Range::REACTANCE_PERCENT)?;
    let ratio = decimal_or(entry, place, Key::Ratio, Range::RATIO, ONE)?;
    Ok(Rating { mva, r, x, ratio })
}

/// The impedance of a neutral in ohms.
#[derive(Clone, Copy)]
pub(crate) struct Neutral {
    pub(crate) r: Decimal,
    pub(crate) x: Decimal,
}

fn is_grounded(connection: Connection) -> bool
    ensures { result ≡ is_grounded connection }
{
    match connection {
        Connection::Grounded => true,
        Connection::Star => false,
        Connection::Delta => false,
    }
}

fn connection_at(entry: &Value, place: Place, key: Key) -> Result<Connection, StudyFault>
    ensures { Reads result (word_fault place key false connection_of (view entry.now)) (connection_at key (view entry.now)) }
{
    let connection = word::<Connection>(entry, place, key, false)?;
    Ok(connection.unwrap_or(Connection::Star))
}

#[tactic(auto, unfolding(crate::specs::Branches::neutral_fault))]
fn neutral_of(
    entry: &Value,
    place: Place,
    keys: (Key, Key),
    grounded: bool,
) -> Result<Neutral, StudyFault>
    ensures read { Reads result (neutral_fault place keys.0 keys.1 grounded (view entry.now)) (neutral keys.0 keys.1 (view entry.now)) }
{
    not_stray(entry, place, keys.0, grounded)?;
    let r = decimal_or(entry, place, keys.0, Range::ORDINARY, NONE)?;
    not_stray(entry, place, keys.1, grounded)?;
    let x = decimal_or(entry, place, keys.1, Range::ORDINARY, NONE)?;
    Ok(Neutral { r, x })
}

#[tactic(auto, unfolding(crate::specs::Branches::transformer_front_fault))]
fn transformer_front(
    entry: &Value,
    place: Place,
    earlier: &[Name],
    context: &Context,
) -> Result<Ends, StudyFault>
    requires earlier { length earlier.now ≤ MAX_NAMES }
    requires buses { length context.now.buses ≤ MAX_BUSES }
    ensures read { Reads result (transformer_front_fault context.now earlier.now place (view entry.now))
        (ends context.now (view entry.now)) }
{
    let keys = [
        Key::Name,
        Key::From,
        Key::To,
        Key::Mva,
        Key::R,
        Key::X,
        Key::Ratio,
        Key::FromConn,
        Key::ToConn,
        Key::FromRn,
        Key::FromXn,
        Key::ToRn,
        Key::ToXn,
        Key::SkinK,
        Key::SkinM,
    ];
    entry_keys(entry, place, place, &keys)?;
    let name = name(entry, place, earlier)?;
    let from = bus(entry, place, Key::From, context.buses.as_slice())?;
    let to = bus(entry, place, Key::To, context.buses.as_slice())?;
    two_ends(place, from, to)?;
    Ok(Ends { name, from, to })
}

impl Entry for Transformer {
    ghost fault = { transformer_entry_fault };

    ghost value = { transformer_entry };

    #[tactic(auto, unfolding(crate::specs::Branches::transformer_entry_fault, crate::specs::Branches::transformer_entry))]
    fn read(
        entry: &Value,
        place: Place,
        earlier: &[Name],
        context: &Context,
    ) -> Result<(Name, Transformer), StudyFault> {
        let ends = transformer_front(entry, place, earlier, context)?;
        let rating = rating_of(entry, place)?;
        let from_conn = connection_at(entry, place, Key::FromConn)?;
        let to_conn = connection_at(entry, place, Key::ToConn)?;
        let keys = (Key::FromRn, Key::FromXn);
        let from_neutral = neutral_of(entry, place, keys, is_grounded(from_conn))?;
        let keys = (Key::ToRn, Key::ToXn);
        let to_neutral = neutral_of(entry, place, keys, is_grounded(to_conn))?;
        let skin = skin_of(entry, place)?;
        let transformer = Transformer {
            name: ends.name,
            from: ends.from,
            to: ends.to,
            mva: rating.mva,
            r: rating.r,
            x: rating.x,
            ratio: rating.ratio,
            from_conn,
            to_conn,
            from_rn: from_neutral.r,
            from_xn: from_neutral.x,
            to_rn: to_neutral.r,
            to_xn: to_neutral.x,
            skin_k: skin.k,
            skin_m: skin.m,
        };
        Ok((ends.name, transformer))
    }
}
