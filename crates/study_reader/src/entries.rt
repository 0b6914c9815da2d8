// The entries of buses, sources, banks, filters and scans.
ghost use Rattle.toml.specs.View.{view};
ghost use Rattle.study_reader.specs.Checks.{Reads};
ghost use Rattle.study_reader.specs.Entries.{bus_entry_fault, bus_entry, source_entry_fault, source_entry, bank_entry_fault, bank_entry, filter_entry_fault, filter_entry, scan_keys_fault, scanned_fault, scanned, upwards_fault, widths_fault, locate_fault, band_fault, band, scan_entry_fault, scan_entry};

use crate::context::Context;
use crate::curves::{Limit, has_curves, limit_of};
use crate::decimals::{decimal, decimal_or};
use crate::entry::Entry;
use crate::groups::{impedance_of, in_phases, skin_of, wiring_of, zero_sequence_of};
use crate::keys::{bus, entry_keys, key_of, name, not_reserved, not_stray};
use crate::words::word;
use fixed_decimal::Decimal;
use study_model::{
    Bank, Bus, Filter, FilterKind, Key, MAX_WIDTHS, Name, Phase, Place, Range, ScanItem, Sequence,
    Source, StudyFault, StudyModel,
};
use toml::Value;

impl Entry for Bus {
    ghost fault = { bus_entry_fault };

    ghost value = { bus_entry };

    #[tactic(auto, unfolding(crate::specs::Entries::bus_entry_fault, crate::specs::Entries::bus_entry))]
    fn read(
        entry: &Value,
        place: Place,
        earlier: &[Name],
        context: &Context,
    ) -> Result<(Name, Bus), StudyFault> {
        let keys = [Key::Name, Key::Kv];
        entry_keys(entry, place, place, &keys)?;
        let name = name(entry, place, earlier)?;
        let kv = decimal(entry, place, Key::Kv, Range::BUS_KV)?;
        let bus = Bus { name, kv };
        Ok((name, bus))
    }
}

impl Entry for Source {
    ghost fault = { source_entry_fault };

    ghost value = { source_entry };

    #[tactic(auto, unfolding(crate::specs::Entries::source_entry_fault, crate::specs::Entries::source_entry))]
    fn read(
        entry: &Value,
        place: Place,
        earlier: &[Name],
        context: &Context,
    ) -> Result<(Name, Source), StudyFault> {
        let keys = [
            Key::Name,
            Key::Bus,
            Key::R,
            Key::X,
            Key::R0,
            Key::X0,
            Key::SkinK,
            Key::SkinM,
        ];
        entry_keys(entry, place, place, &keys)?;
        let name = name(entry, place, earlier)?;
        let bus = bus(entry, place, Key::Bus, context.buses.as_slice())?;
        let impedance = impedance_of(entry, place)?;
        let zero = zero_sequence_of(entry, place, false)?;
        let skin = skin_of(entry, place)?;
        let source = Source {
            name,
            bus,
            r: impedance.r,
            x: impedance.x,
            r0: zero.r0,
            x0: zero.x0,
            skin_k: skin.k,
            skin_m: skin.m,
        };
        Ok((name, source))
    }
}

impl Entry for Bank {
    ghost fault = { bank_entry_fault };

    ghost value = { bank_entry };

    #[tactic(auto, unfolding(crate::specs::Entries::bank_entry_fault, crate::specs::Entries::bank_entry))]
    fn read(
        entry: &Value,
        place: Place,
        earlier: &[Name],
        context: &Context,
    ) -> Result<(Name, Bank), StudyFault> {
        let keys = [Key::Name, Key::Bus, Key::Q, Key::Grounded, Key::Phase];
        entry_keys(entry, place, place, &keys)?;
        let name = name(entry, place, earlier)?;
        let bus = bus(entry, place, Key::Bus, context.buses.as_slice())?;
        let q = decimal(entry, place, Key::Q, Range::ABOVE_ZERO)?;
        let wiring = wiring_of(entry, place, context.model)?;
        let bank = Bank {
            name,
            bus,
            q,
            grounded: wiring.grounded,
            phase: wiring.phase,
        };
        Ok((name, bank))
    }
}

/// What a scan sees: one of the two sequence networks, or a phase.
#[derive(Clone, Copy)]
pub(crate) struct Scanned {
    pub(crate) network: Sequence,
    pub(crate) phase: Option<Phase>,
}

#[tactic(auto, unfolding(crate::specs::Entries::scanned_fault))]
fn scanned_of(entry: &Value, place: Place, model: StudyModel) -> Result<Scanned, StudyFault>
    ensures read { Reads result (scanned_fault model place (view entry.now)) (scanned (view entry.now)) }
{
    let phases = in_phases(model);
    not_stray(entry, place, Key::Network, !phases)?;
    let network = word::<Sequence>(entry, place, Key::Network, false)?;
    not_stray(entry, place, Key::Phase, phases)?;
    let phase = word::<Phase>(entry, place, Key::Phase, phases)?;
    Ok(Scanned {
        network: network.unwrap_or(Sequence::Positive),
        phase,
    })
}

#[tactic(auto, unfolding(crate::specs::Entries::upwards_fault))]
fn upwards(place: Place, from: Decimal, to: Decimal) -> Result<(), StudyFault>
    ensures read { Reads result (upwards_fault place from to) tt }
{
    if to.millionths <= from.millionths {
        return Err(StudyFault::BadBand(key_of(place, Key::To)));
    }
    Ok(())
}

#[tactic(auto, unfolding(crate::specs::Entries::widths_fault))]
fn few_widths(place: Place, from: Decimal, to: Decimal, finest: Decimal) -> Result<(), StudyFault>
    ensures read { Reads result (widths_fault place from to finest) tt }
{
    if to.millionths - from.millionths > i64::from(MAX_WIDTHS) * finest.millionths {
        return Err(StudyFault::TooFine(key_of(place, Key::Finest)));
    }
    Ok(())
}

#[tactic(auto, unfolding(crate::specs::Entries::locate_fault))]
fn no_finer(place: Place, finest: Decimal, locate: Decimal) -> Result<(), StudyFault>
    ensures read { Reads result (locate_fault place finest locate) tt }
{
    if locate.millionths < finest.millionths {
        return Err(StudyFault::BadBand(key_of(place, Key::Locate)));
    }
    Ok(())
}

/// The band of a scan in orders, its threshold, and its widths in orders.
#[derive(Clone, Copy)]
pub(crate) struct Band {
    pub(crate) from: Decimal,
    pub(crate) to: Decimal,
    pub(crate) limit: Limit,
    pub(crate) finest: Decimal,
    pub(crate) locate: Decimal,
}

#[tactic(auto, unfolding(crate::specs::Entries::band_fault))]
fn band_of(entry: &Value, place: Place, version: u32) -> Result<Band, StudyFault>
    ensures read { Reads result (band_fault version place (view entry.now)) (band version (view entry.now)) }
{
    let from = decimal(entry, place, Key::From, Range::BAND)?;
    let to = decimal(entry, place, Key::To, Range::BAND)?;
    upwards(place, from, to)?;
    let limit = limit_of(entry, place, version, from, to)?;
    let finest = decimal(entry, place, Key::Finest, Range::FINEST)?;
    few_widths(place, from, to, finest)?;
    let locate = decimal_or(entry, place, Key::Locate, Range::LOCATE, finest)?;
    no_finer(place, finest, locate)?;
    Ok(Band {
        from,
        to,
        limit,
        finest,
        locate,
    })
}

/// A scan has no key beyond those of the study's version.
#[tactic(auto, unfolding(crate::specs::Entries::scan_keys_fault))]
fn scan_keys(entry: &Value, place: Place, version: u32) -> Result<(), StudyFault>
    ensures read { Reads result (scan_keys_fault version place (view entry.now)) tt }
{
    if has_curves(version) {
        let keys = [
            Key::Name,
            Key::Bus,
            Key::Network,
            Key::Phase,
            Key::From,
            Key::To,
            Key::CurveAt,
            Key::CurveOhms,
            Key::Finest,
            Key::Locate,
        ];
        return entry_keys(entry, place, place, &keys);
    }
    let keys = [
        Key::Name,
        Key::Bus,
        Key::Network,
        Key::Phase,
        Key::From,
        Key::To,
        Key::Threshold,
        Key::Finest,
        Key::Locate,
    ];
    entry_keys(entry, place, place, &keys)
}

impl Entry for ScanItem {
    ghost fault = { scan_entry_fault };

    ghost value = { scan_entry };

    #[tactic(auto, unfolding(crate::specs::Entries::scan_entry_fault, crate::specs::Entries::scan_entry))]
    fn read(
        entry: &Value,
        place: Place,
        earlier: &[Name],
        context: &Context,
    ) -> Result<(Name, ScanItem), StudyFault> {
        scan_keys(entry, place, context.version)?;
        not_reserved(entry, place, "limits")?;
        let name = name(entry, place, earlier)?;
        let bus = bus(entry, place, Key::Bus, context.buses.as_slice())?;
        let scanned = scanned_of(entry, place, context.model)?;
        let band = band_of(entry, place, context.version)?;
        let scan = ScanItem {
            name,
            bus,
            network: scanned.network,
            phase: scanned.phase,
            from: band.from,
            to: band.to,
            threshold: band.limit.threshold,
            curve: band.limit.curve,
            finest: band.finest,
            locate: band.locate,
        };
        Ok((name, scan))
    }
}

impl Entry for Filter {
    ghost fault = { filter_entry_fault };

    ghost value = { filter_entry };

    #[tactic(auto, unfolding(crate::specs::Entries::filter_entry_fault, crate::specs::Entries::filter_entry))]
    fn read(
        entry: &Value,
        place: Place,
        earlier: &[Name],
        context: &Context,
    ) -> Result<(Name, Filter), StudyFault> {
        let keys = [
            Key::Name,
            Key::Bus,
            Key::Kind,
            Key::Q,
            Key::Order,
            Key::Quality,
            Key::Grounded,
            Key::Phase,
        ];
        entry_keys(entry, place, place, &keys)?;
        let name = name(entry, place, earlier)?;
        let bus = bus(entry, place, Key::Bus, context.buses.as_slice())?;
        let kind = word::<FilterKind>(entry, place, Key::Kind, true)?;
        let q = decimal(entry, place, Key::Q, Range::ABOVE_ZERO)?;
        let order = decimal(entry, place, Key::Order, Range::TUNED_ORDER)?;
        let quality = decimal(entry, place, Key::Quality, Range::QUALITY)?;
        let wiring = wiring_of(entry, place, context.model)?;
        let filter = Filter {
            name,
            bus,
            kind: kind.unwrap_or(FilterKind::Single),
            q,
            order,
            quality,
            grounded: wiring.grounded,
            phase: wiring.phase,
        };
        Ok((name, filter))
    }
}
