// Keys that several sections have, and that are read together.
ghost use Rattle.std.specs.Prelude.{◌≡◌};
ghost use Rattle.toml.specs.View.{view};
ghost use Rattle.study_reader.specs.Checks.{Reads};
ghost use Rattle.study_reader.specs.Groups.{in_phases, impedance_fault, impedance, zero_sequence_fault, zero_sequence, skin_fault, skin, wiring_fault, wiring};

use crate::decimals::{decimal, decimal_or, not_both_zero, optional_decimal};
use crate::keys::{flag, has, not_stray};
use crate::words::word;
use fixed_decimal::Decimal;
use study_model::{Key, Phase, Place, Range, StudyFault, StudyModel};
use toml::Value;

/// The impedance of an element in ohms.
#[derive(Clone, Copy)]
pub(crate) struct Impedance {
    pub(crate) r: Decimal,
    pub(crate) x: Decimal,
}

/// The impedance of an element in the zero sequence, in ohms.
#[derive(Clone, Copy)]
pub(crate) struct ZeroSequence {
    pub(crate) r0: Option<Decimal>,
    pub(crate) x0: Option<Decimal>,
}

/// How a resistance grows with the order.
#[derive(Clone, Copy)]
pub(crate) struct Skin {
    pub(crate) k: Decimal,
    pub(crate) m: Decimal,
}

/// Whether an element's star is grounded, and its phase.
#[derive(Clone, Copy)]
pub(crate) struct Wiring {
    pub(crate) grounded: bool,
    pub(crate) phase: Option<Phase>,
}

pub(crate) const NONE: Decimal = Decimal { millionths: 0 };

pub(crate) const ONE: Decimal = Decimal {
    millionths: 1_000_000,
};

/// Whether a study is of the phases model.
pub(crate) fn in_phases(model: StudyModel) -> bool
    ensures { result ≡ in_phases model }
{
    match model {
        StudyModel::Sequence => false,
        StudyModel::Phases => true,
    }
}

/// r and x in ohms, not both 0.
#[tactic(auto, unfolding(crate::specs::Groups::impedance_fault))]
pub(crate) fn impedance_of(entry: &Value, place: Place) -> Result<Impedance, StudyFault>
    ensures read { Reads result (impedance_fault place (view entry.now)) (impedance (view entry.now)) }
{
    let r = decimal(entry, place, Key::R, Range::ORDINARY)?;
    let x = decimal(entry, place, Key::X, Range::ORDINARY)?;
    not_both_zero(place, Key::X, &Some(r), &Some(x))?;
    Ok(Impedance { r, x })
}

/// r0 and x0 in ohms, both or none, not both 0.
#[tactic(auto, unfolding(crate::specs::Groups::zero_sequence_fault))]
pub(crate) fn zero_sequence_of(
    entry: &Value,
    place: Place,
    required: bool,
) -> Result<ZeroSequence, StudyFault>
    ensures read { Reads result (zero_sequence_fault place required (view entry.now)) (zero_sequence (view entry.now)) }
{
    let needs_r0 = required || has(entry, Key::X0);
    let needs_x0 = required || has(entry, Key::R0);
    let r0 = optional_decimal(entry, place, Key::R0, needs_r0, Range::ORDINARY)?;
    let x0 = optional_decimal(entry, place, Key::X0, needs_x0, Range::ORDINARY)?;
    not_both_zero(place, Key::X0, &r0, &x0)?;
    Ok(ZeroSequence { r0, x0 })
}

/// How a resistance grows with the order.
#[tactic(auto, unfolding(crate::specs::Groups::skin_fault))]
pub(crate) fn skin_of(entry: &Value, place: Place) -> Result<Skin, StudyFault>
    ensures read { Reads result (skin_fault place (view entry.now)) (skin (view entry.now)) }
{
    let k = decimal_or(entry, place, Key::SkinK, Range::SKIN_K, NONE)?;
    let m = decimal_or(entry, place, Key::SkinM, Range::SKIN_M, ONE)?;
    Ok(Skin { k, m })
}

/// Whether an element's star is grounded, and its phase, which it has in the phases model alone.
#[tactic(auto, unfolding(crate::specs::Groups::wiring_fault))]
pub(crate) fn wiring_of(
    entry: &Value,
    place: Place,
    model: StudyModel,
) -> Result<Wiring, StudyFault>
    ensures read { Reads result (wiring_fault model place (view entry.now)) (wiring (view entry.now)) }
{
    let grounded = flag(entry, place, Key::Grounded)?;
    not_stray(entry, place, Key::Phase, in_phases(model))?;
    let phase = word::<Phase>(entry, place, Key::Phase, false)?;
    Ok(Wiring { grounded, phase })
}
