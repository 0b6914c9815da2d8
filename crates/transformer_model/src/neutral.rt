// The neutrals of grounded sides. Three equal currents meet there, so a neutral's impedance counts three times.
ghost use Rattle.std.specs.Prelude.{◌≡◌, ◌<◌, ◌≤◌, ◌≤ℤ◌, ◌*ℤ◌, ◌||◌, ◌++◌, int_lt, pos, length, map, IfOk, OnOk};
ghost use Rattle.net_branch.specs.Exact.{exact_law, exact_branch};
ghost use Rattle.study_model.specs.Voltages.{kv_of};
ghost use Rattle.element_parts.specs.PerUnit.{impedance_per_unit};
ghost use Rattle.element_parts.specs.Expansion.{skin_series};
ghost use Rattle.transformer_model.specs.Transformers.{neutral_laws, neutral, behind};
ghost use Rattle.transformer_model.specs.NeutralLaws.{laws_of};
ghost use Rattle.transformer_model.specs.Windings.{phase_neutral};

use element_parts::{between, impedance, kv, skin_series, triple_impedance};
use fixed_decimal::Decimal;
use net_branch::{Branch, Law};
use sqlite_items::Items;
use std::alloc::{AllocError, Global};
use study_model::{Study, Transformer};

/// Whether a neutral of `rn` and `xn` ohms has an impedance.
fn has_impedance(rn: Decimal, xn: Decimal) -> bool
    ensures { result ≡ (int_lt (pos 0) rn || int_lt (pos 0) xn) }
{
    rn.millionths > 0 || xn.millionths > 0
}

/// Three times the impedance of a neutral of `rn` and `xn` ohms at a bus of `kv`, in per unit.
fn triple_neutral(
    study: &Study,
    transformer: &Transformer,
    kv: Decimal,
    rn: Decimal,
    xn: Decimal,
) -> Law
    requires { pos 1 ≤ℤ kv }
    ensures { exact_law result ≡ skin_series (impedance_per_unit (pos 3 *ℤ rn) study.now.mva kv) transformer.now.skin_k
        transformer.now.skin_m (impedance_per_unit (pos 3 *ℤ xn) study.now.mva kv) }
{
    let r = triple_impedance(rn, study.mva, kv);
    let x = triple_impedance(xn, study.mva, kv);
    skin_series(r, transformer.skin_k, transformer.skin_m, x)
}

/// Three times the impedance of a side's neutral of `rn` and `xn` ohms, none where both are 0.
pub fn neutral_law(
    study: &Study,
    transformer: &Transformer,
    bus: u32,
    rn: Decimal,
    xn: Decimal,
) -> Option<Law>
    requires bus { bus < length study.now.buses }
    requires kv { pos 1 ≤ℤ kv_of study.now.buses bus }
    ensures { laws_of result ≡ neutral_laws study.now transformer.now bus rn xn }
{
    if has_impedance(rn, xn) {
        Some(triple_neutral(study, transformer, kv(study, bus), rn, xn))
    } else {
        None
    }
}

/// How many inner nodes a neutral adds.
pub fn inner_nodes(law: Option<Law>) -> u32
    ensures value { result ≡ length (laws_of law) }
    ensures few { result ≤ 1 }
{
    match law {
        Some(_) => 1,
        None => 0,
    }
}

/// The node that stands for a grounded side's bus: the next inner node where its neutral has an impedance, else the bus.
pub fn node_behind(bus: u32, next: u32, law: Option<Law>) -> u32
    ensures { result ≡ behind bus next (laws_of law) }
{
    match law {
        Some(_) => next,
        None => bus,
    }
}

/// The branch of a neutral with an impedance, from the bus to the next inner node, after the branches.
pub fn push_neutral(
    alloc: Global,
    branches: &mut Items<Branch>,
    bus: u32,
    next: u32,
    law: Option<Law>,
    owner: u32,
) -> Result<(), AllocError>
    ensures { OnOk result (map exact_branch branches.new ≡ map exact_branch branches.old ++ neutral bus next (laws_of law) owner) }
{
    let Some(law) = law else {
        return Ok(());
    };
    branches.push(between(alloc, bus, next, law, owner)?)?;
    Ok(())
}

/// The impedance of a neutral of `rn` and `xn` ohms at a bus of `kv`, in per unit.
fn neutral_series(
    study: &Study,
    transformer: &Transformer,
    kv: Decimal,
    rn: Decimal,
    xn: Decimal,
) -> Law
    requires { pos 1 ≤ℤ kv }
    ensures { exact_law result ≡ skin_series (impedance_per_unit rn study.now.mva kv) transformer.now.skin_k transformer.now.skin_m (impedance_per_unit xn study.now.mva kv) }
{
    let r = impedance(rn, study.mva, kv);
    let x = impedance(xn, study.mva, kv);
    skin_series(r, transformer.skin_k, transformer.skin_m, x)
}

/// The impedance of a side's neutral of `rn` and `xn` ohms in three phases, none where both are 0.
pub fn phase_neutral(
    study: &Study,
    transformer: &Transformer,
    bus: u32,
    rn: Decimal,
    xn: Decimal,
) -> Option<Law>
    requires bus { bus < length study.now.buses }
    requires kv { pos 1 ≤ℤ kv_of study.now.buses bus }
    ensures { laws_of result ≡ phase_neutral study.now transformer.now bus rn xn }
{
    if has_impedance(rn, xn) {
        Some(neutral_series(study, transformer, kv(study, bus), rn, xn))
    } else {
        None
    }
}
