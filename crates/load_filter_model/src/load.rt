// Loads. Three models, since what a load is at harmonic orders is the planner's choice and no measurement.
ghost use Rattle.std.specs.Prelude.{◌≡◌, ◌<◌, ◌≤◌, ◌*◌, ◌≤ℤ◌, pos, int_lt, ◌++◌, length, map, option_map, IfOk, OnOk};
ghost use Rattle.study_model.specs.Lawful.{IsLawful, IsLawfulLoad};
ghost use Rattle.study_model.specs.Rules.{IsPower, IsImpedance};
ghost use Rattle.net_branch.specs.Exact.{exact_law};
ghost use Rattle.net_branch.specs.Whole.{IsWholeNetwork};
ghost use Rattle.element_parts.specs.Adds.{Adds};
ghost use Rattle.element_parts.specs.Parts.{exact_parts};
ghost use Rattle.study_model.specs.Voltages.{kv_of};
ghost use Rattle.load_filter_model.specs.Loads.{cigre_laws, resistance_laws, reactance_laws, parallel_laws, load_laws, load_port, load_expansion, load_phases};
ghost use Rattle.load_filter_model.specs.ExactPorts.{exact_port};
ghost use Rattle.element_parts.specs.Phases.{power_in};
ghost use Rattle.study_model.specs.declared.limits.TheConstants.{MAX_BUSES};
ghost use Rattle.net_branch.specs.declared.limits.TheConstants.{MAX_NODES};

use crate::cigre::{has_parallel_reactance, parallel_reactance, series_reactance};
use crate::port::{Port, at_node, at_phases};
use crate::presence::is_present;
use element_parts::{
    Parts, Power, add_plain, impedance, impedance_of_rating, kv, open_circuit, power_in, series,
    zero,
};
use fixed_decimal::Decimal;
use net_branch::{AddFault, Law, Network};
use sqlite_items::Items;
use std::alloc::{AllocError, Global};
use study_model::{Load, LoadModel, Phase, Sequence, Study};

/// The laws of a load of `p` MW and `q` MVAr by the CIGRE model: a resistance and a reactance in series, and where `q` is large enough a
/// reactance beside them.
fn cigre_laws(alloc: Global, mva: Decimal, p: Power, q: Power) -> Result<Items<Law>, AllocError>
    requires { pos 1 ≤ℤ p }
    ensures { IfOk result (λ laws. map exact_law laws ≡ cigre_laws mva p q) }
{
    let motor = series(impedance_of_rating(p, mva), series_reactance(p, mva));
    if has_parallel_reactance(p, q) {
        let beside = series(zero(), parallel_reactance(p, q, mva));
        Items::from_slice(alloc, &[motor, beside])
    } else {
        Items::from_slice(alloc, &[motor])
    }
}

/// Whether there is power.
fn has_power(power: Power) -> bool
    ensures { result ≡ int_lt (pos 0) power }
{
    power.millionths > 0
}

/// The resistance of `p` MW, where there is power.
#[tactic(auto, using(crate::proofs::LawLists::pushed))]
fn push_resistance(laws: &mut Items<Law>, mva: Decimal, p: Power) -> Result<(), AllocError>
    ensures { OnOk result (map exact_law laws.new ≡ map exact_law laws.old ++ resistance_laws mva p) }
{
    if !has_power(p) {
        return Ok(());
    }
    laws.push(series(impedance_of_rating(p, mva), zero()))?;
    Ok(())
}

/// The reactance of `q` MVAr, where there is power.
#[tactic(auto, using(crate::proofs::LawLists::pushed))]
fn push_reactance(laws: &mut Items<Law>, mva: Decimal, q: Power) -> Result<(), AllocError>
    ensures { OnOk result (map exact_law laws.new ≡ map exact_law laws.old ++ reactance_laws mva q) }
{
    if !has_power(q) {
        return Ok(());
    }
    laws.push(series(zero(), impedance_of_rating(q, mva)))?;
    Ok(())
}

/// The laws of a load of `p` MW and `q` MVAr as a resistance and a reactance side by side, without the one that has no power.
fn parallel_laws(alloc: Global, mva: Decimal, p: Power, q: Power) -> Result<Items<Law>, AllocError>
    ensures { IfOk result (λ laws. map exact_law laws ≡ parallel_laws mva p q) }
{
    let mut laws = Items::new(alloc);
    push_resistance(&mut laws, mva, p)?;
    push_reactance(&mut laws, mva, q)?;
    Ok(laws)
}

/// The laws of a load's branches, by its model; with a phase of three times its powers.
fn load_laws(
    alloc: Global,
    mva: Decimal,
    kv: Decimal,
    load: &Load,
    phase: Option<Phase>,
) -> Result<Items<Law>, AllocError>
    requires kv { pos 1 ≤ℤ kv }
    requires p_q { IsPower load.now.model load.now.p load.now.q }
    requires r_x { IsImpedance load.now.model load.now.r load.now.x }
    ensures { IfOk result (λ laws. map exact_law laws ≡ load_laws mva kv load.now.model (option_map (power_in phase) load.now.p) (option_map (power_in phase) load.now.q) load.now.r load.now.x) }
{
    match (load.model, load.p, load.q, load.r, load.x) {
        (LoadModel::Cigre, Some(p), Some(q), _, _) => {
            cigre_laws(alloc, mva, power_in(phase, p), power_in(phase, q))
        }
        (LoadModel::Parallel, Some(p), Some(q), _, _) => {
            parallel_laws(alloc, mva, power_in(phase, p), power_in(phase, q))
        }
        (LoadModel::Series, _, _, Some(r), Some(x)) => {
            let law = series(impedance(r, mva, kv), impedance(x, mva, kv));
            Items::from_slice(alloc, &[law])
        }
        _ => Ok(Items::new(alloc)),
    }
}

/// A load at a node; with a phase of three times its powers.
fn load_port(
    alloc: Global,
    study: &Study,
    load: &Load,
    phase: Option<Phase>,
) -> Result<Port, AllocError>
    requires bus { load.now.bus < length study.now.buses }
    requires kv { pos 1 ≤ℤ kv_of study.now.buses load.now.bus }
    requires p_q { IsPower load.now.model load.now.p load.now.q }
    requires r_x { IsImpedance load.now.model load.now.r load.now.x }
    ensures { IfOk result (λ port. exact_port port ≡ load_port study.now load.now phase) }
{
    Ok(Port {
        capacitor: None,
        laws: load_laws(alloc, study.mva, kv(study, load.bus), load, phase)?,
    })
}

/// What a load adds to a network, nothing where it is open.
#[tactic(auto, unfolding(crate::specs::Loads::load_expansion), using(crate::proofs::LawLists::as_written))]
fn load_parts(
    alloc: Global,
    study: &Study,
    load: &Load,
    owner: u32,
    sequence: Sequence,
) -> Result<Parts, AllocError>
    requires bus { load.now.bus < length study.now.buses }
    requires kv { pos 1 ≤ℤ kv_of study.now.buses load.now.bus }
    requires p_q { IsPower load.now.model load.now.p load.now.q }
    requires r_x { IsImpedance load.now.model load.now.r load.now.x }
    ensures { IfOk result (λ parts. exact_parts parts ≡ load_expansion study.now load.now owner sequence) }
{
    if is_present(sequence, load.grounded, load.phase) {
        let port = load_port(alloc, study, load, None)?;
        at_node(alloc, &port, load.bus, 0, owner)
    } else {
        Ok(open_circuit(alloc))
    }
}

/// Adds a load: the branches of its model from its bus to ground; in the zero network the same where it is grounded or has a phase, else
/// nothing. `TooMany` exactly where the network would have more than `MAX_NODES` nodes or more than `MAX_BRANCHES` branches. A refusal
/// leaves the network as it was. (Arrillaga and Watson, Power System Harmonics; the CIGRE model with its coefficients 0.073, 6.7 and 0.74.)
#[tactic(auto, using(element_parts::proofs::Values::kv_positive))]
pub fn add_load(
    alloc: Global,
    network: &mut Network,
    study: &Study,
    load: &Load,
    owner: u32,
    sequence: Sequence,
) -> Result<(), AddFault>
    requires study { IsLawful study.now }
    requires load { IsLawfulLoad study.now.model study.now.buses load.now }
    requires buses { network.old.buses ≡ length study.now.buses }
    requires whole { IsWholeNetwork network.old }
    ensures { Adds network.old network.new result (load_expansion study.now load.now owner sequence) }
{
    let parts = load_parts(alloc, study, load, owner, sequence);
    add_plain(alloc, network, parts)
}

/// What a load adds to the network of three phases. `next` is the number of its inner node.
#[tactic(auto, unfolding(crate::specs::Loads::load_phases))]
fn phase_parts(
    alloc: Global,
    study: &Study,
    load: &Load,
    owner: u32,
    next: u32,
) -> Result<Parts, AllocError>
    requires bus { load.now.bus < length study.now.buses }
    requires few { length study.now.buses ≤ MAX_BUSES }
    requires kv { pos 1 ≤ℤ kv_of study.now.buses load.now.bus }
    requires p_q { IsPower load.now.model load.now.p load.now.q }
    requires r_x { IsImpedance load.now.model load.now.r load.now.x }
    requires next { next ≤ MAX_NODES }
    ensures { IfOk result (λ parts. exact_parts parts ≡ load_phases study.now load.now owner next) }
{
    let port = load_port(alloc, study, load, load.phase)?;
    at_phases(
        alloc,
        &port,
        load.grounded,
        load.phase,
        load.bus,
        next,
        owner,
    )
}

/// Adds a load to the network of three phases: the branches of its model in each phase, to ground where it is grounded, else to one neutral,
/// an inner node; with a phase those of three times its powers in that phase alone, to ground. `TooMany` exactly where the network would have
/// more than `MAX_NODES` nodes or more than `MAX_BRANCHES` branches. A refusal leaves the network as it was. (Arrillaga and Watson, Power
/// System Harmonics; the CIGRE model with its coefficients 0.073, 6.7 and 0.74.)
#[tactic(auto, using(element_parts::proofs::Values::kv_positive))]
pub fn add_load_phases(
    alloc: Global,
    network: &mut Network,
    study: &Study,
    load: &Load,
    owner: u32,
) -> Result<(), AddFault>
    requires study { IsLawful study.now }
    requires load { IsLawfulLoad study.now.model study.now.buses load.now }
    requires buses { network.old.buses ≡ 3 * length study.now.buses }
    requires whole { IsWholeNetwork network.old }
    ensures { Adds network.old network.new result (load_phases study.now load.now owner network.old.nodes) }
{
    let added = phase_parts(alloc, study, load, owner, network.nodes);
    add_plain(alloc, network, added)
}
