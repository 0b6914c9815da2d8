// Filters. The rating is the capacitor's, from which the order and the quality give the other values.
ghost use Rattle.std.specs.Prelude.{◌≡◌, ◌≤◌, ◌*◌, ◌≤ℤ◌, pos, [], ◌∷◌, length, Some, IfOk};
ghost use Rattle.exact_fraction.specs.Fraction.{ratio_of};
ghost use Rattle.study_model.specs.Lawful.{IsLawful, IsLawfulFilter};
ghost use Rattle.study_model.specs.declared.words.FilterKind.TheVariants.{Single, HighPass, CType};
ghost use Rattle.net_branch.specs.Exact.{exact_law};
ghost use Rattle.net_branch.specs.Whole.{IsWholeNetwork};
ghost use Rattle.element_parts.specs.Adds.{Adds};
ghost use Rattle.element_parts.specs.Parts.{exact_parts};
ghost use Rattle.load_filter_model.specs.Filters.{resonant, capacitor, filter_port, filter_expansion, filter_phases};
ghost use Rattle.load_filter_model.specs.ExactPorts.{exact_port};
ghost use Rattle.study_model.specs.Range.{IsIn};
ghost use Rattle.study_model.specs.declared.range.TheConstants.Range.{TUNED_ORDER, QUALITY};
ghost use Rattle.study_model.specs.declared.limits.TheConstants.{MAX_BUSES};
ghost use Rattle.net_branch.specs.declared.limits.TheConstants.{MAX_NODES};

use crate::port::{Port, at_node, at_phases, single};
use crate::presence::is_present;
use crate::tuned::{
    ctype_reactance, ctype_resistance, highpass_resistance, tuned_reactance, tuned_resistance,
};
use element_parts::{
    Parts, Power, add_plain, impedance_of_rating, open_circuit, power_in, series, zero,
};
use exact_fraction::Fraction;
use fixed_decimal::Decimal;
use net_branch::{AddFault, Law, Network};
use sqlite_items::Items;
use std::alloc::{AllocError, Global};
use study_model::{Filter, FilterKind, Sequence, Study};

/// A resistance, a reactance and a capacitor in series, in per unit, with no skin coefficients.
#[tactic(auto, unfolding(exact_algebra::specs::Ratio::whole))]
fn resonant(r: Fraction, x: Fraction, xc: Fraction) -> Law
    ensures { exact_law result ≡ resonant (ratio_of r) (ratio_of x) (ratio_of xc) }
{
    Law::Series {
        r,
        k: zero(),
        m: Fraction { num: 1, den: 1 },
        x,
        xc,
    }
}

/// The capacitor of a filter of rating `q` before its inner node.
fn capacitor(q: Power, mva: Decimal) -> Law
    requires { pos 1 ≤ℤ q }
    ensures { exact_law result ≡ capacitor q mva }
{
    resonant(zero(), zero(), impedance_of_rating(q, mva))
}

/// A single tuned filter: a resistance, a reactance and a capacitor in series.
fn single_port(alloc: Global, mva: Decimal, filter: &Filter, q: Power) -> Result<Port, AllocError>
    requires q { pos 1 ≤ℤ q }
    requires order { IsIn TUNED_ORDER filter.now.order }
    requires quality { IsIn QUALITY filter.now.quality }
    ensures { IfOk result (λ port. exact_port port ≡ filter_port mva filter.now q Single) }
{
    let law = resonant(
        tuned_resistance(q, filter.order, filter.quality, mva),
        tuned_reactance(q, filter.order, mva),
        impedance_of_rating(q, mva),
    );
    single(alloc, law)
}

/// A filter with an inner node: its capacitor, and branches of two laws behind it.
fn behind_capacitor(
    alloc: Global,
    capacitor: Law,
    resistor: Law,
    reactor: Law,
) -> Result<Port, AllocError>
    ensures capacitor { IfOk result (λ port. (exact_port port).capacitor ≡ Some (exact_law capacitor)) }
    ensures laws { IfOk result (λ port. (exact_port port).laws ≡ exact_law resistor ∷ exact_law reactor ∷ []) }
{
    Ok(Port {
        capacitor: Some(capacitor),
        laws: Items::from_slice(alloc, &[resistor, reactor])?,
    })
}

/// A high-pass filter: behind its capacitor a resistance and a reactance side by side.
fn highpass_port(alloc: Global, mva: Decimal, filter: &Filter, q: Power) -> Result<Port, AllocError>
    requires q { pos 1 ≤ℤ q }
    requires order { IsIn TUNED_ORDER filter.now.order }
    requires quality { IsIn QUALITY filter.now.quality }
    ensures { IfOk result (λ port. exact_port port ≡ filter_port mva filter.now q HighPass) }
{
    let r = highpass_resistance(q, filter.order, filter.quality, mva);
    let x = tuned_reactance(q, filter.order, mva);
    let resistor = series(r, zero());
    let reactor = series(zero(), x);
    behind_capacitor(alloc, capacitor(q, mva), resistor, reactor)
}

/// A C-type filter: behind its capacitor a resistance, and beside it a reactance and a second capacitor that are tuned to the
/// fundamental.
fn ctype_port(alloc: Global, mva: Decimal, filter: &Filter, q: Power) -> Result<Port, AllocError>
    requires q { pos 1 ≤ℤ q }
    requires order { IsIn TUNED_ORDER filter.now.order }
    requires quality { IsIn QUALITY filter.now.quality }
    ensures { IfOk result (λ port. exact_port port ≡ filter_port mva filter.now q CType) }
{
    let r = ctype_resistance(q, filter.order, filter.quality, mva);
    let x = ctype_reactance(q, filter.order, mva);
    let resistor = series(r, zero());
    let reactor = resonant(zero(), x, x);
    behind_capacitor(alloc, capacitor(q, mva), resistor, reactor)
}

/// A filter of rating `q` at a node, by its kind.
fn filter_port(alloc: Global, mva: Decimal, filter: &Filter, q: Power) -> Result<Port, AllocError>
    requires q { pos 1 ≤ℤ q }
    requires order { IsIn TUNED_ORDER filter.now.order }
    requires quality { IsIn QUALITY filter.now.quality }
    ensures { IfOk result (λ port. exact_port port ≡ filter_port mva filter.now q filter.now.kind) }
{
    match filter.kind {
        FilterKind::Single => single_port(alloc, mva, filter, q),
        FilterKind::HighPass => highpass_port(alloc, mva, filter, q),
        FilterKind::CType => ctype_port(alloc, mva, filter, q),
    }
}

/// What a filter adds to a network, nothing where it is open; `next` is the number of its inner node, where it has one.
#[tactic(auto, unfolding(crate::specs::Filters::filter_expansion))]
fn filter_parts(
    alloc: Global,
    study: &Study,
    filter: &Filter,
    owner: u32,
    sequence: Sequence,
    next: u32,
) -> Result<Parts, AllocError>
    requires { IsLawfulFilter study.now.model study.now.buses filter.now }
    ensures { IfOk result (λ parts. exact_parts parts ≡ filter_expansion study.now filter.now owner sequence next) }
{
    if !is_present(sequence, filter.grounded, filter.phase) {
        return Ok(open_circuit(alloc));
    }
    let port = filter_port(alloc, study.mva, filter, power_in(None, filter.q))?;
    at_node(alloc, &port, filter.bus, next, owner)
}

/// Adds a filter: a single tuned filter is a resistance, a reactance and a capacitor in series from its bus to ground; a high-pass filter
/// is its capacitor to an inner node, and from there a resistance and a reactance side by side to ground; a C-type filter the same with a
/// reactance and a second capacitor that are tuned to the fundamental. In the zero network the same where it is grounded or has a phase,
/// else nothing. `TooMany` exactly where the network would have more than `MAX_NODES` nodes or more than `MAX_BRANCHES` branches. A refusal
/// leaves the network as it was. (Arrillaga and Watson, Power System Harmonics; a filter's rating is its capacitor's.)
pub fn add_filter(
    alloc: Global,
    network: &mut Network,
    study: &Study,
    filter: &Filter,
    owner: u32,
    sequence: Sequence,
) -> Result<(), AddFault>
    requires study { IsLawful study.now }
    requires filter { IsLawfulFilter study.now.model study.now.buses filter.now }
    requires buses { network.old.buses ≡ length study.now.buses }
    requires whole { IsWholeNetwork network.old }
    ensures { Adds network.old network.new result (filter_expansion study.now filter.now owner sequence network.old.nodes) }
{
    let parts = filter_parts(alloc, study, filter, owner, sequence, network.nodes);
    add_plain(alloc, network, parts)
}

/// What a filter adds to the network of three phases. `next` is the number of its first inner node, where it has one.
#[tactic(auto, unfolding(crate::specs::Filters::filter_phases))]
fn phase_parts(
    alloc: Global,
    study: &Study,
    filter: &Filter,
    owner: u32,
    next: u32,
) -> Result<Parts, AllocError>
    requires filter { IsLawfulFilter study.now.model study.now.buses filter.now }
    requires few { length study.now.buses ≤ MAX_BUSES }
    requires next { next ≤ MAX_NODES }
    ensures { IfOk result (λ parts. exact_parts parts ≡ filter_phases study.now filter.now owner next) }
{
    let q = power_in(filter.phase, filter.q);
    let port = filter_port(alloc, study.mva, filter, q)?;
    at_phases(
        alloc,
        &port,
        filter.grounded,
        filter.phase,
        filter.bus,
        next,
        owner,
    )
}

/// Adds a filter to the network of three phases: the branches of its kind in each phase, to ground where it is grounded, else to one neutral,
/// an inner node before those behind the capacitors; with a phase those of three times its rating in that phase alone, to ground. `TooMany`
/// exactly where the network would have more than `MAX_NODES` nodes or more than `MAX_BRANCHES` branches. A refusal leaves the network as it
/// was. (Arrillaga and Watson, Power System Harmonics; a filter's rating is its capacitor's.)
pub fn add_filter_phases(
    alloc: Global,
    network: &mut Network,
    study: &Study,
    filter: &Filter,
    owner: u32,
) -> Result<(), AddFault>
    requires study { IsLawful study.now }
    requires filter { IsLawfulFilter study.now.model study.now.buses filter.now }
    requires buses { network.old.buses ≡ 3 * length study.now.buses }
    requires whole { IsWholeNetwork network.old }
    ensures { Adds network.old network.new result (filter_phases study.now filter.now owner network.old.nodes) }
{
    let parts = phase_parts(alloc, study, filter, owner, network.nodes);
    add_plain(alloc, network, parts)
}
