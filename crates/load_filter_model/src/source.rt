// Sources. A source has no voltage of its own at harmonic orders, so it is its impedance to ground and nothing else.
ghost use Rattle.std.specs.Prelude.{◌≡◌, ◌<◌, ◌≤◌, ◌*◌, ◌≤ℤ◌, pos, length, map, IfOk};
ghost use Rattle.study_model.specs.Lawful.{IsLawful, IsLawfulSource};
ghost use Rattle.net_branch.specs.Exact.{exact_law, exact_branch};
ghost use Rattle.net_branch.specs.Whole.{IsWholeNetwork};
ghost use Rattle.element_parts.specs.Adds.{Adds};
ghost use Rattle.element_parts.specs.Parts.{exact_parts};
ghost use Rattle.study_model.specs.Voltages.{kv_of};
ghost use Rattle.load_filter_model.specs.Sources.{source_series, source_expansion, source_coupling, source_phases};
ghost use Rattle.std.specs.List.{AllByRecursion};
ghost use Rattle.study_model.specs.declared.limits.TheConstants.{MAX_BUSES};
ghost use Rattle.net_branch.specs.declared.limits.TheConstants.{MAX_NODES};
ghost use Rattle.element_parts.specs.Phases.{first_node, group_to_ground};

use crate::port::{at_phases, one_branch, single};
use element_parts::{
    Ohms, Parts, add_grouped, add_plain, coupling_share, first_node, impedance, kv, open_circuit,
    push_group_to_ground, skin_series,
};
use fixed_decimal::Decimal;
use net_branch::{AddFault, Law, Network};
use sqlite_items::Items;
use std::alloc::{AllocError, Global};
use study_model::{Sequence, Source, Study};

/// The law of a source of `r` and `x` ohms.
fn source_series(study: &Study, source: &Source, r: Decimal, x: Decimal) -> Law
    requires bus { source.now.bus < length study.now.buses }
    requires kv { pos 1 ≤ℤ kv_of study.now.buses source.now.bus }
    ensures { exact_law result ≡ source_series study.now source.now r x }
{
    let kv = kv(study, source.bus);
    skin_series(
        impedance(r, study.mva, kv),
        source.skin_k,
        source.skin_m,
        impedance(x, study.mva, kv),
    )
}

/// What a source adds to a network, nothing where it is open.
#[tactic(auto, unfolding(crate::specs::Sources::source_expansion))]
fn source_parts(
    alloc: Global,
    study: &Study,
    source: &Source,
    owner: u32,
    sequence: Sequence,
) -> Result<Parts, AllocError>
    requires bus { source.now.bus < length study.now.buses }
    requires kv { pos 1 ≤ℤ kv_of study.now.buses source.now.bus }
    ensures { IfOk result (λ parts. exact_parts parts ≡ source_expansion study.now source.now owner sequence) }
{
    let law = match (sequence, source.r0, source.x0) {
        (Sequence::Positive, _, _) => source_series(study, source, source.r, source.x),
        (Sequence::Zero, Some(r0), Some(x0)) => source_series(study, source, r0, x0),
        (Sequence::Zero, _, _) => return Ok(open_circuit(alloc)),
    };
    one_branch(alloc, law, source.bus, owner)
}

/// Adds a source: its impedance from its bus to ground, with its skin coefficients; in the zero network its zero-sequence impedance where
/// it is given, else nothing. `TooMany` exactly where the network would have more than `MAX_NODES` nodes or more than `MAX_BRANCHES`
/// branches. A refusal leaves the network as it was. (Arrillaga and Watson, Power System Harmonics.)
#[tactic(auto, using(element_parts::proofs::Values::kv_positive))]
pub fn add_source(
    alloc: Global,
    network: &mut Network,
    study: &Study,
    source: &Source,
    owner: u32,
    sequence: Sequence,
) -> Result<(), AddFault>
    requires study { IsLawful study.now }
    requires source { IsLawfulSource study.now.buses source.now }
    requires buses { network.old.buses ≡ length study.now.buses }
    requires whole { IsWholeNetwork network.old }
    ensures { Adds network.old network.new result (source_expansion study.now source.now owner sequence) }
{
    let parts = source_parts(alloc, study, source, owner, sequence);
    add_plain(alloc, network, parts)
}

/// A source as three coupled phases, each to ground.
#[tactic(auto, unfolding(exact_algebra::specs::Ratio::whole))]
fn coupled_parts(
    alloc: Global,
    study: &Study,
    source: &Source,
    owner: u32,
    group: u32,
    r0: Decimal,
    x0: Decimal,
) -> Result<Parts, AllocError>
    requires bus { source.now.bus < length study.now.buses }
    requires few { length study.now.buses ≤ MAX_BUSES }
    requires kv { pos 1 ≤ℤ kv_of study.now.buses source.now.bus }
    ensures inner { IfOk result (λ parts. parts.inner ≡ 0) }
    ensures branches { IfOk result (λ parts. map exact_branch parts.branches ≡ group_to_ground (first_node source.now.bus) (source_coupling study.now source.now r0 x0) group owner) }
{
    let ohms = Ohms {
        r: source.r,
        x: source.x,
        r0,
        x0,
    };
    let kv = kv(study, source.bus);
    let values = coupling_share(ohms, source.skin_k, source.skin_m, study.mva, kv, 1);
    let node = first_node(source.bus);
    let mut branches = Items::new(alloc);
    push_group_to_ground(alloc, &mut branches, node, values, group, owner)?;
    Ok(Parts { inner: 0, branches })
}

/// What a source adds to the network of three phases. `group` is the number of its group, `next` that of its inner node.
#[tactic(auto, unfolding(crate::specs::Sources::source_phases))]
fn phase_parts(
    alloc: Global,
    study: &Study,
    source: &Source,
    owner: u32,
    group: u32,
    next: u32,
) -> Result<Parts, AllocError>
    requires bus { source.now.bus < length study.now.buses }
    requires few { length study.now.buses ≤ MAX_BUSES }
    requires kv { pos 1 ≤ℤ kv_of study.now.buses source.now.bus }
    requires next { next ≤ MAX_NODES }
    ensures { IfOk result (λ parts. exact_parts parts ≡ source_phases study.now source.now owner group next) }
{
    if let (Some(r0), Some(x0)) = (source.r0, source.x0) {
        return coupled_parts(alloc, study, source, owner, group, r0, x0);
    }
    let law = source_series(study, source, source.r, source.x);
    let port = single(alloc, law)?;
    at_phases(alloc, &port, false, None, source.bus, next, owner)
}

/// Adds a source to the network of three phases: where its zero-sequence impedance z0 is given three coupled branches to ground, of the self
/// impedance (z0 + 2·z)/3 and the mutual one (z0 - z)/3, in a group of the number `group`; else its impedance z from each phase to one
/// neutral, an inner node that is tied to nothing else. `TooMany` exactly where the network would have more than `MAX_NODES` nodes or more
/// than `MAX_BRANCHES` branches. A refusal leaves the network as it was. (Arrillaga and Watson, Power System Harmonics.)
#[tactic(auto, using(element_parts::proofs::Values::kv_positive))]
pub fn add_source_phases(
    alloc: Global,
    network: &mut Network,
    study: &Study,
    source: &Source,
    owner: u32,
    group: u32,
) -> Result<(), AddFault>
    requires study { IsLawful study.now }
    requires source { IsLawfulSource study.now.buses source.now }
    requires buses { network.old.buses ≡ 3 * length study.now.buses }
    requires whole { IsWholeNetwork network.old }
    requires number { 1 ≤ group }
    requires below { AllByRecursion (λ b. b.group < group) network.old.branches }
    ensures { Adds network.old network.new result (source_phases study.now source.now owner group network.old.nodes) }
{
    let parts = phase_parts(alloc, study, source, owner, group, network.nodes);
    add_grouped(alloc, network, parts)
}
