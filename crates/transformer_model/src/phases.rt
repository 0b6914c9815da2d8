// Transformers in the network of three phases.
ghost use Rattle.std.specs.Prelude.{◌≡◌, ◌+◌, ◌*◌, ◌<◌, ◌≤◌, ◌≤ℤ◌, pos, [], ◌∷◌, ◌++◌, map, length, IfOk, OnOk};
ghost use Rattle.study_model.specs.Lawful.{IsLawful, IsLawfulTransformer};
ghost use Rattle.study_model.specs.declared.limits.TheConstants.{MAX_BUSES};
ghost use Rattle.net_branch.specs.Exact.{exact_branch};
ghost use Rattle.net_branch.specs.Whole.{IsWholeNetwork};
ghost use Rattle.net_branch.specs.declared.limits.TheConstants.{MAX_NODES};
ghost use Rattle.element_parts.specs.Adds.{Adds};
ghost use Rattle.element_parts.specs.Expansion.{to_ground};
ghost use Rattle.element_parts.specs.Parts.{exact_parts};
ghost use Rattle.element_parts.specs.Phases.{in_phases};
ghost use Rattle.transformer_model.specs.ExactSides.{exact_side};
ghost use Rattle.transformer_model.specs.NeutralLaws.{laws_of};
ghost use Rattle.transformer_model.specs.Windings.{phase_neutral, winding_branch, between_sides, side_of, from_side, transformer_phases};

use crate::leakage::leakage;
use crate::neutral::phase_neutral;
use crate::winding::{FarEnd, Side, from_side, side_of, taps_of};
use element_parts::{Parts, add_plain, to_ground};
use net_branch::{AddFault, Branch, Law, Network};
use sqlite_items::Items;
use std::alloc::{AllocError, Global};
use study_model::{Study, Transformer};

/// Adds the branch of a phase: the leakage impedance with a winding of either side.
fn push_winding(
    alloc: Global,
    branches: &mut Items<Branch>,
    study: &Study,
    transformer: &Transformer,
    from: FarEnd,
    to: FarEnd,
    phase: u32,
    owner: u32,
) -> Result<(), AllocError>
    requires study { IsLawful study.now }
    requires transformer { IsLawfulTransformer study.now.buses transformer.now }
    requires phase { phase < 3 }
    ensures { OnOk result (map exact_branch branches.new ≡ map exact_branch branches.old ++ winding_branch study.now transformer.now from to owner phase ∷ []) }
{
    let taps = taps_of(alloc, study, transformer, from, to, phase)?;
    branches.push(Branch {
        taps,
        law: leakage(study, transformer),
        group: 0,
        owner,
    })?;
    Ok(())
}

/// The branches of the three phases.
#[tactic(auto, using(element_parts::proofs::InPhases::added_in_phases))]
fn three_windings(
    alloc: Global,
    study: &Study,
    transformer: &Transformer,
    from: FarEnd,
    to: FarEnd,
    owner: u32,
) -> Result<Items<Branch>, AllocError>
    requires study { IsLawful study.now }
    requires transformer { IsLawfulTransformer study.now.buses transformer.now }
    ensures { IfOk result (λ branches. map exact_branch branches ≡ in_phases (λ p. winding_branch study.now transformer.now from to owner p ∷ [])) }
{
    let mut branches = Items::new(alloc);
    push_winding(alloc, &mut branches, study, transformer, from, to, 0, owner)?;
    push_winding(alloc, &mut branches, study, transformer, from, to, 1, owner)?;
    push_winding(alloc, &mut branches, study, transformer, from, to, 2, owner)?;
    Ok(branches)
}

/// Adds the branch of a neutral to ground, where there is one.
fn push_neutral(
    alloc: Global,
    branches: &mut Items<Branch>,
    node: u32,
    law: Option<Law>,
    owner: u32,
) -> Result<(), AllocError>
    ensures { OnOk result (map exact_branch branches.new ≡ map exact_branch branches.old ++ map (λ law. to_ground node law owner) (laws_of law)) }
{
    let Some(law) = law else {
        return Ok(());
    };
    branches.push(to_ground(alloc, node, law, owner)?)?;
    Ok(())
}

/// What a transformer of these sides adds: the three branches, then the branch of the from side's neutral and of the to side's.
fn between_sides(
    alloc: Global,
    study: &Study,
    transformer: &Transformer,
    owner: u32,
    next: u32,
    from: Side,
    to: Side,
) -> Result<Parts, AllocError>
    requires study { IsLawful study.now }
    requires transformer { IsLawfulTransformer study.now.buses transformer.now }
    requires next { next ≤ MAX_NODES }
    requires from { from.inner ≤ 1 }
    requires to { to.inner ≤ 1 }
    ensures { IfOk result (λ parts. exact_parts parts ≡ between_sides study.now transformer.now owner next (exact_side from) (exact_side to)) }
{
    let mut branches = three_windings(alloc, study, transformer, from.end, to.end, owner)?;
    push_neutral(alloc, &mut branches, next, from.law, owner)?;
    push_neutral(alloc, &mut branches, next + from.inner, to.law, owner)?;
    Ok(Parts {
        inner: from.inner + to.inner,
        branches,
    })
}

/// The from side of a transformer, whose neutral has the number `next` where it has one.
#[tactic(auto, using(element_parts::proofs::Values::kv_positive))]
fn first_side(study: &Study, transformer: &Transformer, next: u32) -> Side
    requires study { IsLawful study.now }
    requires transformer { IsLawfulTransformer study.now.buses transformer.now }
    ensures side { exact_side result ≡ from_side transformer.now.from_conn transformer.now.to_conn next (phase_neutral study.now transformer.now transformer.now.from transformer.now.from_rn transformer.now.from_xn) }
    ensures few { result.inner ≤ 1 }
{
    let law = phase_neutral(
        study,
        transformer,
        transformer.from,
        transformer.from_rn,
        transformer.from_xn,
    );
    from_side(transformer.from_conn, transformer.to_conn, next, law)
}

/// The to side of a transformer, whose neutral has the number `next` where it has one.
#[tactic(auto, using(element_parts::proofs::Values::kv_positive))]
fn second_side(study: &Study, transformer: &Transformer, next: u32) -> Side
    requires study { IsLawful study.now }
    requires transformer { IsLawfulTransformer study.now.buses transformer.now }
    ensures side { exact_side result ≡ side_of transformer.now.to_conn next (phase_neutral study.now transformer.now transformer.now.to transformer.now.to_rn transformer.now.to_xn) }
    ensures few { result.inner ≤ 1 }
{
    let law = phase_neutral(
        study,
        transformer,
        transformer.to,
        transformer.to_rn,
        transformer.to_xn,
    );
    side_of(transformer.to_conn, next, law)
}

/// What a transformer adds to the network of three phases. `next` is the number of its first inner node.
#[tactic(auto, unfolding(crate::specs::Windings::transformer_phases))]
fn phase_parts(
    alloc: Global,
    study: &Study,
    transformer: &Transformer,
    owner: u32,
    next: u32,
) -> Result<Parts, AllocError>
    requires study { IsLawful study.now }
    requires transformer { IsLawfulTransformer study.now.buses transformer.now }
    requires next { next ≤ MAX_NODES }
    ensures { IfOk result (λ parts. exact_parts parts ≡ transformer_phases study.now transformer.now owner next) }
{
    let from = first_side(study, transformer, next);
    let to = second_side(study, transformer, next + from.inner);
    between_sides(alloc, study, transformer, owner, next, from, to)
}

/// Adds a transformer to the network of three phases: in each phase its leakage impedance with a winding of either side, of the ratio 1/t at the
/// from side and -1 at the to side. The far end of a winding, with the opposite ratio, is at ground or behind the neutral's impedance where the
/// side is grounded, at a neutral that is tied to nothing else in a star, and at the next phase's node in a delta, whose ratios are over root
/// 3; two stars have one neutral in common. Neutrals are inner nodes, the from side's first, and their branches come last. `TooMany` exactly
/// where the network would have more than `MAX_NODES` nodes or more than `MAX_BRANCHES` branches. A refusal leaves the network as it was.
/// (Arrillaga and Watson, Power System Harmonics; root 3 as the study writes it, and which phase a delta winding goes to: this project's own.)
pub fn add_transformer_phases(
    alloc: Global,
    network: &mut Network,
    study: &Study,
    transformer: &Transformer,
    owner: u32,
) -> Result<(), AddFault>
    requires study { IsLawful study.now }
    requires transformer { IsLawfulTransformer study.now.buses transformer.now }
    requires buses { network.old.buses ≡ 3 * length study.now.buses }
    requires whole { IsWholeNetwork network.old }
    ensures { Adds network.old network.new result (transformer_phases study.now transformer.now owner network.old.nodes) }
{
    let parts = phase_parts(alloc, study, transformer, owner, network.nodes);
    add_plain(alloc, network, parts)
}
