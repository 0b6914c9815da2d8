// Transformers. The positive network has the leakage alone; which way zero sequence takes, both windings decide (zero.rt).
ghost use Rattle.std.specs.Prelude.{◌≡◌, ◌≤◌, ◌≤ℤ◌, pos, [], ◌∷◌, length, IfOk};
ghost use Rattle.study_model.specs.Lawful.{IsLawful, IsLawfulTransformer};
ghost use Rattle.net_branch.specs.Whole.{IsWholeNetwork};
ghost use Rattle.net_branch.specs.declared.limits.TheConstants.{MAX_NODES};
ghost use Rattle.element_parts.specs.Adds.{Adds};
ghost use Rattle.element_parts.specs.Parts.{exact_parts};
ghost use Rattle.transformer_model.specs.Transformers.{windings, transformer_expansion};

use crate::leakage::windings;
use crate::zero::zero_parts;
use element_parts::{Parts, add_plain};
use net_branch::{AddFault, Network};
use sqlite_items::Items;
use std::alloc::{AllocError, Global};
use study_model::{Sequence, Study, Transformer};

/// What a transformer adds to the positive network: its windings between its two buses.
fn positive_parts(
    alloc: Global,
    study: &Study,
    transformer: &Transformer,
    owner: u32,
) -> Result<Parts, AllocError>
    requires mva { pos 1 ≤ℤ transformer.now.mva }
    requires ratio { pos 1 ≤ℤ transformer.now.ratio }
    ensures { IfOk result (λ parts. exact_parts parts ≡ record { inner = 0; branches = windings study.now transformer.now transformer.now.from transformer.now.to owner ∷ [] }) }
{
    let branch = windings(
        alloc,
        study,
        transformer,
        transformer.from,
        transformer.to,
        owner,
    )?;
    let mut branches = Items::new(alloc);
    branches.push(branch)?;
    Ok(Parts { inner: 0, branches })
}

/// What a transformer adds to a network. `next` is the number of the first inner node.
#[tactic(auto, unfolding(crate::specs::Transformers::transformer_expansion))]
fn transformer_parts(
    alloc: Global,
    study: &Study,
    transformer: &Transformer,
    owner: u32,
    sequence: Sequence,
    next: u32,
) -> Result<Parts, AllocError>
    requires study { IsLawful study.now }
    requires transformer { IsLawfulTransformer study.now.buses transformer.now }
    requires next { next ≤ MAX_NODES }
    ensures { IfOk result (λ parts. exact_parts parts ≡ transformer_expansion study.now transformer.now owner sequence next) }
{
    match sequence {
        Sequence::Positive => positive_parts(alloc, study, transformer, owner),
        Sequence::Zero => zero_parts(alloc, study, transformer, owner, next),
    }
}

/// Adds a transformer: its leakage impedance between its two buses, with its ratio at the from side. In the zero network it is a way
/// through where both sides are grounded, a way to ground at its grounded side where the other is in delta, each behind three times the
/// impedance of a grounded side's neutral, and else nothing. `TooMany` exactly where the network would have more than `MAX_NODES` nodes or
/// more than `MAX_BRANCHES` branches. A refusal leaves the network as it was. (Arrillaga and Watson, Power System Harmonics.)
pub fn add_transformer(
    alloc: Global,
    network: &mut Network,
    study: &Study,
    transformer: &Transformer,
    owner: u32,
    sequence: Sequence,
) -> Result<(), AddFault>
    requires study { IsLawful study.now }
    requires transformer { IsLawfulTransformer study.now.buses transformer.now }
    requires buses { network.old.buses ≡ length study.now.buses }
    requires whole { IsWholeNetwork network.old }
    ensures { Adds network.old network.new result (transformer_expansion study.now transformer.now owner sequence network.old.nodes) }
{
    let parts = transformer_parts(alloc, study, transformer, owner, sequence, network.nodes);
    add_plain(alloc, network, parts)
}
