// Transformers in the zero network. Zero sequence passes between two grounded stars, goes to ground behind a delta, and else not at all.
ghost use Rattle.std.specs.Prelude.{◌≡◌, ◌<◌, ◌≤◌, ◌≤ℤ◌, pos, length, IfOk};
ghost use Rattle.exact_algebra.specs.Ratio.{whole};
ghost use Rattle.exact_fraction.specs.Fraction.{ratio_of};
ghost use Rattle.study_model.specs.Lawful.{IsLawful, IsLawfulTransformer};
ghost use Rattle.study_model.specs.declared.words.Connection.TheVariants.{Grounded, Delta};
ghost use Rattle.net_branch.specs.declared.limits.TheConstants.{MAX_NODES};
ghost use Rattle.transformer_model.specs.Transformers.{both_grounded, one_grounded, neutral_laws, zero_transformer};
ghost use Rattle.element_parts.specs.Parts.{exact_parts};
ghost use Rattle.transformer_model.specs.NeutralLaws.{laws_of};

use crate::leakage::{winding, windings};
use crate::neutral::{inner_nodes, neutral_law, node_behind, push_neutral};
use element_parts::{Parts, inverse_ratio, open_circuit};
use exact_fraction::Fraction;
use net_branch::Law;
use sqlite_items::Items;
use std::alloc::{AllocError, Global};
use study_model::{Connection, Study, Transformer};

/// A transformer of two grounded sides: the neutrals of the from side and of the to side where these have an impedance, then the windings
/// between the nodes behind them. `next` is the number of the first inner node.
fn both_grounded(
    alloc: Global,
    study: &Study,
    transformer: &Transformer,
    owner: u32,
    next: u32,
    from: Option<Law>,
    to: Option<Law>,
) -> Result<Parts, AllocError>
    requires mva { pos 1 ≤ℤ transformer.now.mva }
    requires ratio { pos 1 ≤ℤ transformer.now.ratio }
    requires next { next ≤ MAX_NODES }
    ensures { IfOk result (λ parts. exact_parts parts ≡ both_grounded study.now transformer.now owner next (laws_of from) (laws_of to)) }
{
    let second = next + inner_nodes(from);
    let mut branches = Items::new(alloc);
    push_neutral(alloc, &mut branches, transformer.from, next, from, owner)?;
    push_neutral(alloc, &mut branches, transformer.to, second, to, owner)?;
    let from_node = node_behind(transformer.from, next, from);
    let to_node = node_behind(transformer.to, second, to);
    branches.push(windings(alloc, study, transformer, from_node, to_node, owner)?)?;
    Ok(Parts {
        inner: inner_nodes(from) + inner_nodes(to),
        branches,
    })
}

/// A transformer with one grounded side, at `bus`, the other in delta: the neutral of the grounded side where that has an impedance, then
/// its winding from the node behind it to ground. `next` is the number of the first inner node.
fn one_grounded(
    alloc: Global,
    study: &Study,
    transformer: &Transformer,
    owner: u32,
    next: u32,
    bus: u32,
    ratio: Fraction,
    law: Option<Law>,
) -> Result<Parts, AllocError>
    requires mva { pos 1 ≤ℤ transformer.now.mva }
    ensures { IfOk result (λ parts. exact_parts parts ≡ one_grounded study.now transformer.now owner next bus (ratio_of ratio) (laws_of law)) }
{
    let mut branches = Items::new(alloc);
    push_neutral(alloc, &mut branches, bus, next, law, owner)?;
    let node = node_behind(bus, next, law);
    branches.push(winding(alloc, study, transformer, node, ratio, owner)?)?;
    Ok(Parts {
        inner: inner_nodes(law),
        branches,
    })
}

/// The ratio 1.
#[tactic(auto, unfolding(exact_algebra::specs::Ratio::whole))]
fn one() -> Fraction
    ensures { ratio_of result ≡ whole (pos 1) }
{
    Fraction { num: 1, den: 1 }
}

/// Three times the impedance of the from side's neutral.
#[tactic(auto, using(element_parts::proofs::Values::kv_positive))]
fn from_neutral(study: &Study, transformer: &Transformer) -> Option<Law>
    requires study { IsLawful study.now }
    requires transformer { IsLawfulTransformer study.now.buses transformer.now }
    ensures { laws_of result ≡ neutral_laws study.now transformer.now transformer.now.from transformer.now.from_rn transformer.now.from_xn }
{
    neutral_law(
        study,
        transformer,
        transformer.from,
        transformer.from_rn,
        transformer.from_xn,
    )
}

/// Three times the impedance of the to side's neutral.
#[tactic(auto, using(element_parts::proofs::Values::kv_positive))]
fn to_neutral(study: &Study, transformer: &Transformer) -> Option<Law>
    requires study { IsLawful study.now }
    requires transformer { IsLawfulTransformer study.now.buses transformer.now }
    ensures { laws_of result ≡ neutral_laws study.now transformer.now transformer.now.to transformer.now.to_rn transformer.now.to_xn }
{
    neutral_law(
        study,
        transformer,
        transformer.to,
        transformer.to_rn,
        transformer.to_xn,
    )
}

/// A transformer of two grounded sides.
fn through(
    alloc: Global,
    study: &Study,
    transformer: &Transformer,
    owner: u32,
    next: u32,
) -> Result<Parts, AllocError>
    requires study { IsLawful study.now }
    requires transformer { IsLawfulTransformer study.now.buses transformer.now }
    requires next { next ≤ MAX_NODES }
    ensures { IfOk result (λ parts. exact_parts parts ≡ zero_transformer study.now transformer.now owner next Grounded Grounded) }
{
    let from = from_neutral(study, transformer);
    let to = to_neutral(study, transformer);
    both_grounded(alloc, study, transformer, owner, next, from, to)
}

/// A transformer whose from side is grounded and whose to side is in delta.
fn from_grounded(
    alloc: Global,
    study: &Study,
    transformer: &Transformer,
    owner: u32,
    next: u32,
) -> Result<Parts, AllocError>
    requires study { IsLawful study.now }
    requires transformer { IsLawfulTransformer study.now.buses transformer.now }
    ensures { IfOk result (λ parts. exact_parts parts ≡ zero_transformer study.now transformer.now owner next Grounded Delta) }
{
    let law = from_neutral(study, transformer);
    let ratio = inverse_ratio(transformer.ratio);
    one_grounded(
        alloc,
        study,
        transformer,
        owner,
        next,
        transformer.from,
        ratio,
        law,
    )
}

/// A transformer whose from side is in delta and whose to side is grounded.
fn to_grounded(
    alloc: Global,
    study: &Study,
    transformer: &Transformer,
    owner: u32,
    next: u32,
) -> Result<Parts, AllocError>
    requires study { IsLawful study.now }
    requires transformer { IsLawfulTransformer study.now.buses transformer.now }
    ensures { IfOk result (λ parts. exact_parts parts ≡ zero_transformer study.now transformer.now owner next Delta Grounded) }
{
    let law = to_neutral(study, transformer);
    one_grounded(
        alloc,
        study,
        transformer,
        owner,
        next,
        transformer.to,
        one(),
        law,
    )
}

/// What a transformer adds to the zero network, by the connections of its two sides. `next` is the number of the first inner node.
pub fn zero_parts(
    alloc: Global,
    study: &Study,
    transformer: &Transformer,
    owner: u32,
    next: u32,
) -> Result<Parts, AllocError>
    requires study { IsLawful study.now }
    requires transformer { IsLawfulTransformer study.now.buses transformer.now }
    requires next { next ≤ MAX_NODES }
    ensures { IfOk result (λ parts. exact_parts parts ≡ zero_transformer study.now transformer.now owner next transformer.now.from_conn transformer.now.to_conn) }
{
    match (transformer.from_conn, transformer.to_conn) {
        (Connection::Grounded, Connection::Grounded) => {
            through(alloc, study, transformer, owner, next)
        }
        (Connection::Grounded, Connection::Delta) => {
            from_grounded(alloc, study, transformer, owner, next)
        }
        (Connection::Delta, Connection::Grounded) => {
            to_grounded(alloc, study, transformer, owner, next)
        }
        _ => Ok(open_circuit(alloc)),
    }
}
