// Networks, a table of parts each.
ghost use Rattle.std.specs.Prelude.{◌≤◌, IfOk, []};
ghost use Rattle.network_theory.specs.Live.{Live};
ghost use Rattle.network_theory.specs.Network.{IsUncoupled};
ghost use Rattle.net_branch.specs.Exact.{exact_branch, exact_network};
ghost use Rattle.net_branch.specs.Whole.{IsWholeNetwork};

use exact_fraction::Fraction;
use net_branch::{Branch, Law, NetFault, Network, NodeId, Tap, live, new_network, push_branch};
use sqlite_items::Items;
use std::alloc::Global;
use std::test::Fail;

pub const ZERO: Fraction = Fraction { num: 0, den: 1 };

pub const ONE: Fraction = Fraction { num: 1, den: 1 };

/// A whole number.
pub fn whole(num: i64) -> Fraction {
    Fraction {
        num: i128::from(num),
        den: 1,
    }
}

/// A resistance or a susceptance.
#[derive(Clone, Copy)]
pub enum Value {
    Resistance(Fraction),
    Susceptance(Fraction),
}

/// A branch from a node, with this ratio there, to another node or to ground.
#[derive(Clone, Copy)]
pub struct Part {
    pub from: u32,
    pub ratio: Fraction,
    pub to: Option<u32>,
    pub value: Value,
}

/// A branch from a node to ground.
pub fn grounded(from: u32, value: Value) -> Part {
    Part {
        from,
        ratio: ONE,
        to: None,
        value,
    }
}

/// A resistance between two nodes.
pub fn between(from: u32, to: u32, resistance: Fraction) -> Part {
    Part {
        from,
        ratio: ONE,
        to: Some(to),
        value: Value::Resistance(resistance),
    }
}

fn law_of(value: Value) -> Law
    ensures { IsUncoupled (exact_branch (record { taps = []; law = result; group = 0; owner = 1 })) }
{
    match value {
        Value::Resistance(r) => Law::Series {
            r,
            k: ZERO,
            m: ONE,
            x: ZERO,
            xc: ZERO,
        },
        Value::Susceptance(b) => Law::Shunt { b },
    }
}

/// A tap at the node of this number.
pub fn tap(number: u32, ratio: Fraction) -> Tap {
    Tap {
        node: NodeId { number },
        ratio,
    }
}

fn taps_of(alloc: Global, part: &Part) -> Result<Items<Tap>, Fail> {
    let from = tap(part.from, part.ratio);
    match part.to {
        Some(to) => Ok(Items::from_slice(alloc, &[from, tap(to, whole(-1))])?),
        None => Ok(Items::from_slice(alloc, &[from])?),
    }
}

/// The branch of a part.
pub fn branch_of(alloc: Global, part: &Part) -> Result<Branch, Fail>
    ensures { IfOk result (λ branch. IsUncoupled (exact_branch branch)) }
{
    Ok(Branch {
        taps: taps_of(alloc, part)?,
        law: law_of(part.value),
        group: 0,
        owner: 1,
    })
}

/// Adds a branch of its own.
#[tactic(auto, using(net_branch::proofs::Wholes::uncoupled_next, net_branch::proofs::Wholes::uncoupled_grouped, net_branch::proofs::Wholes::whole_growing))]
pub fn push(alloc: Global, network: &mut Network, branch: Branch) -> Result<(), NetFault>
    requires whole { IsWholeNetwork network.old }
    requires uncoupled { IsUncoupled (exact_branch branch) }
    ensures { IsWholeNetwork network.new }
{
    push_branch(alloc, network, branch)?;
    Ok(())
}

/// So many buses with these parts.
pub fn network_of(alloc: Global, buses: u32, parts: &[Part]) -> Result<Network, Fail>
    requires { buses ≤ 400 }
    ensures { IfOk result IsWholeNetwork }
{
    let mut network = new_network(alloc, buses)?;
    for part in parts {
        push(alloc, &mut network, branch_of(alloc, part)?)?;
    }
    Ok(network)
}

/// The node of this number, which must be live.
pub fn live_node(alloc: Global, network: &Network, number: u32) -> Result<NodeId, Fail>
    requires { IsWholeNetwork network.now }
    ensures { IfOk result (λ node. Live (exact_network network.now) node.number) }
{
    let marks = live(alloc, network)?;
    if number < network.nodes && marks[number as usize] {
        Ok(NodeId { number })
    } else {
        Err("dead".into())
    }
}
