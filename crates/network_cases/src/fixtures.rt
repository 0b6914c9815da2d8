// Networks of coils and banks, a table of parts each.
ghost use Rattle.std.specs.Prelude.{◌≡◌, ◌≤◌, ◌++◌, ◌∷◌, [], IfOk, OnOk};
ghost use Rattle.std.specs.List.{AllByRecursion};
ghost use Rattle.network_theory.specs.Live.{Live};
ghost use Rattle.network_theory.specs.Network.{IsUncoupled};
ghost use Rattle.net_branch.specs.Exact.{exact_branch, exact_network};
ghost use Rattle.net_branch.specs.Whole.{IsWholeNetwork};

use admittance_box::Assembly;
use complex_interval::Span;
use exact_fraction::Fraction;
use net_branch::{
    Branch, Law, NetFault, Network, NodeId, Tap, add_node, live, new_network, push_branch,
};
use sqlite_items::Items;
use std::alloc::Global;
use std::test::Fail;

pub const ZERO: Fraction = Fraction { num: 0, den: 1 };

pub const ONE: Fraction = Fraction { num: 1, den: 1 };

pub const TWO: Fraction = Fraction { num: 2, den: 1 };

pub const MINUS_ONE: Fraction = Fraction { num: -1, den: 1 };

pub const TENTH: Fraction = Fraction { num: 1, den: 10 };

pub const FOUR_HUNDREDTHS: Fraction = Fraction { num: 4, den: 100 };

/// A tap at a node.
pub fn tap(number: u32, ratio: Fraction) -> Tap
    ensures { result.node.number ≡ number }
{
    Tap {
        node: NodeId { number },
        ratio,
    }
}

/// The values of a branch: a series branch of r, x and xc, or a shunt of b.
#[derive(Clone, Copy)]
pub enum Values {
    Series {
        r: Fraction,
        x: Fraction,
        xc: Fraction,
    },
    Shunt(Fraction),
}

/// A branch from a tap to another one, or to ground.
#[derive(Clone, Copy)]
pub struct Part {
    pub from: Tap,
    pub to: Option<Tap>,
    pub values: Values,
}

/// A series branch of the resistance r and the reactance 1, from a node to ground.
pub fn coil(number: u32, r: Fraction) -> Part {
    Part {
        from: tap(number, ONE),
        to: None,
        values: Values::Series {
            r,
            x: ONE,
            xc: ZERO,
        },
    }
}

/// A coil without resistance between two nodes, with this ratio at the first.
pub fn tie(from: u32, ratio: Fraction, to: u32) -> Part {
    Part {
        from: tap(from, ratio),
        to: Some(tap(to, MINUS_ONE)),
        values: Values::Series {
            r: ZERO,
            x: ONE,
            xc: ZERO,
        },
    }
}

/// A shunt of the susceptance b, from a node to ground.
pub fn bank(number: u32, b: Fraction) -> Part {
    Part {
        from: tap(number, ONE),
        to: None,
        values: Values::Shunt(b),
    }
}

fn law_of(values: Values) -> Law
    ensures { IsUncoupled (exact_branch (record { taps = []; law = result; group = 0; owner = 1 })) }
{
    match values {
        Values::Series { r, x, xc } => Law::Series {
            r,
            k: ZERO,
            m: ONE,
            x,
            xc,
        },
        Values::Shunt(b) => Law::Shunt { b },
    }
}

fn taps_of(alloc: Global, part: &Part) -> Result<Items<Tap>, Fail> {
    match part.to {
        Some(to) => Ok(Items::from_slice(alloc, &[part.from, to])?),
        None => Ok(Items::from_slice(alloc, &[part.from])?),
    }
}

/// The branch of a part.
pub fn branch_of(alloc: Global, part: &Part) -> Result<Branch, Fail>
    ensures uncoupled { IfOk result (λ branch. IsUncoupled (exact_branch branch)) }
    ensures alone { IfOk result (λ branch. branch.group ≡ 0) }
{
    Ok(Branch {
        taps: taps_of(alloc, part)?,
        law: law_of(part.values),
        group: 0,
        owner: 1,
    })
}

/// Adds an uncoupled branch, and answers as `push_branch` does.
#[tactic(auto, using(net_branch::proofs::Wholes::uncoupled_next, net_branch::proofs::Wholes::uncoupled_grouped, net_branch::proofs::Wholes::whole_growing))]
pub fn push(alloc: Global, network: &mut Network, branch: Branch) -> Result<(), NetFault>
    requires whole { IsWholeNetwork network.old }
    requires uncoupled { IsUncoupled (exact_branch branch) }
    ensures whole { IsWholeNetwork network.new }
    ensures pushed { OnOk result (network.new ≡ record network.old { branches = network.old.branches ++ branch ∷ [] }) }
{
    push_branch(alloc, network, branch)?;
    Ok(())
}

/// Adds a node, and answers its number.
#[tactic(auto, using(net_branch::proofs::Wholes::whole_growing))]
pub fn add(network: &mut Network) -> Result<u32, NetFault>
    requires { IsWholeNetwork network.old }
    ensures { IsWholeNetwork network.new }
{
    Ok(add_node(network)?.number)
}

/// Adds these parts, none of which is of a group.
#[tactic(auto, using(net_branch::proofs::Wholes::each_append))]
pub fn fill(alloc: Global, network: &mut Network, parts: &[Part]) -> Result<(), Fail>
    requires { IsWholeNetwork network.old }
    ensures whole { IsWholeNetwork network.new }
    ensures alone { AllByRecursion (λ b. b.group ≡ 0) network.old.branches → OnOk result (AllByRecursion (λ b. b.group ≡ 0) network.new.branches) }
{
    for part in parts {
        push(alloc, network, branch_of(alloc, part)?)?;
    }
    Ok(())
}

/// So many buses with these parts, none of which is of a group.
pub fn network_of(alloc: Global, buses: u32, parts: &[Part]) -> Result<Network, Fail>
    requires { buses ≤ 400 }
    ensures whole { IfOk result IsWholeNetwork }
    ensures alone { IfOk result (λ network. AllByRecursion (λ b. b.group ≡ 0) network.branches) }
{
    let mut network = new_network(alloc, buses)?;
    fill(alloc, &mut network, parts)?;
    Ok(network)
}

/// A coil from node 1 to ground, one between both nodes, and a bank at node 0.
pub fn two_buses(alloc: Global) -> Result<Network, Fail>
    ensures { IfOk result IsWholeNetwork }
{
    let parts = [coil(1, ZERO), tie(0, ONE, 1), bank(0, FOUR_HUNDREDTHS)];
    network_of(alloc, 2, parts.as_slice())
}

/// How many nodes and branches a network has.
pub fn counts(network: &Network) -> (u32, usize) {
    (network.nodes, network.branches.len())
}

/// The node of this number, which must be live.
pub fn live_node(alloc: Global, network: &Network, number: u32) -> Result<NodeId, Fail>
    requires { IsWholeNetwork network.now }
    ensures { IfOk result (λ node. Live (exact_network network.now) node.number) }
{
    let marks = live(alloc, network)?;
    if number < network.nodes && marks[number as usize] {
        Ok(NodeId { number })
    } else {
        Err("dead".into())
    }
}

/// The assembly of a network that is driven at a node, which must be live.
pub fn driven_at(alloc: Global, network: &Network, number: u32) -> Result<Assembly<Span<40>>, Fail>
    requires { IsWholeNetwork network.now }
{
    let node = live_node(alloc, network, number)?;
    Ok(Assembly::new(alloc, network, node)?)
}
