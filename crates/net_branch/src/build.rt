// Networks built node by node and branch by branch. A refusal leaves the network as it was.
ghost use Rattle.std.specs.Prelude.{◌≡◌, ◌+◌, ◌≤◌, ◌<◌, ◌↔◌, [], ◌∷◌, ◌++◌, map, IsOk, IfOk, IfErr, IsOkAnd, OnOk, OnErr, IsOkUnless, MatchOption};
ghost use Rattle.network_theory.specs.Network.{IsGrouped};
ghost use Rattle.net_branch.specs.Exact.{exact_branch};
ghost use Rattle.net_branch.specs.Next.{NextKeepsGrouping};
ghost use Rattle.net_branch.specs.Refusal.{is_zero, is_zero_law, is_at_nodes, push_refusal};
ghost use Rattle.net_branch.specs.Whole.{IsWholeNetwork, IsGrouping, IsGrowing};
ghost use Rattle.net_branch.specs.declared.fault.NetFault.TheVariants.{TooMany, NoMemory};

use crate::fault::NetFault;
use crate::limits::{MAX_BRANCHES, MAX_NODES};
use crate::network::{Branch, Law, Network, NodeId, Tap};
use exact_fraction::Fraction;
use sqlite_items::Items;
use std::alloc::{AllocError, Global};

/// A network of so many bus nodes, with no other node and no branch.
pub fn new_network(alloc: Global, buses: u32) -> Result<Network, AllocError>
    requires { buses ≤ MAX_NODES }
    ensures made { IsOkAnd result (λ network. network ≡ record { buses = buses; nodes = buses; branches = [] }) }
    ensures whole { IfOk result IsWholeNetwork }
{
    Ok(Network {
        buses,
        nodes: buses,
        branches: Items::new(alloc),
    })
}

/// Adds a node, and gives its number. `TooMany` exactly where the network has `MAX_NODES` nodes; it then stays as it was. It takes no
/// memory.
pub fn add_node(network: &mut Network) -> Result<NodeId, NetFault>
    requires { IsGrowing network.old }
    ensures refusal { IsOk result ↔ (network.old.nodes < MAX_NODES) }
    ensures fault { IfErr result (λ fault. fault ≡ TooMany) }
    ensures number { IfOk result (λ node. node.number ≡ network.old.nodes) }
    ensures added { OnOk result (network.new ≡ record network.old { nodes = network.old.nodes + 1 }) }
    ensures unchanged { OnErr result (network.new ≡ network.old) }
    ensures growing { IsGrowing network.new }
    ensures whole { IsWholeNetwork network.old → IsWholeNetwork network.new }
{
    if network.nodes >= MAX_NODES {
        return Err(NetFault::TooMany);
    }
    let number = network.nodes;
    network.nodes = number + 1;
    Ok(NodeId { number })
}

fn is_zero(x: Fraction) -> bool
    ensures { result ≡ is_zero x }
{
    x.num == 0
}

fn is_zero_law(law: Law) -> bool
    ensures { result ≡ is_zero_law law }
{
    match law {
        Law::Series { r, x, xc, .. } => is_zero(r) && is_zero(x) && is_zero(xc),
        Law::Shunt { b } => is_zero(b),
        Law::Coupled3 { .. } => false,
    }
}

fn is_at_nodes(nodes: u32, branch: &Branch) -> bool
    ensures { result ≡ is_at_nodes nodes branch.now }
{
    for tap in branch.taps.as_slice() {
        if tap.node.number >= nodes {
            return false;
        }
    }
    true
}

/// Adds a branch at the end of the network's branches. The branch is the next of an incomplete group, or no group is incomplete and it is
/// uncoupled or the first of a new group. The refusals are judged in the order of their numbers: `NodeOutOfRange`, `TooMany` where
/// the network has `MAX_BRANCHES` branches, `ZeroLaw`; `NoMemory` comes last. A refusal leaves the network as it was and drops the
/// branch.
pub fn push_branch(alloc: Global, network: &mut Network, branch: Branch) -> Result<(), NetFault>
    requires growing { IsGrowing network.old }
    requires next { IsGrouping (network.old.branches ++ branch ∷ []) }
    ensures refusal { MatchOption (push_refusal network.old branch) (IsOkUnless result NoMemory) (λ fault. result ≡ Err fault) }
    ensures pushed { OnOk result (network.new ≡ record network.old { branches = network.old.branches ++ branch ∷ [] }) }
    ensures unchanged { OnErr result (network.new ≡ network.old) }
    ensures growing { IsGrowing network.new }
    ensures whole { IsGrouped (map exact_branch network.new.branches) → IsWholeNetwork network.new }
{
    if !is_at_nodes(network.nodes, &branch) {
        return Err(NetFault::NodeOutOfRange);
    }
    if network.branches.len() >= MAX_BRANCHES as usize {
        return Err(NetFault::TooMany);
    }
    if is_zero_law(branch.law) {
        return Err(NetFault::ZeroLaw);
    }
    match network.branches.push(branch) {
        Ok(()) => Ok(()),
        Err(_) => Err(NetFault::NoMemory),
    }
}

/// A branch that may come next, by the plain words of `IsNext`, is one that `push_branch` takes.
pub fn next_keeps_grouping()
    ensures law { NextKeepsGrouping }
{}
