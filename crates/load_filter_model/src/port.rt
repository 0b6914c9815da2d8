// What loads, banks and filters are at a node, and at the three phases of a bus.
ghost use Rattle.std.specs.Prelude.{◌≡◌, ◌+◌, ◌*◌, ◌<◌, ◌≤◌, ◌++◌, map, IfOk, OnOk};
ghost use Rattle.study_model.specs.declared.limits.TheConstants.{MAX_BUSES};
ghost use Rattle.net_branch.specs.declared.limits.TheConstants.{MAX_NODES};
ghost use Rattle.net_branch.specs.Exact.{exact_law, exact_branch};
ghost use Rattle.element_parts.specs.Parts.{exact_parts};
ghost use Rattle.element_parts.specs.Phases.{phase_node};
ghost use Rattle.load_filter_model.specs.Ports.{single, inner_nodes, returning, port_branches, at_node, in_each_phase, at_phases};
ghost use Rattle.load_filter_model.specs.ExactPorts.{exact_port};

use element_parts::{Parts, between, phase_node, place_of, to_return};
use net_branch::{Branch, Law};
use sqlite_items::Items;
use std::alloc::{AllocError, Global};
use study_model::Phase;

/// The law of the capacitor, where there is one, and those of the branches behind it.
#[derive(Drop)]
pub struct Port {
    pub capacitor: Option<Law>,
    pub laws: Items<Law>,
}

/// An element of one branch.
pub fn single(alloc: Global, law: Law) -> Result<Port, AllocError>
    ensures { IfOk result (λ port. exact_port port ≡ single (exact_law law)) }
{
    Ok(Port {
        capacitor: None,
        laws: Items::from_slice(alloc, &[law])?,
    })
}

/// How many inner nodes an element has in each phase.
fn inner_nodes(port: &Port) -> u32
    ensures value { result ≡ inner_nodes (exact_port port.now).capacitor }
    ensures few { result ≤ 1 }
{
    match port.capacitor {
        None => 0,
        Some(_) => 1,
    }
}

/// Adds branches of these laws from a node to ground, or to a neutral where there is one.
fn push_returning(
    alloc: Global,
    branches: &mut Items<Branch>,
    neutral: Option<u32>,
    node: u32,
    laws: &[Law],
    owner: u32,
) -> Result<(), AllocError>
    ensures { OnOk result (map exact_branch branches.new ≡ map exact_branch branches.old ++ returning neutral node (map exact_law laws.now) owner) }
{
    for law in laws {
        branches.push(to_return(alloc, neutral, node, *law, owner)?)?;
    }
    Ok(())
}

/// Adds an element's branches at a node, where its inner node has the number `inner`.
fn push_port(
    alloc: Global,
    branches: &mut Items<Branch>,
    port: &Port,
    neutral: Option<u32>,
    node: u32,
    inner: u32,
    owner: u32,
) -> Result<(), AllocError>
    ensures { OnOk result (map exact_branch branches.new ≡ map exact_branch branches.old ++ port_branches (exact_port port.now) neutral node inner owner) }
{
    let laws = port.laws.as_slice();
    match port.capacitor {
        None => push_returning(alloc, branches, neutral, node, laws, owner),
        Some(capacitor) => {
            branches.push(between(alloc, node, inner, capacitor, owner)?)?;
            push_returning(alloc, branches, neutral, inner, laws, owner)
        }
    }
}

/// What an element adds at one node, to ground. `next` is the number of its inner node, where it has one.
pub fn at_node(
    alloc: Global,
    port: &Port,
    node: u32,
    next: u32,
    owner: u32,
) -> Result<Parts, AllocError>
    ensures { IfOk result (λ parts. exact_parts parts ≡ at_node (exact_port port.now) node next owner) }
{
    let mut branches = Items::new(alloc);
    push_port(alloc, &mut branches, port, None, node, next, owner)?;
    Ok(Parts {
        inner: inner_nodes(port),
        branches,
    })
}

/// What an element of one branch adds at one node, to ground.
pub fn one_branch(alloc: Global, law: Law, node: u32, owner: u32) -> Result<Parts, AllocError>
    ensures { IfOk result (λ parts. exact_parts parts ≡ at_node (single (exact_law law)) node 0 owner) }
{
    let port = single(alloc, law)?;
    at_node(alloc, &port, node, 0, owner)
}

/// Adds an element's branches in one phase of a bus, where the phases' inner nodes are numbered from `next` on.
fn push_phase(
    alloc: Global,
    branches: &mut Items<Branch>,
    port: &Port,
    neutral: Option<u32>,
    bus: u32,
    phase: u32,
    next: u32,
    owner: u32,
) -> Result<(), AllocError>
    requires bus { bus < MAX_BUSES }
    requires phase { phase < 3 }
    requires next { next ≤ MAX_NODES + 1 }
    ensures { OnOk result (map exact_branch branches.new ≡ map exact_branch branches.old ++ port_branches (exact_port port.now) neutral (phase_node bus phase) (next + phase * inner_nodes (exact_port port.now).capacitor) owner) }
{
    let node = phase_node(bus, phase);
    let inner = next + phase * inner_nodes(port);
    push_port(alloc, branches, port, neutral, node, inner, owner)
}

/// An element's branches in each phase of a bus.
#[tactic(auto, using(element_parts::proofs::InPhases::added_in_phases))]
fn in_each_phase(
    alloc: Global,
    port: &Port,
    neutral: Option<u32>,
    bus: u32,
    next: u32,
    owner: u32,
) -> Result<Items<Branch>, AllocError>
    requires bus { bus < MAX_BUSES }
    requires next { next ≤ MAX_NODES + 1 }
    ensures { IfOk result (λ branches. map exact_branch branches ≡ in_each_phase (exact_port port.now) neutral bus next owner) }
{
    let mut branches = Items::new(alloc);
    push_phase(alloc, &mut branches, port, neutral, bus, 0, next, owner)?;
    push_phase(alloc, &mut branches, port, neutral, bus, 1, next, owner)?;
    push_phase(alloc, &mut branches, port, neutral, bus, 2, next, owner)?;
    Ok(branches)
}

/// What an element adds at the phases of a bus: in each phase its branches to ground where it is grounded, else to one neutral, which is its
/// first inner node; with a phase its branches in that phase alone, to ground. `next` is the number of its first inner node.
pub fn at_phases(
    alloc: Global,
    port: &Port,
    grounded: bool,
    phase: Option<Phase>,
    bus: u32,
    next: u32,
    owner: u32,
) -> Result<Parts, AllocError>
    requires bus { bus < MAX_BUSES }
    requires next { next ≤ MAX_NODES }
    ensures { IfOk result (λ parts. exact_parts parts ≡ at_phases (exact_port port.now) grounded phase bus next owner) }
{
    if let Some(phase) = phase {
        let node = phase_node(bus, place_of(phase));
        return at_node(alloc, port, node, next, owner);
    }
    let inner = 3 * inner_nodes(port);
    if grounded {
        let branches = in_each_phase(alloc, port, None, bus, next, owner)?;
        return Ok(Parts { inner, branches });
    }
    let branches = in_each_phase(alloc, port, Some(next), bus, next + 1, owner)?;
    Ok(Parts {
        inner: 1 + inner,
        branches,
    })
}
