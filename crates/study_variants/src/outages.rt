// Networks without one element.
ghost use Rattle.std.specs.Prelude.{◌≡◌, IfOk};
ghost use Rattle.net_branch.specs.Exact.{exact_network};
ghost use Rattle.net_branch.specs.Whole.{IsWholeNetwork};
ghost use Rattle.study_variants.specs.Outages.{is_others, others_in, without};

use net_branch::{Branch, Network};
use sqlite_items::Items;
use std::alloc::{AllocError, Global};

// A copy of a branch.
fn copy_of_branch(alloc: Global, branch: &Branch) -> Result<Branch, AllocError>
    ensures { IfOk result (λ copy. copy ≡ branch.now) }
{
    let taps = Items::from_slice(alloc, branch.taps.as_slice())?;
    Ok(Branch {
        taps,
        law: branch.law,
        group: branch.group,
        owner: branch.owner,
    })
}

// Whether a branch isn't the owner's.
fn is_others(owner: u32, branch: &Branch) -> bool
    ensures { result ≡ is_others owner branch.now.owner }
{
    branch.owner != owner
}

/// The network without the branches of the element of this number, which counts from 1 over sources, lines, transformers, loads, banks and
/// filters. All else is as it was, also the nodes that the element had for itself, which are then dead. Where no branch has this owner
/// the answer is a copy of the network.
pub fn outage(alloc: Global, network: &Network, owner: u32) -> Result<Network, AllocError>
    ensures branches { IfOk result (λ rest. rest ≡ record network.now { branches = others_in owner network.now.branches }) }
    ensures exact { IfOk result (λ rest. exact_network rest ≡ without owner (exact_network network.now)) }
    ensures whole { IsWholeNetwork network.now → IfOk result IsWholeNetwork }
{
    let mut branches = Items::new(alloc);
    for branch in network.branches.as_slice() {
        if is_others(owner, branch) {
            branches.push(copy_of_branch(alloc, branch)?)?;
        }
    }
    Ok(Network {
        buses: network.buses,
        nodes: network.nodes,
        branches,
    })
}
