// Copies of networks.
ghost use Rattle.std.specs.Prelude.{◌≡◌, IfOk};

use net_branch::{Branch, Network};
use sqlite_items::Items;
use std::alloc::{AllocError, Global};

// A copy of a branch.
fn copy_of_branch(alloc: Global, branch: &Branch) -> Result<Branch, AllocError>
    ensures { IfOk result (λ copy. copy ≡ branch.now) }
{
    let taps = Items::from_slice(alloc, branch.taps.as_slice())?;
    Ok(Branch {
        taps,
        law: branch.law,
        group: branch.group,
        owner: branch.owner,
    })
}

/// A copy of a network.
pub fn copy_of(alloc: Global, network: &Network) -> Result<Network, AllocError>
    ensures { IfOk result (λ copy. copy ≡ network.now) }
{
    let mut branches = Items::new(alloc);
    for branch in network.branches.as_slice() {
        branches.push(copy_of_branch(alloc, branch)?)?;
    }
    Ok(Network {
        buses: network.buses,
        nodes: network.nodes,
        branches,
    })
}
