// Networks with every tolerance of a study one way.
ghost use Rattle.std.specs.Prelude.{◌≡◌, IfOk};
ghost use Rattle.net_branch.specs.Exact.{exact_network};
ghost use Rattle.net_branch.specs.Whole.{IsWholeNetwork};
ghost use Rattle.tolerance_scan.specs.Small.{AreWidenable};
ghost use Rattle.tolerance_scan.specs.Widened.{widened_by};

use crate::widening::{copy_of_branch, widen};
use net_branch::Network;
use sqlite_items::Items;
use std::alloc::{AllocError, Global};
use study_model::Tolerance;

/// A copy of a network.
fn copy_of(alloc: Global, network: &Network) -> Result<Network, AllocError>
    ensures { IfOk result (λ copy. copy ≡ network.now) }
{
    let mut branches = Items::new(alloc);
    for branch in network.branches.as_slice() {
        branches.push(copy_of_branch(alloc, branch)?)?;
    }
    Ok(Network {
        buses: network.buses,
        nodes: network.nodes,
        branches,
    })
}

/// The network in which the values of each element that has a tolerance are widened by it, all upward or all downward.
pub fn widen_by(
    alloc: Global,
    network: &Network,
    tolerances: &[Tolerance],
    upward: bool,
) -> Result<Network, AllocError>
    requires whole { IsWholeNetwork network.now }
    requires widenable { AreWidenable tolerances.now (exact_network network.now) }
    ensures exact { IfOk result (λ wide. exact_network wide ≡ widened_by upward tolerances.now (exact_network network.now)) }
    ensures whole { IfOk result IsWholeNetwork }
{
    let mut wide = copy_of(alloc, network)?;
    for tolerance in tolerances {
        wide = widen(alloc, &wide, tolerance.element, tolerance.permille, upward)?;
    }
    Ok(wide)
}
