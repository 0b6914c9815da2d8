// Networks of which one element's values lie higher or lower.
ghost use Rattle.std.specs.Prelude.{◌≡◌, ◌≢◌, ℕ, ◌≤◌, IfOk};
ghost use Rattle.net_branch.specs.Exact.{exact_law, exact_branch, exact_network};
ghost use Rattle.net_branch.specs.Whole.{IsWholeNetwork};
ghost use Rattle.tolerance_scan.specs.Small.{HasSmallValues, IsWidenable};
ghost use Rattle.tolerance_scan.specs.Widened.{widened_branch, widened};

use crate::value::{factor_of, widened_law};
use net_branch::{Branch, Law, Network};
use sqlite_items::Items;
use std::alloc::{AllocError, Global};

/// The law of a branch, which is widened where it is the owner's.
fn law_in(branch: &Branch, owner: u32, factor: u32) -> Law
    requires small { branch.now.owner ≡ owner → HasSmallValues (exact_law branch.now.law) }
    requires few { factor ≤ 1500 }
    ensures { exact_law result ≡ (widened_branch owner factor (exact_branch branch.now)).law }
{
    if branch.owner == owner {
        widened_law(branch.law, factor)
    } else {
        branch.law
    }
}

/// A copy of a branch.
pub fn copy_of_branch(alloc: Global, branch: &Branch) -> Result<Branch, AllocError>
    ensures { IfOk result (λ copy. copy ≡ branch.now) }
{
    let taps = Items::from_slice(alloc, branch.taps.as_slice())?;
    Ok(Branch {
        taps,
        law: branch.law,
        group: branch.group,
        owner: branch.owner,
    })
}

/// A copy of a branch, whose law is widened where it is the owner's.
fn widened_branch(
    alloc: Global,
    branch: &Branch,
    owner: u32,
    factor: u32,
) -> Result<Branch, AllocError>
    requires small { branch.now.owner ≡ owner → HasSmallValues (exact_law branch.now.law) }
    requires few { factor ≤ 1500 }
    ensures { IfOk result (λ copy. exact_branch copy ≡ widened_branch owner factor (exact_branch branch.now)) }
{
    let mut copy = copy_of_branch(alloc, branch)?;
    copy.law = law_in(branch, owner, factor);
    Ok(copy)
}

/// The network in which the resistance and both reactances of each Series and the susceptance of each Shunt of an element are multiplied by
/// (1000 + permille)/1000 where `upward`, else by (1000 - permille)/1000. The element is named by its number, which counts from 1 over
/// sources, lines, transformers, loads, banks and filters. All else stays, the coefficients k and m, coupled branches and the taps among it.
pub fn widen(
    alloc: Global,
    network: &Network,
    owner: u32,
    permille: u32,
    upward: bool,
) -> Result<Network, AllocError>
    requires permille { permille ≤ 500 }
    requires small { IsWidenable owner (exact_network network.now) }
    ensures exact { IfOk result (λ wide. exact_network wide ≡ widened owner permille upward (exact_network network.now)) }
    ensures whole { IsWholeNetwork network.now → IfOk result IsWholeNetwork }
    ensures others { (other : ℕ) → other ≢ owner → IsWidenable other (exact_network network.now) → IfOk result (λ wide. IsWidenable other (exact_network wide)) }
{
    let factor = factor_of(permille, upward);
    let mut branches = Items::new(alloc);
    for branch in network.branches.as_slice() {
        branches.push(widened_branch(alloc, branch, owner, factor)?)?;
    }
    Ok(Network {
        buses: network.buses,
        nodes: network.nodes,
        branches,
    })
}
