// Elements added to a network, whole or not at all.
ghost use Rattle.std.specs.Prelude.{◌≡◌, ◌+◌, ◌≤◌, ◌++◌, length, take, OnOk, OnErr, IsOkUnless};
ghost use Rattle.std.specs.Bool.{MatchBool};
ghost use Rattle.net_branch.specs.Refusal.{passes_limits, IsElement};
ghost use Rattle.net_branch.specs.Whole.{IsWholeNetwork};
ghost use Rattle.net_branch.specs.declared.fault.AddFault.TheVariants.{TooMany, NoMemory};

use crate::fault::AddFault;
use crate::limits::{MAX_BRANCHES, MAX_NODES};
use crate::network::{Branch, Network};
use sqlite_items::Items;
use std::alloc::{AllocError, Global};

/// Drops the branches from a place on.
fn truncate(branches: &mut Items<Branch>, len: usize)
    requires { len ≤ length branches.old }
    ensures { branches.new ≡ take len branches.old }
{
    while branches.len() > len {
        branches.pop();
    }
}

/// Moves the branches of `more` to the end, all or none of them.
fn append_all(branches: &mut Items<Branch>, more: Items<Branch>) -> Result<(), AllocError>
    ensures appended { OnOk result (branches.new ≡ branches.old ++ more) }
    ensures unchanged { OnErr result (branches.new ≡ branches.old) }
{
    let len = branches.len();
    let mut more = more;
    while !more.is_empty() {
        if branches.push(more.remove(0)).is_err() {
            truncate(branches, len);
            return Err(AllocError);
        }
    }
    Ok(())
}

/// Adds an element: so many inner nodes, and its branches at the end of the network's. `TooMany` exactly where the network would have
/// more than `MAX_NODES` nodes or more than `MAX_BRANCHES` branches. A refusal leaves the network as it was and drops the branches.
pub fn append_element(
    alloc: Global,
    network: &mut Network,
    inner: u32,
    branches: Items<Branch>,
) -> Result<(), AddFault>
    requires whole { IsWholeNetwork network.old }
    requires element { IsElement network.old inner branches }
    ensures refusal { MatchBool (passes_limits network.old inner (length branches)) (result ≡ Err TooMany) (IsOkUnless result NoMemory) }
    ensures appended { OnOk result (network.new ≡ record network.old { nodes = network.old.nodes + inner; branches = network.old.branches ++ branches }) }
    ensures unchanged { OnErr result (network.new ≡ network.old) }
    ensures whole { IsWholeNetwork network.new }
{
    if inner > MAX_NODES - network.nodes {
        return Err(AddFault::TooMany);
    }
    if branches.len() > MAX_BRANCHES as usize - network.branches.len() {
        return Err(AddFault::TooMany);
    }
    match append_all(&mut network.branches, branches) {
        Ok(()) => {
            network.nodes += inner;
            Ok(())
        }
        Err(_) => Err(AddFault::NoMemory),
    }
}
