// What an element adds to a network: it is built first and added whole, so that a refusal leaves nothing behind.
ghost use Rattle.std.specs.Prelude.{◌≡◌, ◌+◌, IfOk};
ghost use Rattle.net_branch.specs.Whole.{IsWholeNetwork};
ghost use Rattle.element_parts.specs.Adds.{Adds};
ghost use Rattle.element_parts.specs.Expansion.{Expansion, open_circuit};
ghost use Rattle.element_parts.specs.Parts.{exact_parts};
ghost use Rattle.element_parts.specs.Plain.{ArePlain};
ghost use Rattle.element_parts.specs.Grouped.{IsGroupedElement};
ghost use Rattle.net_branch.specs.Exact.{exact_network};

use net_branch::{AddFault, Branch, Network, append_element};
use sqlite_items::Items;
use std::alloc::{AllocError, Global};

/// What an element adds to a network: so many inner nodes, and its branches in order.
#[derive(Drop)]
pub struct Parts {
    pub inner: u32,
    pub branches: Items<Branch>,
}

/// What an element adds that isn't in a network: nothing.
pub fn open_circuit(alloc: Global) -> Parts
    ensures { exact_parts result ≡ open_circuit }
{
    Parts {
        inner: 0,
        branches: Items::new(alloc),
    }
}

/// Adds what was built of an element, whose branches are uncoupled; `NoMemory` where there was none to build it. `TooMany` exactly where the
/// network would have more than `MAX_NODES` nodes or more than `MAX_BRANCHES` branches. A refusal leaves the network as it was.
pub fn add_plain(
    alloc: Global,
    network: &mut Network,
    parts: Result<Parts, AllocError>,
) -> Result<(), AddFault>
    requires whole { IsWholeNetwork network.old }
    requires plain { IfOk parts (λ parts. ArePlain (network.old.nodes + parts.inner) (exact_parts parts).branches) }
    ensures { (expansion : Expansion) → IfOk parts (λ parts. exact_parts parts ≡ expansion) → Adds network.old network.new result expansion }
{
    let Ok(parts) = parts else {
        return Err(AddFault::NoMemory);
    };
    append_element(alloc, network, parts.inner, parts.branches)
}

/// Adds what was built of an element, groups of three among its branches; `NoMemory` where there was none to build it. `TooMany` exactly where
/// the network would have more than `MAX_NODES` nodes or more than `MAX_BRANCHES` branches. A refusal leaves the network as it was.
pub fn add_grouped(
    alloc: Global,
    network: &mut Network,
    parts: Result<Parts, AllocError>,
) -> Result<(), AddFault>
    requires whole { IsWholeNetwork network.old }
    requires grouped { IfOk parts (λ parts. IsGroupedElement (exact_network network.old) (exact_parts parts)) }
    ensures { (expansion : Expansion) → IfOk parts (λ parts. exact_parts parts ≡ expansion) → Adds network.old network.new result expansion }
{
    let Ok(built) = parts else {
        return Err(AddFault::NoMemory);
    };
    append_element(alloc, network, built.inner, built.branches)
}
