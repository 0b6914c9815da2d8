// The ordering of a matrix's nodes.
ghost use Rattle.std.specs.Prelude.{◌≡◌, ◌-◌, ◌<◌, ◌≤◌, ◌++◌, ◌==◌, ◌&&◌, not, false, IfOk, length, get_or};
ghost use Rattle.net_branch.specs.Exact.{exact_network};
ghost use Rattle.admittance_box.specs.Places.{live_from, node_ordering};

use net_branch::Network;
use std::alloc::{AllocError, Global};

// Whether a node is live and isn't the driven one.
fn is_taken(live: &[bool], driven: u32, node: u32) -> bool
    requires { node < length live.now }
    ensures { result ≡ (get_or live.now node false && not (node == driven)) }
{
    live[node as usize] && node != driven
}

// Adds the live nodes of the numbers from `from` to before `to`, but the driven one.
fn push_live(
    ordering: &mut Vec<u32>,
    live: &[bool],
    driven: u32,
    from: u32,
    to: u32,
) -> Result<(), AllocError>
    requires ordered { from ≤ to }
    requires known { to ≤ length live.now }
    ensures { IfOk result (λ _. ordering.new.items ≡ ordering.old.items ++ live_from (λ n. get_or live.now n false) driven from (to - from)) }
{
    for node in from..to {
        if is_taken(live, driven, node) {
            ordering.push(node)?;
        }
    }
    Ok(())
}

/// The live inner nodes in ascending number, then the live bus nodes in ascending number, the driven
/// node left out and put last.
pub fn order_nodes(
    alloc: Global,
    network: &Network,
    live: &[bool],
    driven: u32,
) -> Result<Vec<u32>, AllocError>
    requires buses { network.now.buses ≤ network.now.nodes }
    requires known { length live.now ≡ network.now.nodes }
    ensures { IfOk result (λ ordering. ordering.items ≡ node_ordering (exact_network network.now) (λ n. get_or live.now n false) driven) }
{
    let mut ordering = Vec::new(alloc);
    push_live(&mut ordering, live, driven, network.buses, network.nodes)?;
    push_live(&mut ordering, live, driven, 0, network.buses)?;
    ordering.push(driven)?;
    Ok(ordering)
}
