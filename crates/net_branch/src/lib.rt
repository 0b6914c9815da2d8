// Networks of branches: nodes, taps and laws in per unit, and which nodes are live.
#![tactic(auto)]

mod build;
mod element;
mod fault;
mod limits;
mod live_nodes;
mod network;

pub use build::{add_node, new_network, next_keeps_grouping, push_branch};
pub use element::append_element;
pub use fault::{AddFault, NetFault};
pub use limits::{MAX_BRANCHES, MAX_NODES};
pub use live_nodes::live;
pub use network::{Branch, Law, Network, NodeId, Tap};
