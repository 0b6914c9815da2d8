// The injections of a spectrum at the nodes of a study's networks, and whether they have a path.
#![tactic(auto)]

mod laws;
mod node;
mod paths;

pub use laws::injections_of_an_order;
pub use node::{inject, node_of};
pub use node_injection::NodeInjection;
pub use paths::{check_paths, sequence_of_order};
