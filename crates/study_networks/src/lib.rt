// The networks of a study by its model: its two sequence networks, or the network of its three phases.
#![tactic(auto)]

mod networks;
mod scanned;

pub use networks::{StudyNetworks, study_networks};
pub use scanned::{scanned_network, scanned_node};
