// The network of a study in three phases, and whether its buses are live in the sequence networks.
#![tactic(auto)]

mod build;
mod elements;
mod live;
mod whole;

pub use build::build_phases;
pub use live::{check_phases, phase_network_of};
pub use whole::phases_are_whole;
