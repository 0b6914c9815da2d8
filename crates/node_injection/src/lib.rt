// Currents into the nodes of a network.
#![tactic(auto)]

mod injection;

pub use injection::NodeInjection;
