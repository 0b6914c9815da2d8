// Lines as cascades of nominal pi sections in a sequence network, and in the network of three phases.
#![tactic(auto)]

mod line;
mod phase_section;
mod phases;
mod section;

pub use line::add_line;
pub use phases::add_line_phases;
