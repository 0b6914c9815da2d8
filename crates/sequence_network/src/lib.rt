// The positive and the zero network of a study, and whether its buses are live in them.
#![tactic(auto)]

mod build;
mod elements;
mod live;
mod worked;

pub use build::build_sequence;
pub use elements::element_count;
pub use live::{Networks, check_live, check_positive, checked_network, first_dead, networks_of};
pub use worked::impedance_by_hand;
