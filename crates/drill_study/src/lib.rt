// The drill: a study of 60 buses whose lines and loads are drawn from a number, for a try of the program on a network of real size.
#![tactic(auto)]

mod draws;
mod drill;
mod laws;
mod names;

pub use drill::{drill_scan, drill_study};
pub use laws::worked_drill;
