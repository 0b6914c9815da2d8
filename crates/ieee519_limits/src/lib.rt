// Limits of harmonic voltages and currents, and verdicts by them. Each figure is this project's own, written after tables 1 to 4 of IEEE
// Std 519-2022. All values are ten-thousandths of a percent.
#![tactic(auto)]

mod bounds;
mod current;
mod judging;
mod voltage;

pub use bounds::{PercentBounds, Verdict};
pub use current::{current_limit, tdd_limit};
pub use judging::{verdict, verdicts_are_exact};
pub use voltage::{VoltageLimit, in_force, voltage_limit};
