// Estimates of an impedance by drops that are given, each with its taps and with the middle and the rest that count at it, on a bench.
// No call but its first takes memory.
#![tactic(auto)]

mod bench;
mod column;
mod contracting;
mod contraction;
mod drops;
mod estimate;
mod found;
mod left;
mod middle;
mod near;
mod reach;
mod room;
mod sizes;
mod sums;
mod transfers;
mod voltages;
mod whole;

pub use bench::DropBench;
pub use drops::DropIntervals;
pub use near::Near;
