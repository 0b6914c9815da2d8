// An enclosure of one entry of a solution, by an approximate inverse.
#![tactic(auto)]

mod bench;
mod laws;
mod outcome;
mod sigma;
mod size;
mod sums;
mod theta;
mod ways;

pub use bench::{InverseBench, way_rows};
pub use laws::{certificate_holds, worked_certificates};
pub use outcome::InverseOutcome;
pub use sigma::take_away;
pub use size::{in_size, unit_of};
pub use sums::combine_listed;
pub use ways::write_ways;
