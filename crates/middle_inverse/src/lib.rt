// The stated inverse of the middle of a square matrix of complex intervals.
#![tactic(auto)]

mod bench;
mod columns;
mod divisor;
mod fault;
mod next;
mod point;
mod raw;
mod rows;
mod writing;

pub use bench::MiddleInverse;
pub use fault::InverseFault;
pub use point::{middle_rectangle, nought_point, size_of};
pub use writing::write_unit;
