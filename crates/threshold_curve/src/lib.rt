// The threshold of a scan over the orders, and the least of it in a box.
#![tactic(auto)]

mod curve;
mod laws;

pub use curve::least_over;
pub use laws::least_of_a_curve;
