// Estimates of the impedance over a box of orders by the drops of nodes and branches, on a bench that is made for a pair of networks. No
// call but its first takes memory.
#![tactic(auto)]

mod count;
mod layout;
mod pair;

pub use pair::BranchwiseBench;
