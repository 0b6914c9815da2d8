// Reduction and solving of complex intervals at the places of a pattern and its fill, with the values of `plain_elimination`.
#![tactic(auto)]

mod back;
mod bench;
mod cells;
mod fill;
mod gaps;
mod load;
mod reduction;
mod row;
mod rows;
mod sides;
mod solution;

pub use bench::SparseBench;
