// Reduction and solving of complex intervals: definitions in specs/, and what they say of exact numbers.
#![tactic(auto)]

mod cells;
mod column;
mod failure;
mod laws;
mod limits;
mod matrix;
mod pattern;
mod reduction;
mod row;
mod rows;
mod solution;

pub use cells::{cells_from, cells_up_to, clear_cells, nought_cells, set_cell};
pub use column::Column;
pub use failure::Failure;
pub use laws::{reduction_holds, solution_holds, worked_reductions};
pub use limits::MAX_SIZE;
pub use matrix::Matrix;
pub use pattern::{Pattern, Spot};
pub use reduction::reduce_to_last;
pub use row::{holds_zero, is_zero};
pub use solution::solve;
