// Bounds of the distortion that injected currents cause: the solution of an order, squares of voltages and currents, percents.
#![tactic(auto)]

mod column;
mod laws;
mod percents;
mod solved;
mod solver;
mod squares;

pub use laws::distortion_is_bounded;
pub use percents::{VOLTAGE_RHO, bounds, current_rho};
pub use solved::Solved;
pub use solver::OrderSolver;
pub use squares::{Squares, total};
