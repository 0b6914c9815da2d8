// The rows of the report on the distortion of a study by a spectrum: voltages at buses and currents at points of common coupling, in three phases
// those of each phase, their limits and verdicts.
#![tactic(auto)]

mod cell;
mod keep;
mod lines;
mod report;
mod sections;
mod site;
mod table;
mod total;

pub use cell::{Cell, OrderCells};
pub use report::{LimitsReport, limits_rows};
pub use site::{Site, Subject};
