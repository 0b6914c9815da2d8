// The rows of the report on outages: the scans of a study without each of the listed elements in turn.
#![tactic(auto)]

mod case;
mod envelopes;
mod floating;
mod keep;
mod names;
mod report;
mod sequences;
mod table;

pub use case::Case;
pub use report::{OutagesReport, outages_rows};
pub use table::OutageCases;
