// The rows of a report on candidate banks: of each scan that has one, how its band is with the bank in each size, and the first size that is safe.
#![tactic(auto)]

mod entry;
mod first;
mod keep;
mod report;
mod rows;
mod sizes;

pub use entry::Entry;
pub use report::{CandidatesReport, candidates_rows};
