// From the words of the command line to the report.
#![tactic(auto)]

mod distortion;
mod drill;
mod files;
mod formed;
mod inputs;
mod limits;
mod lines;
mod outcome;
mod perform;
mod report;
mod scans;
mod variants;
mod verified;
mod words;

pub use files::{File, Refusal};
pub use limits::LONGEST_FILE;
pub use outcome::Outcome;
pub use perform::{run, run_collected};
