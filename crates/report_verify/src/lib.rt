// Whether a report, wherever it comes from, is right of a study: each line by its own check, and each box by one test.
#![tactic(auto)]

mod boxes;
mod checker;
mod fault;
mod lines;
mod scans;
mod told;
mod verifying;

pub use fault::VerifyFault;
pub use verifying::{Verified, verify};
