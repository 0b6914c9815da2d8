// Worked cases of the crate candidates_report.
#![tactic(auto)]

#[cfg(test)]
mod reports;
#[cfg(test)]
mod scratch;
