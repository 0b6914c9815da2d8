// Worked cases of the crate limits_report.
#![tactic(auto)]

#[cfg(test)]
mod reports;
