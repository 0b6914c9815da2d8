// Worked cases of the crates study_model, scan_report and ieee519_limits.
#![tactic(auto)]

#[cfg(test)]
mod curves;
#[cfg(test)]
mod distortion_rows;
#[cfg(test)]
mod faults;
#[cfg(test)]
mod limits;
#[cfg(test)]
mod names;
#[cfg(test)]
mod ranges;
#[cfg(test)]
mod reach_rows;
#[cfg(test)]
mod readings;
#[cfg(test)]
mod rows;
#[cfg(test)]
mod words;
