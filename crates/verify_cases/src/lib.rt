// Reports, each with the study of which it is right or wrong.
#![tactic(auto)]

#[cfg(test)]
mod reports;
#[cfg(test)]
mod torn;
