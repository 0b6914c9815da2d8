// Reports on outages, each of a study that was worked by hand.
#![tactic(auto)]

#[cfg(test)]
mod reports;
