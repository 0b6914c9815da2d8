// Networks and studies within tolerances, worked by hand.
#![tactic(auto)]

#[cfg(test)]
mod fixtures;
#[cfg(test)]
mod pairs;
#[cfg(test)]
mod plans;
#[cfg(test)]
mod values;
