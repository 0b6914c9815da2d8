// Cases of the branch-wise test, at scale 40. Their numbers were worked by hand.
#![tactic(auto)]

#[cfg(test)]
mod estimates;
#[cfg(test)]
mod groups;
#[cfg(test)]
mod networks;
#[cfg(test)]
mod outcomes;
#[cfg(test)]
mod pairs;
