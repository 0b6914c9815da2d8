// Scans of networks that were worked by hand, and of one of a drill, by the public calls: with an extra bank, without an element, with a bank in several
// sizes.
#![tactic(auto)]

#[cfg(test)]
mod compare;
#[cfg(test)]
mod drills;
#[cfg(test)]
mod groups;
#[cfg(test)]
mod scans;
#[cfg(test)]
mod variants;
