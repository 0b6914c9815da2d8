// Worked cases of the command line: words and files, and all that the program answers them. How the words are run, and studies that other crates of
// tests run too, stand for those.
#![tactic(auto)]

pub mod answers;
#[cfg(test)]
mod branchwise;
#[cfg(test)]
mod compare;
#[cfg(test)]
mod curves;
#[cfg(test)]
mod drills;
#[cfg(test)]
mod examples;
#[cfg(test)]
mod extremes;
#[cfg(test)]
mod networks;
#[cfg(test)]
mod phases;
#[cfg(test)]
mod recipes;
#[cfg(test)]
mod reports;
pub mod studies;
#[cfg(test)]
mod variant_recipes;
#[cfg(test)]
mod variants;
#[cfg(test)]
mod verified;
