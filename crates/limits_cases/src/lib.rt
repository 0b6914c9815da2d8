// Worked cases of the command `limits`: words and files, and all that the program answers them.
#![tactic(auto)]

#[cfg(test)]
mod answers;
#[cfg(test)]
mod asked;
#[cfg(test)]
mod cuts;
#[cfg(test)]
mod phases;
#[cfg(test)]
mod plant;
#[cfg(test)]
mod puts;
#[cfg(test)]
mod refused;
#[cfg(test)]
mod reports;
#[cfg(test)]
mod studies;
#[cfg(test)]
mod words;
