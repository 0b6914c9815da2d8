// Worked cases of the elements in three phases: what each adds to the network of a study, its limits, and where a bus isn't live.
#![tactic(auto)]

#[cfg(test)]
mod expected;
#[cfg(test)]
mod lines;
#[cfg(test)]
mod live;
#[cfg(test)]
mod loads;
#[cfg(test)]
mod one_phase;
#[cfg(test)]
mod sources;
#[cfg(test)]
mod transformers;
