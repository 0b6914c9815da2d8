// Worked cases of the elements: what each adds to the two networks of a study, the limits of a network, and where a bus isn't live.
#![tactic(auto)]

#[cfg(test)]
mod expected;
#[cfg(test)]
mod filters;
#[cfg(test)]
mod limits;
#[cfg(test)]
mod lines;
#[cfg(test)]
mod liveness;
#[cfg(test)]
mod loads;
#[cfg(test)]
mod per_unit;
#[cfg(test)]
mod phases;
#[cfg(test)]
mod transformers;
