// Networks that were worked by hand: systems, branches, groups, live nodes, admittances and matrices, by the public calls. What they are made of
// stands for other crates of tests too.
#![tactic(auto)]

#[cfg(test)]
mod assemblies;
#[cfg(test)]
mod branches;
#[cfg(test)]
mod building;
#[cfg(test)]
mod compare;
pub mod coupling;
pub mod fixtures;
#[cfg(test)]
mod groups;
#[cfg(test)]
mod live_nodes;
#[cfg(test)]
mod systems;
