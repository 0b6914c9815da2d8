// The live branches of a pair of networks, by intervals. An even group of three stands as four.
#![tactic(auto)]

mod even;
mod group;
mod live;

pub use live::{LiveBranchIntervals, push_live_branches};
