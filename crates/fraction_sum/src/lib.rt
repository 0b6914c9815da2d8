// Intervals of a sum of two fractions, each times a small whole number.
#![tactic(auto)]

mod end;
mod parts;
mod sum;

pub use sum::sum_interval;
