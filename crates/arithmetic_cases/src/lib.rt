// Worked values of the decimals, the fractions, the intervals and the matrices of rectangles, by the public calls.
#![tactic(auto)]

#[cfg(test)]
mod compare;
#[cfg(test)]
mod decimals;
#[cfg(test)]
mod enclosures;
#[cfg(test)]
mod fractions;
#[cfg(test)]
mod intervals;
#[cfg(test)]
mod patterns;
#[cfg(test)]
mod rectangles;
#[cfg(test)]
mod rows;
#[cfg(test)]
mod sums;
