// Cases of the command line that are refused or fail: words, studies, files and lines that are not taken; and the shelves and sinks, in memory and over
// the files and streams of the system. How a study is read stands beside its refusals.
#![tactic(auto)]

#[cfg(test)]
mod compare;
#[cfg(test)]
mod curve_refusals;
#[cfg(test)]
mod cuts;
#[cfg(test)]
mod faults;
#[cfg(test)]
mod in_memory;
#[cfg(test)]
mod puts;
#[cfg(test)]
mod readings;
#[cfg(test)]
mod real;
#[cfg(test)]
mod refusals;
#[cfg(test)]
mod refused;
#[cfg(test)]
mod refusing;
#[cfg(test)]
mod torn;
#[cfg(test)]
mod variant_faults;
#[cfg(test)]
mod variant_refusals;
