// Worked cases of the crates spectrum_reader and harmonic_injection.
#![tactic(auto)]

#[cfg(test)]
mod faults;
#[cfg(test)]
mod injections;
#[cfg(test)]
mod levels;
#[cfg(test)]
mod many;
#[cfg(test)]
mod spectra;
#[cfg(test)]
mod studies;
