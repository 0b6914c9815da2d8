// The spectrum of injections that a study is judged with, and planning levels, read from the bytes of files of CSV.
#![tactic(auto)]

mod fault;
mod fields;
mod header;
mod injection;
mod level;
mod levels;
mod records;
mod spectrum;

pub use fault::{LevelsFault, SpectrumFault};
pub use fields::{MAX_ORDER, MIN_ORDER};
pub use injection::{Injection, MAX_INJECTIONS, Spectrum};
pub use level::{Level, Levels, level_of};
pub use levels::read_levels;
pub use spectrum::read_spectrum;
