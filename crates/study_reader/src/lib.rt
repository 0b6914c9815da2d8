// A study, read from the bytes of a TOML document.
#![tactic(auto)]

mod arrays;
mod branches;
mod candidates;
mod context;
mod curves;
mod decimal_array;
mod decimals;
mod elements;
mod entries;
mod entry;
mod groups;
mod header;
mod keys;
mod loads;
mod points;
mod reference;
mod study;
mod tolerances;
mod variants;
mod words;

pub use study::read_study;
