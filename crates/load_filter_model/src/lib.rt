// Sources, loads, capacitor banks and filters as branches of a sequence network, and of the network of three phases.
#![tactic(auto)]

mod bank;
mod cigre;
mod filter;
mod load;
mod port;
mod presence;
mod source;
mod tuned;

pub use bank::{add_bank, add_bank_phases};
pub use filter::{add_filter, add_filter_phases};
pub use load::{add_load, add_load_phases};
pub use source::{add_source, add_source_phases};
