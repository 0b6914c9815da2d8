// Transformers as branches of a sequence network, and of the network of three phases.
#![tactic(auto)]

mod leakage;
mod neutral;
mod phases;
mod transformer;
mod winding;
mod zero;

pub use phases::add_transformer_phases;
pub use transformer::add_transformer;
pub use winding::FarEnd;
