// Decimals of six places, as whole millionths.
#![tactic(auto)]

mod decimal;
mod fault;
mod parse;

pub use decimal::Decimal;
pub use fault::DecimalFault;
