// The elements of a study as branches of a network: definitions in specs/, and the values and branches that the crates of the elements share.
#![tactic(auto)]

mod branches;
mod element;
mod per_unit;
mod phases;
mod power;

pub use branches::{between, series, skin_series, to_ground};
pub use element::{Parts, add_grouped, add_plain, open_circuit};
pub use per_unit::{
    as_written, difference_share, impedance, impedance_of_rating, impedance_share, inverse_ratio,
    kv, percent, product, scaled, scaled_power, small, susceptance_of_rating, susceptance_share,
    times, triple_impedance, zero,
};
pub use phases::{
    Coupling, Ohms, coupling_share, first_node, next_phase, phase_node, place_of,
    push_group_between, push_group_to_ground, to_return,
};
pub use power::{Power, power_in};
