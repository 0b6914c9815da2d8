// The interval admittance of a branch over a box of orders.
#![tactic(auto)]

mod assembly;
mod branches;
mod copies;
mod coupling;
mod current;
mod exact;
mod fill;
mod group_bench;
mod group_current;
mod group_taps;
mod intervals;
mod nodal_laws;
mod node_ordering;
mod orders;
mod series;
mod shunt;
mod skin;
mod spots;
mod taps;
mod terminal;

pub use assembly::Assembly;
pub use coupling::{CouplingIntervals, CouplingValues};
pub use exact::{exact_one, exact_zero};
pub use fill::{Fill, add_pairs};
pub use intervals::{LawIntervals, PlacedTap, TapProduct};
pub use nodal_laws::{box_matrix_holds, reduced_matrix_holds};
pub use orders::order_range;
pub use series::{SeriesParameters, SeriesValues, series_admittance};
pub use shunt::shunt_admittance;
pub use skin::resistance;
pub use spots::{pattern, zero_outside};
pub use taps::{any_place, find_place, placed_taps, products};
