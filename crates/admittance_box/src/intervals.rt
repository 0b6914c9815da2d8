// What a branch adds to a matrix, by the intervals of its numbers.
ghost use Rattle.std.specs.Prelude.{◌≡◌};
ghost use Rattle.std.specs.Option.{option_map};
ghost use Rattle.complex_interval.specs.Rect.{rectangle_of};
ghost use Rattle.net_branch.specs.Exact.{exact_law};
ghost use Rattle.network_theory.specs.Between.{LawUpTo};
ghost use Rattle.admittance_box.specs.Addends.{law_between};
ghost use Rattle.admittance_box.specs.BoxMatrix.{law_rectangle};
ghost use Rattle.admittance_box.specs.Intervals.{law_ends};

use crate::group_taps::GroupIntervals;
use crate::series::{SeriesParameters, SeriesValues, series_admittance};
use crate::shunt::shunt_admittance;
use complex_interval::{Enclosure, Rect};
use net_branch::Law;

/// A law by the intervals of its numbers.
#[derive(Clone, Copy)]
pub enum LawIntervals<E> {
    Series(SeriesParameters<E>),
    Shunt(E),
}

/// A tap by the place of its node in the node ordering and the interval of its ratio.
#[derive(Clone, Copy)]
pub struct PlacedTap<E> {
    pub place: u32,
    pub ratio: E,
}

/// A pair of taps by the places of their nodes and the product of the intervals of their ratios.
#[derive(Clone, Copy)]
pub struct TapProduct<E> {
    pub row: u32,
    pub column: u32,
    pub factor: E,
}

/// What a branch adds: nothing where its nodes are dead, or where the first branch of its group adds for
/// it; no value where a number or a product of taps has no interval; else its admittance for each pair of
/// its taps, or those of its group.
#[derive(Drop)]
pub enum BranchIntervals<E> {
    Dead,
    Absent,
    Joined(LawIntervals<E>, Vec<TapProduct<E>>),
    Grouped(Box<GroupIntervals<E>>),
}

impl<E: Enclosure> LawIntervals<E> {
    /// The law from `low` to `high`, which are of one kind. None where a number has no interval.
    pub fn between(low: Law, high: Law) -> Option<Self>
        requires { LawUpTo (exact_law low) (exact_law high) }
        ensures { option_map (law_ends E.ends) result ≡ law_between E.SCALE (exact_law low) (exact_law high) }
    {
        match (low, high) {
            (
                Law::Series { r, k, m, x, xc },
                Law::Series {
                    r: r2,
                    k: k2,
                    m: m2,
                    x: x2,
                    xc: xc2,
                },
            ) => {
                let low = SeriesValues { r, k, m, x, xc };
                let high = SeriesValues {
                    r: r2,
                    k: k2,
                    m: m2,
                    x: x2,
                    xc: xc2,
                };
                Some(LawIntervals::Series(SeriesParameters::from_fractions(low, high)?))
            }
            (Law::Shunt { b }, Law::Shunt { b: b2 }) => Some(LawIntervals::Shunt(E::from_range(
                b, b2,
            )?)),
            _ => None,
        }
    }

    /// The admittance over the orders of `order`, in per unit. None where a step has no value.
    pub fn admittance(&self, order: E) -> Option<Rect<E>>
        ensures { option_map (rectangle_of E.ends) result ≡ law_rectangle E.SCALE (E.ends order) (law_ends E.ends self.now) }
    {
        match self {
            LawIntervals::Series(parameters) => series_admittance(parameters, order),
            LawIntervals::Shunt(b) => shunt_admittance(*b, order),
        }
    }
}
