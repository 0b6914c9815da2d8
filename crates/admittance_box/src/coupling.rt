// The values of three coupled branches, and their impedances.
ghost use Rattle.std.specs.Prelude.{◌≡◌};
ghost use Rattle.std.specs.Option.{option_map};
ghost use Rattle.complex_interval.specs.Rect.{rectangle_of};
ghost use Rattle.net_branch.specs.Exact.{exact_law};
ghost use Rattle.network_theory.specs.Between.{CouplingUpTo, LawUpTo};
ghost use Rattle.admittance_box.specs.Coupling.{coupling_between, law_coupling, entry_rectangle, impedances};
ghost use Rattle.admittance_box.specs.Groups.{coupling_of, coupling_ends, impedance_ends};

use crate::series::are_zero;
use crate::skin::resistance;
use complex_interval::{Enclosure, Rect};
use exact_fraction::Fraction;
use net_branch::Law;

/// The values that three coupled branches share, in per unit at order 1: the resistance and the reactance
/// of each, the mutual resistance, the mutual reactance of each pair of phases, and the skin coefficients
/// k and m.
#[derive(Clone, Copy)]
pub struct CouplingValues {
    pub self_r: Fraction,
    pub self_x: Fraction,
    pub mutual_r: Fraction,
    pub x_ab: Fraction,
    pub x_bc: Fraction,
    pub x_ca: Fraction,
    pub k: Fraction,
    pub m: Fraction,
}

/// The intervals of these values. `plain` says that k counts as 0: each resistance is then its value at
/// each order.
#[derive(Clone, Copy)]
pub struct CouplingIntervals<E> {
    pub self_r: E,
    pub self_x: E,
    pub mutual_r: E,
    pub x_ab: E,
    pub x_bc: E,
    pub x_ca: E,
    pub k: E,
    pub m: E,
    pub plain: bool,
}

/// The entries of a group's impedance matrix over the orders of an interval: the one on its diagonal, and
/// the one of each pair of phases.
#[derive(Clone, Copy)]
pub struct ImpedanceIntervals<E: Enclosure> {
    pub own: Rect<E>,
    pub ab: Rect<E>,
    pub bc: Rect<E>,
    pub ca: Rect<E>,
}

// The entry of this resistance and this reactance at order 1. None where the product has no value.
fn entry<E: Enclosure>(resistance: E, reactance: E, order: E) -> Option<Rect<E>>
    ensures { option_map (rectangle_of E.ends) result ≡ entry_rectangle E.SCALE (E.ends order) (E.ends resistance) (E.ends reactance) }
{
    Some(Rect {
        re: resistance,
        im: order.mul(reactance)?,
    })
}

impl<E: Enclosure> CouplingIntervals<E> {
    /// The intervals from the values `low` to the values `high`. None exactly where one of the eight has
    /// no interval.
    pub fn from_values(low: CouplingValues, high: CouplingValues) -> Option<Self>
        requires { CouplingUpTo (coupling_of low) (coupling_of high) }
        ensures { option_map (coupling_ends E.ends) result ≡ coupling_between E.SCALE (coupling_of low) (coupling_of high) }
    {
        let self_r = E::from_range(low.self_r, high.self_r)?;
        let self_x = E::from_range(low.self_x, high.self_x)?;
        let mutual_r = E::from_range(low.mutual_r, high.mutual_r)?;
        let x_ab = E::from_range(low.x_ab, high.x_ab)?;
        let x_bc = E::from_range(low.x_bc, high.x_bc)?;
        let x_ca = E::from_range(low.x_ca, high.x_ca)?;
        let k = E::from_range(low.k, high.k)?;
        let m = E::from_range(low.m, high.m)?;
        let plain = are_zero(low.k, high.k);
        Some(CouplingIntervals {
            self_r,
            self_x,
            mutual_r,
            x_ab,
            x_bc,
            x_ca,
            k,
            m,
            plain,
        })
    }

    /// The intervals from the law `low` to the law `high`. None where a value has no interval, and where
    /// they aren't laws of coupled branches.
    pub fn between(low: Law, high: Law) -> Option<Self>
        requires { LawUpTo (exact_law low) (exact_law high) }
        ensures { option_map (coupling_ends E.ends) result ≡ law_coupling E.SCALE (exact_law low) (exact_law high) }
    {
        match (low, high) {
            (
                Law::Coupled3 {
                    place: _,
                    self_r,
                    self_x,
                    mutual_r,
                    x_ab,
                    x_bc,
                    x_ca,
                    k,
                    m,
                },
                Law::Coupled3 {
                    place: _,
                    self_r: self_r2,
                    self_x: self_x2,
                    mutual_r: mutual_r2,
                    x_ab: x_ab2,
                    x_bc: x_bc2,
                    x_ca: x_ca2,
                    k: k2,
                    m: m2,
                },
            ) => {
                let low = CouplingValues {
                    self_r,
                    self_x,
                    mutual_r,
                    x_ab,
                    x_bc,
                    x_ca,
                    k,
                    m,
                };
                let high = CouplingValues {
                    self_r: self_r2,
                    self_x: self_x2,
                    mutual_r: mutual_r2,
                    x_ab: x_ab2,
                    x_bc: x_bc2,
                    x_ca: x_ca2,
                    k: k2,
                    m: m2,
                };
                CouplingIntervals::from_values(low, high)
            }
            _ => None,
        }
    }

    /// The impedances over the orders of `order`, in per unit. None where a step has no value.
    pub fn impedances(&self, order: E) -> Option<ImpedanceIntervals<E>>
        ensures { option_map (impedance_ends E.ends) result ≡ impedances E.SCALE (E.ends order) (coupling_ends E.ends self.now) }
    {
        let self_r = resistance(self.self_r, self.k, self.m, self.plain, order)?;
        let mutual_r = resistance(self.mutual_r, self.k, self.m, self.plain, order)?;
        let own = entry(self_r, self.self_x, order)?;
        let ab = entry(mutual_r, self.x_ab, order)?;
        let bc = entry(mutual_r, self.x_bc, order)?;
        let ca = entry(mutual_r, self.x_ca, order)?;
        Some(ImpedanceIntervals { own, ab, bc, ca })
    }
}
