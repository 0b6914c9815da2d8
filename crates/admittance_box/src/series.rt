// Series branches. Each operation is one step of the stated order, since another order would round otherwise.
ghost use Rattle.std.specs.Prelude.{◌≡◌, ◌&&◌};
ghost use Rattle.std.specs.Option.{option_map};
ghost use Rattle.complex_interval.specs.Rect.{rectangle_of};
ghost use Rattle.admittance_box.specs.Admittance.{reactance_ends, series_admittance_rectangle};
ghost use Rattle.admittance_box.specs.Held.{HoldsSeriesAdmittance};
ghost use Rattle.admittance_box.specs.Series.{series_ends, ends_between, is_nought, AreOrdered, HoldsBetween};

use crate::exact::{exact_one, exact_zero};
use crate::skin::resistance;
use complex_interval::{Enclosure, Rect};
use exact_fraction::Fraction;

/// The values of a series branch, in per unit at order 1: resistance r with the skin coefficients
/// k and m, inductive reactance x and capacitive reactance xc.
#[derive(Clone, Copy)]
pub struct SeriesValues {
    pub r: Fraction,
    pub k: Fraction,
    pub m: Fraction,
    pub x: Fraction,
    pub xc: Fraction,
}

/// The intervals of these values. `plain` says that k counts as 0: the resistance is then r at
/// each order.
#[derive(Clone, Copy)]
pub struct SeriesParameters<E> {
    pub r: E,
    pub k: E,
    pub m: E,
    pub x: E,
    pub xc: E,
    pub plain: bool,
}

impl<E: Enclosure> SeriesParameters<E> {
    /// The intervals from the values `low` to the values `high`. None exactly where one of the
    /// five has no interval.
    pub fn from_fractions(low: SeriesValues, high: SeriesValues) -> Option<Self>
        requires { AreOrdered low high }
        ensures value { option_map (series_ends E.ends) result ≡ ends_between E.SCALE low high }
        ensures holds { HoldsBetween E.SCALE low high (option_map (series_ends E.ends) result) }
    {
        let r = E::from_range(low.r, high.r)?;
        let k = E::from_range(low.k, high.k)?;
        let m = E::from_range(low.m, high.m)?;
        let x = E::from_range(low.x, high.x)?;
        let xc = E::from_range(low.xc, high.xc)?;
        let plain = are_zero(low.k, high.k);
        Some(SeriesParameters {
            r,
            k,
            m,
            x,
            xc,
            plain,
        })
    }
}

/// Whether both values are 0.
pub fn are_zero(low: Fraction, high: Fraction) -> bool
    ensures { result ≡ (is_nought low && is_nought high) }
{
    low.num == 0 && high.num == 0
}

/// The admittance 1/(R + jX) of a series branch over the orders of `order`, in per unit. None
/// where a step has no value, as where the impedance may be zero.
pub fn series_admittance<E: Enclosure>(p: &SeriesParameters<E>, order: E) -> Option<Rect<E>>
    ensures value { option_map (rectangle_of E.ends) result
        ≡ series_admittance_rectangle E.SCALE (series_ends E.ends p.now) (E.ends order) }
    ensures holds { HoldsSeriesAdmittance E.SCALE (series_ends E.ends p.now) (E.ends order)
        (option_map (rectangle_of E.ends) result) }
{
    let re = resistance(p.r, p.k, p.m, p.plain, order)?;
    let im = reactance(p.x, p.xc, order)?;
    let one = Rect {
        re: exact_one(),
        im: exact_zero(),
    };
    one.div(Rect { re, im })
}

// The reactance h·x - xc/h.
fn reactance<E: Enclosure>(x: E, xc: E, order: E) -> Option<E>
    ensures { option_map E.ends result
        ≡ reactance_ends E.SCALE (E.ends x) (E.ends xc) (E.ends order) }
{
    order.mul(x)?.sub(xc.div(order)?)
}
