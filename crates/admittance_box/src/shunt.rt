// Shunt branches: a susceptance that grows with the order.
ghost use Rattle.std.specs.Prelude.{◌≡◌};
ghost use Rattle.std.specs.Option.{option_map};
ghost use Rattle.complex_interval.specs.Rect.{rectangle_of};
ghost use Rattle.admittance_box.specs.Admittance.{shunt_admittance_rectangle};
ghost use Rattle.admittance_box.specs.Held.{HoldsShuntAdmittance};

use crate::exact::exact_zero;
use complex_interval::{Enclosure, Rect};

/// The admittance 0 + j(h·b) of a shunt branch of the susceptance `b` over the orders of `order`,
/// in per unit. None where the product has no value.
pub fn shunt_admittance<E: Enclosure>(b: E, order: E) -> Option<Rect<E>>
    ensures value { option_map (rectangle_of E.ends) result
        ≡ shunt_admittance_rectangle E.SCALE (E.ends b) (E.ends order) }
    ensures holds { HoldsShuntAdmittance E.SCALE (E.ends b) (E.ends order)
        (option_map (rectangle_of E.ends) result) }
{
    Some(Rect {
        re: exact_zero(),
        im: order.mul(b)?,
    })
}
