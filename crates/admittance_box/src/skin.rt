// The resistance of a branch, which grows with the order where it has skin effect.
ghost use Rattle.std.specs.Prelude.{◌≡◌};
ghost use Rattle.std.specs.Option.{option_map};
ghost use Rattle.admittance_box.specs.Admittance.{resistance_ends};
ghost use Rattle.admittance_box.specs.Held.{HoldsResistance};

use crate::exact::exact_one;
use complex_interval::Enclosure;

/// The resistance of the value `r` at the orders of `order`, in per unit: `r` where `plain` says
/// that k counts as 0, else r·((1 + k) - (k·m)/(m + h²)). None where a step has no value.
pub fn resistance<E: Enclosure>(r: E, k: E, m: E, plain: bool, order: E) -> Option<E>
    ensures value { option_map E.ends result
        ≡ resistance_ends E.SCALE plain (E.ends r) (E.ends k) (E.ends m) (E.ends order) }
    ensures holds { HoldsResistance E.SCALE plain (E.ends r) (E.ends k) (E.ends m) (E.ends order)
        (option_map E.ends result) }
{
    if plain {
        return Some(r);
    }
    let raised = exact_one::<E>().add(k)?;
    let falling = k.mul(m)?.div(m.add(order.square()?)?)?;
    r.mul(raised.sub(falling)?)
}
