// The interval of the orders of a box.
ghost use Rattle.std.specs.Prelude.{◌≡◌, ◌*◌, ◌^◌, ◌≤◌, ◌<ℤ◌, pos};
ghost use Rattle.exact_algebra.specs.Ratio.{over};
ghost use Rattle.exact_fraction.specs.Fraction.{ratio_of};
ghost use Rattle.admittance_box.specs.Orders.{order_ends, HoldsOrders};

use complex_interval::Enclosure;
use exact_fraction::Fraction;

/// The interval of the harmonic orders from `lo` to `hi`, both in micro-orders.
pub fn order_range<E: Enclosure>(lo: u32, hi: u32) -> E
    requires ordered { lo ≤ hi }
    ensures value { E.ends result ≡ order_ends E.SCALE lo hi }
    ensures holds { HoldsOrders E.SCALE lo hi (E.ends result) }
    ensures above { 10 ^ 6 ≤ lo * 2 ^ E.SCALE → pos 0 <ℤ (E.ends result).low }
{
    E::from_range(order_of(lo), order_of(hi)).unwrap()
}

// The order of a number of micro-orders.
fn order_of(micro: u32) -> Fraction
    ensures { ratio_of result ≡ over (pos micro) 1000000 }
{
    Fraction {
        num: i128::from(micro),
        den: 1_000_000,
    }
}
