// The exact numbers 0 and 1 as intervals: no rounding comes from them at any scale.
ghost use Rattle.std.specs.Prelude.{◌≡◌};
ghost use Rattle.admittance_box.specs.Exact.{zero_ends, one_ends};

use complex_interval::Enclosure;
use exact_fraction::Fraction;

/// The interval of 0 alone.
pub fn exact_zero<E: Enclosure>() -> E
    ensures { E.ends result ≡ zero_ends }
{
    E::from_ends(0, 0).unwrap()
}

/// The interval of 1 alone: both ends are 2^SCALE.
pub fn exact_one<E: Enclosure>() -> E
    ensures { E.ends result ≡ one_ends E.SCALE }
{
    E::from_fraction(Fraction { num: 1, den: 1 }).unwrap()
}
