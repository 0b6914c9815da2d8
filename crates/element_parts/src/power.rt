// Powers. An element in one phase has the values of three such elements, one a phase: there its powers count three times.
ghost use Rattle.std.specs.Prelude.{◌≡◌};
ghost use Rattle.element_parts.specs.Phases.{power_in};

use fixed_decimal::Decimal;
use std::marker::Model;
use study_model::Phase;

/// A power in MW or MVAr as its whole number of millionths, of size at most 3·10^12. Contracts see it as that number.
#[derive(Clone, Copy)]
pub struct Power {
    pub millionths: i64,
}

impl Model for Power {
    ghost use Rattle.std.specs.Prelude.{ℤ, ◌≤◌, ◌^◌, ◌*◌, unsigned_abs};

    ghost Value = { ℤ };

    ghost view = { λ p. p.millionths };

    ghost invariant = { λ p. unsigned_abs p.millionths ≤ 3 * 10 ^ 12 };

    ghost inverse = { λ n. record { millionths = n } };
}

/// A power as it is written, and with a phase three times that.
pub fn power_in(phase: Option<Phase>, power: Decimal) -> Power
    ensures { result ≡ power_in phase power }
{
    match phase {
        None => Power {
            millionths: power.millionths,
        },
        Some(_) => Power {
            millionths: 3 * power.millionths,
        },
    }
}
