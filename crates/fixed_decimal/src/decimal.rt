// A decimal of at most six places.
ghost use Rattle.std.specs.Prelude.{◌<◌, ◌^◌, ◌*◌, unsigned_abs};

use std::marker::Model;

/// A decimal of at most six places, as its whole number of millionths, of size below 10^12. Contracts see it as that number.
#[derive(Clone, Copy, Debug, PartialEq, Eq)]
pub struct Decimal {
    pub millionths: i64,
}

impl Model for Decimal {
    ghost use Rattle.std.specs.Prelude.{ℤ, ◌<◌, ◌^◌, unsigned_abs};

    ghost Value = { ℤ };

    ghost view = { λ d. d.millionths };

    ghost invariant = { λ d. unsigned_abs d.millionths < 10 ^ 12 };

    ghost inverse = { λ n. record { millionths = n } };
}
