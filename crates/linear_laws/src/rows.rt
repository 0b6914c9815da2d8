// A list of rows of fractions.
ghost use Rattle.std.specs.Prelude.{List, map};
ghost use Rattle.exact_algebra.specs.Ratio.{Ratio};
ghost use Rattle.exact_fraction.specs.Fraction.{ratio_of};

use exact_fraction::Fraction;
use std::marker::Model;

/// Rows of fractions, which contracts see as a list of lists of exact numbers.
#[derive(Drop)]
pub struct Rows {
    pub list: Vec<Vec<Fraction>>,
}

impl Model for Rows {
    ghost Value = { List (List Ratio) };

    ghost view = { λ r. map (λ v. map ratio_of v.items) r.list.items };
}
