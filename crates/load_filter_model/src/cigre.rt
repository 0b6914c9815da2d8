// The reactances of a load of the CIGRE model, in per unit.
ghost use Rattle.std.specs.Prelude.{◌≡◌, ◌<◌, ◌≤◌, ◌*◌, ◌^◌, ◌≤ℤ◌, ◌<ℤ◌, ◌*ℤ◌, ◌-ℤ◌, pos, int_lt, IsTrue, unsigned_abs};
ghost use Rattle.exact_fraction.specs.Fraction.{ratio_of};
ghost use Rattle.load_filter_model.specs.Loads.{cigre_series_reactance, cigre_parallel_reactance};

use element_parts::Power;
use exact_fraction::Fraction;
use fixed_decimal::Decimal;

/// A base or a power times a coefficient of the model.
fn times(coefficient: i64, d: i64) -> i64
    requires low { pos 1 ≤ℤ coefficient }
    requires high { coefficient ≤ℤ pos 1000 }
    requires size { unsigned_abs d ≤ 3 * 10 ^ 12 }
    ensures value { result ≡ coefficient *ℤ d }
    ensures bound { unsigned_abs result < 2 ^ 52 }
{
    coefficient * d
}

/// 670·q - 74·p.
fn excess(p: Power, q: Power) -> i64
    ensures value { result ≡ pos 670 *ℤ q -ℤ pos 74 *ℤ p }
    ensures bound { unsigned_abs result < 2 ^ 53 }
{
    times(670, q.millionths) - times(74, p.millionths)
}

/// Whether the model has a reactance beside the resistance: 6.7·q > 0.74·p.
pub fn has_parallel_reactance(p: Power, q: Power) -> bool
    ensures { result ≡ int_lt (pos 74 *ℤ p) (pos 670 *ℤ q) }
{
    times(74, p.millionths) < times(670, q.millionths)
}

/// The reactance in series with the resistance: 0.073·s/p.
#[tactic(auto, unfolding(crate::specs::Loads::cigre_series_reactance))]
pub fn series_reactance(p: Power, mva: Decimal) -> Fraction
    requires { pos 1 ≤ℤ p }
    ensures { ratio_of result ≡ cigre_series_reactance p mva }
{
    Fraction::new(
        i128::from(times(73, mva.millionths)),
        i128::from(times(1000, p.millionths)),
    )
    .unwrap()
}

/// The reactance beside them: s/(6.7·q - 0.74·p).
#[tactic(auto, unfolding(crate::specs::Loads::cigre_parallel_reactance))]
pub fn parallel_reactance(p: Power, q: Power, mva: Decimal) -> Fraction
    requires { IsTrue (int_lt (pos 74 *ℤ p) (pos 670 *ℤ q)) }
    ensures { ratio_of result ≡ cigre_parallel_reactance p q mva }
{
    Fraction::new(
        i128::from(times(100, mva.millionths)),
        i128::from(excess(p, q)),
    )
    .unwrap()
}
