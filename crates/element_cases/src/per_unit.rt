// Values in per unit worked by hand, for a base of 100 MVA: 4 ohms at 33 kV are 400/1089; a rating of 4 is 25 as an impedance and 0.04 as a
// susceptance; 4 microsiemens at 33 kV are 0.00004356; 4 percent on 33 MVA are 4/33.
use crate::expected::{Value, assert_value};
use element_parts::{
    as_written, difference_share, impedance, impedance_of_rating, impedance_share, inverse_ratio,
    percent, power_in, susceptance_of_rating, susceptance_share, triple_impedance, zero,
};
use exact_fraction::Fraction;
use fixed_decimal::Decimal;
use study_model::Phase;

const BASE: Decimal = Decimal {
    millionths: 100_000_000,
};

const KV33: Decimal = Decimal {
    millionths: 33_000_000,
};

const FOUR: Decimal = Decimal {
    millionths: 4_000_000,
};

const SIX: Decimal = Decimal {
    millionths: 6_000_000,
};

/// Each value with its label and what it is worth. It has no contract, so that no case is proved under what is proved of them.
fn found() -> [(&'static str, Fraction, Value); 12] {
    [
        ("as written", as_written(FOUR), (4, 1)),
        ("zero", zero(), (0, 1)),
        ("impedance", impedance(FOUR, BASE, KV33), (400, 1_089)),
        (
            "a quarter of it",
            impedance_share(FOUR, BASE, KV33, 4),
            (100, 1_089),
        ),
        (
            "three times it",
            triple_impedance(FOUR, BASE, KV33),
            (1_200, 1_089),
        ),
        (
            "half of a susceptance",
            susceptance_share(FOUR, BASE, KV33, 2),
            (2_178, 100_000_000),
        ),
        (
            "half of 6 - 4 microsiemens",
            difference_share(SIX, FOUR, BASE, KV33, 2),
            (1_089, 100_000_000),
        ),
        (
            "impedance of three times a rating",
            impedance_of_rating(power_in(Some(Phase::B), FOUR), BASE),
            (25, 3),
        ),
        (
            "impedance of a rating",
            impedance_of_rating(power_in(None, FOUR), BASE),
            (25, 1),
        ),
        (
            "susceptance of a rating",
            susceptance_of_rating(power_in(None, FOUR), BASE),
            (1, 25),
        ),
        ("percent", percent(FOUR, BASE, KV33), (4, 33)),
        ("inverse ratio", inverse_ratio(FOUR), (1, 4)),
    ]
}

#[test]
fn values_in_per_unit(rt: HostRuntime) {
    for (label, found, wanted) in found() {
        assert_value(&rt, label, found, wanted);
    }
}
