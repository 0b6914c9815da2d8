// Limits of harmonic currents.
ghost use Rattle.std.specs.Prelude.{◌≡◌, ℕ, ◌≤◌, ◌≤ℤ◌, pos};
ghost use Rattle.ieee519_limits.specs.CurrentLimits.{reaches, figures_up_to_69, halved, figures_above_161, figures_of, figure_of_order};

use fixed_decimal::Decimal;

/// Figures in ten-thousandths of a percent of the demand current: of the orders 2 to 10, 11 to 16, 17 to 22, 23 to 34 and 35 to 50, and of
/// the total demand distortion.
#[derive(Clone, Copy)]
pub struct Figures {
    pub to_10: u64,
    pub to_16: u64,
    pub to_22: u64,
    pub to_34: u64,
    pub to_50: u64,
    pub total: u64,
}

// Up to 69 kV, by the ratio of the short-circuit current to the demand current.
const UP_TO_69_BELOW_20: Figures = Figures {
    to_10: 40_000,
    to_16: 20_000,
    to_22: 15_000,
    to_34: 6_000,
    to_50: 3_000,
    total: 50_000,
};

const UP_TO_69_FROM_20: Figures = Figures {
    to_10: 70_000,
    to_16: 35_000,
    to_22: 25_000,
    to_34: 10_000,
    to_50: 5_000,
    total: 80_000,
};

const UP_TO_69_FROM_50: Figures = Figures {
    to_10: 100_000,
    to_16: 45_000,
    to_22: 40_000,
    to_34: 15_000,
    to_50: 7_000,
    total: 120_000,
};

const UP_TO_69_FROM_100: Figures = Figures {
    to_10: 120_000,
    to_16: 55_000,
    to_22: 50_000,
    to_34: 20_000,
    to_50: 10_000,
    total: 150_000,
};

const UP_TO_69_FROM_1000: Figures = Figures {
    to_10: 150_000,
    to_16: 70_000,
    to_22: 60_000,
    to_34: 25_000,
    to_50: 14_000,
    total: 200_000,
};

// Above 161 kV.
const ABOVE_161_BELOW_25: Figures = Figures {
    to_10: 10_000,
    to_16: 5_000,
    to_22: 3_800,
    to_34: 1_500,
    to_50: 1_000,
    total: 15_000,
};

const ABOVE_161_FROM_25: Figures = Figures {
    to_10: 20_000,
    to_16: 10_000,
    to_22: 7_500,
    to_34: 3_000,
    to_50: 1_500,
    total: 25_000,
};

const ABOVE_161_FROM_50: Figures = Figures {
    to_10: 30_000,
    to_16: 15_000,
    to_22: 11_500,
    to_34: 4_500,
    to_50: 2_200,
    total: 37_500,
};

/// Whether the short-circuit current is at least so many times the demand current.
fn reaches(isc: Decimal, il: Decimal, times: i64) -> bool
    requires low { pos 1 ≤ℤ times }
    requires high { times ≤ℤ pos 1000 }
    ensures { (n : ℕ) → times ≡ pos n → result ≡ reaches isc il n }
{
    times * il.millionths <= isc.millionths
}

/// The figures up to 69 kV. A ratio at the end of a class is in the higher one. (After table 2 of IEEE Std 519-2022.)
fn figures_up_to_69(isc: Decimal, il: Decimal) -> Figures
    ensures { result ≡ figures_up_to_69 isc il }
{
    if reaches(isc, il, 1_000) {
        UP_TO_69_FROM_1000
    } else if reaches(isc, il, 100) {
        UP_TO_69_FROM_100
    } else if reaches(isc, il, 50) {
        UP_TO_69_FROM_50
    } else if reaches(isc, il, 20) {
        UP_TO_69_FROM_20
    } else {
        UP_TO_69_BELOW_20
    }
}

/// Half of each figure.
fn halved(figures: Figures) -> Figures
    ensures { result ≡ halved figures }
{
    Figures {
        to_10: figures.to_10 / 2,
        to_16: figures.to_16 / 2,
        to_22: figures.to_22 / 2,
        to_34: figures.to_34 / 2,
        to_50: figures.to_50 / 2,
        total: figures.total / 2,
    }
}

/// The figures above 161 kV. (After table 4 of IEEE Std 519-2022.)
fn figures_above_161(isc: Decimal, il: Decimal) -> Figures
    ensures { result ≡ figures_above_161 isc il }
{
    if reaches(isc, il, 50) {
        ABOVE_161_FROM_50
    } else if reaches(isc, il, 25) {
        ABOVE_161_FROM_25
    } else {
        ABOVE_161_BELOW_25
    }
}

/// The figures by the nominal voltage. (Above 69 kV and up to 161 kV after table 3 of IEEE Std 519-2022: half of those below.)
fn figures_of(kv: Decimal, isc: Decimal, il: Decimal) -> Figures
    ensures { result ≡ figures_of kv isc il }
{
    if kv.millionths <= 69_000_000 {
        figures_up_to_69(isc, il)
    } else if kv.millionths <= 161_000_000 {
        halved(figures_up_to_69(isc, il))
    } else {
        figures_above_161(isc, il)
    }
}

/// The limit of one harmonic current at a point of common coupling, in ten-thousandths of a percent of the demand current `il`: by the
/// nominal voltage in kV, the short-circuit and the demand current in amperes, and the order. Conditions: the voltage and the currents are
/// above 0, and the order is from 2 to 50.
pub fn current_limit(kv: Decimal, isc: Decimal, il: Decimal, order: u32) -> u64
    requires kv { pos 1 ≤ℤ kv }
    requires isc { pos 1 ≤ℤ isc }
    requires il { pos 1 ≤ℤ il }
    requires low { 2 ≤ order }
    requires high { order ≤ 50 }
    ensures { result ≡ figure_of_order (figures_of kv isc il) order }
{
    let figures = figures_of(kv, isc, il);
    match order {
        2 | 4 | 6 => figures.to_10 / 2,
        ..=10 => figures.to_10,
        11..=16 => figures.to_16,
        17..=22 => figures.to_22,
        23..=34 => figures.to_34,
        _ => figures.to_50,
    }
}

/// The limit of the total demand distortion there, in ten-thousandths of a percent of the demand current. Conditions: the voltage and the
/// currents are above 0.
pub fn tdd_limit(kv: Decimal, isc: Decimal, il: Decimal) -> u64
    requires kv { pos 1 ≤ℤ kv }
    requires isc { pos 1 ≤ℤ isc }
    requires il { pos 1 ≤ℤ il }
    ensures { result ≡ (figures_of kv isc il).total }
{
    figures_of(kv, isc, il).total
}
