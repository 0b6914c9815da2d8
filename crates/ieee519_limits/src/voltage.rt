// Limits of harmonic voltages.
ghost use Rattle.std.specs.Prelude.{◌≡◌};
ghost use Rattle.ieee519_limits.specs.VoltageLimits.{voltage_limit};
ghost use Rattle.ieee519_limits.specs.Levels.{in_force};

use fixed_decimal::Decimal;

/// Limits of a bus's harmonic voltages, in ten-thousandths of a percent of its nominal voltage: of each harmonic, and of all together,
/// the total harmonic distortion.
#[derive(Clone, Copy, Debug, PartialEq, Eq)]
pub struct VoltageLimit {
    pub each: u64,
    pub total: u64,
}

/// The limits by the nominal voltage of a bus in kV. A voltage at the end of a class is in the lower one. (After table 1 of IEEE Std
/// 519-2022.)
pub fn voltage_limit(kv: Decimal) -> VoltageLimit
    ensures { result ≡ voltage_limit kv }
{
    let (each, total) = if kv.millionths <= 1_000_000 {
        (50_000, 80_000)
    } else if kv.millionths <= 69_000_000 {
        (30_000, 50_000)
    } else if kv.millionths <= 161_000_000 {
        (15_000, 25_000)
    } else {
        (10_000, 15_000)
    };
    VoltageLimit { each, total }
}

/// The limit that is in force: a planning level where there is one, else the standard's limit. Both are in ten-thousandths of a percent.
pub fn in_force(standard: u64, level: Option<u64>) -> u64
    ensures { result ≡ in_force standard level }
{
    level.unwrap_or(standard)
}
