// The ranges of a study's decimals.
ghost use Rattle.std.specs.Prelude.{◌↔◌, IsTrue};
ghost use Rattle.study_model.specs.Range.{IsIn};

use fixed_decimal::Decimal;

/// A least and a greatest value, in millionths.
#[derive(Clone, Copy)]
pub struct Range {
    pub low: i64,
    pub high: i64,
}

impl Range {
    /// Of a decimal without a range of its own: 0 to 999999.999999.
    pub const ORDINARY: Range = Range {
        low: 0,
        high: 999_999_999_999,
    };

    /// Of a decimal that is above 0: 0.000001 to 999999.999999.
    pub const ABOVE_ZERO: Range = Range {
        low: 1,
        high: 999_999_999_999,
    };

    /// Of a rating in MVA: 0.001 to 10000.
    pub const BASE_MVA: Range = Range {
        low: 1_000,
        high: 10_000_000_000,
    };

    /// Of a frequency in Hz: 1 to 1000.
    pub const HERTZ: Range = Range {
        low: 1_000_000,
        high: 1_000_000_000,
    };

    /// Of the written root of 3: 1.7 to 1.8.
    pub const ROOT3: Range = Range {
        low: 1_700_000,
        high: 1_800_000,
    };

    /// Of a bus's nominal voltage in kV: 0.1 to 2000.
    pub const BUS_KV: Range = Range {
        low: 100_000,
        high: 2_000_000_000,
    };

    /// Of the weight of the part of a resistance that grows with the order: 0 to 100.
    pub const SKIN_K: Range = Range {
        low: 0,
        high: 100_000_000,
    };

    /// Of the square of the order at which half of that part has grown: 0.000001 to 5000.
    pub const SKIN_M: Range = Range {
        low: 1,
        high: 5_000_000_000,
    };

    /// Of a transformer's resistance in percent: 0 to 100.
    pub const RESISTANCE_PERCENT: Range = Range {
        low: 0,
        high: 100_000_000,
    };

    /// Of a transformer's reactance in percent: 0.000001 to 100.
    pub const REACTANCE_PERCENT: Range = Range {
        low: 1,
        high: 100_000_000,
    };

    /// Of a transformer's ratio: 0.5 to 2.
    pub const RATIO: Range = Range {
        low: 500_000,
        high: 2_000_000,
    };

    /// Of the order to which a filter is tuned: 1.000001 to 100.
    pub const TUNED_ORDER: Range = Range {
        low: 1_000_001,
        high: 100_000_000,
    };

    /// Of a filter's quality: 0.1 to 1000.
    pub const QUALITY: Range = Range {
        low: 100_000,
        high: 1_000_000_000,
    };

    /// Of the orders of a band: 0.1 to 100.
    pub const BAND: Range = Range {
        low: 100_000,
        high: 100_000_000,
    };

    /// Of the finest width of a box: 0.000001 to 100.
    pub const FINEST: Range = Range {
        low: 1,
        high: 100_000_000,
    };

    /// Of the width of the boxes in which peaks are located: 0 to 100.
    pub const LOCATE: Range = Range {
        low: 0,
        high: 100_000_000,
    };

    /// Of a current in amperes: 1 to 999999.999999.
    pub const AMPERES: Range = Range {
        low: 1_000_000,
        high: 999_999_999_999,
    };

    /// Whether a decimal lies in the range.
    pub fn contains(self, decimal: Decimal) -> bool
        ensures { IsTrue result ↔ IsIn self decimal }
    {
        self.low <= decimal.millionths && decimal.millionths <= self.high
    }
}
