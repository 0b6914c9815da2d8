// Limits and verdicts worked by hand.
use fixed_decimal::Decimal;
use ieee519_limits::{
    PercentBounds, Verdict, VoltageLimit, current_limit, in_force, tdd_limit, verdict,
    voltage_limit,
};
use std::process::Abort;

const KV33: Decimal = Decimal {
    millionths: 33_000_000,
};

const KV132: Decimal = Decimal {
    millionths: 132_000_000,
};

const KV400: Decimal = Decimal {
    millionths: 400_000_000,
};

const AMPERE: Decimal = Decimal {
    millionths: 1_000_000,
};

const AMPERES_1000: Decimal = Decimal {
    millionths: 1_000_000_000,
};

// Twenty times as much, and just below that.
const AMPERES_20000: Decimal = Decimal {
    millionths: 20_000_000_000,
};

const AMPERES_19999: Decimal = Decimal {
    millionths: 19_999_999_999,
};

// A voltage at the end of a class is in the lower one.
#[test]
fn limits_of_voltages(rt: HostRuntime) {
    let table = [
        (1_000_000, 50_000, 80_000),
        (1_000_001, 30_000, 50_000),
        (69_000_000, 30_000, 50_000),
        (132_000_000, 15_000, 25_000),
        (161_000_000, 15_000, 25_000),
        (400_000_000, 10_000, 15_000),
    ];
    for (millionths, each, total) in table {
        let found = voltage_limit(Decimal { millionths });
        assert_eq!(rt; found, VoltageLimit { each, total }, "{millionths}");
    }
}

// At a ratio of exactly 20 the second class; the even orders up to 6 have half of the first figure.
#[test]
fn limits_of_currents_at_33_kv(rt: HostRuntime) {
    let table = [
        (4, 35_000),
        (5, 70_000),
        (6, 35_000),
        (8, 70_000),
        (10, 70_000),
        (11, 35_000),
        (50, 5_000),
    ];
    for (order, limit) in table {
        let found = current_limit(KV33, AMPERES_20000, AMPERES_1000, order);
        assert_eq!(rt; found, limit, "{order}");
    }
}

/// Each limit with its label and the one that is wanted. It has no contract, so that no case is proved under what is proved of them.
fn found_elsewhere() -> [(&'static str, u64, u64); 5] {
    [
        (
            "just below a ratio of 20",
            current_limit(KV33, AMPERES_19999, AMPERES_1000, 5),
            40_000,
        ),
        (
            "a ratio of 1000",
            current_limit(KV33, AMPERES_1000, AMPERE, 5),
            150_000,
        ),
        (
            "132 kV",
            current_limit(KV132, AMPERES_20000, AMPERES_1000, 4),
            17_500,
        ),
        (
            "400 kV",
            current_limit(KV400, AMPERES_20000, AMPERES_1000, 17),
            3_800,
        ),
        (
            "all together",
            tdd_limit(KV33, AMPERES_20000, AMPERES_1000),
            80_000,
        ),
    ]
}

#[test]
fn limits_of_currents_elsewhere(rt: HostRuntime) {
    for (label, found, limit) in found_elsewhere() {
        assert_eq!(rt; found, limit, "{label}");
    }
}

// A planning level stands in the place of the standard's limit, also where it is greater.
#[test]
fn limits_in_force(rt: HostRuntime) {
    for (level, limit) in [(None, 30_000), (Some(87_000), 87_000), (Some(1), 1)] {
        assert_eq!(rt; in_force(30_000, level), limit);
    }
}

#[test]
fn verdicts_at_the_limit(rt: HostRuntime) {
    assert_verdict(&rt, 40_000, 40_000, 40_000, Verdict::Pass);
    assert_verdict(&rt, 40_000, 40_000, 39_999, Verdict::Fail);
    assert_verdict(&rt, 39_999, 40_001, 40_000, Verdict::Undecided);
    assert_eq!(rt; verdict(None, 40_000), Verdict::Undecided);
}

/// The verdict on a value from `lo` to `hi`.
fn assert_verdict(rt: &impl Abort, lo: u64, hi: u64, limit: u64, wanted: Verdict) {
    if lo <= hi {
        let found = verdict(Some(PercentBounds { lo, hi }), limit);
        assert_eq!(rt; found, wanted, "{lo} to {hi} by {limit}");
    } else {
        assert!(rt; false, "{lo} is above {hi}");
    }
}
