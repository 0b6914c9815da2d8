// Estimates of networks over boxes of orders.
use crate::networks::{Part, Value, between, grounded, live_node, network_of, whole};
use crate::outcomes::{Expected, UNIT, expect, found};
use admittance_box::Assembly;
use branchwise_bench::BranchwiseBench;
use exact_fraction::Fraction;
use std::alloc::Global;
use std::test::Fail;

/// Three buses with these parts, driven at this one, over the orders from `lo` to `hi`, with this extra susceptance.
#[derive(Clone, Copy)]
struct Case<'a> {
    parts: &'a [Part],
    driven: u32,
    extra: Fraction,
    lo: u32,
    hi: u32,
}

/// A case at order 1, without an extra susceptance.
fn plain(parts: &[Part], driven: u32) -> Case<'_> {
    Case {
        parts,
        driven,
        extra: whole(0),
        lo: 1_000_000,
        hi: 1_000_000,
    }
}

/// What is estimated, twice on one bench.
fn outcomes(alloc: Global, case: Case<'_>) -> Result<[Expected; 2], Fail> {
    let network = network_of(alloc, 3, case.parts)?;
    let node = live_node(alloc, &network, case.driven)?;
    let assembly = Assembly::new(alloc, &network, node)?;
    let mut bench = BranchwiseBench::new(alloc, &assembly)?;
    if case.hi < case.lo {
        return Err("not a box".into());
    }
    let first = found(bench.estimate(case.extra, case.lo, case.hi));
    let second = found(bench.estimate(case.extra, case.lo, case.hi));
    Ok([first, second])
}

/// A real impedance, without an error.
pub fn exactly(re: i64) -> Expected {
    Expected::Near([re, re, 0, 0], 0)
}

#[test]
fn small_networks(rt: HostRuntime) -> Result<(), Fail> {
    let two = [grounded(1, Value::Resistance(whole(2)))];
    let behind_a_ratio = [Part {
        ratio: whole(2),
        ..grounded(1, Value::Resistance(whole(2)))
    }];
    let in_series = [
        grounded(0, Value::Resistance(whole(1))),
        between(0, 1, whole(1)),
    ];
    // The branch between the dead nodes has no interval.
    let with_dead_nodes = [
        between(0, 2, whole(1 << 40)),
        grounded(1, Value::Resistance(whole(2))),
    ];
    let too_great = [grounded(1, Value::Resistance(whole(1 << 40)))];
    let bank = [grounded(1, Value::Susceptance(whole(1)))];
    let opposite = [
        grounded(1, Value::Susceptance(whole(1))),
        grounded(1, Value::Susceptance(whole(-1))),
    ];
    let cases = [
        (
            "a resistance of 2",
            plain(two.as_slice(), 1),
            exactly(2 * UNIT),
        ),
        (
            "behind a ratio of 2",
            plain(behind_a_ratio.as_slice(), 1),
            exactly(UNIT / 2),
        ),
        (
            "two resistances of 1 in series",
            plain(in_series.as_slice(), 1),
            exactly(2 * UNIT),
        ),
        (
            "the first of them",
            plain(in_series.as_slice(), 0),
            exactly(UNIT),
        ),
        (
            "beside dead nodes",
            plain(with_dead_nodes.as_slice(), 1),
            exactly(2 * UNIT),
        ),
        (
            "a resistance out of range",
            plain(too_great.as_slice(), 1),
            Expected::OutOfRange,
        ),
        (
            "two opposite susceptances",
            plain(opposite.as_slice(), 1),
            Expected::NoInverse(1),
        ),
        (
            "a susceptance of 1 from order 1 to 3",
            Case {
                hi: 3_000_000,
                ..plain(bank.as_slice(), 1)
            },
            Expected::Near([0, 0, -3 * UNIT / 4, -UNIT / 4], 274_878_234_624),
        ),
        (
            "a susceptance of 1 up to order 2",
            Case {
                lo: 0,
                hi: 2_000_000,
                ..plain(bank.as_slice(), 1)
            },
            Expected::NotContracting(1_099_511_627_776),
        ),
        (
            "an extra susceptance of 1",
            Case {
                extra: whole(1),
                ..plain(bank.as_slice(), 1)
            },
            Expected::Near([0, 0, -UNIT / 2, -UNIT / 2], 0),
        ),
        (
            "one of -1 counts for nothing",
            Case {
                extra: whole(-1),
                ..plain(bank.as_slice(), 1)
            },
            Expected::Near([0, 0, -UNIT, -UNIT], 0),
        ),
        (
            "an extra susceptance of 1 from order 1 to 3",
            Case {
                extra: whole(1),
                hi: 3_000_000,
                ..plain(bank.as_slice(), 1)
            },
            Expected::Near([0, 0, -3 * UNIT / 8, -UNIT / 8], 137_439_150_080),
        ),
        (
            "an extra susceptance out of range",
            Case {
                extra: whole(1 << 40),
                ..plain(bank.as_slice(), 1)
            },
            Expected::OutOfRange,
        ),
    ];
    for (label, case, expected) in cases {
        let [first, second] = outcomes(rt.alloc(), case)?;
        expect(&rt, first, expected, label);
        expect(&rt, second, expected, label);
    }
    Ok(())
}
