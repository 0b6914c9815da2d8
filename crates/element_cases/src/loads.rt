// Sources, loads and banks.
use crate::expected::Wanted::{Shunt, ToGround};
use crate::expected::{Case, Wanted, assert_cases};
use std::test::Fail;
use study_model::Sequence;

// A CIGRE load of 4 MW: 25 ohms in series with 1.825; with 2 MVAr 10000/1044 beside them.
pub const MOTOR: Wanted = ToGround(0, [(25, 1), (0, 1), (1, 1), (1_825, 1_000), (0, 1)]);

pub const BESIDE: Wanted = ToGround(0, [(0, 1), (0, 1), (1, 1), (10_000, 1_044), (0, 1)]);

#[test]
fn a_source_is_its_impedance(rt: HostRuntime) -> Result<(), Fail> {
    let cases = [
        Case {
            label: "r and x in the positive network",
            elements: "source = [{ name = \"S1\", bus = \"B1\", r = \"0.1\", x = 1, skin_k = \"0.5\", skin_m = 50 }]",
            sequence: Sequence::Positive,
            nodes: 2,
            branches: &[ToGround(0, [(1, 10), (1, 2), (50, 1), (1, 1), (0, 1)])],
        },
        Case {
            label: "open in the zero network without r0 and x0",
            elements: "source = [{ name = \"S1\", bus = \"B1\", r = \"0.1\", x = 1, skin_k = \"0.5\", skin_m = 50 }]",
            sequence: Sequence::Zero,
            nodes: 2,
            branches: &[],
        },
        Case {
            label: "r0 and x0 in the zero network",
            elements: "source = [{ name = \"S1\", bus = \"B1\", r = \"0.1\", x = 1, r0 = \"0.2\", x0 = 2, skin_k = \"0.5\", skin_m = 50 }]",
            sequence: Sequence::Zero,
            nodes: 2,
            branches: &[ToGround(0, [(2, 10), (1, 2), (50, 1), (2, 1), (0, 1)])],
        },
    ];
    assert_cases(&rt, rt.alloc(), &cases)
}

// 6.7 MW and 0.74 MVAr.
const BOUNDARY: Wanted = ToGround(
    0,
    [(100_000, 6_700), (0, 1), (1, 1), (7_300, 6_700), (0, 1)],
);

// One millionth less of p.
const LESS: Wanted = ToGround(
    0,
    [
        (100_000_000, 6_699_999),
        (0, 1),
        (1, 1),
        (7_300_000, 6_699_999),
        (0, 1),
    ],
);

// The second branch of a CIGRE load is there where 6.7·q is above 0.74·p. At 0.74 and 6.7 both are equal; one millionth more of q, or
// less of p, is above.
#[test]
fn a_cigre_load_has_two_branches_or_one(rt: HostRuntime) -> Result<(), Fail> {
    let cases = [
        Case {
            label: "2 MVAr beside 4 MW",
            elements: "load = [{ name = \"D1\", bus = \"B1\", model = \"cigre\", p = 4, q = 2 }]",
            sequence: Sequence::Positive,
            nodes: 2,
            branches: &[MOTOR, BESIDE],
        },
        Case {
            label: "2.68 is at most 2.96",
            elements: "load = [{ name = \"D1\", bus = \"B1\", model = \"cigre\", p = 4, q = \"0.4\" }]",
            sequence: Sequence::Positive,
            nodes: 2,
            branches: &[MOTOR],
        },
        Case {
            label: "equal",
            elements: "load = [{ name = \"D1\", bus = \"B1\", model = \"cigre\", p = \"6.7\", q = \"0.74\" }]",
            sequence: Sequence::Positive,
            nodes: 2,
            branches: &[BOUNDARY],
        },
        Case {
            label: "one millionth more of q",
            elements: "load = [{ name = \"D1\", bus = \"B1\", model = \"cigre\", p = \"6.7\", q = \"0.740001\" }]",
            sequence: Sequence::Positive,
            nodes: 2,
            branches: &[
                BOUNDARY,
                ToGround(0, [(0, 1), (0, 1), (1, 1), (1_000_000_000, 67), (0, 1)]),
            ],
        },
        Case {
            label: "one millionth less of p",
            elements: "load = [{ name = \"D1\", bus = \"B1\", model = \"cigre\", p = \"6.699999\", q = \"0.74\" }]",
            sequence: Sequence::Positive,
            nodes: 2,
            branches: &[
                LESS,
                ToGround(0, [(0, 1), (0, 1), (1, 1), (10_000_000_000, 74), (0, 1)]),
            ],
        },
    ];
    assert_cases(&rt, rt.alloc(), &cases)
}

// 4 MW are 25 ohms, 2 MVAr 50 ohms.
const RESISTANCE: Wanted = ToGround(0, [(25, 1), (0, 1), (1, 1), (0, 1), (0, 1)]);

const REACTANCE: Wanted = ToGround(0, [(0, 1), (0, 1), (1, 1), (50, 1), (0, 1)]);

#[test]
fn a_load_has_a_branch_for_each_power_or_its_ohms(rt: HostRuntime) -> Result<(), Fail> {
    let cases = [
        Case {
            label: "both powers, grounded",
            elements: "load = [{ name = \"D1\", bus = \"B1\", model = \"parallel\", p = 4, q = 2, grounded = true }]",
            sequence: Sequence::Zero,
            nodes: 2,
            branches: &[RESISTANCE, REACTANCE],
        },
        Case {
            label: "p alone",
            elements: "load = [{ name = \"D1\", bus = \"B1\", model = \"parallel\", p = 4, q = 0 }]",
            sequence: Sequence::Positive,
            nodes: 2,
            branches: &[RESISTANCE],
        },
        Case {
            label: "q alone",
            elements: "load = [{ name = \"D1\", bus = \"B1\", model = \"parallel\", p = 0, q = 2 }]",
            sequence: Sequence::Positive,
            nodes: 2,
            branches: &[REACTANCE],
        },
        Case {
            label: "ohms",
            elements: "load = [{ name = \"D1\", bus = \"B1\", model = \"series\", r = 3, x = 4 }]",
            sequence: Sequence::Positive,
            nodes: 2,
            branches: &[ToGround(0, [(3, 1), (0, 1), (1, 1), (4, 1), (0, 1)])],
        },
    ];
    assert_cases(&rt, rt.alloc(), &cases)
}

#[test]
fn loads_and_banks_are_in_the_zero_network_where_grounded(rt: HostRuntime) -> Result<(), Fail> {
    let cases = [
        Case {
            label: "a floating load",
            elements: "load = [{ name = \"D1\", bus = \"B1\", model = \"cigre\", p = 4, q = 2 }]",
            sequence: Sequence::Zero,
            nodes: 2,
            branches: &[],
        },
        Case {
            label: "a grounded load",
            elements: "load = [{ name = \"D1\", bus = \"B1\", model = \"cigre\", p = 4, q = 2, grounded = true }]",
            sequence: Sequence::Zero,
            nodes: 2,
            branches: &[MOTOR, BESIDE],
        },
        Case {
            label: "a floating bank in the positive network",
            elements: "bank = [{ name = \"K1\", bus = \"B2\", q = 4 }]",
            sequence: Sequence::Positive,
            nodes: 2,
            branches: &[Shunt(1, (4, 100))],
        },
        Case {
            label: "a floating bank",
            elements: "bank = [{ name = \"K1\", bus = \"B2\", q = 4 }]",
            sequence: Sequence::Zero,
            nodes: 2,
            branches: &[],
        },
        Case {
            label: "a grounded bank",
            elements: "bank = [{ name = \"K1\", bus = \"B2\", q = 4, grounded = true }]",
            sequence: Sequence::Zero,
            nodes: 2,
            branches: &[Shunt(1, (4, 100))],
        },
    ];
    assert_cases(&rt, rt.alloc(), &cases)
}
