// Transformers of 10 MVA and 10 percent: their reactance is 1 per unit.
use crate::expected::Wanted::{Between, ToGround};
use crate::expected::{Case, Parts, Value, Values, Wanted, assert_cases};
use std::test::Fail;
use study_model::Sequence;

const LEAKAGE: [Value; 5] = [(0, 1), (0, 1), (1, 1), (1, 1), (0, 1)];

// The windings between the two buses, where a ratio of 1.025 is 40/41 at the from side.
const TAPPED: Wanted = Wanted::Other(Parts {
    first: (0, (40, 41)),
    second: Some(1),
    values: Values::Series(LEAKAGE),
    owner: 1,
});

#[test]
fn a_transformer_ties_its_buses(rt: HostRuntime) -> Result<(), Fail> {
    let cases = [
        Case {
            label: "any connections in the positive network",
            elements: "transformer = [{ name = \"T1\", from = \"B1\", to = \"B2\", mva = 10, r = 0, x = 10, to_conn = \"delta\" }]",
            sequence: Sequence::Positive,
            nodes: 2,
            branches: &[Between(0, 1, LEAKAGE)],
        },
        Case {
            label: "the ratio is at the from side",
            elements: "transformer = [{ name = \"T1\", from = \"B1\", to = \"B2\", mva = 10, r = 0, x = 10, ratio = \"1.025\" }]",
            sequence: Sequence::Positive,
            nodes: 2,
            branches: &[TAPPED],
        },
        Case {
            label: "the ratio in the zero network",
            elements: "transformer = [{ name = \"T1\", from = \"B1\", to = \"B2\", mva = 10, r = 0, x = 10, ratio = \"1.025\", from_conn = \"grounded\", to_conn = \"grounded\" }]",
            sequence: Sequence::Zero,
            nodes: 2,
            branches: &[TAPPED],
        },
    ];
    assert_cases(&rt, rt.alloc(), &cases)
}

// Beside a delta the other side is grounded; the ratio counts at the from side alone. A star lets nothing through.
#[test]
fn the_connections_decide_in_the_zero_network(rt: HostRuntime) -> Result<(), Fail> {
    let cases = [
        Case {
            label: "grounded, delta",
            elements: "transformer = [{ name = \"T1\", from = \"B1\", to = \"B2\", mva = 10, r = 0, x = 10, from_conn = \"grounded\", to_conn = \"delta\" }]",
            sequence: Sequence::Zero,
            nodes: 2,
            branches: &[ToGround(0, LEAKAGE)],
        },
        Case {
            label: "delta, grounded",
            elements: "transformer = [{ name = \"T1\", from = \"B1\", to = \"B2\", mva = 10, r = 0, x = 10, ratio = 2, from_conn = \"delta\", to_conn = \"grounded\" }]",
            sequence: Sequence::Zero,
            nodes: 2,
            branches: &[ToGround(1, LEAKAGE)],
        },
        Case {
            label: "star, delta",
            elements: "transformer = [{ name = \"T1\", from = \"B1\", to = \"B2\", mva = 10, r = 0, x = 10, to_conn = \"delta\" }]",
            sequence: Sequence::Zero,
            nodes: 2,
            branches: &[],
        },
        Case {
            label: "grounded, star",
            elements: "transformer = [{ name = \"T1\", from = \"B1\", to = \"B2\", mva = 10, r = 0, x = 10, from_conn = \"grounded\" }]",
            sequence: Sequence::Zero,
            nodes: 2,
            branches: &[],
        },
        Case {
            label: "three times each neutral's impedance, and the windings between the inner nodes",
            elements: "transformer = [{ name = \"T1\", from = \"B1\", to = \"B2\", mva = 10, r = 0, x = 10, from_conn = \"grounded\", to_conn = \"grounded\", from_rn = 1, to_xn = 2 }]",
            sequence: Sequence::Zero,
            nodes: 4,
            branches: &[
                Between(0, 2, [(3, 1), (0, 1), (1, 1), (0, 1), (0, 1)]),
                Between(1, 3, [(0, 1), (0, 1), (1, 1), (6, 1), (0, 1)]),
                Between(2, 3, LEAKAGE),
            ],
        },
    ];
    assert_cases(&rt, rt.alloc(), &cases)
}
