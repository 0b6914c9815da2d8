// A line of 0.3 and 3 ohms and 60000 microsiemens, with 0.5 and 50 as its skin coefficients; in the zero network of 0.6 and 6 ohms and
// 30000 microsiemens. 10000 microsiemens are 0.01 per unit.
use crate::expected::Wanted::{Between, Shunt};
use crate::expected::{Case, Value, assert_cases};
use std::test::Fail;
use study_model::Sequence;

const WHOLE: [Value; 5] = [(3, 10), (1, 2), (50, 1), (3, 1), (0, 1)];

const THIRD: [Value; 5] = [(1, 10), (1, 2), (50, 1), (1, 1), (0, 1)];

// Of twice the values.
const ZERO_HALF: [Value; 5] = [(3, 10), (1, 2), (50, 1), (3, 1), (0, 1)];

#[test]
fn a_line_is_a_cascade_of_sections(rt: HostRuntime) -> Result<(), Fail> {
    let cases = [
        Case {
            label: "three sections over the inner nodes 2 and 3",
            elements: "line = [{ name = \"L1\", from = \"B1\", to = \"B2\", r = \"0.3\", x = 3, b = 60000, sections = 3, skin_k = \"0.5\", skin_m = 50 }]",
            sequence: Sequence::Positive,
            nodes: 4,
            branches: &[
                Between(0, 2, THIRD),
                Shunt(0, (1, 100)),
                Shunt(2, (1, 100)),
                Between(2, 3, THIRD),
                Shunt(2, (1, 100)),
                Shunt(3, (1, 100)),
                Between(3, 1, THIRD),
                Shunt(3, (1, 100)),
                Shunt(1, (1, 100)),
            ],
        },
        Case {
            label: "one section has no inner node",
            elements: "line = [{ name = \"L1\", from = \"B1\", to = \"B2\", r = \"0.3\", x = 3, b = 60000, skin_k = \"0.5\", skin_m = 50 }]",
            sequence: Sequence::Positive,
            nodes: 2,
            branches: &[Between(0, 1, WHOLE), Shunt(0, (3, 100)), Shunt(1, (3, 100))],
        },
        Case {
            label: "without a susceptance there are no shunts",
            elements: "line = [{ name = \"L1\", from = \"B1\", to = \"B2\", r = \"0.3\", x = 3, sections = 3, skin_k = \"0.5\", skin_m = 50 }]",
            sequence: Sequence::Positive,
            nodes: 4,
            branches: &[
                Between(0, 2, THIRD),
                Between(2, 3, THIRD),
                Between(3, 1, THIRD),
            ],
        },
    ];
    assert_cases(&rt, rt.alloc(), &cases)
}

#[test]
fn the_zero_network_has_its_own_values(rt: HostRuntime) -> Result<(), Fail> {
    let cases = [
        Case {
            label: "two sections of the zero-sequence values",
            elements: "line = [{ name = \"L1\", from = \"B1\", to = \"B2\", r = \"0.3\", x = 3, b = 60000, r0 = \"0.6\", x0 = 6, b0 = 30000, sections = 2, skin_k = \"0.5\", skin_m = 50 }]",
            sequence: Sequence::Zero,
            nodes: 3,
            branches: &[
                Between(0, 2, ZERO_HALF),
                Shunt(0, (75, 10_000)),
                Shunt(2, (75, 10_000)),
                Between(2, 1, ZERO_HALF),
                Shunt(2, (75, 10_000)),
                Shunt(1, (75, 10_000)),
            ],
        },
        Case {
            label: "a line without zero-sequence values is open",
            elements: "line = [{ name = \"L1\", from = \"B1\", to = \"B2\", r = \"0.3\", x = 3, b = 60000, sections = 3 }]",
            sequence: Sequence::Zero,
            nodes: 2,
            branches: &[],
        },
    ];
    assert_cases(&rt, rt.alloc(), &cases)
}
