// What a study of three phases alone has: elements with a phase, of three times their powers, and lines with mutual reactances.
use crate::expected::Wanted::{Between, GroupBetween, ToGround};
use crate::expected::{Case, Values, assert_cases};
use std::test::Fail;

// At three times the powers as written: 12 MW and 6 MVAr, or 12 MVAr.
const MOTOR: Values = Values::Series([(25, 3), (0, 1), (1, 1), (73, 120), (0, 1)]);

const BESIDE: Values = Values::Series([(0, 1), (0, 1), (1, 1), (10_000, 3_132), (0, 1)]);

const AS_WRITTEN: Values = Values::Series([(3, 1), (0, 1), (1, 1), (4, 1), (0, 1)]);

const BANK: Values = Values::Shunt((12, 100));

const CAPACITOR: Values = Values::Series([(0, 1), (0, 1), (1, 1), (0, 1), (25, 3)]);

const RESISTOR: Values = Values::Series([(10, 3), (0, 1), (1, 1), (0, 1), (0, 1)]);

const REACTOR: Values = Values::Series([(0, 1), (0, 1), (1, 1), (1, 3), (0, 1)]);

// Of each of two sections: self (4 + 2·1)/6 and (4 + 2·2)/6, mutual (4 - 1)/6, and half of each mutual reactance.
const fn half(place: u8) -> Values {
    Values::Coupled(
        place,
        [
            (1, 1),
            (1, 2),
            (4, 3),
            (1, 2),
            (1, 1),
            (3, 2),
            (0, 1),
            (1, 1),
        ],
    )
}

#[test]
fn elements_with_a_phase_and_mutual_reactances(rt: HostRuntime) -> Result<(), Fail> {
    let cases = [
        Case {
            label: "line",
            elements: "line = [{ name = \"L1\", from = \"B1\", to = \"B2\", r = 1, x = 2, r0 = 4, x0 = 4, xab = 1, xbc = 2, xca = 3, sections = 2 }]",
            nodes: 9,
            branches: &[
                GroupBetween(1, 0, 6, half(0)),
                GroupBetween(1, 1, 7, half(1)),
                GroupBetween(1, 2, 8, half(2)),
                GroupBetween(2, 6, 3, half(0)),
                GroupBetween(2, 7, 4, half(1)),
                GroupBetween(2, 8, 5, half(2)),
            ],
        },
        Case {
            label: "load",
            elements: "load = [{ name = \"D1\", bus = \"B1\", model = \"cigre\", p = 4, q = 2, phase = \"b\" }]",
            nodes: 6,
            branches: &[ToGround(1, MOTOR), ToGround(1, BESIDE)],
        },
        Case {
            label: "ohms",
            elements: "load = [{ name = \"D1\", bus = \"B2\", model = \"series\", r = 3, x = 4, phase = \"a\" }]",
            nodes: 6,
            branches: &[ToGround(3, AS_WRITTEN)],
        },
        Case {
            label: "bank",
            elements: "bank = [{ name = \"K1\", bus = \"B2\", q = 4, phase = \"c\" }]",
            nodes: 6,
            branches: &[ToGround(5, BANK)],
        },
        Case {
            label: "filter",
            elements: "filter = [{ name = \"F1\", bus = \"B1\", kind = \"highpass\", q = 4, order = 5, quality = 2, phase = \"a\" }]",
            nodes: 7,
            branches: &[
                Between(0, 6, CAPACITOR),
                ToGround(6, RESISTOR),
                ToGround(6, REACTOR),
            ],
        },
    ];
    assert_cases(&rt, rt.alloc(), &cases)
}
