// Loads, banks and filters of 4 MVAr: 25 per unit as a reactance, 0.04 as a susceptance.
use crate::expected::Wanted::{Between, ToGround};
use crate::expected::{Case, Values, assert_cases};
use std::test::Fail;

const MOTOR: Values = Values::Series([(25, 1), (0, 1), (1, 1), (73, 40), (0, 1)]);

const BESIDE: Values = Values::Series([(0, 1), (0, 1), (1, 1), (10_000, 1_044), (0, 1)]);

const BANK: Values = Values::Shunt((4, 100));

const SINGLE: Values = Values::Series([(1, 10), (0, 1), (1, 1), (1, 1), (25, 1)]);

const CAPACITOR: Values = Values::Series([(0, 1), (0, 1), (1, 1), (0, 1), (25, 1)]);

const RESISTOR: Values = Values::Series([(10, 1), (0, 1), (1, 1), (0, 1), (0, 1)]);

const REACTOR: Values = Values::Series([(0, 1), (0, 1), (1, 1), (1, 1), (0, 1)]);

#[test]
fn loads_banks_and_filters_stand_in_each_phase(rt: HostRuntime) -> Result<(), Fail> {
    let cases = [
        Case {
            label: "a load to one neutral",
            elements: "load = [{ name = \"D1\", bus = \"B1\", model = \"cigre\", p = 4, q = 2 }]",
            nodes: 7,
            branches: &[
                Between(0, 6, MOTOR),
                Between(0, 6, BESIDE),
                Between(1, 6, MOTOR),
                Between(1, 6, BESIDE),
                Between(2, 6, MOTOR),
                Between(2, 6, BESIDE),
            ],
        },
        Case {
            label: "a load to ground",
            elements: "load = [{ name = \"D1\", bus = \"B2\", model = \"cigre\", p = 4, q = 2, grounded = true }]",
            nodes: 6,
            branches: &[
                ToGround(3, MOTOR),
                ToGround(3, BESIDE),
                ToGround(4, MOTOR),
                ToGround(4, BESIDE),
                ToGround(5, MOTOR),
                ToGround(5, BESIDE),
            ],
        },
        Case {
            label: "a bank to one neutral",
            elements: "bank = [{ name = \"K1\", bus = \"B2\", q = 4 }]",
            nodes: 7,
            branches: &[
                Between(3, 6, BANK),
                Between(4, 6, BANK),
                Between(5, 6, BANK),
            ],
        },
        Case {
            label: "a bank to ground",
            elements: "bank = [{ name = \"K1\", bus = \"B2\", q = 4, grounded = true }]",
            nodes: 6,
            branches: &[ToGround(3, BANK), ToGround(4, BANK), ToGround(5, BANK)],
        },
        Case {
            label: "a single tuned filter to one neutral",
            elements: "filter = [{ name = \"F1\", bus = \"B1\", kind = \"single\", q = 4, order = 5, quality = 50 }]",
            nodes: 7,
            branches: &[
                Between(0, 6, SINGLE),
                Between(1, 6, SINGLE),
                Between(2, 6, SINGLE),
            ],
        },
        Case {
            label: "a neutral comes before the nodes behind the capacitors",
            elements: "filter = [{ name = \"F1\", bus = \"B1\", kind = \"highpass\", q = 4, order = 5, quality = 2 }]",
            nodes: 10,
            branches: &[
                Between(0, 7, CAPACITOR),
                Between(7, 6, RESISTOR),
                Between(7, 6, REACTOR),
                Between(1, 8, CAPACITOR),
                Between(8, 6, RESISTOR),
                Between(8, 6, REACTOR),
                Between(2, 9, CAPACITOR),
                Between(9, 6, RESISTOR),
                Between(9, 6, REACTOR),
            ],
        },
        Case {
            label: "a filter to ground",
            elements: "filter = [{ name = \"F1\", bus = \"B2\", kind = \"highpass\", q = 4, order = 5, quality = 2, grounded = true }]",
            nodes: 9,
            branches: &[
                Between(3, 6, CAPACITOR),
                ToGround(6, RESISTOR),
                ToGround(6, REACTOR),
                Between(4, 7, CAPACITOR),
                ToGround(7, RESISTOR),
                ToGround(7, REACTOR),
                Between(5, 8, CAPACITOR),
                ToGround(8, RESISTOR),
                ToGround(8, REACTOR),
            ],
        },
    ];
    assert_cases(&rt, rt.alloc(), &cases)
}
