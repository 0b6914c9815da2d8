// A line of 0.3 and 3 ohms and 60000 microsiemens, in the zero sequence of 0.9 and 9 ohms and 24000 microsiemens. 10000 microsiemens are 0.01 per
// unit.
use crate::expected::Wanted::{Between, GroupBetween, ToGround};
use crate::expected::{Case, Values, assert_cases};
use std::test::Fail;

// Of each of two sections: self (0.9 + 2·0.3)/6 and (9 + 2·3)/6, mutual (0.9 - 0.3)/6 and (9 - 3)/6.
const fn half(place: u8) -> Values {
    Values::Coupled(
        place,
        [
            (1, 4),
            (1, 10),
            (5, 2),
            (1, 1),
            (1, 1),
            (1, 1),
            (1, 2),
            (50, 1),
        ],
    )
}

const fn whole(place: u8) -> Values {
    Values::Coupled(
        place,
        [
            (1, 2),
            (1, 5),
            (5, 1),
            (2, 1),
            (2, 1),
            (2, 1),
            (0, 1),
            (1, 1),
        ],
    )
}

// 24000 microsiemens over 4, and 36000 over 12.
const GROUND: Values = Values::Shunt((6, 1_000));

const PAIR: Values = Values::Shunt((3, 1_000));

#[test]
fn a_line_is_a_cascade_of_groups(rt: HostRuntime) -> Result<(), Fail> {
    let cases = [
        Case {
            label: "two sections over the inner nodes 6, 7 and 8",
            elements: "line = [{ name = \"L1\", from = \"B1\", to = \"B2\", r = \"0.3\", x = 3, b = 60000, r0 = \"0.9\", x0 = 9, b0 = 24000, sections = 2, skin_k = \"0.5\", skin_m = 50 }]",
            nodes: 9,
            branches: &[
                GroupBetween(1, 0, 6, half(0)),
                GroupBetween(1, 1, 7, half(1)),
                GroupBetween(1, 2, 8, half(2)),
                ToGround(0, GROUND),
                ToGround(1, GROUND),
                ToGround(2, GROUND),
                Between(0, 1, PAIR),
                Between(1, 2, PAIR),
                Between(2, 0, PAIR),
                ToGround(6, GROUND),
                ToGround(7, GROUND),
                ToGround(8, GROUND),
                Between(6, 7, PAIR),
                Between(7, 8, PAIR),
                Between(8, 6, PAIR),
                GroupBetween(2, 6, 3, half(0)),
                GroupBetween(2, 7, 4, half(1)),
                GroupBetween(2, 8, 5, half(2)),
                ToGround(6, GROUND),
                ToGround(7, GROUND),
                ToGround(8, GROUND),
                Between(6, 7, PAIR),
                Between(7, 8, PAIR),
                Between(8, 6, PAIR),
                ToGround(3, GROUND),
                ToGround(4, GROUND),
                ToGround(5, GROUND),
                Between(3, 4, PAIR),
                Between(4, 5, PAIR),
                Between(5, 3, PAIR),
            ],
        },
        Case {
            label: "one section without susceptance",
            elements: "line = [{ name = \"L1\", from = \"B2\", to = \"B1\", r = \"0.3\", x = 3, r0 = \"0.9\", x0 = 9 }]",
            nodes: 6,
            branches: &[
                GroupBetween(1, 3, 0, whole(0)),
                GroupBetween(1, 4, 1, whole(1)),
                GroupBetween(1, 5, 2, whole(2)),
            ],
        },
        Case {
            label: "as much susceptance in both sequences",
            elements: "line = [{ name = \"L1\", from = \"B1\", to = \"B2\", r = \"0.3\", x = 3, b = 12000, r0 = \"0.9\", x0 = 9, b0 = 12000 }]",
            nodes: 6,
            branches: &[
                GroupBetween(1, 0, 3, whole(0)),
                GroupBetween(1, 1, 4, whole(1)),
                GroupBetween(1, 2, 5, whole(2)),
                ToGround(0, GROUND),
                ToGround(1, GROUND),
                ToGround(2, GROUND),
                ToGround(3, GROUND),
                ToGround(4, GROUND),
                ToGround(5, GROUND),
            ],
        },
    ];
    assert_cases(&rt, rt.alloc(), &cases)
}
