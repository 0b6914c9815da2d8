// Sources of 1 and 2 ohms, with skin coefficients of 0.5 and 50; in the zero sequence of 4 and 8 ohms.
use crate::expected::Wanted::{Between, GroupToGround};
use crate::expected::{Case, Values, assert_cases};
use std::test::Fail;

// Self (4 + 2·1)/3 and (8 + 2·2)/3, mutual (4 - 1)/3 and (8 - 2)/3.
const fn coupled(place: u8) -> Values {
    Values::Coupled(
        place,
        [
            (2, 1),
            (1, 1),
            (4, 1),
            (2, 1),
            (2, 1),
            (2, 1),
            (1, 2),
            (50, 1),
        ],
    )
}

const ALONE: Values = Values::Series([(1, 1), (1, 2), (50, 1), (2, 1), (0, 1)]);

#[test]
fn a_source_is_three_coupled_phases_or_a_star(rt: HostRuntime) -> Result<(), Fail> {
    let cases = [
        Case {
            label: "a group of three to ground",
            elements: "source = [{ name = \"S1\", bus = \"B2\", r = 1, x = 2, r0 = 4, x0 = 8, skin_k = \"0.5\", skin_m = 50 }]",
            nodes: 6,
            branches: &[
                GroupToGround(1, 3, coupled(0)),
                GroupToGround(1, 4, coupled(1)),
                GroupToGround(1, 5, coupled(2)),
            ],
        },
        Case {
            label: "three branches to one neutral",
            elements: "source = [{ name = \"S1\", bus = \"B1\", r = 1, x = 2, skin_k = \"0.5\", skin_m = 50 }]",
            nodes: 7,
            branches: &[
                Between(0, 6, ALONE),
                Between(1, 6, ALONE),
                Between(2, 6, ALONE),
            ],
        },
    ];
    assert_cases(&rt, rt.alloc(), &cases)
}
