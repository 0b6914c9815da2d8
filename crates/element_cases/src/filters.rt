// Filters of 4 MVAr tuned to order 5: the capacitor is 25.
use crate::expected::{Case, Wanted, assert_cases};
use std::test::Fail;
use study_model::Sequence;

const CAPACITOR: Wanted = Wanted::Between(0, 2, [(0, 1), (0, 1), (1, 1), (0, 1), (25, 1)]);

#[test]
fn a_filter_is_sized_by_its_capacitor(rt: HostRuntime) -> Result<(), Fail> {
    let cases = [
        Case {
            label: "single of quality 50: x is 25/25, r is 25/(5·50)",
            elements: "filter = [{ name = \"F1\", bus = \"B1\", kind = \"single\", q = 4, order = 5, quality = 50 }]",
            sequence: Sequence::Positive,
            nodes: 2,
            branches: &[Wanted::ToGround(0, [(1, 10), (0, 1), (1, 1), (1, 1), (25, 1)])],
        },
        Case {
            label: "ctype of quality 2: n² - 1 is 24, r is 2·5·25/24, x and its capacitor 25/24",
            elements: "filter = [{ name = \"F1\", bus = \"B1\", kind = \"ctype\", q = 4, order = 5, quality = 2, grounded = true }]",
            sequence: Sequence::Zero,
            nodes: 3,
            branches: &[
                CAPACITOR,
                Wanted::ToGround(2, [(125, 12), (0, 1), (1, 1), (0, 1), (0, 1)]),
                Wanted::ToGround(2, [(0, 1), (0, 1), (1, 1), (25, 24), (25, 24)]),
            ],
        },
        Case {
            label: "highpass of quality 2: r is 2·25/5, x is 25/25",
            elements: "filter = [{ name = \"F1\", bus = \"B1\", kind = \"highpass\", q = 4, order = 5, quality = 2 }]",
            sequence: Sequence::Positive,
            nodes: 3,
            branches: &[
                CAPACITOR,
                Wanted::ToGround(2, [(10, 1), (0, 1), (1, 1), (0, 1), (0, 1)]),
                Wanted::ToGround(2, [(0, 1), (0, 1), (1, 1), (1, 1), (0, 1)]),
            ],
        },
        Case {
            label: "a floating filter is open in the zero network",
            elements: "filter = [{ name = \"F1\", bus = \"B1\", kind = \"ctype\", q = 4, order = 5, quality = 2 }]",
            sequence: Sequence::Zero,
            nodes: 2,
            branches: &[],
        },
    ];
    assert_cases(&rt, rt.alloc(), &cases)
}
