// Elements with a phase, in a study of the phases model: in the zero network they count as their positive branches, with p and q as written.
use crate::expected::Wanted::{Between, Shunt, ToGround};
use crate::expected::{Case, assert_cases};
use crate::loads::{BESIDE, MOTOR};
use std::test::Fail;
use study_model::Sequence;

#[test]
fn elements_with_a_phase(rt: HostRuntime) -> Result<(), Fail> {
    let cases = [
        Case {
            label: "load",
            elements: "study.model = \"phases\"\nload = [{ name = \"D1\", bus = \"B1\", model = \"cigre\", p = 4, q = 2, phase = \"a\" }]",
            sequence: Sequence::Zero,
            nodes: 2,
            branches: &[MOTOR, BESIDE],
        },
        Case {
            label: "bank",
            elements: "study.model = \"phases\"\nbank = [{ name = \"K1\", bus = \"B1\", q = 4, phase = \"c\" }]",
            sequence: Sequence::Zero,
            nodes: 2,
            branches: &[Shunt(0, (4, 100))],
        },
        Case {
            label: "filter",
            elements: "study.model = \"phases\"\nfilter = [{ name = \"F1\", bus = \"B1\", kind = \"highpass\", q = 4, order = 5, quality = 2, phase = \"b\" }]",
            sequence: Sequence::Zero,
            nodes: 3,
            branches: &[
                Between(0, 2, [(0, 1), (0, 1), (1, 1), (0, 1), (25, 1)]),
                ToGround(2, [(10, 1), (0, 1), (1, 1), (0, 1), (0, 1)]),
                ToGround(2, [(0, 1), (0, 1), (1, 1), (1, 1), (0, 1)]),
            ],
        },
    ];
    assert_cases(&rt, rt.alloc(), &cases)
}
