// A transformer of 10 MVA and 10 percent, a reactance of 1 per unit, with a ratio of 2 at its from side. Root 3 is 1.732051.
use crate::expected::Wanted::{Taps, ToGround};
use crate::expected::{Case, Value, Values, assert_cases};
use std::test::Fail;

const LEAKAGE: Values = Values::Series([(0, 1), (0, 1), (1, 1), (1, 1), (0, 1)]);

const SKIN: Values = Values::Series([(0, 1), (1, 2), (50, 1), (1, 1), (0, 1)]);

const FROM_NEUTRAL: Values = Values::Series([(1, 1), (1, 2), (50, 1), (0, 1), (0, 1)]);

const TO_NEUTRAL: Values = Values::Series([(0, 1), (1, 2), (50, 1), (2, 1), (0, 1)]);

const HALF: Value = (1, 2);

const MINUS_HALF: Value = (-1, 2);

const ONE: Value = (1, 1);

const MINUS_ONE: Value = (-1, 1);

const FROM_DELTA: Value = (1_000_000, 3_464_102);

const MINUS_FROM_DELTA: Value = (-1_000_000, 3_464_102);

const TO_DELTA: Value = (1_000_000, 1_732_051);

const MINUS_TO_DELTA: Value = (-1_000_000, 1_732_051);

#[test]
fn a_grounded_from_side(rt: HostRuntime) -> Result<(), Fail> {
    let cases = [
        Case {
            label: "grounded, grounded",
            elements: "transformer = [{ name = \"T1\", from = \"B1\", to = \"B2\", mva = 10, r = 0, x = 10, ratio = 2, from_conn = \"grounded\", to_conn = \"grounded\" }]",
            nodes: 6,
            branches: &[
                Taps(&[(0, HALF), (3, MINUS_ONE)], LEAKAGE),
                Taps(&[(1, HALF), (4, MINUS_ONE)], LEAKAGE),
                Taps(&[(2, HALF), (5, MINUS_ONE)], LEAKAGE),
            ],
        },
        Case {
            label: "grounded, star",
            elements: "transformer = [{ name = \"T1\", from = \"B1\", to = \"B2\", mva = 10, r = 0, x = 10, ratio = 2, from_conn = \"grounded\", to_conn = \"star\" }]",
            nodes: 7,
            branches: &[
                Taps(&[(0, HALF), (3, MINUS_ONE), (6, ONE)], LEAKAGE),
                Taps(&[(1, HALF), (4, MINUS_ONE), (6, ONE)], LEAKAGE),
                Taps(&[(2, HALF), (5, MINUS_ONE), (6, ONE)], LEAKAGE),
            ],
        },
        Case {
            label: "grounded, delta",
            elements: "transformer = [{ name = \"T1\", from = \"B1\", to = \"B2\", mva = 10, r = 0, x = 10, ratio = 2, from_conn = \"grounded\", to_conn = \"delta\" }]",
            nodes: 6,
            branches: &[
                Taps(&[(0, HALF), (3, MINUS_TO_DELTA), (4, TO_DELTA)], LEAKAGE),
                Taps(&[(1, HALF), (4, MINUS_TO_DELTA), (5, TO_DELTA)], LEAKAGE),
                Taps(&[(2, HALF), (5, MINUS_TO_DELTA), (3, TO_DELTA)], LEAKAGE),
            ],
        },
    ];
    assert_cases(&rt, rt.alloc(), &cases)
}

#[test]
fn a_star_at_the_from_side(rt: HostRuntime) -> Result<(), Fail> {
    let cases = [
        Case {
            label: "star, grounded",
            elements: "transformer = [{ name = \"T1\", from = \"B1\", to = \"B2\", mva = 10, r = 0, x = 10, ratio = 2, from_conn = \"star\", to_conn = \"grounded\" }]",
            nodes: 7,
            branches: &[
                Taps(&[(0, HALF), (6, MINUS_HALF), (3, MINUS_ONE)], LEAKAGE),
                Taps(&[(1, HALF), (6, MINUS_HALF), (4, MINUS_ONE)], LEAKAGE),
                Taps(&[(2, HALF), (6, MINUS_HALF), (5, MINUS_ONE)], LEAKAGE),
            ],
        },
        Case {
            label: "star, star",
            elements: "transformer = [{ name = \"T1\", from = \"B1\", to = \"B2\", mva = 10, r = 0, x = 10, ratio = 2, from_conn = \"star\", to_conn = \"star\" }]",
            nodes: 7,
            branches: &[
                Taps(&[(0, HALF), (3, MINUS_ONE), (6, ONE)], LEAKAGE),
                Taps(&[(1, HALF), (4, MINUS_ONE), (6, ONE)], LEAKAGE),
                Taps(&[(2, HALF), (5, MINUS_ONE), (6, ONE)], LEAKAGE),
            ],
        },
        Case {
            label: "star, delta",
            elements: "transformer = [{ name = \"T1\", from = \"B1\", to = \"B2\", mva = 10, r = 0, x = 10, ratio = 2, from_conn = \"star\", to_conn = \"delta\" }]",
            nodes: 7,
            branches: &[
                Taps(
                    &[
                        (0, HALF),
                        (6, MINUS_HALF),
                        (3, MINUS_TO_DELTA),
                        (4, TO_DELTA),
                    ],
                    LEAKAGE,
                ),
                Taps(
                    &[
                        (1, HALF),
                        (6, MINUS_HALF),
                        (4, MINUS_TO_DELTA),
                        (5, TO_DELTA),
                    ],
                    LEAKAGE,
                ),
                Taps(
                    &[
                        (2, HALF),
                        (6, MINUS_HALF),
                        (5, MINUS_TO_DELTA),
                        (3, TO_DELTA),
                    ],
                    LEAKAGE,
                ),
            ],
        },
    ];
    assert_cases(&rt, rt.alloc(), &cases)
}

#[test]
fn a_delta_at_the_from_side(rt: HostRuntime) -> Result<(), Fail> {
    let cases = [
        Case {
            label: "delta, grounded",
            elements: "transformer = [{ name = \"T1\", from = \"B1\", to = \"B2\", mva = 10, r = 0, x = 10, ratio = 2, from_conn = \"delta\", to_conn = \"grounded\" }]",
            nodes: 6,
            branches: &[
                Taps(
                    &[(0, FROM_DELTA), (1, MINUS_FROM_DELTA), (3, MINUS_ONE)],
                    LEAKAGE,
                ),
                Taps(
                    &[(1, FROM_DELTA), (2, MINUS_FROM_DELTA), (4, MINUS_ONE)],
                    LEAKAGE,
                ),
                Taps(
                    &[(2, FROM_DELTA), (0, MINUS_FROM_DELTA), (5, MINUS_ONE)],
                    LEAKAGE,
                ),
            ],
        },
        Case {
            label: "delta, star",
            elements: "transformer = [{ name = \"T1\", from = \"B1\", to = \"B2\", mva = 10, r = 0, x = 10, ratio = 2, from_conn = \"delta\", to_conn = \"star\" }]",
            nodes: 7,
            branches: &[
                Taps(
                    &[
                        (0, FROM_DELTA),
                        (1, MINUS_FROM_DELTA),
                        (3, MINUS_ONE),
                        (6, ONE),
                    ],
                    LEAKAGE,
                ),
                Taps(
                    &[
                        (1, FROM_DELTA),
                        (2, MINUS_FROM_DELTA),
                        (4, MINUS_ONE),
                        (6, ONE),
                    ],
                    LEAKAGE,
                ),
                Taps(
                    &[
                        (2, FROM_DELTA),
                        (0, MINUS_FROM_DELTA),
                        (5, MINUS_ONE),
                        (6, ONE),
                    ],
                    LEAKAGE,
                ),
            ],
        },
        Case {
            label: "delta, delta",
            elements: "transformer = [{ name = \"T1\", from = \"B1\", to = \"B2\", mva = 10, r = 0, x = 10, ratio = 2, from_conn = \"delta\", to_conn = \"delta\" }]",
            nodes: 6,
            branches: &[
                Taps(
                    &[
                        (0, FROM_DELTA),
                        (1, MINUS_FROM_DELTA),
                        (3, MINUS_TO_DELTA),
                        (4, TO_DELTA),
                    ],
                    LEAKAGE,
                ),
                Taps(
                    &[
                        (1, FROM_DELTA),
                        (2, MINUS_FROM_DELTA),
                        (4, MINUS_TO_DELTA),
                        (5, TO_DELTA),
                    ],
                    LEAKAGE,
                ),
                Taps(
                    &[
                        (2, FROM_DELTA),
                        (0, MINUS_FROM_DELTA),
                        (5, MINUS_TO_DELTA),
                        (3, TO_DELTA),
                    ],
                    LEAKAGE,
                ),
            ],
        },
    ];
    assert_cases(&rt, rt.alloc(), &cases)
}

#[test]
fn neutrals_have_branches_of_their_own(rt: HostRuntime) -> Result<(), Fail> {
    let cases = [Case {
        label: "neutrals with impedances come after the three",
        elements: "transformer = [{ name = \"T1\", from = \"B1\", to = \"B2\", mva = 10, r = 0, x = 10, ratio = 2, from_conn = \"grounded\", to_conn = \"grounded\", from_rn = 1, to_xn = 2, skin_k = \"0.5\", skin_m = 50 }]",
        nodes: 8,
        branches: &[
            Taps(
                &[(0, HALF), (6, MINUS_HALF), (3, MINUS_ONE), (7, ONE)],
                SKIN,
            ),
            Taps(
                &[(1, HALF), (6, MINUS_HALF), (4, MINUS_ONE), (7, ONE)],
                SKIN,
            ),
            Taps(
                &[(2, HALF), (6, MINUS_HALF), (5, MINUS_ONE), (7, ONE)],
                SKIN,
            ),
            ToGround(6, FROM_NEUTRAL),
            ToGround(7, TO_NEUTRAL),
        ],
    }];
    assert_cases(&rt, rt.alloc(), &cases)
}
