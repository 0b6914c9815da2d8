// Files that are refused, in their order: the line is that of the first.
use crate::answers::{Case, assert_cases};
use crate::studies::{BEHIND_A_DELTA, COIL, FIFTH, NO_TOML};
use std::process::Abort;
use std::test::Fail;

/// Runs `limits` on files of which one is refused so.
fn assert_refused<'x>(
    rt: &(impl Abort + AllocGlobal),
    cases: &'x [(&'x str, &'x str, Option<&'x str>, &'x str)],
) -> Result<(), Fail> {
    for (study, spectrum, levels, line) in cases {
        let case = Case {
            study,
            spectrum,
            levels: *levels,
            answer: (2, "", line),
        };
        assert_cases(rt, rt.alloc(), &[case])?;
    }
    Ok(())
}

const SPECTRA: [(&str, &str, Option<&str>, &str); 8] = [
    (COIL, "", None, "harmscan: spectrum refused: 1 BadHeader\n"),
    (
        COIL,
        "order,bus,re,im\n5,B1,1\n",
        None,
        "harmscan: spectrum refused: 2 BadRow 1\n",
    ),
    (
        COIL,
        "order,bus,re,im\n51,B1,1,0\n",
        None,
        "harmscan: spectrum refused: 3 BadOrder 1\n",
    ),
    (
        COIL,
        "order,bus,re,im\n5,B1,1,0\n7,B2,1,0\n",
        None,
        "harmscan: spectrum refused: 4 UnknownBus 2\n",
    ),
    (
        COIL,
        "order,bus,re,im\n5,B1,1,j\n",
        None,
        "harmscan: spectrum refused: 5 BadDecimal 1\n",
    ),
    (
        COIL,
        "order,bus,re,im\n5,B1,1,0\n5,B1,2,0\n",
        None,
        "harmscan: spectrum refused: 6 Repeated 2\n",
    ),
    (
        BEHIND_A_DELTA,
        "order,bus,re,im\n3,LV,1,0\n",
        None,
        "harmscan: spectrum refused: 8 NoPath 1\n",
    ),
    (NO_TOML, "", None, "harmscan: study refused: 1 NotToml\n"),
];

#[test]
fn refused_spectra(rt: HostRuntime) -> Result<(), Fail> {
    assert_refused(&rt, &SPECTRA)
}

const LEVELS: [(&str, &str, Option<&str>, &str); 9] = [
    (
        COIL,
        FIFTH,
        Some("bus,percent\n"),
        "harmscan: levels refused: 1 BadHeader\n",
    ),
    (
        COIL,
        FIFTH,
        Some("bus,order,percent\nB1,5\n"),
        "harmscan: levels refused: 2 BadRow 1\n",
    ),
    (
        COIL,
        FIFTH,
        Some("bus,order,percent\nB1,1,3\n"),
        "harmscan: levels refused: 3 BadOrder 1\n",
    ),
    (
        COIL,
        FIFTH,
        Some("bus,order,percent\nB2,5,3\n"),
        "harmscan: levels refused: 4 UnknownBus 1\n",
    ),
    (
        COIL,
        FIFTH,
        Some("bus,order,percent\nB1,5,8.66025\n"),
        "harmscan: levels refused: 5 BadPercent 1\n",
    ),
    (
        COIL,
        FIFTH,
        Some("bus,order,percent\nB1,5,3\nB1,thd,5\nB1,5,3\n"),
        "harmscan: levels refused: 6 Repeated 3\n",
    ),
    // a spectrum is refused before levels, with a path that is missing too, and a study before both
    (
        COIL,
        "",
        Some("bus,percent\n"),
        "harmscan: spectrum refused: 1 BadHeader\n",
    ),
    (
        BEHIND_A_DELTA,
        "order,bus,re,im\n3,LV,1,0\n",
        Some(""),
        "harmscan: spectrum refused: 8 NoPath 1\n",
    ),
    (
        "study = { version = 1, mva = 100 }\nbus = [{ name = \"B1\", kv = 10 }]\n",
        "",
        Some(""),
        "harmscan: study refused: 15 Floating bus 1 -\n",
    ),
];

#[test]
fn refused_levels(rt: HostRuntime) -> Result<(), Fail> {
    assert_refused(&rt, &LEVELS)
}
