// Spectra and planning levels that are cut after each of their bytes.
use crate::answers::{Case, assert_cases};
use crate::studies::{COIL, FIFTH};
use std::test::Fail;

/// What a run answers.
type Answer<'a> = (u8, &'a str, &'a str);

/// The first bytes of 100 amperes of order 5, up to each of these lengths, and their answers. The last two have lost nothing but a line feed.
const OF_A_SPECTRUM: [(usize, Answer<'static>); 5] = [
    (14, (2, "", "harmscan: spectrum refused: 1 BadHeader\n")),
    (
        16,
        (
            0,
            "thd,B1,s,0.0000,0.0000,5.0000,pass\nsummary,limits,1,0,0\nend,0\n",
            "",
        ),
    ),
    (24, (2, "", "harmscan: spectrum refused: 2 BadRow 1\n")),
    (25, (2, "", "harmscan: spectrum refused: 5 BadDecimal 1\n")),
    (
        27,
        (
            3,
            "voltage,B1,s,5,8.6602,8.6603,3.0000,fail\nthd,B1,s,8.6602,8.6603,5.0000,fail\nsummary,limits,0,2,0\nend,3\n",
            "",
        ),
    ),
];

const LEVELS: &str = "bus,order,percent\nB1,5,8.7\nB1,thd,9\n";

/// The first bytes of these levels likewise. A level may be cut to a lower one, and a row may be lost.
const OF_LEVELS: [(usize, Answer<'static>); 9] = [
    (16, (2, "", "harmscan: levels refused: 1 BadHeader\n")),
    (
        18,
        (
            3,
            "voltage,B1,s,5,8.6602,8.6603,3.0000,fail\nthd,B1,s,8.6602,8.6603,5.0000,fail\nsummary,limits,0,2,0\nend,3\n",
            "",
        ),
    ),
    (22, (2, "", "harmscan: levels refused: 2 BadRow 1\n")),
    (23, (2, "", "harmscan: levels refused: 5 BadPercent 1\n")),
    (
        24,
        (
            3,
            "voltage,B1,s,5,8.6602,8.6603,8.0000,fail\nthd,B1,s,8.6602,8.6603,5.0000,fail\nsummary,limits,0,2,0\nend,3\n",
            "",
        ),
    ),
    (25, (2, "", "harmscan: levels refused: 5 BadPercent 1\n")),
    (
        27,
        (
            3,
            "voltage,B1,s,5,8.6602,8.6603,8.7000,pass\nthd,B1,s,8.6602,8.6603,5.0000,fail\nsummary,limits,1,1,0\nend,3\n",
            "",
        ),
    ),
    (33, (2, "", "harmscan: levels refused: 2 BadRow 2\n")),
    (34, (2, "", "harmscan: levels refused: 5 BadPercent 2\n")),
];

const WHOLE_LEVELS: Answer<'static> = (
    0,
    "voltage,B1,s,5,8.6602,8.6603,8.7000,pass\nthd,B1,s,8.6602,8.6603,9.0000,pass\nsummary,limits,2,0,0\nend,0\n",
    "",
);

/// The answer to so many first bytes.
fn answer_at<'a>(answers: &[(usize, Answer<'a>)], len: usize, whole: Answer<'a>) -> Answer<'a> {
    for (last, answer) in answers {
        if len <= *last {
            return *answer;
        }
    }
    whole
}

#[test]
fn a_spectrum_cut_anywhere(rt: HostRuntime) -> Result<(), Fail> {
    for len in 0..=FIFTH.len() {
        let spectrum = FIFTH.get(..len).ok_or("no such length")?;
        let case = Case {
            study: COIL,
            spectrum,
            levels: None,
            answer: answer_at(&OF_A_SPECTRUM, len, (0, "", "")),
        };
        assert_cases(&rt, rt.alloc(), &[case])?;
    }
    Ok(())
}

#[test]
fn levels_cut_anywhere(rt: HostRuntime) -> Result<(), Fail> {
    for len in 0..=LEVELS.len() {
        let levels = LEVELS.get(..len).ok_or("no such length")?;
        let case = Case {
            study: COIL,
            spectrum: FIFTH,
            levels: Some(levels),
            answer: answer_at(&OF_LEVELS, len, WHOLE_LEVELS),
        };
        assert_cases(&rt, rt.alloc(), &[case])?;
    }
    Ok(())
}
