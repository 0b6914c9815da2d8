// Words of `limits` without a reading.
use crate::answers::{Case, assert_answer, shelf_of};
use crate::studies::{COIL, FIFTH};
use std::test::Fail;

#[test]
fn words_without_a_reading(rt: HostRuntime) -> Result<(), Fail> {
    let cases: [&[&str]; 10] = [
        &["limits"],
        &["limits", "study.toml"],
        &["limits", "", "spectrum.csv"],
        &["limits", "study.toml", ""],
        &["limits", "-", "spectrum.csv"],
        &["limits", "study.toml", "-s"],
        &["limits", "study.toml", "spectrum.csv", ""],
        &["limits", "study.toml", "spectrum.csv", "--levels"],
        &[
            "limits",
            "study.toml",
            "spectrum.csv",
            "levels.csv",
            "levels.csv",
        ],
        &["Limits", "study.toml", "spectrum.csv"],
    ];
    let case = Case {
        study: COIL,
        spectrum: FIFTH,
        levels: None,
        answer: (0, "", ""),
    };
    let mut shelf = shelf_of(rt.alloc(), &case)?;
    // no file is asked for: the first fetch would fail
    shelf.fail_call(1)?;
    for words in cases {
        assert_answer(
            &rt,
            rt.alloc(),
            words,
            &mut shelf,
            (1, b"", b"harmscan: words refused\n"),
        )?;
    }
    Ok(())
}
