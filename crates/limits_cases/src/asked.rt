// Which files are asked for, and faults of them.
use crate::answers::{Case, LEVELS, SPECTRUM, assert_answer, shelf_of};
use crate::studies::{COIL, FIFTH, NO_TOML};
use harm_io::MemoryShelf;
use std::alloc::Global;
use std::process::Abort;
use std::test::Fail;

const LEVELS_OF_5: &str = "bus,order,percent\nB1,5,8.7\nB1,thd,9\n";

/// Runs `limits` with three files on a shelf whose fetch of this number fails.
fn assert_failing(
    rt: &impl Abort,
    alloc: Global,
    study: &str,
    call: u32,
    answer: (u8, &[u8]),
) -> Result<(), Fail> {
    let case = Case {
        study,
        spectrum: FIFTH,
        levels: Some(LEVELS_OF_5),
        answer: (0, "", ""),
    };
    let mut shelf = shelf_of(alloc, &case)?;
    shelf.fail_call(call)?;
    assert_answer(rt, alloc, &LEVELS, &mut shelf, (answer.0, b"", answer.1))
}

/// A fault of a file comes before its refusals, and after those of the files before it: a file behind a refused one is not asked for.
#[test]
fn each_fetch_that_fails(rt: HostRuntime) -> Result<(), Fail> {
    let cases: [(&str, u32, (u8, &[u8])); 4] = [
        (COIL, 1, (5, b"harmscan: cannot read study\n")),
        (COIL, 2, (5, b"harmscan: cannot read spectrum\n")),
        (COIL, 3, (5, b"harmscan: cannot read levels\n")),
        (NO_TOML, 2, (2, b"harmscan: study refused: 1 NotToml\n")),
    ];
    for (study, call, answer) in cases {
        assert_failing(&rt, rt.alloc(), study, call, answer)?;
    }
    Ok(())
}

/// A shelf on which this file has these bytes, and the others are without fault.
fn shelf_but(alloc: Global, name: &str, bytes: &[u8]) -> Result<MemoryShelf, Fail> {
    let case = Case {
        study: COIL,
        spectrum: FIFTH,
        levels: Some(LEVELS_OF_5),
        answer: (0, "", ""),
    };
    let mut shelf = shelf_of(alloc, &case)?;
    shelf.add_file(name, bytes)?;
    Ok(shelf)
}

#[test]
fn files_at_the_limit(rt: HostRuntime) -> Result<(), Fail> {
    // no document from its first byte on and no header in its first line, so that each reading is short
    let mut bytes = Vec::from_elem(rt.alloc(), b'\n', 4_194_305)?;
    if let Some(first) = bytes.first_mut() {
        *first = b']';
    }
    let cases: [(&str, usize, &[u8]); 6] = [
        (
            "study.toml",
            4_194_304,
            b"harmscan: study refused: 1 NotToml\n",
        ),
        ("study.toml", 4_194_305, b"harmscan: study too large\n"),
        (
            "spectrum.csv",
            4_194_304,
            b"harmscan: spectrum refused: 1 BadHeader\n",
        ),
        ("spectrum.csv", 4_194_305, b"harmscan: spectrum too large\n"),
        (
            "levels.csv",
            4_194_304,
            b"harmscan: levels refused: 1 BadHeader\n",
        ),
        ("levels.csv", 4_194_305, b"harmscan: levels too large\n"),
    ];
    for (name, size, line) in cases {
        let file = &bytes[..bytes.len().min(size)];
        let mut shelf = shelf_but(rt.alloc(), name, file)?;
        assert_answer(&rt, rt.alloc(), &LEVELS, &mut shelf, (2, b"", line))?;
    }
    Ok(())
}

/// Two words may name one file, which is then asked for twice.
#[test]
fn two_words_of_one_file(rt: HostRuntime) -> Result<(), Fail> {
    let mut shelf = shelf_but(rt.alloc(), "study.toml", COIL.as_bytes())?;
    shelf.fail_call(4)?;
    let refused: (u8, &[u8], &[u8]) = (2, b"", b"harmscan: spectrum refused: 1 BadHeader\n");
    let twice = ["limits", "study.toml", "study.toml"];
    assert_answer(&rt, rt.alloc(), &twice, &mut shelf, refused)?;
    let unread: (u8, &[u8], &[u8]) = (5, b"", b"harmscan: cannot read spectrum\n");
    assert_answer(&rt, rt.alloc(), &SPECTRUM, &mut shelf, unread)
}
