// Runs of `limits` over files in memory.
use harm_io::{MemoryShelf, MemorySink};
use std::alloc::Global;
use std::process::Abort;
use std::test::Fail;
use worked_cases::answers::status_of;

pub const SPECTRUM: [&str; 3] = ["limits", "study.toml", "spectrum.csv"];

pub const LEVELS: [&str; 4] = ["limits", "study.toml", "spectrum.csv", "levels.csv"];

/// Words with the files that they name, and what they are answered.
#[derive(Clone, Copy)]
pub struct Case<'a> {
    pub study: &'a str,
    pub spectrum: &'a str,
    pub levels: Option<&'a str>,
    pub answer: (u8, &'a str, &'a str),
}

/// A shelf with the files of a case.
pub fn shelf_of(alloc: Global, case: &Case<'_>) -> Result<MemoryShelf, Fail> {
    let mut shelf = MemoryShelf::new(alloc);
    shelf.add_file("study.toml", case.study.as_bytes())?;
    shelf.add_file("spectrum.csv", case.spectrum.as_bytes())?;
    if let Some(levels) = case.levels {
        shelf.add_file("levels.csv", levels.as_bytes())?;
    }
    Ok(shelf)
}

/// Runs the words, and compares the status and the bytes on standard output and standard error.
pub fn assert_answer(
    rt: &impl Abort,
    alloc: Global,
    words: &[&str],
    shelf: &mut MemoryShelf,
    answer: (u8, &[u8], &[u8]),
) -> Result<(), Fail> {
    let mut out = MemorySink::new(alloc);
    let mut err = MemorySink::new(alloc);
    let status = status_of(alloc, words, shelf, &mut out, &mut err)?;
    let found = (status, out.taken(), err.taken());
    assert_eq!(rt; found, answer, "status, standard output, standard error");
    Ok(())
}

/// Runs `limits` on the files of each case.
pub fn assert_cases(rt: &impl Abort, alloc: Global, cases: &[Case<'_>]) -> Result<(), Fail> {
    for case in cases {
        let mut shelf = shelf_of(alloc, case)?;
        let words: &[&str] = match case.levels {
            None => &SPECTRUM,
            Some(_) => &LEVELS,
        };
        let (status, out, err) = case.answer;
        assert_answer(
            rt,
            alloc,
            words,
            &mut shelf,
            (status, out.as_bytes(), err.as_bytes()),
        )?;
    }
    Ok(())
}
