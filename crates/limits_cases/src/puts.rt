// A report of which a line is not taken.
use crate::answers::{Case, SPECTRUM, shelf_of};
use crate::studies::{COIL, FIFTH};
use harm_io::{MemoryShelf, MemorySink};
use std::alloc::Global;
use std::process::Abort;
use std::test::Fail;
use worked_cases::answers::status_of;

/// The lines of a report, by their numbers.
const LINES: [(u32, &str); 4] = [
    (1, "voltage,B1,s,5,8.6602,8.6603,3.0000,fail\n"),
    (2, "thd,B1,s,8.6602,8.6603,5.0000,fail\n"),
    (3, "summary,limits,0,2,0\n"),
    (4, "end,3\n"),
];

/// The put of that number keeps so many bytes and fails: `out` takes what is expected.
fn assert_taken(
    rt: &impl Abort,
    alloc: Global,
    shelf: &mut MemoryShelf,
    (call, kept): (u32, u32),
    expected: &[u8],
) -> Result<(), Fail> {
    let mut out = MemorySink::new(alloc);
    out.fail_call(call, kept)?;
    let mut err = MemorySink::new(alloc);
    let status = status_of(alloc, &SPECTRUM, shelf, &mut out, &mut err)?;
    let found = (status, out.taken(), err.taken());
    let line = b"harmscan: cannot write report\n".as_slice();
    assert_eq!(rt; found, (6, expected, line), "{call} {kept}");
    Ok(())
}

/// Each line is one put: those before the one that fails were taken, and what it kept.
#[test]
fn each_put_that_fails(rt: HostRuntime) -> Result<(), Fail> {
    let case = Case {
        study: COIL,
        spectrum: FIFTH,
        levels: None,
        answer: (0, "", ""),
    };
    let mut shelf = shelf_of(rt.alloc(), &case)?;
    let mut before = Vec::new(rt.alloc());
    for (call, line) in LINES {
        for kept in [0, 5, 300] {
            let front = line.as_bytes().len().min(kept as usize);
            let mut expected = Vec::from_slice(rt.alloc(), &before)?;
            expected.extend_from_slice(&line.as_bytes()[..front])?;
            assert_taken(&rt, rt.alloc(), &mut shelf, (call, kept), &expected)?;
        }
        before.extend_from_slice(line.as_bytes())?;
    }
    Ok(())
}
