// Drills through the program.
use crate::answers::Answer;
use crate::compare::assert_answer;
use harm_io::MemoryShelf;
use std::test::Fail;

// Another program computed the summaries: at its finest width no box of a drill is decided.
const REPORTS: [(&str, &str); 2] = [
    ("0", "drill,0,120\nsummary,s1,256,0,0,256,1\nend,4\n"),
    ("7", "drill,7,120\nsummary,s1,256,0,0,256,1\nend,4\n"),
];

/// The shelf fails at its first call, so no file is asked for.
#[test]
fn drills_by_their_numbers(rt: HostRuntime) -> Result<(), Fail> {
    let mut shelf = MemoryShelf::new(rt.alloc());
    shelf.fail_call(1)?;
    for (number, report) in REPORTS {
        let answer = Answer {
            status: 4,
            out: report,
            err: "",
        };
        assert_answer(&rt, rt.alloc(), &["drill", number], &mut shelf, &answer)?;
    }
    Ok(())
}
