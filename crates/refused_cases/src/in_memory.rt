// Shelves and sinks in memory.
use harm_io::{
    FetchFault, MemoryShelf, MemorySink, PutFault, Shelf, Sink, SteadyShelf, SteadySink,
};
use std::alloc::Global;
use std::process::Abort;
use std::test::Fail;

/// What a fetch of a name answers.
type Fetch<'a> = (&'a str, u32, Result<&'a str, FetchFault>);

/// Whether a fetch answers so. It has no contract, so that no case is proved under what is proved of a shelf.
fn answers<F: Shelf>(shelf: &mut F, alloc: Global, (name, limit, answer): Fetch<'_>) -> bool {
    match (shelf.fetch(alloc, name, u64::from(limit)), answer) {
        (Ok(bytes), Ok(text)) => bytes.as_slice() == text.as_bytes(),
        (Err(fault), Err(wanted)) => fault == wanted,
        _ => false,
    }
}

/// Fetches one name after another, and compares each answer.
fn assert_fetches<F: Shelf>(rt: &impl Abort, alloc: Global, shelf: &mut F, cases: &[Fetch<'_>]) {
    for (at, case) in cases.iter().enumerate() {
        let same = answers(shelf, alloc, *case);
        assert!(rt; same, "fetch {at}");
    }
}

/// Puts one piece after another, and compares each answer.
fn assert_puts<S: Sink>(rt: &impl Abort, sink: &mut S, puts: &[(&str, Result<(), PutFault>)]) {
    for (piece, answer) in puts {
        let found = sink.put(piece.as_bytes());
        assert!(rt; found == *answer, "{piece}");
    }
}

#[test]
fn a_shelf_fails_its_listed_fetches(rt: HostRuntime) -> Result<(), Fail> {
    let mut shelf = MemoryShelf::new(rt.alloc());
    for (name, bytes) in [("a", "first"), ("b", "two"), ("a", "later")] {
        shelf.add_file(name, bytes.as_bytes())?;
    }
    for call in [2, 6] {
        shelf.fail_call(call)?;
    }
    // the second is listed; each answer counts, so the sixth is the other that is
    let cases = [
        ("a", 9, Ok("later")),
        ("b", 3, Err(FetchFault::Failed)),
        ("b", 2, Err(FetchFault::TooLarge(3))),
        ("c", 3, Err(FetchFault::Failed)),
        ("b", 3, Ok("two")),
        ("b", 3, Err(FetchFault::Failed)),
        ("b", 3, Ok("two")),
    ];
    assert_fetches(&rt, rt.alloc(), &mut shelf, &cases);
    Ok(())
}

#[test]
fn a_steady_shelf_reads_other_names_as_empty(rt: HostRuntime) -> Result<(), Fail> {
    let mut shelf = SteadyShelf::new(rt.alloc());
    for bytes in ["first", "one"] {
        shelf.add_file("a", bytes.as_bytes())?;
    }
    let cases = [
        ("a", 3, Ok("one")),
        ("a", 2, Err(FetchFault::TooLarge(3))),
        ("b", 0, Ok("")),
    ];
    assert_fetches(&rt, rt.alloc(), &mut shelf, &cases);
    Ok(())
}

#[test]
fn a_sink_takes_a_part_and_fails(rt: HostRuntime) -> Result<(), Fail> {
    let mut sink = MemorySink::new(rt.alloc());
    for (call, kept) in [(2, 9), (2, 1), (4, 9)] {
        sink.fail_call(call, kept)?;
    }
    let puts = [
        ("abc", Ok(())),
        ("def", Err(PutFault::Failed)),
        ("gh", Ok(())),
        ("ij", Err(PutFault::Failed)),
        ("k", Ok(())),
    ];
    assert_puts(&rt, &mut sink, &puts);
    assert_eq!(rt; sink.taken(), b"abcdghijk".as_slice());
    Ok(())
}

#[test]
fn a_steady_sink_takes_each_piece(rt: HostRuntime) {
    let mut sink = SteadySink::new(rt.alloc());
    assert_puts(&rt, &mut sink, &[("one ", Ok(())), ("two", Ok(()))]);
    assert_eq!(rt; sink.taken(), b"one two".as_slice());
}
