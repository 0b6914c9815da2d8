// Files of the system.
use harm_io::{FetchFault, FileShelf, Shelf, Sink, StreamSink};
use std::alloc::Global;
use std::fs;
use std::io::Write;
use std::rt::Files;
use std::test::Fail;

const FOLDER: &str = "refused_cases_files";

const LONG: &str = "refused_cases_files/long";

const SHORT: &str = "refused_cases_files/short";

/// Puts a text, piece by piece.
fn put_pieces<W: Write + Drop>(mut sink: StreamSink<W>, pieces: &[&[u8]]) -> bool {
    let mut whole = true;
    for piece in pieces {
        whole &= sink.put(piece).is_ok();
    }
    whole
}

/// Writes a file, and answers whether each piece was taken.
fn write_file<R: Files>(rt: &R, path: &str, pieces: &[&[u8]]) -> Result<bool, Fail> {
    let file = fs::File::create(rt, path)?;
    Ok(put_pieces(StreamSink::new(file), pieces))
}

/// What a fetch answers: how many bytes, and the last of them.
type Seen = Result<(usize, u8), FetchFault>;

/// Fetches that are made one after another. The long file takes more than one reading.
const FETCHES: [(&str, u32, Seen); 7] = [
    ("refused_cases_files/absent", 9, Err(FetchFault::Failed)),
    (FOLDER, 9, Err(FetchFault::Failed)),
    (LONG, 5000, Ok((5000, b'y'))),
    (LONG, 4999, Err(FetchFault::TooLarge(5000))),
    (SHORT, 5, Ok((5, b't'))),
    (SHORT, 4, Err(FetchFault::TooLarge(5))),
    (LONG, 9000, Ok((5000, b'y'))),
];

/// A fetch. It has no contract, so that no case is proved under what is proved of a shelf.
fn see<F: Shelf>(shelf: &mut F, alloc: Global, path: &str, limit: u32) -> Seen {
    let bytes = shelf.fetch(alloc, path, u64::from(limit))?;
    Ok((bytes.len(), bytes.last().copied().unwrap_or(0)))
}

/// Whether a fetch answers these bytes.
fn fetches<F: Shelf>(shelf: &mut F, alloc: Global, path: &str, bytes: &[u8]) -> bool {
    match shelf.fetch(alloc, path, 9) {
        Ok(found) => found.as_slice() == bytes,
        Err(_) => false,
    }
}

#[test]
fn files_of_the_system(rt: HostRuntime) -> Result<(), Fail> {
    let _ = fs::remove_dir_all(&rt, FOLDER);
    fs::create_dir(&rt, FOLDER)?;
    let many = [b'x'; 4999];
    let long = write_file(&rt, LONG, &[&many, b"y"])?;
    let short = write_file(&rt, SHORT, &[b"short"])?;
    assert!(rt; long && short, "files that were written");
    let mut shelf = FileShelf::new(&rt, rt.alloc());
    for (path, limit, wanted) in FETCHES {
        let seen = see(&mut shelf, rt.alloc(), path, limit);
        assert_eq!(rt; seen, wanted, "{path} up to {limit}");
    }
    let same = fetches(&mut shelf, rt.alloc(), SHORT, b"short");
    assert!(rt; same, "the bytes of the short file");
    fs::remove_dir_all(&rt, FOLDER)?;
    Ok(())
}
