// Runs of the program's words over files in memory.
use harm_io::{MemoryShelf, Shelf, Sink, SteadySink};
use harmscan_core::run;
use std::alloc::Global;
use std::test::Fail;

pub const SCAN: [&str; 2] = ["scan", "study.toml"];

pub const CANDIDATES: [&str; 2] = ["candidates", "study.toml"];

pub const TOLERANCE: [&str; 2] = ["tolerance", "study.toml"];

pub const OUTAGES: [&str; 2] = ["outages", "study.toml"];

pub const VERIFY: [&str; 3] = ["verify", "study.toml", "report.csv"];

/// What a run answers: its status, and the bytes on standard output and standard error.
#[derive(Clone, Copy)]
pub struct Answer<'a> {
    pub status: u8,
    pub out: &'a str,
    pub err: &'a str,
}

fn strings(alloc: Global, words: &[&str]) -> Result<Vec<String>, Fail> {
    let mut strings = Vec::new(alloc);
    for word in words {
        strings.push(String::from_str(alloc, word)?)?;
    }
    Ok(strings)
}

/// The status of a run of the words. It has no contract, so that no case is proved under what is proved of a run.
pub fn status_of<F: Shelf, O: Sink, E: Sink>(
    alloc: Global,
    words: &[&str],
    shelf: &mut F,
    out: &mut O,
    err: &mut E,
) -> Result<u8, Fail> {
    let words = strings(alloc, words)?;
    Ok(run(alloc, &words, shelf, out, err))
}

/// What a run of the words answered.
#[derive(Drop)]
pub struct Found {
    pub status: u8,
    pub out: SteadySink,
    pub err: SteadySink,
}

/// Runs the words, with sinks that take each put.
pub fn answered<F: Shelf>(alloc: Global, words: &[&str], shelf: &mut F) -> Result<Found, Fail> {
    let mut out = SteadySink::new(alloc);
    let mut err = SteadySink::new(alloc);
    let status = status_of(alloc, words, shelf, &mut out, &mut err)?;
    Ok(Found { status, out, err })
}

/// A shelf with this study.
pub fn shelf_with(alloc: Global, study: &[u8]) -> Result<MemoryShelf, Fail> {
    let mut shelf = MemoryShelf::new(alloc);
    shelf.add_file("study.toml", study)?;
    Ok(shelf)
}

/// A shelf with a study and a report.
pub fn shelf_with_report(alloc: Global, study: &str, report: &[u8]) -> Result<MemoryShelf, Fail> {
    let mut shelf = shelf_with(alloc, study.as_bytes())?;
    shelf.add_file("report.csv", report)?;
    Ok(shelf)
}

/// The pieces, put together.
pub fn joined(alloc: Global, pieces: &[&str]) -> Result<String, Fail> {
    let mut text = String::new(alloc);
    for piece in pieces {
        text.push_str(piece)?;
    }
    Ok(text)
}
