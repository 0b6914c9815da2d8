// Readers and writers that fail in the middle.
use harm_io::outside::read_opened;
use harm_io::{FetchFault, PutFault, Sink, StreamSink};
use std::alloc::Global;
use std::io;
use std::io::{Read, Write};

/// Gives its bytes one by one, and then fails.
#[derive(Drop)]
struct Torn<'a>(&'a [u8]);

impl Read for Torn<'_> {
    fn read(&mut self, buf: &mut [u8]) -> io::Result<usize> {
        match (self.0, buf) {
            ([first, rest @ ..], [place, ..]) => {
                *place = *first;
                self.0 = rest;
                Ok(1)
            }
            _ => Err(io::Error::from(io::ErrorKind::Other)),
        }
    }
}

/// The fault of reading it, and how many failures were counted. It has no contract, so that no case is proved under what is proved of a
/// reading.
fn read_torn(alloc: Global, limit: u32) -> (Option<FetchFault>, u64) {
    let mut faults = 0;
    let answer = read_opened(alloc, Ok(Torn(b"abc")), u64::from(limit), &mut faults);
    (answer.err(), faults)
}

#[test]
fn a_reader_that_fails_at_last(rt: HostRuntime) {
    let cases = [
        (3, FetchFault::Failed, 1),
        (2, FetchFault::TooLarge(3), 0),
        (9, FetchFault::Failed, 1),
    ];
    for (limit, fault, count) in cases {
        let found = read_torn(rt.alloc(), limit);
        assert_eq!(rt; found, (Some(fault), count), "{limit}");
    }
}

/// Takes two bytes a write, and no more once it is full.
#[derive(Drop)]
struct Small {
    left: usize,
}

impl Write for Small {
    fn write(&mut self, buf: &[u8]) -> io::Result<usize> {
        let count = buf.len().min(2).min(self.left);
        self.left -= count;
        Ok(count)
    }

    fn flush(&mut self) -> io::Result<()> {
        Ok(())
    }
}

#[test]
fn a_stream_that_takes_no_more(rt: HostRuntime) {
    let mut sink = StreamSink::new(Small { left: 5 });
    let puts = [
        ("abcde", Ok(())),
        ("", Ok(())),
        ("f", Err(PutFault::Failed)),
    ];
    for (piece, answer) in puts {
        assert_eq!(rt; sink.put(piece.as_bytes()), answer);
    }
}
