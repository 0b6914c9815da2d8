// Reads operations, one a line, and prints the value of each: `mul 40 1 2 3 4` is the product of two intervals at scale 40, by
// their raw ends, and `floor_scaled 0 1 3 40` is an operation on fractions. A line that is none is answered by `unread`.
#![tactic(auto)]

mod fractions;
mod intervals;
mod numbers;
mod rectangles;
mod value;

use crate::numbers::Numbers;
use crate::value::Value;
use complex_interval::Span;
use std::io;
use std::io::{BufRead, BufReader, BufWriter, Write};

fn main(rt: HostRuntime) -> io::Result<()> {
    let mut out = BufWriter::new(rt.alloc(), io::writer(&rt))?;
    for line in BufReader::new(rt.alloc(), rt.reader())?.lines(rt.alloc()) {
        writeln!(out, "{}", value_of(line?.as_str()))?;
    }
    out.flush()
}

// The value of the operation that a line names.
fn value_of(line: &str) -> Value {
    let name = line.split(' ').next().unwrap_or("");
    let numbers = Numbers::of_line(line);
    match numbers.at(0) {
        0 => fractions::value(name, &numbers),
        40 => intervals::value::<Span<40>>(name, &numbers),
        48 => intervals::value::<Span<48>>(name, &numbers),
        _ => None,
    }
    .unwrap_or(Value::Unread)
}
