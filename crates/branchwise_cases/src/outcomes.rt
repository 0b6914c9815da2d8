// What an estimate is found to be, at scale 40.
use branchwise_test::BranchwiseFault;
use complex_interval::{Enclosure, Rect, Span};
use drop_bench::Near;
use std::process::Abort;

/// 1, in units of 1 / 2^40.
pub const UNIT: i64 = 1_099_511_627_776;

/// The raw ends of a real part, and those of an imaginary one.
pub type Cell = [i64; 4];

/// The raw ends of the estimate with the error; a step; a contraction; or nothing.
#[derive(Clone, Copy, PartialEq, Debug)]
pub enum Expected {
    Near(Cell, u64),
    NoInverse(u32),
    NotContracting(u64),
    OutOfRange,
}

/// What was found.
pub fn found(outcome: Result<Near<Span<40>>, BranchwiseFault>) -> Expected {
    match outcome {
        Ok(near) => {
            let Rect { re, im } = near.estimate;
            Expected::Near([re.low(), re.high(), im.low(), im.high()], near.error)
        }
        Err(BranchwiseFault::NoInverse(column)) => Expected::NoInverse(column),
        Err(BranchwiseFault::NotContracting(theta)) => Expected::NotContracting(theta),
        Err(BranchwiseFault::OutOfRange) => Expected::OutOfRange,
    }
}

/// Compares an outcome. An assertion that stands in a test costs its proof more than this call does.
pub fn expect(rt: &impl Abort, outcome: Expected, wanted: Expected, label: &str) {
    assert_eq!(rt; outcome, wanted, "{label}");
}
