// How all cases compare.
use std::fmt::Debug;
use std::process::Abort;

/// Compares what was found with what was wanted. An assertion that stands in a test costs its proof more than this call does.
pub fn expect<T: PartialEq + Debug + Drop>(rt: &impl Abort, found: T, wanted: T, label: &str) {
    assert_eq!(rt; found, wanted, "{label}");
}
