// Bounds of a value, and what they tell with a limit.

/// Bounds of a value, in ten-thousandths of a percent.
#[derive(Clone, Copy, Debug, PartialEq, Eq)]
pub struct PercentBounds {
    pub lo: u64,
    pub hi: u64,
}

/// What bounds and a limit tell.
#[derive(Clone, Copy, Debug, PartialEq, Eq)]
pub enum Verdict {
    /// The value is at most the limit.
    Pass,
    /// The value is above the limit.
    Fail,
    /// The bounds are absent, or the limit lies between them.
    Undecided,
}
