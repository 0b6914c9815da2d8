// What a certified inverse says of a matrix.

/// What became of it.
#[derive(Clone, Copy)]
pub enum InverseOutcome {
    /// The value `(re + j im) / 2^SCALE` and how far the exact one lies from it at most: `error / 2^SCALE`, in the sum of the sizes of both parts.
    Enclosed { re: i64, im: i64, error: u64 },
    /// The middle matrix has no stated inverse: no pivot in this column, counted from 1.
    NoInverse(u32),
    /// The row sums reach this number, which is at least 2^SCALE.
    NotContracting(u64),
    /// An operation has no value, or a number lies above 2^62.
    OutOfRange,
}
