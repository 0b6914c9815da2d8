// Why a reduction or a solution ends without a value.

/// The cause, with the step, which is the pivot's number counted from 1. On the way back of solving it is the row's.
#[derive(Clone, Copy)]
pub enum Failure {
    /// The pivot's real and imaginary parts both hold zero.
    PivotHoldsZero(u32),
    /// An end of an interval operation is out of range.
    OutOfRange(u32),
}
