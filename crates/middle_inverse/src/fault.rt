// Why a middle matrix has no stated inverse.

/// The cause.
#[derive(Clone, Copy)]
pub enum InverseFault {
    /// In this column, counted from 1, every entry from the pivot's row on is zero.
    NoInverse(u32),
    /// An operation on points has no value.
    OutOfRange,
}
