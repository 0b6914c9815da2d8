// Why a box of orders has no estimate of the impedance.

/// The cause.
#[derive(Clone, Copy)]
pub enum BranchwiseFault {
    /// The middle matrix has no stated inverse: no pivot in this column, counted from 1.
    NoInverse(u32),
    /// The weights reach this part of themselves, in units of 1 / 2^SCALE: at least 1.
    NotContracting(u64),
    /// An operation has no value, or a number lies above 2^62.
    OutOfRange,
}
