// How large a matrix may be.

/// The most rows and columns of a matrix.
pub const MAX_SIZE: u32 = 4_096;
