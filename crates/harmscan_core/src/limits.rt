// The limit of a file.

/// The longest file that is read, in bytes.
pub const LONGEST_FILE: u64 = 4_194_304;
