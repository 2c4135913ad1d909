// How large a file may be.

/// The most bytes that a file may have: one mebibyte.
pub const LONGEST_FILE: usize = 1_048_576;
