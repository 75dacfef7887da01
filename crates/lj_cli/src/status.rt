//! The statuses that the program ends with.

/// A command did what it was called for; of a check, the blocks cover.
pub const DONE: u8 = 0;

/// Some set is in no block of the input.
pub const UNCOVERED: u8 = 1;

/// The certificate is not good.
pub const NOT_GOOD: u8 = 1;

/// The words call for no command.
pub const BAD_WORDS: u8 = 2;

/// The input has a fault, or the cell has too many sets.
pub const FAULTY: u8 = 3;

/// Reading failed.
pub const READ_FAILED: u8 = 4;

/// Writing failed.
pub const WRITE_FAILED: u8 = 5;

/// The input has more bytes than the command's limit.
pub const TOO_LARGE: u8 = 6;

/// Memory ran out.
pub const NO_MEMORY: u8 = 7;

/// The system did not give the words, one of them is no text, or memory ran out while they were read.
pub const NO_WORDS: u8 = 8;
