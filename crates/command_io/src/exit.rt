//! Exit statuses.

/// The command did all that was asked for.
pub const DONE: u8 = 0;

/// The command did all that was asked for, and a fault has stopped a processor.
pub const STOPPED_BY_FAULT: u8 = 1;

/// The command line or an input was refused.
pub const REFUSED: u8 = 2;

/// A file or standard output could not be opened, read or written.
pub const LINK_FAILED: u8 = 3;

/// A limit was reached, or the host gave no memory or no thread.
pub const SPENT: u8 = 4;
