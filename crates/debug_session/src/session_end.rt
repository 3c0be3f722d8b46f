//! How sessions end.

/// How a session ended.
#[derive(Clone, Copy, Debug, PartialEq, Eq, Drop)]
pub enum SessionEnd {
    /// The session read the line `quit`, and answered it.
    Quit,
    /// The reader has no more bytes.
    EndOfInput,
    /// The reader failed.
    ReadFailed,
    /// The writer failed at the reply to the last event read.
    WriteFailed,
    /// There was no memory for the steps of the drain with which a session begins. Nothing was read or changed.
    Memory,
    /// The log had no room for these steps. Nothing was read or changed.
    TraceFull,
}
