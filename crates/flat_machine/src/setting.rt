//! What a processor knows of its machine.

/// A processor's own number, and the size of its machine.
#[derive(Clone, Copy, Debug, PartialEq, Eq, Drop)]
pub struct Setting {
    /// The processor's own number, from 0.
    pub number: u8,
    /// The number of processors in the machine: 1 to 64.
    pub processors: u8,
    /// The number of words in shared memory: 1 to 262,144.
    pub shared_words: u32,
}
