//! What steps are about.

/// What a step is about, as the machine before it tells.
#[derive(Clone, Copy, Debug, PartialEq, Eq, Drop)]
pub struct Subject {
    /// The leader of the message that the step moves or serves, if any.
    pub leader: Option<u8>,
    /// The number of the shared word that the message or the turn refers to, or the poke writes to, if any.
    pub word: Option<u32>,
}
