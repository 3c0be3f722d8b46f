//! The seconds that are answered along with a leader.

/// The processors that get a reply along with its leader, in the order of their combinations. They were combined with
/// it in one queue; there are at most three.
#[derive(Clone, Copy, Debug, PartialEq, Eq, Drop)]
pub enum Seconds {
    /// One.
    One(u8),
    /// Two.
    Two(u8, u8),
    /// Three.
    Three(u8, u8, u8),
}
