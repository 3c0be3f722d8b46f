//! A core that is away.

use hart::Core;

/// A core that is away, as it was lent, and the most instructions that it may take.
#[derive(Drop)]
pub struct Lent {
    pub core: Core,
    pub most: u32,
}
