//! The size of an access.

ghost use Rattle.std.specs.Prelude.{◌≡◌, ◌<◌, ◌≤◌, ◌^◌, ◌*◌, ◌-◌};
ghost use Rattle.flat_machine.specs.Sizes.{bytes_of};

/// The size of an access.
#[derive(Clone, Copy, Debug, PartialEq, Eq, Drop)]
pub enum Size {
    Byte,
    Half,
    Word,
}

impl Size {
    /// The number of bytes: 1, 2 or 4.
    pub fn bytes(self) -> u32
        ensures value { result ≡ bytes_of self }
        ensures some { 0 < result }
        ensures few { result ≤ 4 }
    {
        match self {
            Size::Byte => 1,
            Size::Half => 2,
            Size::Word => 4,
        }
    }

    /// A word with ones in the lowest bytes, as many as the size has.
    pub fn ones(self) -> u32
        ensures { result ≡ 2 ^ (8 * bytes_of self) - 1 }
    {
        match self {
            Size::Byte => 0xFF,
            Size::Half => 0xFFFF,
            Size::Word => 0xFFFF_FFFF,
        }
    }
}
