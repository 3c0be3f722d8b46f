//! The regions that an image fills.

ghost use Rattle.std.specs.Prelude.{◌≡◌};
ghost use Rattle.elf_image.specs.Regions.{region_start, region_length, is_flagged};

use flat_machine::{CODE_START, LOCAL_START, REGION_BYTES, SHARED_START};

/// `p_flags` of a readable segment: `PF_R`.
pub const READ: u32 = 4;

/// `p_flags` of a readable and executable segment: `PF_R + PF_X`.
pub const READ_EXECUTE: u32 = 5;

/// `p_flags` of a readable and writable segment: `PF_R + PF_W`.
pub const READ_WRITE: u32 = 6;

/// A region of addresses.
#[derive(Clone, Copy, Debug, PartialEq, Eq, Drop)]
pub enum Region {
    Code,
    Local,
    Shared,
}

impl Region {
    /// The first address.
    pub fn start(self) -> u32
        ensures { result ≡ region_start self }
    {
        match self {
            Region::Code => CODE_START,
            Region::Local => LOCAL_START,
            Region::Shared => SHARED_START,
        }
    }

    /// The size of the region in bytes, with this many shared words.
    pub fn length(self, shared_words: u32) -> usize
        ensures { result ≡ region_length shared_words self }
    {
        match self {
            Region::Code | Region::Local => REGION_BYTES as usize,
            Region::Shared => 4 * shared_words as usize,
        }
    }

    /// Whether a segment with these flags may lie in the region.
    pub fn takes_flags(self, flags: u32) -> bool
        ensures { result ≡ is_flagged self flags }
    {
        match self {
            Region::Code => flags == READ || flags == READ_EXECUTE,
            Region::Local | Region::Shared => flags == READ_WRITE,
        }
    }
}
