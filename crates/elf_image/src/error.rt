//! Why there is no image.

ghost use Rattle.std.specs.Prelude.{◌≡◌};
ghost use Rattle.elf_image.specs.Errors.{error_of};
ghost use Rattle.elf_image.specs.declared.error.ImageError.TheVariants.{Link as LinkFailed, Memory as NoMemory};

use link::{Failed, ReadError};
use std::alloc::AllocError;
use thiserror::Error;

/// Why an image was not read or not written. The variants are in the order of their numbers.
#[derive(Clone, Copy, Debug, PartialEq, Eq, Drop, Error)]
pub enum ImageError {
    /// The input has fewer than 52 bytes, or ends before its program header table does.
    #[error("I1")]
    Truncated,
    /// The input is not a little-endian ELF32 executable for RISC-V, by its first seven bytes, `e_type` and
    /// `e_machine`.
    #[error("I2")]
    NotExecutable,
    /// `e_version`, `e_flags`, `e_ehsize` or `e_phentsize` has an unsupported value, or `e_phnum` is not 1 to 16.
    #[error("I3")]
    UnsupportedHeader,
    /// A segment's bytes reach past the end of the input, or are more than its size in memory.
    #[error("I4")]
    OutsideInput,
    /// A segment's addresses are not all in one region, or its flags are not those of the region.
    #[error("I5")]
    OutsideRegions,
    /// Two segments share an address.
    #[error("I6")]
    Overlap,
    /// `e_entry` is outside code or not divisible by 4.
    #[error("I7")]
    Entry,
    /// The input has more than 1,048,576 bytes.
    #[error("I8")]
    TooLong,
    /// The link failed.
    #[error("I9")]
    Link,
    /// There was no memory for the input or the image.
    #[error("I10")]
    Memory,
}

impl From<ReadError> for ImageError {
    ghost from_gives = { λ fault error. error ≡ error_of fault };

    fn from(fault: ReadError) -> Self {
        match fault {
            ReadError::Link => ImageError::Link,
            ReadError::Memory => ImageError::Memory,
            ReadError::TooLong => ImageError::TooLong,
        }
    }
}

impl From<Failed> for ImageError {
    ghost from_gives = { λ fault error. error ≡ LinkFailed };

    fn from(_fault: Failed) -> Self {
        ImageError::Link
    }
}

impl From<AllocError> for ImageError {
    ghost from_gives = { λ fault error. error ≡ NoMemory };

    fn from(_fault: AllocError) -> Self {
        ImageError::Memory
    }
}
