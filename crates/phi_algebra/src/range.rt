//! Ranges of words, signed and unsigned, that are never empty.

mod signed;
mod unsigned;

pub use signed::SignedRange;
pub use unsigned::UnsignedRange;
