//! Texts in memory.

ghost use Rattle.std.specs.Prelude.{◌≡◌, ◌++◌, IfOk, OnOk};
ghost use Rattle.std.specs.Fmt.{decimal, signed_decimal};

use itoa::Buffer;
use std::alloc::{AllocError, Global};

/// A copy of a text.
pub fn text_from(alloc: Global, text: &[u8]) -> Result<Vec<u8>, AllocError>
    ensures { IfOk result (λ copy. copy.items ≡ text.now) }
{
    Vec::from_slice(alloc, text)
}

/// Two texts in a row.
pub fn joined(alloc: Global, front: &[u8], behind: &[u8]) -> Result<Vec<u8>, AllocError>
    ensures { IfOk result (λ text. text.items ≡ front.now ++ behind.now) }
{
    let mut text = text_from(alloc, front)?;
    text.extend_from_slice(behind)?;
    Ok(text)
}

/// Appends a number.
pub fn push_number(text: &mut Vec<u8>, number: i64) -> Result<(), AllocError>
    ensures { OnOk result (text.new.items ≡ text.old.items ++ signed_decimal number) }
{
    text.extend_from_slice(Buffer::new().format(number).as_bytes())
}

/// A number after a text.
pub fn with_number(alloc: Global, front: &[u8], number: u32) -> Result<Vec<u8>, AllocError>
    ensures { IfOk result (λ text. text.items ≡ front.now ++ decimal number) }
{
    joined(alloc, front, Buffer::new().format(number).as_bytes())
}
