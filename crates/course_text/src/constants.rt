//! Words of a text that name constants.

ghost use Rattle.std.specs.Prelude.{◌≡◌, ◌++◌, IfOk, OnOk};
ghost use Rattle.asm_lines.specs.Statements.{is_name_byte};
ghost use Rattle.course_text.specs.Constants.{constant_values, number_for, replaced};

use crate::bytes::push_number;
use std::alloc::{AllocError, Global};
use std::collections::BTreeMap;

fn is_name_byte(byte: u8) -> bool
    ensures { result ≡ is_name_byte byte }
{
    matches!(byte, b'A'..=b'Z' | b'a'..=b'z' | b'_' | b'0'..=b'9')
}

/// Appends a word, or the number that it names.
fn push_number_for<'a>(
    text: &mut Vec<u8>,
    constants: &BTreeMap<&'a [u8], i64>,
    word: &'a [u8],
) -> Result<(), AllocError>
    ensures { OnOk result (text.new.items ≡ text.old.items ++ number_for (constant_values constants.now) word.now) }
{
    match constants.get(&word).copied() {
        None => text.extend_from_slice(word),
        Some(number) => push_number(text, number),
    }
}

/// The text with a number in place of each word that names a constant.
#[tactic(auto, unfolding(crate::specs::Constants::replaced))]
pub fn replaced<'a>(
    alloc: Global,
    constants: &BTreeMap<&'a [u8], i64>,
    text: &'a [u8],
) -> Result<Vec<u8>, AllocError>
    ensures { IfOk result (λ out. out.items ≡ replaced (constant_values constants.now) text.now) }
{
    let mut out = Vec::new(alloc);
    let mut begin = 0;
    for (at, byte) in text.iter().enumerate() {
        if is_name_byte(*byte) {
            continue;
        }
        push_number_for(&mut out, constants, &text[begin..at])?;
        out.push(*byte)?;
        begin = at + 1;
    }
    push_number_for(&mut out, constants, &text[begin..])?;
    Ok(out)
}
