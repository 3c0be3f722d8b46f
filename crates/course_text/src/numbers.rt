//! Numbers of course texts: of `li`, of constants and of alignments.

ghost use Rattle.std.specs.Prelude.{◌≡◌, ◌≤◌, ◌<◌, ◌^◌, IfOk, pos, negsuc, ◌≤ℤ◌, IfSome};
ghost use Rattle.course_text.specs.Numbers.{upper_part, lower_part, long_li, li_text, constant_line, constant_text};
ghost use Rattle.course_text.specs.Numbers.{word_number, missing, zeros_text, align_of, align_text, balign_of};
ghost use Rattle.course_text.specs.Numbers.{balign_text};
ghost use Rattle.course_text.specs.Views.{nows};

use crate::bytes::{joined, text_from, with_number};
use crate::templates::filled;
use asm_lines::{LineFault, is_name, low_bits, number_within};
use itoa::Buffer;
use std::alloc::{AllocError, Global};

/// A plain statement of a wrong form.
pub const WRONG_FORM: &[u8] = b".zero";

/// A plain statement with a number out of range.
const OUT_OF_RANGE: &[u8] = b".zero 1048577";

/// A number that fits in a word, signed or unsigned.
pub fn word_number(operand: &[u8]) -> Result<i64, LineFault>
    ensures { result ≡ word_number operand.now }
{
    number_within(-2_147_483_648, 4_294_967_295, operand)
}

/// The upper part of a number, for LUI.
fn upper_part(number: i64) -> i64
    ensures { result ≡ upper_part number }
{
    ((low_bits(0x1_0000_0000, number) + 0x800) % 0x1_0000_0000 / 4096) as i64
}

/// The lower part of a number, for ADDI.
fn lower_part(number: i64) -> i64
    ensures { result ≡ lower_part number }
{
    ((low_bits(0x1_0000_0000, number) + 0x800) % 4096) as i64 - 0x800
}

/// `lui` and `addi`, for a number.
fn long_li(alloc: Global, word: &[u8], rd: &[u8], number: i64) -> Result<Vec<u8>, AllocError>
    ensures { IfOk result (λ text. text.items ≡ long_li word.now rd.now number) }
{
    let mut upper = Buffer::new();
    let mut lower = Buffer::new();
    let upper = upper.format(upper_part(number)).as_bytes();
    let lower = lower.format(lower_part(number)).as_bytes();
    filled(alloc, &[word, rd, upper, lower], "lui A, B\naddi A, A, C")
}

/// The plain lines of `li rd, n`.
pub fn li_text(alloc: Global, words: &[&[u8]]) -> Result<Vec<u8>, AllocError>
    ensures { IfOk result (λ text. text.items ≡ li_text (nows words.now)) }
{
    let [word, rd, n] = words else {
        return text_from(alloc, WRONG_FORM);
    };
    match word_number(n) {
        Ok(number) if number < -2048 || number > 2047 => long_li(alloc, word, rd, number),
        Err(LineFault::Range) => filled(alloc, words, ".word B"),
        _ => filled(alloc, words, "addi A, x0, B"),
    }
}

/// The plain line of a constant with this name.
fn constant_line(alloc: Global, name: &[u8], n: &[u8]) -> Result<Vec<u8>, AllocError>
    ensures { IfOk result (λ text. text.items ≡ constant_line name.now n.now (word_number n.now)) }
{
    match word_number(n) {
        Ok(_) => joined(alloc, joined(alloc, b"\n", name)?.as_slice(), b":"),
        Err(LineFault::Range) => joined(alloc, b".word ", n),
        Err(_) => text_from(alloc, WRONG_FORM),
    }
}

/// The plain lines of `.equ name, n`.
pub fn constant_text(alloc: Global, words: &[&[u8]]) -> Result<Vec<u8>, AllocError>
    ensures { IfOk result (λ text. text.items ≡ constant_text (nows words.now)) }
{
    match words {
        [_, name, n] if is_name(name) => constant_line(alloc, name, n),
        _ => text_from(alloc, WRONG_FORM),
    }
}

/// How many bytes are missing from a count to a multiple of `alignment`.
fn missing(alignment: u32, count: u32) -> u32
    requires { 0 < alignment }
    ensures { result ≡ missing alignment count }
{
    (alignment - count % alignment) % alignment
}

/// This many zero bytes, unless there are none.
fn zeros_text(alloc: Global, count: u32) -> Result<Vec<u8>, AllocError>
    ensures { IfOk result (λ text. text.items ≡ zeros_text count) }
{
    if count == 0 {
        Ok(Vec::new(alloc))
    } else {
        with_number(alloc, b".zero ", count)
    }
}

/// The plain line of `.align n`, after this many bytes of the section.
pub fn align_text(alloc: Global, count: u32, words: &[&[u8]]) -> Result<Vec<u8>, AllocError>
    ensures { IfOk result (λ text. text.items ≡ align_text count (nows words.now)) }
{
    let [_, n] = words else {
        return text_from(alloc, WRONG_FORM);
    };
    match number_within(0, 16, n) {
        Ok(exponent) => {
            let alignment = 1 << exponent.unsigned_abs();
            zeros_text(alloc, missing(alignment, count))
        }
        Err(LineFault::Range) => text_from(alloc, OUT_OF_RANGE),
        Err(_) => text_from(alloc, WRONG_FORM),
    }
}

/// The plain line of `.balign n`, after this many bytes of the section.
pub fn balign_text(alloc: Global, count: u32, words: &[&[u8]]) -> Result<Vec<u8>, AllocError>
    ensures { IfOk result (λ text. text.items ≡ balign_text count (nows words.now)) }
{
    let [_, n] = words else {
        return text_from(alloc, WRONG_FORM);
    };
    match number_within(1, 65536, n) {
        Ok(number) => {
            let alignment = number.unsigned_abs() as u32;
            if alignment & (alignment - 1) == 0 {
                zeros_text(alloc, missing(alignment, count))
            } else {
                text_from(alloc, OUT_OF_RANGE)
            }
        }
        Err(LineFault::Range) => text_from(alloc, OUT_OF_RANGE),
        Err(_) => text_from(alloc, WRONG_FORM),
    }
}
