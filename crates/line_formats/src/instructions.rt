//! Instructions with registers by the names of their use, and with the addresses to which they jump.

ghost use Rattle.std.specs.Prelude.{◌≡◌, ◌++◌, OnOk, option_map, string_bytes};
ghost use Rattle.asm_lines.specs.Names.{use_name};
ghost use Rattle.line_formats.specs.Instructions.{first_of, in_brackets, instruction_text, is_jump, jump_text};
ghost use Rattle.line_formats.specs.Instructions.{last_operand_text, last_word_text, operand_text, origin_of};
ghost use Rattle.line_formats.specs.Instructions.{target_of, target_text, word_text, words_text};
ghost use Rattle.line_formats.specs.Places.{place_in};
ghost use Rattle.line_shapes.specs.Cuts.{words_of};

use crate::places::{Places, push_place};
use asm_lines::register_named;
use line_shapes::{after, decimal_value, first_word, upto};
use std::alloc::{AllocError, Global};

/// Appends the text of an instruction at an address, if its address is known.
pub(crate) fn push_instruction<P: Places>(
    alloc: Global,
    places: &Option<P>,
    address: Option<u32>,
    instruction: &str,
    text: &mut String,
) -> Result<(), AllocError>
    ensures { OnOk result (string_bytes text.new ≡ string_bytes text.old
        ++ instruction_text (place_in P.place places.now) address instruction.now) }
{
    let origin = origin_of(address, first_of(instruction));
    push_words(alloc, places, origin, instruction, text)
}

/// The first word of a text.
fn first_of(text: &str) -> &str
    ensures { result.now ≡ first_of (words_of text.now) }
{
    match first_word(text) {
        None => text,
        Some((word, _)) => word,
    }
}

/// The address from which an instruction jumps, if it does.
fn origin_of(address: Option<u32>, mnemonic: &str) -> Option<u32>
    ensures { result ≡ origin_of address mnemonic.now }
{
    if is_jump(mnemonic) { address } else { None }
}

/// Whether an instruction with this name jumps by the offset in its last operand.
fn is_jump(mnemonic: &str) -> bool
    ensures { result ≡ is_jump mnemonic.now }
{
    mnemonic == "beq"
        || mnemonic == "bne"
        || mnemonic == "blt"
        || mnemonic == "bge"
        || mnemonic == "bltu"
        || mnemonic == "bgeu"
        || mnemonic == "jal"
}

/// Appends the words of an instruction, of which the last is an offset if it jumps.
fn push_words<P: Places>(
    alloc: Global,
    places: &Option<P>,
    origin: Option<u32>,
    words: &str,
    text: &mut String,
) -> Result<(), AllocError>
    ensures { OnOk result (string_bytes text.new ≡ string_bytes text.old
        ++ words_text (last_word_text (place_in P.place places.now) origin) (words_of words.now)) }
{
    match first_word(words) {
        None => push_last_word(alloc, places, origin, words, text),
        Some((word, rest)) => {
            push_word(word, text)?;
            text.push_str(" ")?;
            push_words(alloc, places, origin, rest, text)
        }
    }
}

/// Appends the last word of an instruction.
fn push_last_word<P: Places>(
    alloc: Global,
    places: &Option<P>,
    origin: Option<u32>,
    word: &str,
    text: &mut String,
) -> Result<(), AllocError>
    ensures { OnOk result (string_bytes text.new ≡ string_bytes text.old
        ++ last_word_text (place_in P.place places.now) origin word.now) }
{
    match origin {
        Some(origin) => push_jump(alloc, places, origin, word, text),
        None => push_last_operand(word, text),
    }
}

/// Appends the target in place of an offset, if that is a number.
fn push_jump<P: Places>(
    alloc: Global,
    places: &Option<P>,
    origin: u32,
    offset: &str,
    text: &mut String,
) -> Result<(), AllocError>
    ensures { OnOk result (string_bytes text.new ≡ string_bytes text.old
        ++ jump_text (place_in P.place places.now) origin offset.now) }
{
    match target_of(origin, offset) {
        Some(address) => push_target(alloc, places, address, text),
        None => text.push_str(offset),
    }
}

/// Appends an address in eight hex digits, and its place.
fn push_target<P: Places>(
    alloc: Global,
    places: &Option<P>,
    address: u32,
    text: &mut String,
) -> Result<(), AllocError>
    ensures { OnOk result (string_bytes text.new ≡ string_bytes text.old
        ++ target_text (place_in P.place places.now) address) }
{
    let digits = hex::encode(alloc, address.to_be_bytes())?;
    text.push_str(digits.as_str())?;
    push_place(places, Some(address), " <", ">", text)
}

/// The address to which an offset leads from an address, if it is a number.
fn target_of(origin: u32, offset: &str) -> Option<u32>
    ensures { result ≡ target_of origin offset.now }
{
    match after("-", offset) {
        Some(digits) => Some(origin.wrapping_sub(decimal_value(digits)?)),
        None => Some(origin.wrapping_add(decimal_value(offset)?)),
    }
}

/// Appends a word of an instruction that is not the last: an operand and its comma, or another.
fn push_word(word: &str, text: &mut String) -> Result<(), AllocError>
    ensures { OnOk result (string_bytes text.new ≡ string_bytes text.old ++ word_text word.now) }
{
    match upto(",", word) {
        Some((operand, rest)) => {
            push_operand(operand, text)?;
            text.push_str(rest)
        }
        None => push_last_operand(word, text),
    }
}

/// Appends an address `IMM(REGISTER)`, or an operand alone.
fn push_last_operand(word: &str, text: &mut String) -> Result<(), AllocError>
    ensures { OnOk result (string_bytes text.new ≡ string_bytes text.old ++ last_operand_text word.now) }
{
    match upto("(", word) {
        Some((front, rest)) => {
            text.push_str(front)?;
            push_in_brackets(rest, text)
        }
        None => push_operand(word, text),
    }
}

/// Appends what stands between brackets, a register.
fn push_in_brackets(rest: &str, text: &mut String) -> Result<(), AllocError>
    ensures { OnOk result (string_bytes text.new ≡ string_bytes text.old ++ in_brackets rest.now) }
{
    let Some(inside) = after("(", rest) else {
        return text.push_str(rest);
    };
    let Some((operand, end)) = upto(")", inside) else {
        return text.push_str(rest);
    };
    text.push_str("(")?;
    push_operand(operand, text)?;
    text.push_str(end)
}

/// Appends a register by the name of its use, and any other word as it is.
fn push_operand(word: &str, text: &mut String) -> Result<(), AllocError>
    ensures { OnOk result (string_bytes text.new ≡ string_bytes text.old ++ operand_text word.now) }
{
    match register_named(word.as_bytes()) {
        Some(register) => text.push_str(use_name(register.number())),
        None => text.push_str(word),
    }
}

/// The name of a register by its use.
fn use_name(number: u8) -> &'static str
    ensures { result.now ≡ use_name number }
{
    match number {
        0 => "zero",
        1 => "ra",
        2 => "sp",
        3 => "gp",
        4 => "tp",
        5 => "t0",
        6 => "t1",
        7 => "t2",
        8 => "s0",
        9 => "s1",
        10 => "a0",
        11 => "a1",
        12 => "a2",
        13 => "a3",
        14 => "a4",
        15 => "a5",
        16 => "a6",
        17 => "a7",
        18 => "s2",
        19 => "s3",
        20 => "s4",
        21 => "s5",
        22 => "s6",
        23 => "s7",
        24 => "s8",
        25 => "s9",
        26 => "s10",
        27 => "s11",
        28 => "t3",
        29 => "t4",
        30 => "t5",
        31 => "t6",
        _ => "",
    }
}
