//! The lines of code.

ghost use Rattle.std.specs.Prelude.{◌≡◌, ◌≢◌, ◌≤◌, ◌<◌, ◌-◌, ◌++◌, ◌^◌, ℕ, IfOk, OnOk, string_bytes};
ghost use Rattle.asm_commands.specs.CodeLines.{IsListing, comment_if, comment_on, is_load_reserved};
ghost use Rattle.asm_commands.specs.CodeLines.{is_store_conditional, line_of, lines_of, text_of_word, word_at};

use arrayvec::ArrayString;
use assembler::disassemble;
use command_io::push_word;
use decode::decode;
use flat_machine::{CODE_START, Size};
use local_memory::Code;
use std::alloc::{AllocError, Global};

/// The number of words of code.
const CODE_WORDS: u32 = 0x4000;

/// A line for each word of code up to the last that is not zero: its address and the word, in eight hex digits each,
/// and the text of the instruction that the word spells, or `-` if it spells none. If comments are wanted, a word that
/// is `lr.w` or `sc.w` has this name after it, as a comment.
pub fn listing(alloc: Global, code: &Code, comments: bool) -> Result<String, AllocError>
    ensures { IfOk result (λ text. IsListing comments code.now (string_bytes text)) }
{
    let mut text = String::new(alloc);
    for index in 0..word_count(code) {
        push_line(
            alloc,
            &mut text,
            CODE_START + 4 * index,
            word_at(code, index),
            comments,
        )?;
    }
    Ok(text)
}

/// The number of words of code up to the last that is not zero.
fn word_count(code: &Code) -> u32
    ensures few { result ≤ 2 ^ 14 }
    ensures after { (index : ℕ) → result ≤ index → index < 2 ^ 14 → word_at code.now index ≡ 0 }
    ensures last { 0 < result → word_at code.now (result - 1) ≢ 0 }
{
    let mut count = CODE_WORDS;
    while count > 0 && word_at(code, count - 1) == 0 {
        count -= 1;
    }
    count
}

/// The word of code with this index.
fn word_at(code: &Code, index: u32) -> u32
    requires { index < 2 ^ 14 }
    ensures { result ≡ word_at code.now index }
{
    code.number(4 * index, Size::Word)
}

/// Appends the line of a word at an address.
fn push_line(
    alloc: Global,
    text: &mut String,
    address: u32,
    word: u32,
    comments: bool,
) -> Result<(), AllocError>
    ensures { OnOk result (string_bytes text.new ≡ string_bytes text.old ++ line_of comments address word) }
{
    push_word(alloc, text, address)?;
    text.push(' ')?;
    push_word(alloc, text, word)?;
    text.push(' ')?;
    push_text(text, word, comments)?;
    text.push('\n')
}

/// Appends the text of a word, and the comment on it, if comments are wanted.
fn push_text(text: &mut String, word: u32, comments: bool) -> Result<(), AllocError>
    ensures { OnOk result (string_bytes text.new
        ≡ string_bytes text.old ++ text_of_word word ++ comment_if comments word) }
{
    push_instruction(text, word)?;
    text.push_str(comment_if(comments, word))
}

/// The comment on a word, if comments are wanted.
fn comment_if(wanted: bool, word: u32) -> &'static str
    ensures { result.now ≡ comment_if wanted word }
{
    if wanted { comment_on(word) } else { "" }
}

/// The comment on a word: the name of an instruction that this machine does not have, or nothing.
fn comment_on(word: u32) -> &'static str
    ensures { result.now ≡ comment_on word }
{
    if is_load_reserved(word) {
        " # lr.w"
    } else if is_store_conditional(word) {
        " # sc.w"
    } else {
        ""
    }
}

/// Whether the word is `lr.w`.
fn is_load_reserved(word: u32) -> bool
    ensures { result ≡ is_load_reserved word }
{
    word & 0xF9F0_707F == 0x1000_202F
}

/// Whether the word is `sc.w`.
fn is_store_conditional(word: u32) -> bool
    ensures { result ≡ is_store_conditional word }
{
    word & 0xF800_707F == 0x1800_202F
}

/// Appends the text of the instruction that a word spells, or `-`.
fn push_instruction(text: &mut String, word: u32) -> Result<(), AllocError>
    ensures { OnOk result (string_bytes text.new ≡ string_bytes text.old ++ text_of_word word) }
{
    match decode(word) {
        Some(insn) => {
            let mut written = ArrayString::new();
            disassemble(&insn, &mut written);
            text.push_str(written.as_str())
        }
        None => text.push('-'),
    }
}
