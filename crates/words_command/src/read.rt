//! Reading a file of hex words.

ghost use Rattle.std.specs.Prelude.{◌≡◌, ◌<◌, ◌≤◌, ◌+◌, ◌∷◌, ◌++◌, [], Ok, Err, Some, None, IfOk, IfErr, OnOk, ◌==◌};
ghost use Rattle.std.specs.Prelude.{position, vec_len, length, option_map};
ghost use Rattle.words_command.specs.HexText.{lines_of, word_of_line, words_of_text};
ghost use Rattle.words_command.specs.Refused.{IsFirstBad};

use std::alloc::{AllocError, Global};
use thiserror::Error;

/// The most words of a file.
pub const MAX_WORDS: usize = 16_384;

/// Why a file of words was refused.
#[derive(Clone, Copy, Debug, PartialEq, Eq, Drop, Error)]
pub enum WordsError {
    /// The first line, counted from 1, that is not eight hex digits, or that comes after the last word for which code
    /// has room.
    #[error("V1 line {0}")]
    Line(u32),
    /// There was no memory.
    #[error("memory")]
    Memory,
}

/// The words of a text, each on a line of eight hex digits of either case, the highest digit first.
pub fn words_read(alloc: Global, text: &[u8]) -> Result<Vec<u32>, WordsError>
    ensures words { IfOk result (λ words. words_of_text text.now ≡ Ok words.items) }
    ensures few { IfOk result (λ words. vec_len words ≤ 16384) }
    ensures line { IfErr result (IsFirstBad text.now) }
{
    let mut words = Vec::new(alloc);
    let mut rest = text;
    while !rest.is_empty() {
        let (line, after) = split_line(rest);
        rest = after;
        let number = words.len() as u32 + 1;
        if words.len() == MAX_WORDS {
            return Err(WordsError::Line(number));
        }
        match word_of(line) {
            Some(word) => push(&mut words, word)?,
            None => return Err(WordsError::Line(number)),
        }
    }
    Ok(words)
}

/// The first line of a text, and the text after it.
fn split_line(text: &[u8]) -> (&[u8], &[u8])
    requires { 0 < length text.now }
    ensures lines { lines_of text.now ≡ result.0.now ∷ lines_of result.1.now }
    ensures shorter { length result.1.now < length text.now }
{
    match line_end(text) {
        Some(end) => (&text[..end], &text[end + 1..]),
        None => (text, &text[text.len()..]),
    }
}

/// The place of the first LF of a text.
fn line_end(text: &[u8]) -> Option<usize>
    ensures { result ≡ position (λ byte. byte == 10) text.now }
{
    text.iter().position(|byte| *byte == b'\n')
}

/// The word of a line.
fn word_of(line: &[u8]) -> Option<u32>
    ensures { result ≡ word_of_line line.now }
{
    let mut bytes = [0u8; 4];
    match hex::decode_to_slice(line, &mut bytes) {
        Ok(()) => Some(u32::from_be_bytes(bytes)),
        Err(_) => None,
    }
}

fn push(words: &mut Vec<u32>, word: u32) -> Result<(), WordsError>
    ensures pushed { OnOk result (words.new.items ≡ words.old.items ++ word ∷ []) }
    ensures memory { IfErr result (λ e. e ≡ WordsError.Memory) }
{
    match words.push(word) {
        Ok(()) => Ok(()),
        Err(_) => Err(WordsError::Memory),
    }
}
