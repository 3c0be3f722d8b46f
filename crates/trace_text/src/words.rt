//! The lines of a text, and the words of a line.

ghost use Rattle.std.specs.Prelude.{◌≡◌, ◌<◌, ◌==◌, ◌∷◌, ◌++◌, [], true, filter, length, map, position};
ghost use Rattle.std.specs.Prelude.{IfOk, IfSome, IsErr, MatchOption, OnErr, OnOk};
ghost use Rattle.std.specs.List.{after_first, before_first, position_or_len};
ghost use Rattle.asm_lines.specs.Text.{is_blank};
ghost use Rattle.trace_text.specs.Words.{is_word, words_of};

use arrayvec::ArrayVec;

/// The most words of a line: those of the sizes.
pub(crate) const MAX_WORDS: usize = 9;

/// The words of a line.
pub(crate) type Words<'a> = ArrayVec<&'a [u8], MAX_WORDS>;

fn line_end(text: &[u8]) -> Option<usize>
    ensures { result ≡ position (λ b. b == 10) text.now }
{
    text.iter().position(|byte| *byte == b'\n')
}

/// The first line of a text and the text after its LF, if there is one.
pub(crate) fn cut_line(text: &[u8]) -> Option<(&[u8], &[u8])>
    ensures parts { MatchOption result (position_or_len (λ b. b == 10) text.now ≡ length text.now)
        (λ parts. (position_or_len (λ b. b == 10) text.now < length text.now)
        × (parts.0.now ≡ before_first (λ b. b == 10) text.now)
        × (parts.1.now ≡ after_first (λ b. b == 10) text.now)) }
    ensures shorter { IfSome result (λ parts. length parts.1.now < length text.now) }
{
    match line_end(text) {
        None => None,
        Some(end) => Some((text.split_at(end).0, text.split_at(end + 1).1)),
    }
}

fn is_blank(byte: u8) -> bool
    ensures { result ≡ is_blank byte }
{
    byte == b' ' || byte == b'\t'
}

fn blank_position(text: &[u8]) -> Option<usize>
    ensures { result ≡ position is_blank text.now }
{
    text.iter().position(|byte| is_blank(*byte))
}

/// The bytes before and after the first blank, if there is one.
fn cut_blank(text: &[u8]) -> Option<(&[u8], &[u8])>
    ensures { MatchOption result (position_or_len is_blank text.now ≡ length text.now)
        (λ parts. (position_or_len is_blank text.now < length text.now)
        × (parts.0.now ≡ before_first is_blank text.now)
        × (parts.1.now ≡ after_first is_blank text.now)) }
{
    match blank_position(text) {
        None => None,
        Some(at) => Some((text.split_at(at).0, text.split_at(at + 1).1)),
    }
}

fn comment_position(line: &[u8]) -> Option<usize>
    ensures { result ≡ position (λ b. b == 35) line.now }
{
    line.iter().position(|byte| *byte == b'#')
}

/// A line without its comment.
fn without_comment(line: &[u8]) -> &[u8]
    ensures { result.now ≡ before_first (λ b. b == 35) line.now }
{
    match comment_position(line) {
        None => line,
        Some(at) => line.split_at(at).0,
    }
}

/// More words than [`MAX_WORDS`].
#[derive(Clone, Copy, Debug, PartialEq, Eq, Drop)]
pub(crate) struct TooMany;

/// The words of a line.
///
/// # Errors
///
/// [`TooMany`] if there are more than [`MAX_WORDS`].
#[tactic(auto, unfolding(crate::specs::Words::words_of))]
pub(crate) fn words_of(line: &[u8]) -> Result<Words<'_>, TooMany>
    ensures words { IfOk result (λ words. map (λ word. word.now) words.items ≡ words_of line.now) }
    ensures many { IsErr result → 9 < length (words_of line.now) }
{
    let mut words = Words::new();
    let mut rest = without_comment(line);
    while let Some((part, after)) = cut_blank(rest) {
        add_part(&mut words, part)?;
        rest = after;
    }
    add_part(&mut words, rest)?;
    Ok(words)
}

/// Appends a part of a line, unless it is empty.
fn add_part<'a>(words: &mut Words<'a>, part: &'a [u8]) -> Result<(), TooMany>
    ensures added { OnOk result (map (λ word. word.now) words.new.items
        ≡ map (λ word. word.now) words.old.items ++ filter is_word (part.now ∷ [])) }
    ensures many { OnErr result ((length words.old.items ≡ 9) × (is_word part.now ≡ true)) }
{
    if part.is_empty() {
        return Ok(());
    }
    match words.try_push(part) {
        Ok(()) => Ok(()),
        Err(_) => Err(TooMany),
    }
}
