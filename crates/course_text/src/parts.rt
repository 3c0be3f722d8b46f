//! The parts of a line.

ghost use Rattle.std.specs.Prelude.{◌≡◌, ◌==◌, ◌++◌, IfOk, map, not, position, length, ◌∷◌, ◌≤◌};
ghost use Rattle.std.specs.List.{position_or_len};
ghost use Rattle.std.specs.Option.{option_map};
ghost use Rattle.asm_lines.specs.Text.{is_blank, trimmed, cut_at, operands_of};
ghost use Rattle.asm_lines.specs.Statements.{label_in};
ghost use Rattle.course_text.specs.Parts.{parts_of, word_and_rest, without_comment, given, first_column};
ghost use Rattle.course_text.specs.Views.{parts_view};

use asm_lines::{is_name, parts_at, trim};
use std::alloc::{AllocError, Global};

/// A line, taken apart.
#[derive(Clone, Copy, Debug, Drop)]
pub struct Parts<'a> {
    /// The label, if the line has one.
    pub label: Option<&'a [u8]>,
    /// The first word after the label. It is empty if the line has no statement.
    pub word: &'a [u8],
    /// The text after the first word, up to the comment.
    pub rest: &'a [u8],
}

fn is_blank(byte: u8) -> bool
    ensures { result ≡ is_blank byte }
{
    byte == b' ' || byte == b'\t'
}

fn position_of(text: &[u8], mark: u8) -> Option<usize>
    ensures { result ≡ position (λ b. b == mark) text.now }
{
    text.iter().position(|byte| *byte == mark)
}

fn blank_position(text: &[u8]) -> Option<usize>
    ensures { result ≡ position is_blank text.now }
{
    text.iter().position(|byte| is_blank(*byte))
}

fn solid_position(text: &[u8]) -> Option<usize>
    ensures { result ≡ position (λ b. not (is_blank b)) text.now }
{
    text.iter().position(|byte| !is_blank(*byte))
}

/// The number of blanks at the beginning of a text.
fn blanks_before(text: &[u8]) -> usize
    ensures value { result ≡ position_or_len (λ b. not (is_blank b)) text.now }
    ensures within { result ≤ length text.now }
{
    match solid_position(text) {
        Some(at) => at,
        None => text.len(),
    }
}

/// The bytes before and after the first `mark`, if there is one.
#[tactic(auto, unfolding(asm_lines::specs::Text::cut_at))]
fn cut(text: &[u8], mark: u8) -> Option<(&[u8], &[u8])>
    ensures { option_map (λ parts. (parts.0.now, parts.1.now)) result ≡ cut_at (λ b. b == mark) text.now }
{
    let at = position_of(text, mark)?;
    Some((text.split_at(at).0, text.split_at(at + 1).1))
}

/// The bytes before and after the first blank, if there is one.
#[tactic(auto, unfolding(asm_lines::specs::Text::cut_at))]
fn cut_blank(text: &[u8]) -> Option<(&[u8], &[u8])>
    ensures { option_map (λ parts. (parts.0.now, parts.1.now)) result ≡ cut_at is_blank text.now }
{
    let at = blank_position(text)?;
    Some((text.split_at(at).0, text.split_at(at + 1).1))
}

fn without_comment(line: &[u8]) -> &[u8]
    ensures { result.now ≡ without_comment line.now }
{
    match cut(line, b'#') {
        None => line,
        Some((text, _)) => text,
    }
}

/// The label before the first colon and the text after it; without a label, the whole text.
#[tactic(auto, unfolding(asm_lines::specs::Statements::label_in))]
fn label_in(text: &[u8]) -> (Option<&[u8]>, &[u8])
    ensures { (option_map (λ name. name.now) result.0, result.1.now) ≡ label_in text.now }
{
    if let Some((front, rest)) = cut(text, b':') {
        let name = trim(front);
        if is_name(name) {
            return (Some(name), rest);
        }
    }
    (None, text)
}

/// The first word of a text without blanks at its ends, and what follows.
fn word_and_rest(text: &[u8]) -> (&[u8], &[u8])
    ensures { (result.0.now, result.1.now) ≡ word_and_rest text.now }
{
    match cut_blank(text) {
        None => (text, &[]),
        Some(parts) => parts,
    }
}

impl<'a> Parts<'a> {
    /// The parts of a line, which is given without its LF.
    #[tactic(auto, unfolding(crate::specs::Parts::parts_of))]
    pub fn of(line: &'a [u8]) -> Parts<'a>
        ensures { parts_view result ≡ parts_of line.now }
    {
        let (label, statement) = label_in(without_comment(line));
        let (word, rest) = word_and_rest(trim(statement));
        Parts { label, word, rest }
    }
}

/// The first word of a statement, and its operands.
///
/// # Errors
///
/// [`AllocError`] if memory is short.
pub fn words_of<'a>(
    alloc: Global,
    word: &'a [u8],
    rest: &'a [u8],
) -> Result<Vec<&'a [u8]>, AllocError>
    ensures { IfOk result (λ words. map (λ w. w.now) words.items ≡ word.now ∷ given rest.now) }
{
    let mut words = Vec::new(alloc);
    words.push(word)?;
    if !trim(rest).is_empty() {
        push_operands(alloc, &mut words, rest)?;
    }
    Ok(words)
}

/// Appends the parts between the commas, without the blanks around them.
fn push_operands<'a>(
    alloc: Global,
    words: &mut Vec<&'a [u8]>,
    rest: &'a [u8],
) -> Result<(), AllocError>
    ensures { IfOk result (λ _. map (λ w. w.now) words.new.items
        ≡ map (λ w. w.now) words.old.items ++ operands_of rest.now) }
{
    let parts = parts_at(alloc, rest, b',')?;
    for part in &parts {
        words.push(trim(part))?;
    }
    Ok(())
}

/// The column of the first word after a line's label, counted in bytes from 1.
#[tactic(auto, unfolding(crate::specs::Parts::first_column))]
pub fn first_column(line: &[u8]) -> usize
    ensures { result ≡ first_column line.now }
{
    let text = without_comment(line);
    let (_, rest) = label_in(text);
    text.len().saturating_sub(rest.len()) + blanks_before(rest) + 1
}
