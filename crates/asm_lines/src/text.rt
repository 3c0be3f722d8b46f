//! Blanks, and the parts of a text around a byte.

ghost use Rattle.std.specs.Prelude.{◌≡◌, ◌==◌, length, MatchOption, ◌<◌, position, reverse, not, IfOk, map};
ghost use Rattle.std.specs.List.{position_or_len, before_first, after_first};
ghost use Rattle.std.specs.Option.{option_map};
ghost use Rattle.asm_lines.specs.Text.{is_blank, front_trimmed, trimmed, cut_at, cut_last_at, parts_at, operands_of};

use std::alloc::{AllocError, Global};

fn is_blank(byte: u8) -> bool
    ensures { result ≡ is_blank byte }
{
    byte == b' ' || byte == b'\t'
}

fn trim_front(bytes: &[u8]) -> &[u8]
    ensures { result.now ≡ front_trimmed bytes.now }
{
    let mut rest = bytes;
    while let [first, after @ ..] = rest {
        if !is_blank(*first) {
            return rest;
        }
        rest = after;
    }
    rest
}

fn trim_back(bytes: &[u8]) -> &[u8]
    ensures { reverse result.now ≡ front_trimmed (reverse bytes.now) }
{
    let mut rest = bytes;
    while let [before @ .., last] = rest {
        if !is_blank(*last) {
            return rest;
        }
        rest = before;
    }
    rest
}

/// The text without the blanks at its ends.
#[tactic(auto, unfolding(crate::specs::Text::trimmed))]
pub fn trim(bytes: &[u8]) -> &[u8]
    ensures { result.now ≡ trimmed bytes.now }
{
    trim_back(trim_front(bytes))
}

fn position_of(bytes: &[u8], mark: u8) -> Option<usize>
    ensures { result ≡ position (λ b. b == mark) bytes.now }
{
    bytes.iter().position(|b| *b == mark)
}

/// The bytes before and after the first `mark`, if there is one.
#[tactic(auto, unfolding(crate::specs::Text::cut_at))]
pub fn cut(bytes: &[u8], mark: u8) -> Option<(&[u8], &[u8])>
    ensures value { option_map (λ parts. (parts.0.now, parts.1.now)) result ≡ cut_at (λ b. b == mark) bytes.now }
    ensures parts { MatchOption result (position_or_len (λ b. b == mark) bytes.now ≡ length bytes.now)
        (λ parts. (position_or_len (λ b. b == mark) bytes.now < length bytes.now)
        × (parts.0.now ≡ before_first (λ b. b == mark) bytes.now)
        × (parts.1.now ≡ after_first (λ b. b == mark) bytes.now)) }
{
    match position_of(bytes, mark) {
        None => None,
        Some(at) => Some((bytes.split_at(at).0, bytes.split_at(at + 1).1)),
    }
}

/// The bytes before and after the last `mark`, if there is one.
#[tactic(auto, unfolding(crate::specs::Text::cut_last_at))]
pub fn cut_last(bytes: &[u8], mark: u8) -> Option<(&[u8], &[u8])>
    ensures { option_map (λ parts. (parts.0.now, parts.1.now)) result ≡ cut_last_at mark bytes.now }
{
    let mut rest = bytes;
    while let [before @ .., last] = rest {
        if *last == mark {
            return Some((bytes.split_at(before.len()).0, bytes.split_at(rest.len()).1));
        }
        rest = before;
    }
    None
}

fn blank_position(text: &[u8]) -> Option<usize>
    ensures { result ≡ position is_blank text.now }
{
    text.iter().position(|b| is_blank(*b))
}

/// The bytes before and after the first blank, if there is one.
#[tactic(auto, unfolding(crate::specs::Text::cut_at))]
pub fn cut_blank(text: &[u8]) -> Option<(&[u8], &[u8])>
    ensures { option_map (λ parts. (parts.0.now, parts.1.now)) result ≡ cut_at is_blank text.now }
{
    let at = blank_position(text)?;
    Some((text.split_at(at).0, text.split_at(at + 1).1))
}

/// The parts between the bytes that equal `mark`: one more than there are such bytes.
///
/// # Errors
///
/// [`AllocError`] if memory is short.
pub fn parts_at(alloc: Global, bytes: &[u8], mark: u8) -> Result<Vec<&[u8]>, AllocError>
    ensures { IfOk result (λ parts. map (λ part. part.now) parts.items ≡ parts_at mark bytes.now) }
{
    let mut parts = Vec::new(alloc);
    let mut rest = bytes;
    while let Some((part, after)) = cut(rest, mark) {
        parts.push(part)?;
        rest = after;
    }
    parts.push(rest)?;
    Ok(parts)
}

/// The parts between the commas, without the blanks around them.
///
/// # Errors
///
/// [`AllocError`] if memory is short.
#[tactic(auto, unfolding(crate::specs::Text::operands_of))]
pub fn operands_of(alloc: Global, bytes: &[u8]) -> Result<Vec<&[u8]>, AllocError>
    ensures { IfOk result (λ parts. map (λ part. part.now) parts.items ≡ operands_of bytes.now) }
{
    let mut parts = Vec::new(alloc);
    let mut rest = bytes;
    while let Some((part, after)) = cut(rest, b',') {
        parts.push(trim(part))?;
        rest = after;
    }
    parts.push(trim(rest))?;
    Ok(parts)
}
