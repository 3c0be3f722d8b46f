//! Unknown first words.

ghost use Rattle.std.specs.Prelude.{◌≡◌, ◌==◌, ◌&&◌, IfOk, length, map};
ghost use Rattle.std.specs.Char.{to_ascii_lowercase};
ghost use Rattle.std.specs.Option.{option_map};
ghost use Rattle.asm_lines.specs.Names.{name_of, mnemonics, directive_name, directives};
ghost use Rattle.asm_lines.specs.Statements.{is_name};
ghost use Rattle.word_faults.specs.FirstWords.{advice_on, advice_by, word_advice_in, nearest_word, nearest_of, nearer};
ghost use Rattle.word_faults.specs.FirstWords.{few_edits};
ghost use Rattle.word_faults.specs.Advice.{advice_of};
ghost use Rattle.word_faults.specs.Spans.{span_of};
ghost use Rattle.word_faults.specs.Views.{line_spans, spot_span, spot_advice, near_view};

use crate::edits::few_edits;
use crate::foreign::Foreign;
use crate::hint::Hint;
use crate::parts::Parts;
use crate::positions::has;
use crate::spot::Spot;
use asm_lines::{Directive, Mnemonic, is_name};
use std::alloc::{AllocError, Global};

/// The spot of a statement whose first word is neither an instruction nor a directive.
pub fn unknown_word<'a>(alloc: Global, parts: &Parts<'a>) -> Result<Spot<'a>, AllocError>
    ensures named { IfOk result (λ spot. spot_span spot ≡ span_of parts.now.word) }
    ensures advised { IfOk result (λ spot. spot_advice spot ≡ word_advice_in (line_spans parts.now)) }
{
    let rest = parts.rest.trim();
    let hint = hint_on(alloc, parts.word.bytes, rest.bytes)?;
    Ok(Spot {
        piece: parts.word,
        hint,
    })
}

/// What is advised for an unknown first word with these bytes after it.
#[tactic(auto, unfolding(crate::specs::FirstWords::advice_on))]
fn hint_on<'a>(alloc: Global, word: &[u8], rest: &[u8]) -> Result<Hint<'a>, AllocError>
    ensures { IfOk result (λ hint. advice_of hint ≡ advice_on word.now rest.now) }
{
    if has(word, b':') {
        return Ok(Hint::LabelName);
    }
    if let Some(foreign) = Foreign::find(word) {
        return Ok(foreign.advice());
    }
    let nearest = near_word(alloc, word)?;
    Ok(hint_by(nearest, rest.is_empty() && is_name(word)))
}

/// Advice of a near word, or else that a colon may be missing.
fn hint_by<'a>(nearest: Option<&'static str>, is_label: bool) -> Hint<'a>
    ensures { advice_of result ≡ advice_by None (option_map (λ name. name.now) nearest.entry) is_label }
{
    match nearest {
        Some(name) => Hint::NearWord(name),
        None if is_label => Hint::Colon,
        None => Hint::NoWord,
    }
}

/// The instruction or directive that is nearest to a word, in letters of either case, if few edits lead to it.
#[tactic(auto, unfolding(crate::specs::FirstWords::nearest_word))]
fn near_word(alloc: Global, word: &[u8]) -> Result<Option<&'static str>, AllocError>
    ensures { IfOk result (λ found. option_map (λ name. name.now) found ≡ nearest_word word.now) }
{
    if word.len() > 16 {
        return Ok(None);
    }
    let lower = lower_of(alloc, word)?;
    let nearest = near_mnemonic(alloc, &lower)?;
    match near_directive(alloc, &lower, nearest)? {
        Some((_, name)) => Ok(Some(name)),
        None => Ok(None),
    }
}

/// A word in lower case.
fn lower_of(alloc: Global, word: &[u8]) -> Result<Vec<u8>, AllocError>
    ensures { IfOk result (λ lower. lower.items ≡ map to_ascii_lowercase word.now) }
{
    word.iter()
        .map(|byte| byte.to_ascii_lowercase())
        .collect(alloc)
}

/// The nearest instruction.
fn near_mnemonic(alloc: Global, word: &[u8]) -> Result<Option<(usize, &'static str)>, AllocError>
    ensures { IfOk result (λ found. near_view found ≡ nearest_of word.now None (map name_of mnemonics)) }
{
    let mut nearest: Option<(usize, &'static str)> = None;
    let mut rest = Mnemonic::ALL.as_slice();
    while let [mnemonic, behind @ ..] = rest {
        nearest = nearer(alloc, word, mnemonic.name(), nearest)?;
        rest = behind;
    }
    Ok(nearest)
}

/// The nearest directive, if it is nearer than what was nearest before.
fn near_directive(
    alloc: Global,
    word: &[u8],
    before: Option<(usize, &'static str)>,
) -> Result<Option<(usize, &'static str)>, AllocError>
    ensures { IfOk result (λ found. near_view found
        ≡ nearest_of word.now (near_view before.entry) (map directive_name directives)) }
{
    let mut nearest = before;
    let mut rest = Directive::ALL.as_slice();
    while let [directive, behind @ ..] = rest {
        nearest = nearer(alloc, word, directive.name(), nearest)?;
        rest = behind;
    }
    Ok(nearest)
}

/// The nearer of a name and the nearest one so far.
fn nearer(
    alloc: Global,
    word: &[u8],
    name: &'static str,
    nearest: Option<(usize, &'static str)>,
) -> Result<Option<(usize, &'static str)>, AllocError>
    ensures { IfOk result (λ found. near_view found
        ≡ nearer (few_edits word.now name.now) name.now (near_view nearest.entry)) }
{
    Ok(match (few_edits(alloc, word, name.as_bytes())?, nearest) {
        (Some(edits), None) => Some((edits, name)),
        (Some(edits), Some((fewest, _))) if edits < fewest => Some((edits, name)),
        _ => nearest,
    })
}
