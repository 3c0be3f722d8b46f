//! Definitions of constants.

ghost use Rattle.std.specs.Prelude.{◌≡◌, IfOk, OnOk, Some};
ghost use Rattle.std.specs.Map.{update};
ghost use Rattle.std.specs.Option.{option_map};
ghost use Rattle.std.specs.Str.{bytes_eq};
ghost use Rattle.course_text.specs.Constants.{constant_in, constant_values, constants_of, defines, named_number};
ghost use Rattle.course_text.specs.Constants.{with_line};
ghost use Rattle.course_text.specs.Views.{nows, constant_view};

use crate::numbers::word_number;
use crate::parts::{Parts, words_of};
use crate::plain::is_plain;
use crate::table::Word;
use asm_lines::is_name;
use std::alloc::{AllocError, Global};
use std::collections::BTreeMap;

/// Whether a line with this first word defines a constant.
pub fn defines(word: Option<Word>) -> bool
    ensures { result ≡ defines word }
{
    matches!(word, Some(Word::DotEqu | Word::DotSet))
}

/// The name and the number of a definition with these words, if it is right.
fn named_number<'a>(words: &[&'a [u8]]) -> Option<(&'a [u8], i64)>
    ensures { option_map constant_view result ≡ named_number (nows words.now) }
{
    let [_, name, n] = words else {
        return None;
    };
    if !is_name(name) {
        return None;
    }
    match word_number(n) {
        Ok(number) => Some((name, number)),
        Err(_) => None,
    }
}

/// The constant that a line defines.
#[tactic(auto, unfolding(crate::specs::Constants::constant_in))]
fn constant_in<'a>(alloc: Global, line: &'a [u8]) -> Result<Option<(&'a [u8], i64)>, AllocError>
    ensures { IfOk result (λ found. option_map constant_view found ≡ constant_in line.now) }
{
    let Parts { word, rest, .. } = Parts::of(line);
    if !defines(Word::find(word)) || is_plain(alloc, line)? {
        return Ok(None);
    }
    let words = words_of(alloc, word, rest)?;
    Ok(named_number(&words))
}

/// Adds a constant.
fn add_constant<'a>(
    constants: &mut BTreeMap<&'a [u8], i64>,
    name: &'a [u8],
    number: i64,
) -> Result<(), AllocError>
    ensures { OnOk result (constant_values constants.new
        ≡ update bytes_eq (constant_values constants.old) name.now (Some number)) }
{
    constants.insert(name, number)?;
    Ok(())
}

/// Adds the constant that a line defines.
fn add_line<'a>(
    alloc: Global,
    constants: &mut BTreeMap<&'a [u8], i64>,
    line: &'a [u8],
) -> Result<(), AllocError>
    ensures { OnOk result (constant_values constants.new ≡ with_line (constant_values constants.old) line.now) }
{
    match constant_in(alloc, line)? {
        None => Ok(()),
        Some((name, number)) => add_constant(constants, name, number),
    }
}

/// The constants of a text.
///
/// # Errors
///
/// [`AllocError`] if memory is short.
pub fn constants_of<'a>(
    alloc: Global,
    lines: &[&'a [u8]],
) -> Result<BTreeMap<&'a [u8], i64>, AllocError>
    ensures { IfOk result (λ constants. constant_values constants ≡ constants_of (nows lines.now)) }
{
    let mut constants = BTreeMap::new(alloc);
    for line in lines {
        add_line(alloc, &mut constants, line)?;
    }
    Ok(constants)
}
