//! What stands for the text of a field in JSON.

ghost use Rattle.std.specs.Prelude.{◌≡◌, ◌<◌, ◌≤◌, ◌++◌, IfSome, None, OnOk, Some, if◌then◌else◌, is_some, length};
ghost use Rattle.std.specs.Prelude.{true};
ghost use Rattle.std.specs.List.{list_all};
ghost use Rattle.json.specs.Tree.{items_tokens, json_tokens};
ghost use Rattle.line_shapes.specs.Cuts.{words_of};
ghost use Rattle.line_shapes.specs.Fields.{count_of, hex_digit_value, hex_items_of, hex_number, hex_string};
ghost use Rattle.line_shapes.specs.Fields.{hex_value_after};
ghost use Rattle.line_shapes.specs.Fields.{is_code, is_hex_digit, is_number};
ghost use Rattle.line_shapes.specs.Fields.{item_of, items_of, number_of, number_or_none, value_of};
ghost use Rattle.line_shapes.specs.Found.{IsFound, IsItem, found_json};

use crate::cuts::{after, first_word, upto};
use crate::shape::Kind;
use json::Writer;
use std::alloc::AllocError;

/// What stands for the text of a field.
#[derive(Clone, Copy, Drop)]
pub(crate) enum Found<'a> {
    Null,
    Text(&'a str),
    /// A number as it stands.
    Number(&'a str),
    Unsigned(u32),
    /// The items of the words of this text.
    List(&'a str),
    /// The numbers that the words of this text spell in hex.
    Words(&'a str),
}

/// What stands for a word of a list.
#[derive(Clone, Copy, Drop)]
enum Item<'a> {
    One(&'a str),
    Pair(&'a str, &'a str),
}

impl Kind {
    /// What stands for the text of a field of this kind; None if no field of this kind has the text.
    #[tactic(auto, unfolding(crate::specs::Fields::value_of))]
    pub(crate) fn value_of<'a>(&self, text: &'a str) -> Option<Found<'a>>
        ensures { IsFound result (value_of self.now text.now) }
    {
        match self {
            Kind::Number => number(text),
            Kind::NumberOrNone => number_or_none(text),
            Kind::Word => hex_number(8, text),
            Kind::Byte => hex_number(2, text),
            Kind::Bytes => hex_string(text),
            Kind::Code => if_true(is_code(text), Found::Text(text)),
            Kind::Text | Kind::Function => Some(Found::Text(text)),
            Kind::Count(noun) => count_of(noun, text),
            Kind::List => if_true(are_items(text), Found::List(text)),
            Kind::Words => if_true(are_hex_words(text), Found::Words(text)),
            Kind::Is(word) => if_true(text.is_empty(), Found::Text(word)),
            Kind::Zero => if_true(text.is_empty(), Found::Unsigned(0)),
        }
    }
}

/// This value, if the test holds.
fn if_true(test: bool, found: Found<'_>) -> Option<Found<'_>>
    ensures { result ≡ (if test then Some found.entry else None) }
{
    if test { Some(found) } else { None }
}

/// Whether the text is a number of JSON.
fn is_number(text: &str) -> bool
    ensures { result ≡ is_number text.now }
{
    json::is_number(text)
}

fn number(text: &str) -> Option<Found<'_>>
    ensures { IsFound result (number_of text.now) }
{
    if is_number(text) {
        Some(Found::Number(text))
    } else {
        None
    }
}

fn number_or_none(text: &str) -> Option<Found<'_>>
    ensures { IsFound result (number_or_none text.now) }
{
    if text == "-" {
        return Some(Found::Null);
    }
    number(text)
}

/// Whether all bytes are lower-case hex digits.
pub(crate) fn is_hex(text: &str) -> bool
    ensures { result ≡ list_all is_hex_digit text.now }
{
    text.as_bytes()
        .iter()
        .all(|b| (48 <= *b && *b <= 57) || (97 <= *b && *b <= 102))
}

/// The number that hex digits spell.
pub(crate) fn hex_value(digits: &str) -> u32
    requires all { list_all is_hex_digit digits.now ≡ true }
    requires few { length digits.now ≤ 8 }
    ensures { result ≡ hex_value_after 0 digits.now }
{
    let mut value: u32 = 0;
    for b in digits.as_bytes() {
        value = value * 16 + hex_digit_value(*b);
    }
    value
}

/// The value of a lower-case hex digit.
fn hex_digit_value(digit: u8) -> u32
    requires { is_hex_digit digit ≡ true }
    ensures value { result ≡ hex_digit_value digit }
    ensures small { result < 16 }
{
    if digit <= 57 {
        u32::from(digit - 48)
    } else {
        u32::from(digit - 87)
    }
}

/// The number that this many hex digits spell.
fn hex_number(digits: usize, text: &str) -> Option<Found<'_>>
    requires { digits ≤ 8 }
    ensures { IsFound result (hex_number digits text.now) }
{
    if text.len() != digits || !is_hex(text) {
        return None;
    }
    Some(Found::Unsigned(hex_value(text)))
}

/// Hex digits as they stand, or no digit for `-`.
fn hex_string(text: &str) -> Option<Found<'_>>
    ensures { IsFound result (hex_string text.now) }
{
    if text == "-" {
        return Some(Found::Text(""));
    }
    if is_hex(text) {
        Some(Found::Text(text))
    } else {
        None
    }
}

/// Whether the text is a letter and a digit.
fn is_code(text: &str) -> bool
    ensures { result ≡ is_code text.now }
{
    match text.as_bytes() {
        [letter, digit] => (65 <= *letter && *letter <= 90) && (48 <= *digit && *digit <= 57),
        _ => false,
    }
}

/// The number before a noun.
fn count_of<'a>(noun: &str, text: &'a str) -> Option<Found<'a>>
    ensures { IsFound result (count_of noun.now text.now) }
{
    let (digits, rest) = upto(noun, text)?;
    let end = after(noun, rest)?;
    let plural = if digits == "1" { "" } else { "s" };
    if end == plural { number(digits) } else { None }
}

/// What stands for a word of a list.
fn item_of(word: &str) -> Option<Item<'_>>
    ensures { IsItem result (item_of word.now) }
{
    let Some((one, rest)) = upto("x", word) else {
        return if is_number(word) {
            Some(Item::One(word))
        } else {
            None
        };
    };
    let other = after("x", rest)?;
    if is_number(one) && is_number(other) {
        Some(Item::Pair(one, other))
    } else {
        None
    }
}

/// Whether each word of the text is an item.
fn are_items(text: &str) -> bool
    ensures { result ≡ is_some (items_of (words_of text.now)) }
{
    match first_word(text) {
        None => item_of(text).is_some(),
        Some((word, rest)) => item_of(word).is_some() && are_items(rest),
    }
}

/// Whether each word of the text is a number of eight hex digits.
fn are_hex_words(text: &str) -> bool
    ensures { result ≡ is_some (hex_items_of (words_of text.now)) }
{
    match first_word(text) {
        None => hex_number(8, text).is_some(),
        Some((word, rest)) => hex_number(8, word).is_some() && are_hex_words(rest),
    }
}

impl Found<'_> {
    /// Writes the value.
    ///
    /// # Errors
    ///
    /// [`AllocError`] if there is no memory for it.
    pub(crate) fn write(self, writer: &mut Writer) -> Result<(), AllocError>
        requires { is_some (found_json self) ≡ true }
        ensures tokens { OnOk result (IfSome (found_json self.entry)
            (λ j. writer.new.tokens ≡ writer.old.tokens ++ json_tokens j)) }
        ensures before { writer.new.before ≡ writer.old.before }
    {
        match self {
            Found::Null => writer.null(),
            Found::Text(text) => writer.string(text),
            Found::Number(text) => writer.number(text),
            Found::Unsigned(number) => writer.u64(u64::from(number)),
            Found::List(text) => {
                writer.begin_array()?;
                write_items(text, writer)
            }
            Found::Words(text) => {
                writer.begin_array()?;
                write_hex_words(text, writer)
            }
        }
    }
}

/// Writes the items of a text's words, and the end of their array.
fn write_items(text: &str, writer: &mut Writer) -> Result<(), AllocError>
    ensures tokens { OnOk result (IfSome (items_of (words_of text.now))
        (λ js. writer.new.tokens ≡ writer.old.tokens ++ items_tokens js)) }
    ensures before { writer.new.before ≡ writer.old.before }
{
    match first_word(text) {
        None => {
            write_item(text, writer)?;
            writer.end_array()
        }
        Some((word, rest)) => {
            write_item(word, writer)?;
            write_items(rest, writer)
        }
    }
}

/// Writes the item of a word; nothing, if it has none.
fn write_item(word: &str, writer: &mut Writer) -> Result<(), AllocError>
    ensures tokens { OnOk result (IfSome (item_of word.now)
        (λ j. writer.new.tokens ≡ writer.old.tokens ++ json_tokens j)) }
    ensures before { writer.new.before ≡ writer.old.before }
{
    match item_of(word) {
        None => Ok(()),
        Some(Item::One(number)) => writer.number(number),
        Some(Item::Pair(one, other)) => {
            writer.begin_array()?;
            writer.number(one)?;
            writer.number(other)?;
            writer.end_array()
        }
    }
}

/// Writes the numbers that a text's words spell in hex, and the end of their array.
fn write_hex_words(text: &str, writer: &mut Writer) -> Result<(), AllocError>
    ensures tokens { OnOk result (IfSome (hex_items_of (words_of text.now))
        (λ js. writer.new.tokens ≡ writer.old.tokens ++ items_tokens js)) }
    ensures before { writer.new.before ≡ writer.old.before }
{
    match first_word(text) {
        None => {
            write_hex_word(text, writer)?;
            writer.end_array()
        }
        Some((word, rest)) => {
            write_hex_word(word, writer)?;
            write_hex_words(rest, writer)
        }
    }
}

/// Writes the number that eight hex digits spell; nothing, if the word has other digits or another length.
fn write_hex_word(word: &str, writer: &mut Writer) -> Result<(), AllocError>
    ensures tokens { OnOk result (IfSome (hex_number 8 word.now)
        (λ j. writer.new.tokens ≡ writer.old.tokens ++ json_tokens j)) }
    ensures before { writer.new.before ≡ writer.old.before }
{
    if word.len() != 8 || !is_hex(word) {
        return Ok(());
    }
    writer.u64(u64::from(hex_value(word)))
}
