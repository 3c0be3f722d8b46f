//! What is wrong with a text that is no condition.

ghost use Rattle.std.specs.Prelude.{◌≡◌, option_map};
ghost use Rattle.state_conditions.specs.Texts.{wrong_part_in, wrong_part_of};

use crate::part::part_of;
use symbol_table::SymbolTable;

/// The first part of a text that is no part of a condition, for a machine with this many shared words. None if the text
/// is a condition.
pub fn wrong_part<'a>(
    text: &'a str,
    shared_words: u32,
    names: &Option<SymbolTable<'_>>,
) -> Option<&'a str>
    ensures { option_map (λ part. part.now) result ≡ wrong_part_in names.now shared_words text.now }
{
    let mut rest = text;
    while let Some((alternative, after)) = rest.split_once('|') {
        if let Some(part) = wrong_in(alternative, shared_words, names) {
            return Some(part);
        }
        rest = after;
    }
    wrong_in(rest, shared_words, names)
}

/// The first part of an alternative that is no part of a condition.
fn wrong_in<'a>(
    text: &'a str,
    shared_words: u32,
    names: &Option<SymbolTable<'_>>,
) -> Option<&'a str>
    ensures { option_map (λ part. part.now) result ≡ wrong_part_of names.now shared_words text.now }
{
    let mut rest = text;
    while let Some((part, after)) = rest.split_once('&') {
        let Some(_) = part_of(part, shared_words, names) else {
            return Some(part);
        };
        rest = after;
    }
    let Some(_) = part_of(rest, shared_words, names) else {
        return Some(rest);
    };
    None
}
