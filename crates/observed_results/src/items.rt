//! The items of a list: numbers and ranges of shared words.

ghost use Rattle.std.specs.Prelude.{◌≡◌, ◌==◌, ◌<◌, ◌≤◌, MatchOption, length, option_map};
ghost use Rattle.std.specs.List.{after_first, before_first, position_or_len};
ghost use Rattle.observed_results.specs.Lists.{IsItem, IsWord, first_as, is_single, last_as, number_of};

/// The first and the last word of an item, or None if the item is neither the number of one of this many words nor a
/// range of them.
pub(crate) fn range_of(item: &str, words: u32) -> Option<(u32, u32)>
    ensures range { MatchOption result (IsItem words item.now → ⊥)
        (λ range. IsItem words item.now × (range.0 ≡ first_as (is_single item.now) item.now)
        × (range.1 ≡ last_as (is_single item.now) item.now)) }
    ensures few { MatchOption result (Unit {0}) (λ range. (range.0 ≤ range.1) × (range.1 < words)) }
{
    match item.split_once('-') {
        Some((front, back)) => bounds_of(front, back, words),
        None => {
            let word = word_of(item, words)?;
            Some((word, word))
        }
    }
}

/// The numbers that two texts spell, or None if these are not the numbers of two of this many words, the second not
/// before the first.
fn bounds_of(front: &str, back: &str, words: u32) -> Option<(u32, u32)>
    ensures bounds { MatchOption result (IsWord words front.now → IsWord words back.now
        → number_of front.now ≤ number_of back.now → ⊥)
        (λ range. IsWord words front.now × IsWord words back.now × (range.0 ≤ range.1) × (range.0 ≡ number_of front.now)
        × (range.1 ≡ number_of back.now)) }
{
    let first = word_of(front, words)?;
    let last = word_of(back, words)?;
    if first <= last {
        Some((first, last))
    } else {
        None
    }
}

/// The number that a text spells, or None if it is not that of one of this many words.
fn word_of(text: &str, words: u32) -> Option<u32>
    ensures { MatchOption result (IsWord words text.now → ⊥)
        (λ n. IsWord words text.now × (n ≡ number_of text.now)) }
{
    match text.parse::<u32>() {
        Ok(number) if number < words => Some(number),
        _ => None,
    }
}
