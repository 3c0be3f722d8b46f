//! Lists of numbers, such as `0..3,6`.

ghost use Rattle.std.specs.Prelude.{◌≡◌, ◌≤◌, ◌++◌, ℕ, All, IfOk, List, MatchBool, MatchOption, OnOk};
ghost use Rattle.study_command.specs.Lists.{Ascend, IsItem, IsNumber, IsRange, IsSizeList, back_of, first_as};
ghost use Rattle.study_command.specs.Lists.{is_single, items_of, last_as, number_of, numbers_from, numbers_of};
ghost use Rattle.study_command.specs.Lists.{numbers_of_item};

use std::alloc::{AllocError, Global};

/// The numbers of a list, or None if the text is no list of numbers from `low` to `high`. A list has numbers and ranges
/// with commas between them, as `0..3,6`; both ends of a range belong to it. The numbers ascend, so each is there once.
///
/// # Errors
///
/// [`AllocError`] if there is no memory for them.
pub fn size_list(
    alloc: Global,
    list: &str,
    low: u8,
    high: u8,
) -> Result<Option<Vec<u8>>, AllocError>
    ensures { IfOk result (λ found. MatchOption found ((numbers : List ℕ) → IsSizeList low high list.now numbers → ⊥)
        (λ numbers. IsSizeList low high list.now numbers.items)) }
{
    let Some(numbers) = numbers_in(alloc, list, low, high)? else {
        return Ok(None);
    };
    if ascend(numbers.as_slice()) {
        Ok(Some(numbers))
    } else {
        Ok(None)
    }
}

/// Whether each number is less than the next.
fn ascend(numbers: &[u8]) -> bool
    ensures { MatchBool result (Ascend numbers.now) (Ascend numbers.now → ⊥) }
{
    for place in 1..numbers.len() {
        if numbers[place - 1] >= numbers[place] {
            return false;
        }
    }
    true
}

/// The numbers that the items of a list name, or None if one of them is neither a number in the range nor a range.
fn numbers_in(alloc: Global, list: &str, low: u8, high: u8) -> Result<Option<Vec<u8>>, AllocError>
    ensures { IfOk result (λ found. MatchOption found (All (IsItem low high) (items_of list.now) → ⊥)
        (λ numbers. All (IsItem low high) (items_of list.now) × (numbers.items ≡ numbers_of list.now))) }
{
    let mut numbers = Vec::new(alloc);
    let mut rest = list;
    while let Some((item, after)) = rest.split_once(',') {
        if !push_item(&mut numbers, item, low, high)? {
            return Ok(None);
        }
        rest = after;
    }
    if !push_item(&mut numbers, rest, low, high)? {
        return Ok(None);
    }
    Ok(Some(numbers))
}

/// Appends the numbers that an item names, and returns whether it is a number in the range or a range.
fn push_item(numbers: &mut Vec<u8>, item: &str, low: u8, high: u8) -> Result<bool, AllocError>
    ensures { IfOk result (λ is. MatchBool is
        (IsItem low high item.now × (numbers.new.items ≡ numbers.old.items ++ numbers_of_item item.now))
        (IsItem low high item.now → ⊥)) }
{
    match range_of(item, low, high) {
        Some((first, last)) => {
            push_range(numbers, first, last)?;
            Ok(true)
        }
        None => Ok(false),
    }
}

/// Appends the numbers from the first to the last.
fn push_range(numbers: &mut Vec<u8>, first: u8, last: u8) -> Result<(), AllocError>
    requires { first ≤ last }
    ensures { OnOk result (numbers.new.items ≡ numbers.old.items ++ numbers_from first last) }
{
    let count = usize::from(last - first) + 1;
    for offset in 0..count {
        numbers.push(first + offset as u8)?;
    }
    Ok(())
}

/// The first and the last number of an item, or None if it is neither a number from `low` to `high` nor a range of
/// them.
fn range_of(item: &str, low: u8, high: u8) -> Option<(u8, u8)>
    ensures range { MatchOption result (IsItem low high item.now → ⊥)
        (λ range. IsItem low high item.now × (range.0 ≡ first_as (is_single item.now) item.now)
        × (range.1 ≡ last_as (is_single item.now) item.now)) }
    ensures order { MatchOption result (Unit {0}) (λ range. range.0 ≤ range.1) }
{
    match item.split_once('.') {
        Some((front, rest)) => bounds_of(front, rest, low, high),
        None => {
            let number = number_in(item, low, high)?;
            Some((number, number))
        }
    }
}

/// The numbers before and after two dots, of which the second is the first of the rest, or None if these are not two
/// numbers in the range, the second not below the first.
fn bounds_of(front: &str, rest: &str, low: u8, high: u8) -> Option<(u8, u8)>
    ensures { MatchOption result (IsRange low high front.now rest.now → ⊥)
        (λ range. IsRange low high front.now rest.now × (range.0 ≤ range.1) × (range.0 ≡ number_of front.now)
        × (range.1 ≡ number_of (back_of rest.now))) }
{
    let (between, back) = rest.split_once('.')?;
    if !between.is_empty() {
        return None;
    }
    let first = number_in(front, low, high)?;
    let last = number_in(back, low, high)?;
    if first <= last {
        Some((first, last))
    } else {
        None
    }
}

/// The number that a text spells, or None if it is none from `low` to `high`.
fn number_in(text: &str, low: u8, high: u8) -> Option<u8>
    ensures { MatchOption result (IsNumber low high text.now → ⊥)
        (λ n. IsNumber low high text.now × (n ≡ number_of text.now)) }
{
    match text.parse::<u8>() {
        Ok(number) if low <= number && number <= high => Some(number),
        _ => None,
    }
}
