//! The words of a module to which processors refer.

ghost use Rattle.std.specs.Prelude.{◌≡◌, ◌<◌, IfOk, OnOk};
ghost use Rattle.machine_views.specs.Cells.{has_number, is_new, with_word, words_of};

use crate::view::{ProcessorView, SharedWord};
use std::alloc::{AllocError, Global};

/// The words of the module of this number to which processors have open references, each once, in the order of the
/// processors.
pub fn words_of(
    alloc: Global,
    wires: u8,
    number: u8,
    processors: &[ProcessorView],
) -> Result<Vec<SharedWord>, AllocError>
    requires { 0 < wires }
    ensures { IfOk result (λ words. words.items ≡ words_of wires number processors.now) }
{
    let mut words = Vec::new(alloc);
    for processor in processors {
        push_new(wires, number, &mut words, &processor.word)?;
    }
    Ok(words)
}

/// Appends a word if the module of this number has it and it is not there yet.
fn push_new(
    wires: u8,
    number: u8,
    words: &mut Vec<SharedWord>,
    word: &Option<SharedWord>,
) -> Result<(), AllocError>
    requires { 0 < wires }
    ensures { OnOk result (words.new.items ≡ with_word wires number words.old.items word.now) }
{
    match *word {
        Some(word) => {
            if word.number % u32::from(wires) == u32::from(number)
                && is_new(words.as_slice(), word)
            {
                Ok(words.push(word)?)
            } else {
                Ok(())
            }
        }
        None => Ok(()),
    }
}

/// Whether a word is none of these.
fn is_new(words: &[SharedWord], word: SharedWord) -> bool
    ensures { result ≡ is_new words.now word }
{
    !has_number(words, word.number)
}

/// Whether one of these words has this number.
fn has_number(words: &[SharedWord], number: u32) -> bool
    ensures { result ≡ has_number words.now number }
{
    words.iter().any(|word| word.number == number)
}
