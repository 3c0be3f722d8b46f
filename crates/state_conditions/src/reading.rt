//! The text of a condition.

ghost use Rattle.std.specs.Prelude.{◌≡◌, IfOk};
ghost use Rattle.state_conditions.specs.Texts.{condition_in, conjunction_in};

use crate::condition::{Condition, Conjunction};
use crate::part::part_of;
use std::alloc::{AllocError, Global};
use symbol_table::SymbolTable;

impl Condition {
    /// The condition that a text spells, for a machine with this many shared words; None if it spells none.
    ///
    /// A text has alternatives with `|` between them, each of parts with `&` between them. A part is `word N RELATION
    /// NUMBER`, `at PLACE RELATION NUMBER`, `running RELATION NUMBER`, the same with `halted` or `faulted`, or `any
    /// fault`. RELATION is one of `==`, `!=`, `<`, `<=`, `>`, `>=`. A number is in decimal digits, or in hex digits
    /// after `0x`. PLACE is an address, or the first and the last of a range with a hyphen between them. One
    /// of these names, or `NAME+NUMBER`, can stand for its address, and for the number N of the shared word there.
    ///
    /// # Errors
    ///
    /// [`AllocError`] if there is no memory for the condition.
    pub fn of_text(
        alloc: Global,
        text: &str,
        shared_words: u32,
        names: &Option<SymbolTable<'_>>,
    ) -> Result<Option<Self>, AllocError>
        ensures { IfOk result (λ condition. condition ≡ condition_in names.now shared_words text.now) }
    {
        let mut alternatives = Vec::new(alloc);
        let mut rest = text;
        while let Some((alternative, after)) = rest.split_once('|') {
            let Some(conjunction) = conjunction_of(alloc, alternative, shared_words, names)? else {
                return Ok(None);
            };
            alternatives.push(conjunction)?;
            rest = after;
        }
        let Some(conjunction) = conjunction_of(alloc, rest, shared_words, names)? else {
            return Ok(None);
        };
        alternatives.push(conjunction)?;
        Ok(Some(Condition { alternatives }))
    }
}

/// The parts that a text spells.
fn conjunction_of(
    alloc: Global,
    text: &str,
    shared_words: u32,
    names: &Option<SymbolTable<'_>>,
) -> Result<Option<Conjunction>, AllocError>
    ensures { IfOk result (λ conjunction. conjunction ≡ conjunction_in names.now shared_words text.now) }
{
    let mut parts = Vec::new(alloc);
    let mut rest = text;
    while let Some((part, after)) = rest.split_once('&') {
        let Some(comparison) = part_of(part, shared_words, names) else {
            return Ok(None);
        };
        parts.push(comparison)?;
        rest = after;
    }
    let Some(comparison) = part_of(rest, shared_words, names) else {
        return Ok(None);
    };
    parts.push(comparison)?;
    Ok(Some(Conjunction { parts }))
}
