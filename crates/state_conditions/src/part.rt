//! The parts of a condition.

ghost use Rattle.std.specs.Prelude.{◌≡◌};
ghost use Rattle.state_conditions.specs.Texts.{any_part, comparison_of, part_in, place_subject, relation_in};
ghost use Rattle.state_conditions.specs.Texts.{status_subject, subject_of, word_subject, words_of};

use crate::condition::{Comparison, Group, Relation, Subject};
use crate::names::word_number;
use crate::number::{number_in, range_in};
use crate::words::next_word;
use symbol_table::SymbolTable;

/// The part that a text spells, for a machine with this many shared words.
pub(crate) fn part_of(
    text: &str,
    shared_words: u32,
    names: &Option<SymbolTable<'_>>,
) -> Option<Comparison>
    ensures { result ≡ part_in names.now shared_words (words_of text.now) }
{
    let (first, rest) = next_word(text)?;
    let (second, rest) = next_word(rest)?;
    let Some((third, rest)) = next_word(rest) else {
        return any_part(first, second);
    };
    let Some((fourth, rest)) = next_word(rest) else {
        return comparison_of(status_subject(first), second, third);
    };
    match next_word(rest) {
        Some(_) => None,
        None => comparison_of(
            subject_of(first, second, shared_words, names),
            third,
            fourth,
        ),
    }
}

/// The part `any fault`.
fn any_part(first: &str, second: &str) -> Option<Comparison>
    ensures { result ≡ any_part first.now second.now }
{
    if first == "any" && second == "fault" {
        Some(Comparison {
            subject: Subject::Count(Group::Faulted),
            relation: Relation::Greater,
            value: 0,
        })
    } else {
        None
    }
}

/// The part that compares a subject with a value, if each of the three is right.
fn comparison_of(subject: Option<Subject>, relation: &str, value: &str) -> Option<Comparison>
    ensures { result ≡ comparison_of subject relation.now value.now }
{
    let subject = subject?;
    let relation = relation_in(relation)?;
    let value = number_in(value)?;
    Some(Comparison {
        subject,
        relation,
        value,
    })
}

/// The relation that a text names.
fn relation_in(text: &str) -> Option<Relation>
    ensures { result ≡ relation_in text.now }
{
    if text == "==" {
        Some(Relation::Equal)
    } else if text == "!=" {
        Some(Relation::NotEqual)
    } else if text == "<" {
        Some(Relation::Less)
    } else if text == "<=" {
        Some(Relation::AtMost)
    } else if text == ">" {
        Some(Relation::Greater)
    } else if text == ">=" {
        Some(Relation::AtLeast)
    } else {
        None
    }
}

/// The subject that counts processors of a status.
fn status_subject(text: &str) -> Option<Subject>
    ensures { result ≡ status_subject text.now }
{
    if text == "running" {
        Some(Subject::Count(Group::Running))
    } else if text == "halted" {
        Some(Subject::Count(Group::Halted))
    } else if text == "faulted" {
        Some(Subject::Count(Group::Faulted))
    } else {
        None
    }
}

/// The subject of two words: a shared word, or the processors at a place.
fn subject_of(
    kind: &str,
    object: &str,
    shared_words: u32,
    names: &Option<SymbolTable<'_>>,
) -> Option<Subject>
    ensures { result ≡ subject_of names.now shared_words kind.now object.now }
{
    if kind == "word" {
        word_subject(object, shared_words, names)
    } else if kind == "at" {
        place_subject(object, names)
    } else {
        None
    }
}

/// The shared word of a number or a name, if there is such a word.
fn word_subject(text: &str, shared_words: u32, names: &Option<SymbolTable<'_>>) -> Option<Subject>
    ensures { result ≡ word_subject names.now shared_words text.now }
{
    let word = word_number(text, names)?;
    if word < shared_words {
        Some(Subject::Word(word))
    } else {
        None
    }
}

/// The processors at an address or in a range of addresses.
fn place_subject(text: &str, names: &Option<SymbolTable<'_>>) -> Option<Subject>
    ensures { result ≡ place_subject names.now text.now }
{
    let (first, last) = range_in(text, names)?;
    Some(Subject::Count(Group::At { first, last }))
}
