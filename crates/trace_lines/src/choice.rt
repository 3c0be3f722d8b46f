//! Choices of lines.

ghost use Rattle.std.specs.Prelude.{◌≡◌};
ghost use Rattle.trace_lines.specs.Choices.{is_chosen, is_from, is_in_range, is_up_to, takes, unknown_of};
ghost use Rattle.trace_lines.specs.Choices.{unknown_processor, unknown_word};
ghost use Rattle.trace_lines.specs.StoryLines.{is_kind_chosen};

use crate::unknown::Unknown;
use steps::Step;

/// A choice of the lines of a serial order or of a story: those of one processor, those about one shared word, those of
/// the network, those with numbers in a range. A line has to meet all conditions that are given.
#[derive(Clone, Copy, Debug, PartialEq, Eq, Drop)]
pub struct Choice {
    /// The processor, if one is chosen.
    pub processor: Option<u8>,
    /// The number of the shared word, if one is chosen.
    pub word: Option<u32>,
    /// The number of the first line, if one is chosen.
    pub from: Option<u32>,
    /// The number of the last line, if one is chosen.
    pub to: Option<u32>,
    /// Whether only moves and services are chosen. An order has none of them.
    pub network: bool,
}

impl Choice {
    /// The chosen number that is out of range on a machine of this many processors and shared words; of two, the
    /// processor's.
    pub fn unknown(&self, processors: u8, words: u32) -> Option<Unknown>
        ensures { result ≡ unknown_of self.now processors words }
    {
        match unknown_processor(self.processor, processors) {
            Some(unknown) => Some(unknown),
            None => unknown_word(self.word, words),
        }
    }

    /// Whether the number of a line is in the chosen range, both ends included.
    pub(crate) fn is_in_range(&self, number: usize) -> bool
        ensures { result ≡ is_in_range self.now number }
    {
        is_from(self.from, number) && is_up_to(self.to, number)
    }

    /// Whether the choice includes steps of this kind.
    pub(crate) fn takes_kind(&self, step: &Step) -> bool
        ensures { result ≡ is_kind_chosen self.now step.now }
    {
        !self.network || step.is_network()
    }

    /// Whether the choice includes the line of an order with this number, of this processor, that is about this shared
    /// word.
    #[tactic(auto, unfolding(crate::specs::Choices::takes))]
    pub fn takes(&self, number: usize, processor: Option<u8>, word: Option<u32>) -> bool
        ensures { result ≡ takes self.now number processor word }
    {
        !self.network
            && self.is_in_range(number)
            && is_processor(self.processor, processor)
            && is_word(self.word, word)
    }
}

/// Whether a number is at least the first that is chosen; true if none is.
fn is_from(first: Option<u32>, number: usize) -> bool
    ensures { result ≡ is_from first number }
{
    match first {
        None => true,
        Some(first) => first as usize <= number,
    }
}

/// Whether a number is at most the last that is chosen; true if none is.
fn is_up_to(last: Option<u32>, number: usize) -> bool
    ensures { result ≡ is_up_to last number }
{
    match last {
        None => true,
        Some(last) => number <= last as usize,
    }
}

/// Whether the processor is the chosen one; true if none is chosen.
fn is_processor(chosen: Option<u8>, there: Option<u8>) -> bool
    ensures { result ≡ is_chosen chosen there }
{
    match (chosen, there) {
        (None, _) => true,
        (Some(_), None) => false,
        (Some(chosen), Some(there)) => chosen == there,
    }
}

/// Whether the word is the chosen one; true if none is chosen.
pub(crate) fn is_word(chosen: Option<u32>, there: Option<u32>) -> bool
    ensures { result ≡ is_chosen chosen there }
{
    match (chosen, there) {
        (None, _) => true,
        (Some(_), None) => false,
        (Some(chosen), Some(there)) => chosen == there,
    }
}

/// The chosen processor, if a machine of this many does not have it.
fn unknown_processor(chosen: Option<u8>, processors: u8) -> Option<Unknown>
    ensures { result ≡ unknown_processor chosen processors }
{
    match chosen {
        Some(number) if number >= processors => Some(Unknown::Processor { number, processors }),
        _ => None,
    }
}

/// The chosen shared word, if a machine of this many does not have it.
fn unknown_word(chosen: Option<u32>, words: u32) -> Option<Unknown>
    ensures { result ≡ unknown_word chosen words }
{
    match chosen {
        Some(number) if number >= words => Some(Unknown::Word { number, words }),
        _ => None,
    }
}
