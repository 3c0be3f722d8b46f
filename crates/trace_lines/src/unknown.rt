//! Chosen numbers that are out of range.

use std::fmt::{self, Display, Formatter};

/// A chosen number that is out of range on the machine.
#[derive(Clone, Copy, Debug, PartialEq, Eq, Drop)]
pub enum Unknown {
    /// No processor has this number.
    Processor {
        /// The chosen number.
        number: u8,
        /// How many processors there are.
        processors: u8,
    },
    /// No shared word has this number.
    Word {
        /// The chosen number.
        number: u32,
        /// How many shared words there are.
        words: u32,
    },
}

/// The error in the command line, in the words of its parser.
impl Display for Unknown {
    fn fmt<W: fmt::Write>(&self, f: &mut Formatter<W>) -> fmt::Result {
        match *self {
            Unknown::Processor { number, processors } => {
                let last = processors.saturating_sub(1);
                write!(
                    f,
                    "invalid value '{number}' for '--processor <NUMBER>': {number} is not in 0..={last}, the machine's processors"
                )
            }
            Unknown::Word { number, words } => {
                let last = words.saturating_sub(1);
                write!(
                    f,
                    "invalid value '{number}' for '--word <NUMBER>': {number} is not in 0..={last}, the machine's shared words (--words)"
                )
            }
        }
    }
}
