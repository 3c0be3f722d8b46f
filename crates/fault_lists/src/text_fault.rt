//! A fault of a text.

use assembler::AsmFault;
use line_faults::Hint;

/// What is wrong with a line of a text, and where.
#[derive(Clone, Copy, Debug, Drop)]
pub struct TextFault<'a> {
    /// The line, counted from 1.
    pub line: usize,
    /// The column at which the word begins, counted in bytes from 1.
    pub column: usize,
    /// The word at fault, a piece of the line. It is empty if something is missing.
    pub word: &'a [u8],
    /// What is wrong with the line. It is never [`AsmFault::Memory`].
    pub fault: AsmFault,
    /// What would be right.
    pub hint: Hint<'a>,
}
