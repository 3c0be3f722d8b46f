//! Advice on what would be right.

use crate::shape::Wanted;
use asm_lines::Section;

/// What would be right in place of the word at fault.
#[derive(Clone, Copy, Debug, Drop)]
pub enum Hint<'a> {
    /// There is no such instruction or directive.
    NoWord,
    /// This instruction or directive is written almost the same.
    NearWord(&'static str),
    /// This does what the word does in other assemblers.
    Instead(&'static str),
    /// Other assemblers have the word; here nothing is needed, for this reason.
    NotNeeded(&'static str),
    /// This is not how a label's name is written.
    LabelName,
    /// A label ends with a colon.
    Colon,
    /// The operands are these.
    Operands(&'static str),
    /// A comma is missing; the operands are these.
    Comma(&'static str),
    /// There is no operand here.
    NoOperand,
    /// This is wanted here.
    Wants(Wanted),
    /// A bracket is missing.
    Bracket,
    /// The number is out of range.
    OutOfRange(Wanted),
    /// The number is a word, and these are its upper 20 bits.
    UpperBits(u64),
    /// Instructions belong only in code.
    OutsideCode,
    /// The line has this address, which is not divisible by 4.
    Unaligned(u64),
    /// The distance of a target must be even.
    Odd,
    /// The target is this many bytes away.
    Far(u64, Wanted),
    /// The label is already on this line, counted from 1.
    StandsOn(usize),
    /// There is no such label.
    NoLabel,
    /// This label is written almost the same.
    NearLabel(&'a [u8]),
    /// The section has room for `room` bytes, and has `taken` bytes so far.
    Full {
        section: Section,
        room: u32,
        taken: u64,
    },
}
