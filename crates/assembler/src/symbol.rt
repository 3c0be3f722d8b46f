//! The symbol that a label names.

use asm_lines::Section;

/// A label's section and value: the address of the next byte of the section at the label's line.
#[derive(Clone, Copy, Debug, PartialEq, Eq, Drop)]
pub struct Symbol {
    pub section: Section,
    pub address: u32,
}
