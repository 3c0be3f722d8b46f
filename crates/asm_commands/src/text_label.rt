//! A label of a text.

use asm_lines::Section;

/// A label of a text, with its value.
#[derive(Clone, Copy, Debug, Drop)]
pub struct TextLabel<'a> {
    /// The name, a piece of the text.
    pub name: &'a [u8],
    /// The section of the label's line.
    pub section: Section,
    /// The address of the section's next byte at that line. In a text that has a meaning it is below 2^32.
    pub address: u64,
}
