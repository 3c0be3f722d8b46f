//! What the lines before leave for the next.

ghost use Rattle.std.specs.Prelude.{◌≤◌, ◌^◌};

use crate::labels::Label;
use asm_lines::Section;
use std::collections::BTreeMap;

/// The section of the next line, the size of each section, and the labels so far. A section may have more bytes than
/// room.
#[derive(Drop)]
pub struct Cursor<'a> {
    /// The section of the next line.
    pub section: Section,
    /// The number of bytes in code.
    pub code: u64,
    /// The number of bytes in local memory.
    pub local: u64,
    /// The number of bytes in shared memory.
    pub shared: u64,
    /// The labels so far. A label that is on several lines has the address of the last.
    pub labels: BTreeMap<&'a [u8], Label>,
    ghost code_small: { code ≤ 2 ^ 62 },
    ghost local_small: { local ≤ 2 ^ 62 },
    ghost shared_small: { shared ≤ 2 ^ 62 },
}
