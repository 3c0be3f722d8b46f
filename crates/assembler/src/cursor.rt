//! The state of the first pass.

ghost use Rattle.std.specs.Prelude.{◌≤◌};

use crate::symbol::Symbol;
use asm_lines::Section;
use std::collections::BTreeMap;

/// A line at its place.
#[derive(Debug, Drop)]
pub struct LineAt<'a> {
    pub section: Section,
    /// The address of the section's next byte.
    pub address: u32,
    pub line: &'a [u8],
}

/// The place of the next line: its section, how many bytes each section has, and the labels so far.
#[derive(Drop)]
pub struct Cursor<'a> {
    pub section: Section,
    pub code: u32,
    pub local: u32,
    pub shared: u32,
    pub labels: BTreeMap<&'a [u8], Symbol>,
    ghost code_fits: { code ≤ 65536 },
    ghost local_fits: { local ≤ 65536 },
    ghost shared_fits: { shared ≤ 786432 },
}
