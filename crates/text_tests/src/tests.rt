//! Texts, with expected images and messages worked out by hand.

mod asm;
mod assembling;
mod course_texts;
mod dis;
mod disassembling;
mod door;
mod fault_texts;
mod formats;
mod lines;
mod listing_faults;
mod printing;
mod symbol_maps;

use assembler::{AsmError, assemble};
use std::alloc::Global;
use std::fmt::Debug;
use std::process::Abort;

/// Fails the test if the two values differ, and prints both and their case ([`assert_same!`]).
fn same<T: PartialEq + Debug, A: Debug>(rt: &impl Abort, found: &T, wanted: &T, at: &A) {
    assert_eq!(rt; found, wanted, "{at:?}");
}

/// The image of a text.
fn image_of(alloc: Global, text: &str) -> Result<Vec<u8>, AsmError> {
    let program = assemble(alloc, text)?;
    program.to_elf(alloc)
}
