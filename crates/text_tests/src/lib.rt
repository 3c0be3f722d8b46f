//! Tests of texts: lines of the assembly language, the images of texts and their disassembly, the list of a text's
//! faults, and what all commands print.
//!
//! The tests are a crate of their own, so that crates above these parts need not wait for them.
#![tactic(auto)]

#[cfg(test)]
mod tests;
