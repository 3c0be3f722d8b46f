//! Tests of the parts of a processor and of a memory module: the table of instructions and the decoder, functions of
//! words, results of instructions, local memory and code, turns and local instructions of a core, modules, ports, and
//! the state in which a machine starts.
//!
//! The tests are a crate of their own, so that crates above these parts need not wait for them.
#![tactic(auto)]

#[cfg(test)]
mod tests;
