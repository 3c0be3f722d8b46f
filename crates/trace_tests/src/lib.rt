//! Tests of the commands that show what is in a trace, from its bytes and those of an image to the bytes of the lines;
//! of single lines of a serial order and of a story; of pictures of machines; and of `ultra explain`.
//!
//! They have a crate of their own, so that the crates above these commands need not wait for them.
#![tactic(auto)]

#[cfg(test)]
mod tests;
