//! Tests of the machine and its runs (`machine_steps`): small programs whose every step is written out, drains, whole
//! instructions, limits and refusals, and long random lists of steps, compared with a plain machine.
//!
//! The tests are a crate of their own, so that crates above the machine need not wait for them.
#![tactic(auto)]

#[cfg(test)]
mod tests;
