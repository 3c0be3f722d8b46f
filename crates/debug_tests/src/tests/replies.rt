//! Breaks at the limits of code, and the replies and errors of commands on small machines. Expected texts are worked
//! out by hand.

mod breaking;
mod errors;
mod replies;
mod stops;

use flat_machine::{Config, Poke};
use machine_steps::Machine;
use std::alloc::Global;
use std::process::Abort;
use std::test::Fail;
use steps::{Outcome, Step};
use test_support::{assert_same, machine_of};

/// A machine of two processors with two shared words. Code is `ebreak`, a word that is no instruction, and `ecall`;
/// local memory begins with two bytes, shared memory with `2A 00 00 80`.
fn two(alloc: Global) -> Result<Machine, Fail> {
    let config = Config {
        k: 1,
        c: 2,
        b: 0,
        r: 1,
        shared_words: 2,
    };
    let text = "ebreak
 .byte 0xC7, 0, 0, 0, 0x73
 .local
 .byte 1, 0xF0
 .shared
 .byte 0x2A, 0, 0, 0x80
";
    machine_of(alloc, text, config)
}

/// Takes a poke.
fn poke(rt: &impl Abort, machine: &mut Machine, poke: Poke) {
    assert_same!(rt; machine.apply(Step::Poke(poke)), Outcome::Poked);
}

/// Takes a turn, which stops the processor.
fn stop(rt: &impl Abort, machine: &mut Machine, processor: u8) {
    let outcome = machine.apply(Step::Turn(processor));
    assert!(rt; matches!(outcome, Outcome::Stopped { .. }), "{outcome:?}");
}
