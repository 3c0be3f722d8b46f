//! What the words of a case mean for a machine.
//!
//! - Steps: `turn P`, `up S W`, `serve M`, `down S W`, `poke P R V` of register R, or of `pc` as 32,
//!   `poke_local P A V`, `poke_shared A V`.
//! - What they do: `issued`, `moved`, `combined FIRST SECOND`, `served LEADER`, `answered TO`, `answered_two TO TO`,
//!   `answered_three TO TO TO`, `poked`, `stalled`;
//!   `wrote A W V` if the instruction at A, whose word is W, retired and wrote V to a register, `retired A W` if it
//!   wrote none, `printed A W V` if it gave V to the console; `halted V`, `faulted N`.
//! - Further calls: `whole P` takes a whole instruction, `drain` drains at once, `drain_by_steps` drains by the steps
//!   that the machine names; `next` is the step that a drain takes next.
//! - Readers: `pc P`, `register P R`, `status P`, `byte P A`, `word I`, `idle`, and `blank P`, whether all registers
//!   of a processor are 0.

use crate::words::{Words, low, said};
use decode::encode;
use flat_machine::{Cause, Poke, Retired, Status};
use messages::Seconds;
use steps::{Outcome, Step};

/// The step that is asked for.
pub(crate) fn step_of(asked: Words) -> Option<Step> {
    let [a, b, c, _] = asked.numbers;
    match asked.verb {
        "turn" => Some(Step::Turn(low(a))),
        "up" => Some(Step::Up {
            stage: low(a),
            wire: low(b),
        }),
        "serve" => Some(Step::Serve(low(a))),
        "down" => Some(Step::Down {
            stage: low(a),
            wire: low(b),
        }),
        "poke" => Some(Step::Poke(Poke::Register {
            processor: low(a),
            register: low(b),
            value: c,
        })),
        "poke_local" => Some(Step::Poke(Poke::Local {
            processor: low(a),
            address: b,
            value: low(c),
        })),
        "poke_shared" => Some(Step::Poke(Poke::Shared {
            address: a,
            value: low(b),
        })),
        _ => None,
    }
}

/// What a step did.
pub(crate) fn outcome_words(outcome: Outcome) -> Words<'static> {
    match outcome {
        Outcome::Retired(retired) => retired_words(&retired),
        Outcome::Issued => said("issued", [0; 4]),
        Outcome::Stopped(Cause::Halt(byte)) => said("halted", [u32::from(byte), 0, 0, 0]),
        Outcome::Stopped(Cause::Fault(fault)) => {
            said("faulted", [u32::from(fault.number()), 0, 0, 0])
        }
        Outcome::Moved => said("moved", [0; 4]),
        Outcome::Combined { first, second } => {
            said("combined", [u32::from(first), u32::from(second), 0, 0])
        }
        Outcome::Served { leader } => said("served", [u32::from(leader), 0, 0, 0]),
        Outcome::Answered { to } => seconds_words(to),
        Outcome::Poked => said("poked", [0; 4]),
        Outcome::Stalled => said("stalled", [0; 4]),
    }
}

/// The processors that are answered besides a leader.
fn seconds_words(seconds: Seconds) -> Words<'static> {
    match seconds {
        Seconds::One(a) => said("answered", [u32::from(a), 0, 0, 0]),
        Seconds::Two(a, b) => said("answered_two", [u32::from(a), u32::from(b), 0, 0]),
        Seconds::Three(a, b, c) => {
            let numbers = [u32::from(a), u32::from(b), u32::from(c), 0];
            said("answered_three", numbers)
        }
    }
}

/// An instruction that retired.
fn retired_words(retired: &Retired) -> Words<'static> {
    let word = encode(&retired.insn);
    match (retired.out, retired.result) {
        (Some(byte), _) => said("printed", [retired.pc, word, u32::from(byte), 0]),
        (None, Some(result)) => said("wrote", [retired.pc, word, result, 0]),
        (None, None) => said("retired", [retired.pc, word, 0, 0]),
    }
}

/// A number, or none.
pub(crate) fn number_words(number: Option<u32>) -> Words<'static> {
    match number {
        Some(number) => said("is", [number, 0, 0, 0]),
        None => said("none", [0; 4]),
    }
}

/// `yes` or `no`.
pub(crate) fn truth_words(is_so: bool) -> Words<'static> {
    said(if is_so { "yes" } else { "no" }, [0; 4])
}

/// What a processor is doing, or that there is none.
pub(crate) fn status_words(status: Option<Status>) -> Words<'static> {
    match status {
        Some(Status::Running) => said("running", [0; 4]),
        Some(Status::Halted(byte)) => said("halted", [u32::from(byte), 0, 0, 0]),
        Some(Status::Faulted(fault)) => said("faulted", [u32::from(fault.number()), 0, 0, 0]),
        None => said("none", [0; 4]),
    }
}

/// The step that a drain takes next, or that there is none.
pub(crate) fn next_words(step: Option<Step>) -> Words<'static> {
    match step {
        Some(Step::Turn(p)) => said("turn", [u32::from(p), 0, 0, 0]),
        Some(Step::Up { stage, wire }) => said("up", [u32::from(stage), u32::from(wire), 0, 0]),
        Some(Step::Serve(m)) => said("serve", [u32::from(m), 0, 0, 0]),
        Some(Step::Down { stage, wire }) => {
            said("down", [u32::from(stage), u32::from(wire), 0, 0])
        }
        Some(Step::Poke(_)) => said("poke", [0; 4]),
        None => said("none", [0; 4]),
    }
}
