//! Adds to one word, and the steps in which four of them combine.

use crate::openings::{log_of, machine_of};
use flat_machine::{CODE_START, Config, Poke, Retired, SHARED_START};
use machine_log::Logged;
use machine_steps::Machine;
use messages::Seconds;
use rv_table::{AmoOp, Insn, Register};
use std::alloc::{AllocError, Global};
use std::test::Fail;
use steps::{Outcome, Step};

/// A write of a register.
fn register(processor: u8, register: u8, value: u32) -> Step {
    Step::Poke(Poke::Register {
        processor,
        register,
        value,
    })
}

/// Pokes that put this byte into word 0, and for each of these processors its addend into `a1` and the word's address
/// into `a2`.
///
/// # Errors
///
/// [`AllocError`] if there is no memory for them.
pub fn add_pokes(alloc: Global, word: u8, addends: &[(u8, u32)]) -> Result<Vec<Step>, AllocError> {
    let word = Poke::Shared {
        address: SHARED_START,
        value: word,
    };
    let mut pokes = Vec::from_slice(alloc, &[Step::Poke(word)])?;
    for (p, addend) in addends {
        pokes.extend_from_slice(&[register(*p, 11, *addend), register(*p, 12, SHARED_START)])?;
    }
    Ok(pokes)
}

/// Fails if the step did anything but what it should.
fn expect(step: Step, found: Outcome, wanted: Outcome) -> Result<(), Fail> {
    if found == wanted {
        return Ok(());
    }
    Err(Fail::new(format_args!("{step:?}: {found:?}, and not {wanted:?}")))
}

/// Takes these pokes.
fn poke_all(machine: &mut Machine, pokes: &[Step]) -> Result<(), Fail> {
    for poke in pokes {
        expect(*poke, machine.apply(*poke), Outcome::Poked)?;
    }
    Ok(())
}

/// Takes and enters a step. Fails if it has another outcome than this.
fn enter(log: &mut Logged, step: Step, wanted: Outcome) -> Result<(), Fail> {
    match log.step(step) {
        Ok(found) => expect(step, found, wanted),
        Err(refusal) => Err(Fail::from(refusal)),
    }
}

/// Takes and enters these pokes.
fn enter_pokes(log: &mut Logged, pokes: &[Step]) -> Result<(), Fail> {
    for poke in pokes {
        enter(log, *poke, Outcome::Poked)?;
    }
    Ok(())
}

/// Takes and enters this many pokes of one shared byte.
///
/// # Errors
///
/// If a poke stalls, or is refused.
pub fn poke_often(log: &mut Logged, count: u32) -> Result<(), Fail> {
    for number in 0..count {
        let poke = Poke::Shared {
            address: SHARED_START + 8,
            value: (number % 251) as u8,
        };
        enter(log, Step::Poke(poke), Outcome::Poked)?;
    }
    Ok(())
}

/// The machine of a text, after the pokes of [`add_pokes`].
///
/// # Errors
///
/// Those of [`machine_of`], and if a poke stalls.
pub fn adders(
    alloc: Global,
    text: &str,
    config: Config,
    word: u8,
    addends: &[(u8, u32)],
) -> Result<Machine, Fail> {
    let pokes = add_pokes(alloc, word, addends)?;
    let mut machine = machine_of(alloc, text, config)?;
    poke_all(&mut machine, pokes.as_slice())?;
    Ok(machine)
}

/// The log of a text, whose steps are the pokes of [`add_pokes`].
///
/// # Errors
///
/// Those of [`log_of`], and if a poke stalls or is refused.
pub fn adders_log(
    alloc: Global,
    text: &str,
    config: Config,
    word: u8,
    addends: &[(u8, u32)],
) -> Result<Logged, Fail> {
    let pokes = add_pokes(alloc, word, addends)?;
    let mut log = log_of(alloc, text, config)?;
    enter_pokes(&mut log, pokes.as_slice())?;
    Ok(log)
}

/// Four processors that add 1, 2, 4 and 8 to word 0, which is 10.
pub static FOUR_ADDENDS: [(u8, u32); 4] = [(0, 1), (1, 2), (2, 4), (3, 8)];

/// The steps of these four adds: two pairs combine, and then the pairs do.
pub static COMBINED_ADDS: [Step; 18] = [
    Step::Turn(0),
    Step::Turn(1),
    Step::Turn(2),
    Step::Turn(3),
    Step::Up { stage: 0, wire: 0 },
    Step::Up { stage: 0, wire: 2 },
    Step::Up { stage: 0, wire: 1 },
    Step::Up { stage: 0, wire: 3 },
    Step::Up { stage: 1, wire: 0 },
    Step::Up { stage: 1, wire: 2 },
    Step::Serve(0),
    Step::Down { stage: 1, wire: 0 },
    Step::Down { stage: 0, wire: 0 },
    Step::Down { stage: 0, wire: 2 },
    Step::Turn(0),
    Step::Turn(1),
    Step::Turn(2),
    Step::Turn(3),
];

/// What the step at this place of [`COMBINED_ADDS`] does: the requests are sent and combine, one service answers all,
/// and each processor finds what those before it in the order 0, 2, 1, 3 left.
pub fn combined_add(place: usize) -> Outcome {
    match place {
        0..=3 => Outcome::Issued,
        5 => meeting(0, 2),
        7 => meeting(1, 3),
        9 => meeting(0, 1),
        10 => Outcome::Served { leader: 0 },
        11 => answering(1),
        12 => answering(2),
        13 => answering(3),
        14 => Outcome::Retired(add_that_found(10)),
        15 => Outcome::Retired(add_that_found(15)),
        16 => Outcome::Retired(add_that_found(11)),
        17 => Outcome::Retired(add_that_found(17)),
        _ => Outcome::Moved,
    }
}

/// Takes and enters the first of [`COMBINED_ADDS`], this many of them.
///
/// # Errors
///
/// If a step does anything but its [`combined_add`], or is refused.
pub fn enter_adds(log: &mut Logged, count: usize) -> Result<(), Fail> {
    for (place, step) in COMBINED_ADDS.iter().enumerate().take(count) {
        enter(log, *step, combined_add(place))?;
    }
    Ok(())
}

fn meeting(first: u8, second: u8) -> Outcome {
    Outcome::Combined { first, second }
}

fn answering(second: u8) -> Outcome {
    Outcome::Answered {
        to: Seconds::One(second),
    }
}

/// The retirement of `amoadd.w a0, a1, (a2)` at the first address of code, after it found this word.
pub fn add_that_found(word: u32) -> Retired {
    Retired {
        pc: CODE_START,
        insn: Insn::Amo {
            op: AmoOp::Add,
            rd: Register::new(10),
            rs1: Register::new(12),
            rs2: Register::new(11),
            aq: false,
            rl: false,
        },
        result: Some(word),
        out: None,
    }
}
