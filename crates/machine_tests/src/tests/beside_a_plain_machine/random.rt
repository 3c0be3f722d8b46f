//! The machine takes lists of random steps, half of which name no place. A plain machine then takes whole instructions
//! in the serial order that the outcomes give.

use super::plain::{Plain, program};
use super::{A0, A1, A2};
use flat_machine::{CODE_START, Config, PC, Poke, SHARED_START};
use machine_steps::Machine;
use std::alloc::{AllocError, AllocGlobal, Global};
use std::process::Abort;
use std::test::Fail;
use steps::Step;
use test_support::{Program, Shown, Watched, assert_same};

/// How many lists are run for each configuration, and how many steps each has.
const LISTS: u32 = 42;

const STEPS: u32 = 10_000;

/// Random numbers: Marsaglia's xorshift of 32 bits.
#[derive(Clone, Copy, Drop)]
struct Random {
    state: u32,
}

impl Random {
    fn next(&mut self) -> u32 {
        self.state ^= self.state << 13;
        self.state ^= self.state >> 17;
        self.state ^= self.state << 5;
        self.state
    }
}

/// A write of a register, or of `pc`.
fn register(processor: u8, register: u8, value: u32) -> Poke {
    Poke::Register {
        processor,
        register,
        value,
    }
}

/// A random step. On a machine of this many stages, half of all steps name a place.
fn random_step(random: &mut Random, k: u8) -> Step {
    let value = random.next();
    let [kind, a, b, c] = random.next().to_le_bytes();
    let wires = [1, 2, 4, 8][usize::from(k & 3)];
    let stage = if k == 0 { 0 } else { b % k };
    if c % 2 == 0 {
        lost_step(kind, a | 8, stage, k.wrapping_add(b % 4), wires, value)
    } else {
        found_step(kind, a % wires, stage, value)
    }
}

/// A step that names a place, with this number and, if the machine has stages, this stage.
fn found_step(kind: u8, number: u8, stage: u8, value: u32) -> Step {
    match kind % 16 {
        0..4 => Step::Turn(number),
        4..9 => Step::Up {
            stage,
            wire: number,
        },
        9..11 => Step::Serve(number),
        11..15 => Step::Down {
            stage,
            wire: number,
        },
        _ => match value % 3 {
            0 => Step::Poke(register(number, A1, value)),
            1 => Step::Poke(register(number, PC, CODE_START + 4 * (value % 18))),
            _ => {
                let [low, value, _, _] = value.to_le_bytes();
                let address = SHARED_START + u32::from(low % 16);
                Step::Poke(Poke::Shared { address, value })
            }
        },
    }
}

/// A step that names no place: its number or its stage is too high, or its poke has no target.
fn lost_step(kind: u8, number: u8, stage: u8, high_stage: u8, wires: u8, value: u32) -> Step {
    match kind % 8 {
        0 => Step::Turn(number),
        1 => Step::Turn(wires),
        2 => Step::Up {
            stage: high_stage,
            wire: 0,
        },
        3 => Step::Up {
            stage,
            wire: number,
        },
        4 => Step::Serve(number),
        5 => Step::Down {
            stage: high_stage,
            wire: 0,
        },
        6 => Step::Down {
            stage,
            wire: number,
        },
        _ => Step::Poke(register(number, A1, value)),
    }
}

/// A machine that runs the program.
fn opened(alloc: Global, config: Config) -> Result<Watched, Fail> {
    let words = program(alloc)?;
    let program = Program {
        entry: CODE_START,
        code: words.as_slice(),
        local: &[],
        shared: &[],
    };
    Ok(Watched::new(alloc, program.machine(alloc, config)?))
}

/// Puts each processor at a random place of the program, with random operands.
fn place_processors(
    rt: &(impl Abort + AllocGlobal),
    watched: &mut Watched,
    random: &mut Random,
    k: u8,
) -> Result<(), Fail> {
    for p in 0..1u8 << (k & 3) {
        let a1 = random.next() >> (random.next() % 32);
        let a2 = SHARED_START + 8 * (random.next() % 2);
        let pc = CODE_START + 4 * (random.next() % 18);
        write(rt, watched, register(p, A1, a1))?;
        write(rt, watched, register(p, A2, a2))?;
        write(rt, watched, register(p, PC, pc))?;
    }
    Ok(())
}

/// Takes a poke.
fn write(rt: &(impl Abort + AllocGlobal), watched: &mut Watched, poke: Poke) -> Result<(), Fail> {
    assert_same!(rt; watched.apply(Step::Poke(poke))?.verb, "poked");
    Ok(())
}

/// The instructions that retired on a processor.
fn on_processor(alloc: Global, shown: &[Shown], p: u8) -> Result<Vec<Shown>, AllocError> {
    let mut found = Vec::new(alloc);
    for one in shown {
        if one.processor == p {
            found.push(*one)?;
        }
    }
    Ok(found)
}

/// Lets the plain machine take the serial order. Each processor must show what it showed on the machine, and both
/// machines must end in the same state.
fn compare(rt: &(impl Abort + AllocGlobal), watched: &Watched) -> Result<(), Fail> {
    let mut plain = Plain::new();
    let mut shown = Vec::new(rt.alloc());
    for entry in &watched.order {
        if let Some(one) = plain.take(*entry) {
            shown.push(one)?;
        }
    }
    compare_ends(rt, &watched.machine, &plain);
    compare_shown(rt, watched.retired.as_slice(), shown.as_slice())
}

/// Checks that the same instructions have retired on each processor, in the same order.
fn compare_shown(
    rt: &(impl Abort + AllocGlobal),
    found: &[Shown],
    wanted: &[Shown],
) -> Result<(), Fail> {
    for p in 0..8u8 {
        let found = on_processor(rt.alloc(), found, p)?;
        let wanted = on_processor(rt.alloc(), wanted, p)?;
        assert_same!(rt; found.as_slice(), wanted.as_slice(), p);
    }
    Ok(())
}

/// Checks that both machines are in the same state.
fn compare_ends(rt: &impl Abort, machine: &Machine, plain: &Plain) {
    for p in 0..1u8 << (machine.config().k & 3) {
        let wanted = plain.processors[usize::from(p & 7)];
        let wanted = [wanted.pc, wanted.a0, wanted.a1, wanted.a2].map(Some);
        assert_same!(rt; values_of(machine, p), wanted, p);
    }
    for (number, word) in [0, 1, 2, 3].iter().zip(&plain.words) {
        assert_same!(rt; machine.word(*number), Some(*word), number);
    }
}

/// The state of a processor of the machine, as far as the plain machine has it.
fn values_of(machine: &Machine, p: u8) -> [Option<u32>; 4] {
    [
        machine.pc(p),
        machine.reg(p, A0),
        machine.reg(p, A1),
        machine.reg(p, A2),
    ]
}

/// Runs one list of random steps, drains the machine, and compares it with the plain one. Returns whether requests were
/// combined.
fn run_list(
    rt: &(impl Abort + AllocGlobal),
    random: &mut Random,
    config: Config,
) -> Result<bool, Fail> {
    let mut watched = opened(rt.alloc(), config)?;
    run_list_on(rt, &mut watched, random, config.k)
}

fn run_list_on(
    rt: &(impl Abort + AllocGlobal),
    watched: &mut Watched,
    random: &mut Random,
    k: u8,
) -> Result<bool, Fail> {
    place_processors(rt, watched, random, k)?;
    let has_combined = take_steps(watched, random, k)?;
    watched.drain_by_steps()?;
    assert!(rt; watched.machine.is_idle());
    compare(rt, watched)?;
    Ok(has_combined)
}

/// Takes random steps. Returns whether requests were combined.
fn take_steps(watched: &mut Watched, random: &mut Random, k: u8) -> Result<bool, AllocError> {
    let mut has_combined = false;
    for _ in 0..STEPS {
        let step = random_step(random, k);
        has_combined |= watched.apply(step)?.verb == "combined";
    }
    Ok(has_combined)
}

/// Runs the lists on machines of this many stages, with wait buffers of 0, 1 and 4 records, that combine an entry of a
/// queue up to once, twice and three times. Requests are combined exactly if there is a switch with a record.
fn run_lists(rt: &(impl Abort + AllocGlobal), k: u8, seed: u32) -> Result<(), Fail> {
    let mut random = Random { state: seed };
    for (b, r) in [(0, 1), (1, 1), (1, 2), (4, 1), (4, 2), (4, 3)] {
        let config = Config {
            k,
            c: 2 + b,
            b,
            r,
            shared_words: 4,
        };
        let mut has_combined = false;
        for _ in 0..LISTS {
            has_combined |= run_list(rt, &mut random, config)?;
        }
        assert_same!(rt; has_combined, k > 0 && b > 0, config);
    }
    Ok(())
}

#[test]
fn random_steps_on_one_processor(rt: HostRuntime) -> Result<(), Fail> {
    run_lists(&rt, 0, 1)
}

#[test]
fn random_steps_on_two_processors(rt: HostRuntime) -> Result<(), Fail> {
    run_lists(&rt, 1, 20)
}

#[test]
fn random_steps_on_four_processors(rt: HostRuntime) -> Result<(), Fail> {
    run_lists(&rt, 2, 300)
}

#[test]
fn random_steps_on_eight_processors(rt: HostRuntime) -> Result<(), Fail> {
    run_lists(&rt, 3, 4_000)
}
