//! Cases: a machine, what it is asked, and what it has to answer.

use crate::case_programs::Program;
use crate::case_words::{next_words, number_words, status_words, step_of, truth_words};
use crate::watched::Watched;
use crate::words::{Words, asked_and_wanted, low, read_words, said};
use flat_machine::{Config, Entry, Poke, SHARED_START};
use machine_steps::Machine;
use std::alloc::{AllocError, Global};
use std::fmt::Debug;
use std::test::Fail;
use steps::{Outcome, Step};

/// The registers `a0` and `a1`.
const A0: u8 = 10;

const A1: u8 = 11;

/// A machine, what it is asked, and what it has to answer. The texts consist of words: a verb and numbers, with commas
/// between calls (`words.rt`).
#[derive(Clone, Copy, Drop)]
pub struct Case {
    /// What the case shows.
    pub name: &'static str,
    /// `machine`, and its `k`, `c`, `b` and number of shared words. Its `r` is 1; with `machine_2` it is 2, and with
    /// `machine_3` it is 3.
    pub machine: &'static str,
    /// The program that it opens on.
    pub program: &'static Program<'static>,
    /// What is poked before all else. Besides the pokes of steps, `word I V` writes shared word I, byte by byte.
    pub pokes: &'static [&'static str],
    /// Lines of what is asked. After a colon comes the answer that each call of the line has to have. If a step stalls,
    /// nothing that is seen of the machine may change.
    pub calls: &'static [&'static str],
    /// The serial order that the outcomes of all steps give, as turns and pokes. A drain at once gives no outcomes.
    pub order: &'static str,
}

/// Runs each of these cases.
///
/// # Errors
///
/// If an answer is not the wanted one (the first is reported), if a case cannot be read, and if out of memory.
pub fn check(alloc: Global, cases: &[Case]) -> Result<(), Fail> {
    for case in cases {
        run(alloc, case)?;
    }
    Ok(())
}

/// Runs each of these cases, which consist of steps and of calls that change nothing. Then another machine lists the
/// serial order of the same steps, and has to end as the one that took them one by one.
///
/// # Errors
///
/// Those of [`check`].
pub fn check_orders(alloc: Global, cases: &[Case]) -> Result<(), Fail> {
    for case in cases {
        run_both_ways(alloc, case)?;
    }
    Ok(())
}

/// Fails if the two differ, with both and their case.
fn same<T: PartialEq + Debug, A: Debug>(found: &T, wanted: &T, at: &A) -> Result<(), Fail> {
    if found == wanted {
        return Ok(());
    }
    Err(Fail::new(format_args!("{at:?}: {found:?}, and not {wanted:?}")))
}

fn run_both_ways(alloc: Global, case: &Case) -> Result<(), Fail> {
    let wanted = run(alloc, case)?;
    let found = run_as_list(alloc, case)?;
    same(&found.as_slice(), &wanted.as_slice(), &case.name)
}

/// Runs a case. Returns what is seen of the machine at its end.
fn run(alloc: Global, case: &Case) -> Result<Vec<Words<'static>>, Fail> {
    let mut watched = Watched::new(alloc, opened(alloc, case)?);
    ask_all(alloc, &mut watched, case)?;
    Ok(seen(alloc, &watched.machine)?)
}

fn ask_all(alloc: Global, watched: &mut Watched, case: &Case) -> Result<(), Fail> {
    for lines in case.calls {
        run_lines(alloc, watched, case.name, lines)?;
    }
    expect_order(alloc, case, watched.order.as_slice())
}

fn expect_order(alloc: Global, case: &Case, found: &[Entry]) -> Result<(), Fail> {
    let wanted = entries_of(alloc, case.order)?;
    same(&found, &wanted.as_slice(), &case.name)
}

/// The machine of a case, idle, after its pokes.
fn opened(alloc: Global, case: &Case) -> Result<Machine, Fail> {
    let mut machine = case.program.machine(alloc, config_of(case.machine)?)?;
    prepare(&mut machine, case)?;
    Ok(machine)
}

fn config_of(text: &str) -> Result<Config, Fail> {
    let asked = read_words(text)?;
    let [k, c, b, shared_words] = asked.numbers;
    let r = match asked.verb {
        "machine_2" => 2,
        "machine_3" => 3,
        _ => 1,
    };
    Ok(Config {
        k: low(k),
        c: low(c),
        b: low(b),
        r,
        shared_words,
    })
}

/// Checks that the machine is the opening of a case, and gives it the case's pokes.
fn prepare(machine: &mut Machine, case: &Case) -> Result<(), Fail> {
    let config = config_of(case.machine)?;
    let name = case.name;
    same(&machine.config(), &config, &name)?;
    same(&machine.image().layout().entry, &case.program.entry, &name)?;
    same(&machine.image().shared_words(), &config.shared_words, &name)?;
    for calls in case.pokes {
        poke_all(machine, calls)?;
    }
    same(&machine.is_idle(), &true, &name)
}

fn poke_all(machine: &mut Machine, calls: &str) -> Result<(), Fail> {
    for call in calls.split(',') {
        poke_asked(machine, read_words(call)?)?;
    }
    Ok(())
}

/// Writes a shared word, or what a step pokes.
fn poke_asked(machine: &mut Machine, asked: Words) -> Result<(), Fail> {
    let [number, value, _, _] = asked.numbers;
    match step_of(asked) {
        Some(Step::Poke(step)) => poke(machine, step),
        _ => {
            same(&asked.verb, &"word", &"a poke")?;
            poke_word(machine, number, value)
        }
    }
}

/// Writes what a poke writes.
fn poke(machine: &mut Machine, poke: Poke) -> Result<(), Fail> {
    same(&machine.apply(Step::Poke(poke)), &Outcome::Poked, &poke)
}

/// Writes a shared word, byte by byte, the lowest first.
fn poke_word(machine: &mut Machine, number: u32, word: u32) -> Result<(), Fail> {
    let mut address = number.wrapping_mul(4).wrapping_add(SHARED_START);
    for value in word.to_le_bytes() {
        poke(machine, Poke::Shared { address, value })?;
        address = address.wrapping_add(1);
    }
    Ok(())
}

/// Asks what these lines ask.
fn run_lines(alloc: Global, watched: &mut Watched, name: &str, lines: &str) -> Result<(), Fail> {
    for line in lines.lines() {
        let (asked, wanted) = asked_and_wanted(line);
        run_calls(alloc, watched, name, asked, read_words(wanted)?)?;
    }
    Ok(())
}

fn run_calls(
    alloc: Global,
    watched: &mut Watched,
    name: &str,
    asked: &str,
    wanted: Words,
) -> Result<(), Fail> {
    for call in asked.split(',') {
        let found = ask(alloc, watched, read_words(call)?)?;
        same(&found, &wanted, &(&name, &call))?;
    }
    Ok(())
}

/// What a machine answers.
fn ask(alloc: Global, watched: &mut Watched, asked: Words) -> Result<Words<'static>, AllocError> {
    if let Some(step) = step_of(asked) {
        return take(alloc, watched, step);
    }
    Ok(match asked.verb {
        "" => said("", [0; 4]),
        "whole" => watched.one(low(asked.numbers[0]))?,
        "drain" => number_words(Some(watched.machine.drain())),
        "drain_by_steps" => number_words(Some(watched.drain_by_steps()?)),
        _ => read(&watched.machine, asked),
    })
}

/// Takes a step. One that stalls must not change what is seen of the machine.
fn take(alloc: Global, watched: &mut Watched, step: Step) -> Result<Words<'static>, AllocError> {
    let before = seen(alloc, &watched.machine)?;
    let observed_step = watched.apply(step)?;
    let after = seen(alloc, &watched.machine)?;
    if observed_step.verb == "stalled" && after.as_slice() != before.as_slice() {
        return Ok(said("stalled_and_changed", [0; 4]));
    }
    Ok(observed_step)
}

/// What is seen of a machine's first four processors and of its first words.
fn seen(alloc: Global, machine: &Machine) -> Result<Vec<Words<'static>>, AllocError> {
    let mut answers = Vec::new(alloc);
    answers.push(read(machine, said("idle", [0; 4])))?;
    for p in 0..4u32 {
        answers.extend_from_slice(&seen_of(machine, p))?;
    }
    Ok(answers)
}

/// What is seen of a processor, and the shared word with its number.
fn seen_of(machine: &Machine, p: u32) -> [Words<'static>; 6] {
    [
        read(machine, said("pc", [p, 0, 0, 0])),
        read(machine, said("status", [p, 0, 0, 0])),
        read(machine, said("register", [p, u32::from(A1), 0, 0])),
        read(machine, said("register", [p, u32::from(A0), 0, 0])),
        read(machine, said("byte", [p, 0x0002_0000, 0, 0])),
        read(machine, said("word", [p, 0, 0, 0])),
    ]
}

/// What a machine answers to a call that changes nothing.
fn read(machine: &Machine, asked: Words) -> Words<'static> {
    let [a, b, _, _] = asked.numbers;
    match asked.verb {
        "next" => next_words(machine.drain_step()),
        "idle" => truth_words(machine.is_idle()),
        "blank" => truth_words(is_blank(machine, low(a))),
        "pc" => number_words(machine.pc(low(a))),
        "register" => number_words(machine.reg(low(a), low(b))),
        "status" => status_words(machine.status(low(a))),
        "byte" => number_words(machine.byte(low(a), b).map(u32::from)),
        "word" => number_words(machine.word(a)),
        _ => said("unknown", [0; 4]),
    }
}

/// Whether registers 0 to 31 of a processor are 0.
fn is_blank(machine: &Machine, p: u8) -> bool {
    for register in 0..32u8 {
        if machine.reg(p, register) != Some(0) {
            return false;
        }
    }
    true
}

/// Gives the steps of a case to a machine as a list, checks the order that it returns, and returns what is then seen of
/// it.
fn run_as_list(alloc: Global, case: &Case) -> Result<Vec<Words<'static>>, Fail> {
    let mut machine = opened(alloc, case)?;
    list_order(alloc, &mut machine, case)?;
    Ok(seen(alloc, &machine)?)
}

fn list_order(alloc: Global, machine: &mut Machine, case: &Case) -> Result<(), Fail> {
    let steps = steps_of(alloc, case.calls)?;
    if !machine.is_idle() {
        return Err(Fail::new("a reference is open"));
    }
    let order = machine.order(alloc, steps.as_slice())?;
    expect_order(alloc, case, order.as_slice())
}

/// The steps among these calls.
fn steps_of(alloc: Global, calls: &[&str]) -> Result<Vec<Step>, Fail> {
    let mut steps = Vec::new(alloc);
    for lines in calls {
        enter_lines(lines, &mut steps)?;
    }
    Ok(steps)
}

/// Enters the steps of these lines into a list.
fn enter_lines(lines: &str, steps: &mut Vec<Step>) -> Result<(), Fail> {
    for line in lines.lines() {
        let (asked, _) = asked_and_wanted(line);
        enter_calls(asked, steps)?;
    }
    Ok(())
}

fn enter_calls(calls: &str, steps: &mut Vec<Step>) -> Result<(), Fail> {
    for call in calls.split(',') {
        if let Some(step) = step_of(read_words(call)?) {
            steps.push(step)?;
        }
    }
    Ok(())
}

/// The serial order of these turns and pokes.
fn entries_of(alloc: Global, order: &str) -> Result<Vec<Entry>, Fail> {
    let mut entries = Vec::new(alloc);
    for call in order.split(',') {
        match step_of(read_words(call)?) {
            Some(Step::Turn(p)) => entries.push(Entry::Processor(p))?,
            Some(Step::Poke(poke)) => entries.push(Entry::Poke(poke))?,
            _ => {}
        }
    }
    Ok(entries)
}
