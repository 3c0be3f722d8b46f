//! Runs a program on all processors of a machine by the sweep, and measures how long a step takes.
//!
//! `bench steps K RUNS`: each processor of a machine of `K` stages adds 1 to one shared word a hundred
//! times, writes a byte to the console and halts. That is done RUNS times, each time on a new machine.
//! Without arguments it is done once, with two stages. Standard output has the result of the first run, and standard
//! error the time of all steps that did something, without the time to make the machines.
ghost use Rattle.std.specs.Prelude.{◌≡◌};

use anyhow::bail;
use assembler::assemble;
use elf_image::{Image, read_image, write_image};
use flat_machine::{Config, Status};
use link::Meter;
use machine_steps::{Machine, laws};
use schedules::{Downs, Row, Services, Turns, Ups};
use std::alloc::Global;
use std::time::{Duration, Instant};
use steps::Outcome;
use test_support::HUNDRED_ADDS;

/// The most rounds of a run. It takes some thousands.
const MAX_ROUNDS: u32 = 1_000_000;

/// What the steps did.
#[derive(Clone, Copy, Drop)]
struct Counts {
    /// Steps that did something.
    moved: u64,
    /// Instructions that retired.
    retired: u64,
}

impl Counts {
    fn add(&mut self, outcome: &Outcome) {
        match outcome {
            Outcome::Stalled => return,
            Outcome::Retired(_) => self.retired = self.retired.wrapping_add(1),
            _ => {}
        }
        self.moved = self.moved.wrapping_add(1);
    }
}

/// Takes the steps of a row that may do something.
// Inlined into its caller for each kind of row, as in the sweep.
#[inline(always)]
fn take_row<R: Row>(machine: &mut Machine, counts: &mut Counts, row: &R)
    requires there { R.is_there row.now machine.old.config.k }
    ensures config { machine.new.config ≡ machine.old.config }
{
    laws::machine_is_well_formed(machine);
    let mut wire = 0;
    while let Some(next) = row.first(machine, wire) {
        counts.add(&machine.apply(row.step(next)));
        wire = next + 1;
    }
}

/// Takes one round of the sweep: each of its steps that may do something.
fn take_round(machine: &mut Machine, counts: &mut Counts) {
    take_row(machine, counts, &Turns);
    take_ups(machine, counts);
    take_row(machine, counts, &Services);
    take_downs(machine, counts);
}

/// Moves the requests up, those before the last stage first.
fn take_ups(machine: &mut Machine, counts: &mut Counts) {
    let stages = machine.config().k;
    for passed in 0..stages {
        let row = Ups {
            stage: stages - 1 - passed,
        };
        take_row(machine, counts, &row);
    }
}

/// Moves the replies down, those after the first stage first.
fn take_downs(machine: &mut Machine, counts: &mut Counts) {
    for stage in 0..machine.config().k {
        take_row(machine, counts, &Downs { stage });
    }
}

/// Whether a processor of the machine still runs.
fn is_running(machine: &Machine) -> bool {
    (0..64u8).any(|p| machine.status(p) == Some(Status::Running))
}

/// Takes rounds of the sweep until no processor runs.
fn sweep(machine: &mut Machine, counts: &mut Counts) {
    for _ in 0..MAX_ROUNDS {
        if !is_running(machine) {
            return;
        }
        take_round(machine, counts);
    }
}

/// The image of the program.
fn image(alloc: Global, config: &Config) -> anyhow::Result<Image> {
    let program = assemble(alloc, HUNDRED_ADDS)?;
    let mut writer = Meter::new(Vec::new(alloc));
    write_image(&mut writer, program.layout())?;
    let mut reader = Meter::new(writer.device.as_slice());
    Ok(read_image(alloc, &mut reader, config)?)
}

/// How many stages the machines have, and how many machines are run.
fn parse_arguments(arguments: &[String]) -> anyhow::Result<(u8, u32)> {
    match arguments {
        [] => Ok((2, 1)),
        [k, runs] => Ok((k.parse()?, runs.parse()?)),
        _ => bail!("usage: bench steps [K RUNS]"),
    }
}

/// Prints the result of a run.
fn tell_result(rt: &HostRuntime, machine: &Machine, counts: &Counts) -> anyhow::Result<()> {
    let word = machine.word(0).unwrap_or(0);
    println!(rt;
        "k {}: {} instructions retire, and word 0 is {}",
        machine.config().k,
        counts.retired,
        word
    )?;
    Ok(())
}

/// The time of a run of a machine. The first run prints its result.
fn time_of(
    rt: &HostRuntime,
    machine: &mut Machine,
    counts: &mut Counts,
    is_first: bool,
) -> anyhow::Result<Duration> {
    let start = Instant::now(rt)?;
    sweep(machine, counts);
    let time = start.elapsed(rt)?;
    if is_first {
        tell_result(rt, machine, counts)?;
    }
    Ok(time)
}

/// A machine that has not run.
fn new_machine(alloc: Global, config: Config) -> anyhow::Result<Machine> {
    Ok(Machine::new(alloc, image(alloc, &config)?, config)?)
}

/// Runs this many machines, and prints how long that took.
fn measure(rt: &HostRuntime, config: Config, runs: u32) -> anyhow::Result<()> {
    let mut counts = Counts {
        moved: 0,
        retired: 0,
    };
    let mut time = Duration::ZERO;
    for run in 0..runs {
        let mut machine = new_machine(rt.alloc(), config)?;
        time = time.saturating_add(time_of(rt, &mut machine, &mut counts, run == 0)?);
    }
    eprintln!(rt;
        "k {}: {} runs, {} steps that did something in {} microseconds",
        config.k,
        runs,
        counts.moved,
        time.as_micros()
    )?;
    Ok(())
}

/// Runs machines as these arguments ask, and prints the results.
pub fn run(rt: &HostRuntime, arguments: &[String]) -> anyhow::Result<()> {
    let (k, runs) = parse_arguments(arguments)?;
    let config = Config {
        k,
        c: 4,
        b: 4,
        r: 1,
        shared_words: 1024,
    };
    measure(rt, config, runs)
}
