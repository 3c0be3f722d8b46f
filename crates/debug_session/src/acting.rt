//! The commands that take steps, after a check has found no error of the command on the machine.

ghost use Rattle.std.specs.Prelude.{◌≡◌, None};
ghost use Rattle.debug_replies.specs.Errors.{error_of};
ghost use Rattle.machine_steps.specs.Machines.{IsIdle};
ghost use Rattle.machine_steps.specs.Runs.{flat_state};
ghost use Rattle.debug_session.specs.Answers.{ending_of, poke_of, Continues, Sets, StepsOnce, Writes};

use crate::runner::Runner;
use debug_lines::{Command, Written};
use debug_replies::{Breaks, Error, is_running};
use flat_machine::{Poke, SHARED_START};
use machine_log::{LockRefusal, Logged};

/// The maximum number of bytes that a line writes.
const MOST_BYTES: usize = 512;

/// Writes a register. Register 0 is never written.
pub(crate) fn set(log: &mut Logged, processor: u32, register: u32, value: u32) -> Result<(), Error>
    requires idle { IsIdle log.old.machine }
    requires sound { error_of (flat_state log.old.machine) (Command.Set processor register value) ≡ None }
    ensures sets { Sets log.old processor register value result log.new }
    ensures idle { IsIdle log.new.machine }
{
    if register == 0 {
        return Ok(());
    }
    machine_log::laws::log_is_well_formed(log);
    machine_steps::laws::flat_states_are_read();
    map_refusal(log.pokes(&[Poke::Register {
        processor: processor as u8,
        register: register as u8,
        value,
    }]))
}

/// Writes bytes, as a processor sees them.
pub(crate) fn write(
    log: &mut Logged,
    processor: u32,
    address: u32,
    bytes: &Written,
) -> Result<(), Error>
    requires idle { IsIdle log.old.machine }
    requires sound { error_of (flat_state log.old.machine) (Command.Write processor address bytes.now) ≡ None }
    ensures writes { Writes log.old processor address bytes.now result log.new }
    ensures idle { IsIdle log.new.machine }
{
    machine_log::laws::log_is_well_formed(log);
    machine_steps::laws::flat_states_are_read();
    let mut pokes = [Poke::Shared {
        address: 0,
        value: 0,
    }; MOST_BYTES];
    let values = bytes.bytes();
    for (i, value) in values.iter().enumerate() {
        pokes[i] = poke_of(processor as u8, address + i as u32, *value);
    }
    map_refusal(log.pokes(&pokes[..values.len()]))
}

/// The write of one byte. An address from 2^31 on is in shared memory, any other in the processor's local memory.
fn poke_of(processor: u8, address: u32, value: u8) -> Poke
    ensures { result ≡ poke_of processor address value }
{
    if address >= SHARED_START {
        Poke::Shared { address, value }
    } else {
        Poke::Local {
            processor,
            address,
            value,
        }
    }
}

/// Takes one whole instruction of a processor, or none if it has stopped.
pub(crate) fn step(log: &mut Logged, processor: u32) -> Result<(), Error>
    requires idle { IsIdle log.old.machine }
    requires sound { error_of (flat_state log.old.machine) (Command.Step processor) ≡ None }
    ensures steps { StepsOnce log.old processor result log.new }
    ensures idle { IsIdle log.new.machine }
{
    machine_log::laws::log_is_well_formed(log);
    machine_steps::laws::flat_states_are_read();
    if !is_running(log.machine(), processor) {
        return Ok(());
    }
    match log.one(processor as u8) {
        Ok(_) => Ok(()),
        Err(refusal) => map_refusal(Err(refusal)),
    }
}

/// Lets the runner go on.
pub(crate) fn go_on<C: Runner>(
    log: &mut Logged,
    breaks: &Breaks,
    runner: &mut C,
    budget: u32,
) -> Result<(), Error>
    requires idle { IsIdle log.old.machine }
    ensures goes_on { Continues (C.spec budget) breaks.now log.old result log.new }
    ensures idle { IsIdle log.new.machine }
{
    crate::laws::runs_are_in_order();
    machine_log::laws::log_is_well_formed(log);
    let ran = runner.run(log, breaks, budget);
    machine_log::laws::log_is_well_formed(log);
    map_refusal(ran)
}

/// The error for a refusal of the log.
fn map_refusal(answer: Result<(), LockRefusal>) -> Result<(), Error>
    ensures { result ≡ ending_of answer }
{
    match answer {
        Ok(()) => Ok(()),
        Err(LockRefusal::Memory) => Err(Error::Memory),
        Err(LockRefusal::Full) => Err(Error::Room),
        Err(LockRefusal::Unnamed | LockRefusal::NotFree) => Err(Error::Processor),
    }
}
