//! Executes commands, and makes their replies.

ghost use Rattle.std.specs.Prelude.{◌≡◌, ◌<◌, ℕ};
ghost use Rattle.debug_replies.specs.Errors.{error_of, error_text};
ghost use Rattle.debug_replies.specs.Stops.{is_faulted_at, is_flagged};
ghost use Rattle.machine_steps.specs.Machines.{IsIdle};
ghost use Rattle.machine_steps.specs.Runs.{flat_state};
ghost use Rattle.debug_session.specs.Answers.{done_text, session, ActsUnless, Answers};

use crate::acting::{go_on, set, step, write};
use crate::runner::Runner;
use arrayvec::ArrayVec;
use debug_lines::Command;
use debug_replies::{Breaks, Error, Faults, error_of, named_stop, show, show_stop};
use machine_log::Logged;
use machine_steps::laws;

/// Executes a command, and replaces the text with the reply to it.
pub(crate) fn answer<C: Runner>(
    command: &Command,
    log: &mut Logged,
    breaks: &mut Breaks,
    runner: &mut C,
    budget: u32,
    text: &mut ArrayVec<u8, 1024>,
)
    requires idle { IsIdle log.old.machine }
    ensures answers { Answers (C.spec budget) (session log.old breaks.old) command.now text.new.items
        (session log.new breaks.new) }
    ensures idle { IsIdle log.new.machine }
{
    laws::flat_states_are_read();
    let before = Faults::of(log.machine());
    match carry_out(command, log, breaks, runner, budget) {
        Ok(()) => reply(command, log, breaks, &before, text),
        Err(error) => refuse(error, text),
    }
}

/// Executes a command.
///
/// # Errors
///
/// The error of the command on this machine ([`error_of`]); else [`Error::Room`] if the log has no room for the steps
/// of the command, or [`Error::Memory`] if there is no memory for them. An error leaves all as it was.
fn carry_out<C: Runner>(
    command: &Command,
    log: &mut Logged,
    breaks: &mut Breaks,
    runner: &mut C,
    budget: u32,
) -> Result<(), Error>
    requires idle { IsIdle log.old.machine }
    ensures acts { ActsUnless (C.spec budget) (error_of (flat_state log.old.machine) command.now)
        (session log.old breaks.old) command.now result (session log.new breaks.new) }
    ensures idle { IsIdle log.new.machine }
{
    if let Some(error) = error_of(log.machine(), command) {
        return Err(error);
    }
    match command {
        Command::Set {
            processor,
            register,
            value,
        } => set(log, *processor, *register, *value),
        Command::Write {
            processor,
            address,
            bytes,
        } => write(log, *processor, *address, bytes),
        Command::Break { address } => {
            breaks.set(*address);
            Ok(())
        }
        Command::Clear { address } => {
            breaks.clear(*address);
            Ok(())
        }
        Command::Step { processor } => step(log, *processor),
        Command::Continue => go_on(log, breaks, runner, budget),
        _ => Ok(()),
    }
}

/// Replaces the text with the reply to an executed command.
fn reply(
    command: &Command,
    log: &Logged,
    breaks: &Breaks,
    before: &Faults,
    text: &mut ArrayVec<u8, 1024>,
)
    requires named { (p : ℕ) → command.now ≡ Command.Step p → p < 256 }
    ensures { text.new.items ≡ done_text (is_flagged before.now) (flat_state log.now.machine) breaks.now command.now }
{
    let machine = log.machine();
    match command {
        Command::Step { processor } => show_stop(machine, Some(*processor as u8), text),
        Command::Continue => show_stop(machine, named_stop(machine, breaks, before), text),
        _ => show(machine, command, text),
    }
}

/// Replaces the text with the reply to a refused command.
fn refuse(error: Error, text: &mut ArrayVec<u8, 1024>)
    ensures { text.new.items ≡ error_text error }
{
    text.clear();
    let _ = text.try_extend_from_slice(error.text().as_bytes());
}
