//! Traces of runs.

ghost use Rattle.std.specs.Prelude.{◌≡◌, ℕ, Bool, true, false, IfErr, IfOk, OnErr, OnOk, slice_get, MatchOption};
ghost use Rattle.flat_machine.specs.Limits.{IsWithinLimits};
ghost use Rattle.hunt_command.specs.Findings.{firsts};
ghost use Rattle.hunt_command.specs.Traces.{AreFree, AreNotSaved, AreNotWritten, AreSaved, AreWritten, IsNotWhole};
ghost use Rattle.hunt_command.specs.Traces.{IsThereAt, IsWhole, WhereAsked};

use crate::findings::Findings;
use crate::policy::Policy;
use crate::refused::Refused;
use crate::runs::run_of;
use command_io::Fault;
use elf_image::Image;
use flat_machine::Config;
use link::LinkWrite;
use std::alloc::{AllocError, Global};
use std::io::Write;
use trace_file::write_trace;

/// A store of traces, each under the number of its run. Only one writer is open at a time.
pub trait Traces {
    type Writer: LinkWrite;

    /// Whether the store already has a trace under this number.
    ghost finds: { Self → (number : ℕ) → (is_there : Bool) → Type 0 };

    /// The writer that opens for a number, and the store after that.
    ghost opens: { Self → (number : ℕ) → Self.Writer → Self → Type 0 };

    /// The store after the last opened writer is closed as it is now.
    ghost closes: { Self → Self.Writer → Self → Type 0 };

    /// Returns whether the store already has a trace under the number of a run, which must not be overwritten.
    ///
    /// # Errors
    ///
    /// [`AllocError`] if there is no memory to look.
    fn is_there(&self, number: u32) -> Result<bool, AllocError>
        ensures { IfOk result (finds self.now number) };

    /// Reports on standard error that the store already has a trace under this number.
    fn tell_there<E: Write>(&self, number: u32, err: &mut E);

    /// Opens the writer for the trace of the run with this number. No call of it has failed.
    ///
    /// # Errors
    ///
    /// [`AllocError`] if there is no memory for it. Then the store is unchanged.
    fn open(&mut self, number: u32) -> Result<Self::Writer, AllocError>
        ensures works { IfOk result (λ writer. Self.Writer.has_failed writer ≡ false) }
        ensures opened { IfOk result (λ writer. opens self.old number writer self.new) }
        ensures refused { OnErr result (self.new ≡ self.old) };

    /// Closes the last opened writer, after the trace is written to it.
    fn close(&mut self, writer: Self::Writer)
        ensures { closes self.old writer self.new };
}

/// Writes the trace of the first run with each result, if traces are asked for and none of these exists.
pub(crate) fn save_all<T: Traces>(
    alloc: Global,
    image: &Image,
    config: Config,
    policy: Policy,
    findings: &Findings,
    traces: &mut Option<T>,
) -> Result<(), Refused>
    requires words { image.now.shared_words ≡ config.shared_words }
    requires limits { IsWithinLimits config }
    ensures saved { OnOk result
        (WhereAsked (AreSaved T.finds T.opens T.closes T.Writer.has_failed T.Writer.contents config image.now
        policy
        (firsts findings.now.found)) traces.old traces.new) }
    ensures refused { IfErr result
        (AreNotSaved T.finds T.opens T.closes T.Writer.has_failed T.Writer.contents config image.now
        policy
        (firsts findings.now.found) traces.old traces.new) }
{
    let Some(traces) = traces else {
        return Ok(());
    };
    if let Some(number) = there(findings, traces)? {
        return Err(Refused::There(number));
    }
    save_each(alloc, image, config, policy, findings, traces)?;
    Ok(())
}

/// The number of a first run under which a trace exists already, if there is one.
fn there<T: Traces>(findings: &Findings, traces: &T) -> Result<Option<u32>, AllocError>
    ensures { IfOk result (λ number. MatchOption number (AreFree T.finds (firsts findings.now.found) traces.now)
        (λ n. IsThereAt T.finds (firsts findings.now.found) n traces.now)) }
{
    for place in 0..findings.count() {
        let number = findings.first_at(place);
        if traces.is_there(number)? {
            return Ok(Some(number));
        }
    }
    Ok(None)
}

/// Writes the trace of the first run with each result.
fn save_each<T: Traces>(
    alloc: Global,
    image: &Image,
    config: Config,
    policy: Policy,
    findings: &Findings,
    traces: &mut T,
) -> Result<(), Fault>
    requires words { image.now.shared_words ≡ config.shared_words }
    requires limits { IsWithinLimits config }
    ensures saved { OnOk result (AreWritten T.opens T.closes T.Writer.has_failed T.Writer.contents config image.now
        policy
        (firsts findings.now.found) traces.old traces.new) }
    ensures refused { IfErr result
        (AreNotWritten T.opens T.closes T.Writer.has_failed T.Writer.contents config image.now
        policy
        (firsts findings.now.found) traces.old traces.new) }
{
    for place in 0..findings.count() {
        let number = findings.first_at(place);
        save_run(alloc, image, config, policy, number, traces)?;
    }
    Ok(())
}

/// Takes the run with this number again, and writes its trace.
#[tactic(auto, using(crate::proofs::Writing::not_begun))]
fn save_run<T: Traces>(
    alloc: Global,
    image: &Image,
    config: Config,
    policy: Policy,
    number: u32,
    traces: &mut T,
) -> Result<(), Fault>
    requires words { image.now.shared_words ≡ config.shared_words }
    requires limits { IsWithinLimits config }
    ensures saved { OnOk result (IsWhole T.opens T.closes T.Writer.has_failed T.Writer.contents config image.now
        policy number
        traces.old traces.new) }
    ensures refused { IfErr result (IsNotWhole T.opens T.closes T.Writer.has_failed T.Writer.contents config image.now
        policy number
        traces.old traces.new) }
{
    let (log, _) = run_of(alloc, image, config, policy, number)?;
    let mut writer = traces.open(number)?;
    let written = write_trace(&mut writer, &config, log.steps());
    traces.close(writer);
    written?;
    Ok(())
}
