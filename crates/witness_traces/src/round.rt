//! The steps of a lasso: of its stem and one turn round its cycle.

ghost use Rattle.std.specs.Prelude.{◌≡◌, ◌++◌, IfErr, IfOk, IsErrOf};
ghost use Rattle.machine_steps.specs.Machines.{AreHome};
ghost use Rattle.witness_traces.specs.Rounds.{HasLasso, HaveIssued, IsRound, IsRoundOf};
ghost use Rattle.witness_traces.specs.Refusals.{IsNoRound, IsNotTaken};

use crate::refused::Refused;
use crate::way::log_of;
use crate::witness::has_no_poke;
use command_io::{Fault, machine_of_copy};
use elf_image::Image;
use exploration::Fairness;
use flat_machine::Config;
use machine_log::{Logged, replay_observed};
use machine_steps::Machine;
use std::alloc::{AllocError, Global};
use steps::{Outcome, Step, StepObserver};
use trace_file::is_trace;

/// The log of a machine of this size that opens on a copy of the image, in which the processors of the lasso's stem,
/// and then those of its cycle once, issue references, one after another. Each is drained before the next.
///
/// # Errors
///
/// [`Refused::Unknown`] exactly if there is no lasso; else [`Fault::Size`] if the size is out of limits,
/// [`Refused::Missed`] if other processors issue references, [`Fault::Full`] if there would be more than
/// [`steps::MAX_STEPS`], and [`Fault::Memory`].
#[tactic(auto, using(crate::proofs::Rounds::no_round))]
pub fn round_of(
    alloc: Global,
    image: &Image,
    config: Config,
    fairness: &Fairness,
) -> Result<Logged, Refused>
    requires words { image.now.shared_words ≡ config.shared_words }
    ensures round { IfOk result (λ log. IsRoundOf config image.now fairness.now log.steps) }
    ensures refused { IfErr result (IsNoRound config fairness.now) }
    ensures unknown { (HasLasso fairness.now → ⊥) → IsErrOf result Refused.Unknown }
{
    match fairness {
        Fairness::Endless(lasso) => log_round(
            alloc,
            image,
            config,
            lasso.stem.as_slice(),
            lasso.cycle.as_slice(),
        ),
        Fairness::Ends | Fairness::Unknown => Err(Refused::Unknown),
    }
}

/// The log in which the processors of a stem, and then those of a cycle, issue references, one after another.
fn log_round(
    alloc: Global,
    image: &Image,
    config: Config,
    stem: &[u8],
    cycle: &[u8],
) -> Result<Logged, Refused>
    requires words { image.now.shared_words ≡ config.shared_words }
    ensures round { IfOk result (λ log. IsRound config image.now (stem.now ++ cycle.now) log.steps) }
    ensures refused { IfErr result (IsNotTaken config) }
{
    let mut movers = Vec::new(alloc);
    movers.extend_from_slice(stem)?;
    movers.extend_from_slice(cycle)?;
    log_movers(alloc, image, config, movers.as_slice())
}

/// The log in which these processors issue references, one after another.
fn log_movers(
    alloc: Global,
    image: &Image,
    config: Config,
    movers: &[u8],
) -> Result<Logged, Refused>
    requires words { image.now.shared_words ≡ config.shared_words }
    ensures round { IfOk result (λ log. IsRound config image.now movers.now log.steps) }
    ensures refused { IfErr result (IsNotTaken config) }
{
    let log = log_of(alloc, image, config, movers, false)?;
    replay_round(alloc, image, config, movers, log.steps())?;
    Ok(log)
}

/// The machine of this size that opens on a copy of the image and takes the steps, in which these processors issue
/// references, one after another.
///
/// # Errors
///
/// [`Fault::Size`] if the size is out of limits, [`Fault::Memory`], and else [`Refused::Missed`] if a trace cannot
/// spell the steps, one of them is a poke or stalls, other processors issue references, or one is open after the steps.
pub fn replay_round(
    alloc: Global,
    image: &Image,
    config: Config,
    movers: &[u8],
    steps: &[Step],
) -> Result<Machine, Refused>
    requires words { image.now.shared_words ≡ config.shared_words }
    ensures round { IfOk result (λ machine.
        (round : IsRound config image.now movers.now steps.now) × (round.issued.machine ≡ machine)) }
    ensures home { IfOk result AreHome }
    ensures refused { IfErr result (IsNotTaken config) }
{
    if !is_trace(&config, steps) || !has_no_poke(steps) {
        return Err(Refused::Missed);
    }
    let (machine, issuers) = replay_issuers(alloc, image, config, steps)?;
    if issuers.as_slice() == movers {
        Ok(machine)
    } else {
        Err(Refused::Missed)
    }
}

/// The machine of this size that opens on a copy of the image and takes these steps, and the processors that issue
/// references in them, one after another.
#[tactic(auto, using(crate::proofs::Refusing::size_refuses))]
fn replay_issuers(
    alloc: Global,
    image: &Image,
    config: Config,
    steps: &[Step],
) -> Result<(Machine, Vec<u8>), Refused>
    requires words { image.now.shared_words ≡ config.shared_words }
    ensures issued { IfOk result (λ done.
        (issued : HaveIssued config image.now steps.now done.1.items) × (issued.machine ≡ done.0)) }
    ensures home { IfOk result (λ done. AreHome done.0) }
    ensures refused { IfErr result (IsNotTaken config) }
{
    let mut machine = machine_of_copy(alloc, image, config)?;
    let list = Vec::new(alloc);
    let mut issuers = Issuers { list };
    let Ok(replayed) = replay_observed(&mut machine, steps, &mut issuers) else {
        return Err(Refused::Fault(Fault::Memory));
    };
    if let Err(_) = replayed {
        return Err(Refused::Missed);
    }
    if !machine.is_idle() {
        return Err(Refused::Missed);
    }
    Ok((machine, issuers.list))
}

/// The processors that have issued references, one after another.
#[derive(Drop)]
pub(crate) struct Issuers {
    list: Vec<u8>,
}

/// Room is found as it is needed.
impl StepObserver for Issuers {
    ghost use Rattle.std.specs.Prelude.{◌≡◌, ◌++◌};
    ghost use Rattle.witness_traces.specs.Rounds.{issuer_of};

    type Refusal = AllocError;

    ghost has_room = { λ issuers more. Unit {0} };

    ghost observed = { λ old step outcome new. new.list.items ≡ old.list.items ++ issuer_of step outcome };

    /// Appends the processor, if it issues a reference.
    ///
    /// # Errors
    ///
    /// [`AllocError`] if there is no memory for it.
    fn observe(&mut self, step: Step, outcome: &Outcome) -> Result<(), AllocError> {
        match (step, *outcome) {
            (Step::Turn(p), Outcome::Issued) => {
                self.list.push(p)?;
                Ok(())
            }
            _ => Ok(()),
        }
    }
}
