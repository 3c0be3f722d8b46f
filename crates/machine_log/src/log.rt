//! The log of a machine's steps.

ghost use Rattle.std.specs.Prelude.{◌≡◌, ◌≤◌, ◌<◌, ◌+◌, ◌*◌, ◌^◌, ◌↔◌, ◌++◌, [], length, nat_lt, true, false, Err};
ghost use Rattle.std.specs.Prelude.{IfOk, OnOk, OnErr};
ghost use Rattle.std.specs.Borrow.{sem};
ghost use Rattle.machine_steps.specs.Machines.{AreHome, IsIdle};
ghost use Rattle.machine_steps.specs.Draining.{drain_bound, drain_steps, IsDrained};
ghost use Rattle.machine_steps.specs.Runs.{answer_after, IsReplay, IsSerialized};
ghost use Rattle.machine_steps.specs.Whole.{one_steps, IsOne, IsPoked};
ghost use Rattle.steps.specs.Kinds.{is_within};
ghost use Rattle.machine_log.specs.Logs.{opened, AreLawful, HasPoked, HasTaken, IsWellFormed, IsLonger};
ghost use Rattle.machine_log.specs.Lending.{LendsRoom};

use crate::laws;
use crate::refusal::LockRefusal;
use crate::reserved::ReservedLog;
use flat_machine::Poke;
use machine_steps::Machine;
use std::alloc::Global;
use std::marker::Model;
use std::snapshot::Snapshot;
use steps::{Outcome, Step};

/// A machine with the log of its steps: its opening, the steps since then, and the machine after them.
#[derive(Drop)]
pub struct Logged {
    log: ReservedLog,
}

impl Model for Logged {
    ghost use Rattle.machine_log.specs.Logs.{Log};

    ghost Value = { Log };

    ghost view = { λ l. l.log.log };
}

impl Logged {
    /// Makes the log of a machine that has taken no step, and in which no reference is open and no core is away. The
    /// machine becomes the opening.
    pub fn new(alloc: Global, machine: Machine) -> Self
        requires idle { IsIdle machine }
        requires home { AreHome machine }
        ensures { result ≡ opened machine }
    {
        Logged {
            log: ReservedLog::new(alloc, machine),
        }
    }

    /// Makes the log of a machine that has taken these steps since its opening.
    pub fn of_parts(machine: Machine, steps: Vec<Step>, opening: Snapshot<Machine>) -> Self
        requires kept { IsWellFormed (record { opening = opening.value; steps = steps.items; machine = machine }) }
        ensures { result ≡ record { opening = opening.value; steps = steps.items; machine = machine } }
    {
        Logged {
            log: ReservedLog::of_parts(machine, steps, opening),
        }
    }

    /// The machine, the steps that it has taken, and the opening, which only proofs can see.
    pub fn into_parts(self) -> (Machine, Vec<Step>, Snapshot<Machine>)
        ensures machine { result.0 ≡ self.machine }
        ensures steps { result.1.items ≡ self.steps }
        ensures opening { result.2.value ≡ self.opening }
        ensures kept { IsWellFormed self }
    {
        self.log.into_parts()
    }

    /// The machine. It is the replay of its opening over the steps, and one serial order of whole instructions explains
    /// what it did. No core is away.
    pub fn machine(&self) -> &Machine
        ensures machine { result.now ≡ self.now.machine }
        ensures home { AreHome result.now }
        ensures kept { IsWellFormed self.now }
        ensures replay { IsReplay self.now.opening self.now.steps self.now.machine }
        ensures explained { IsSerialized self.now.opening self.now.steps self.now.machine }
    {
        self.log.machine()
    }

    /// The steps that the machine has taken, in order. None of them stalled.
    pub fn steps(&self) -> &[Step]
        ensures steps { result.now ≡ self.now.steps }
        ensures room { length result.now ≤ 4194304 }
    {
        self.log.steps()
    }

    /// Whether the machine has each place that the step names.
    pub fn names(&self, step: &Step) -> bool
        ensures { result ≡ is_within self.now.machine.config.k step.now }
    {
        step.is_within(self.machine().config().k)
    }

    /// Takes a step, and enters it unless it stalls.
    ///
    /// # Errors
    ///
    /// [`LockRefusal::Unnamed`] if the machine lacks a place that the step names; otherwise [`LockRefusal::Full`] if
    /// the log has [`steps::MAX_STEPS`] steps; otherwise [`LockRefusal::Memory`] if there is no memory for a place in
    /// the log. Each leaves everything unchanged.
    pub fn step(&mut self, step: Step) -> Result<Outcome, LockRefusal>
        ensures taken { IfOk result (λ o. HasTaken self.old step o self.new) }
        ensures answer { IfOk result (λ o. o ≡ answer_after self.old.opening self.old.steps step) }
        ensures poked { IfOk result (λ o. IsIdle self.old.machine → (poke : Poke) → step ≡ Step.Poke poke →
            IsPoked self.old.machine poke o self.new.machine) }
        ensures unnamed { (result ≡ Err LockRefusal.Unnamed) ↔ (is_within self.old.machine.config.k step ≡ false) }
        ensures not_free { result ≡ Err LockRefusal.NotFree → ⊥ }
        ensures full { (result ≡ Err LockRefusal.Full)
            ↔ ((is_within self.old.machine.config.k step ≡ true) × (4194304 ≤ length self.old.steps)) }
        ensures refused { OnErr result (self.new ≡ self.old) }
    {
        if !self.names(&step) {
            return Err(LockRefusal::Unnamed);
        }
        self.log.make_room(1)?;
        Ok(self.log.step(step))
    }

    /// Lends the log with room for more steps, so that taking and entering them cannot be refused.
    ///
    /// # Errors
    ///
    /// [`LockRefusal::Full`] if the log would have more than [`steps::MAX_STEPS`] steps with them; otherwise
    /// [`LockRefusal::Memory`] if there is no memory. Either leaves everything unchanged.
    pub fn room(&mut self, extra: u32) -> Result<&mut ReservedLog, LockRefusal>
        ensures* lends { sem 𝓛 (LendsRoom self.entry result) }
        ensures capacity_left { IfOk result (λ reserved. extra ≤ reserved.now.capacity_left) }
        ensures log { IfOk result (λ reserved. reserved.now.log ≡ self.old) }
        ensures full { (result ≡ Err LockRefusal.Full) ↔ (4194304 < length self.old.steps + extra) }
        ensures named { result ≡ Err LockRefusal.Unnamed → ⊥ }
        ensures not_free { result ≡ Err LockRefusal.NotFree → ⊥ }
    {
        self.log.make_room(extra)?;
        Ok(&mut self.log)
    }

    /// Takes steps until no reference is open, as [`machine_steps::Machine::drain`] does, enters them, and returns
    /// their number, at most `2^k * (2k + 2)`. Makes room for as many first.
    ///
    /// # Errors
    ///
    /// [`LockRefusal::Full`] if the log would have more than [`steps::MAX_STEPS`] steps with as many; otherwise
    /// [`LockRefusal::Memory`] if there is no memory for them. Either leaves everything unchanged.
    pub fn drain(&mut self) -> Result<u32, LockRefusal>
        ensures drained { IfOk result (λ count. IsDrained self.old.machine count self.new.machine) }
        ensures entered { OnOk result (self.new.steps ≡ self.old.steps ++ drain_steps self.old.machine) }
        ensures opening { self.new.opening ≡ self.old.opening }
        ensures full { (result ≡ Err LockRefusal.Full)
            ↔ (4194304 < length self.old.steps + drain_bound self.old.machine.config) }
        ensures named { result ≡ Err LockRefusal.Unnamed → ⊥ }
        ensures not_free { result ≡ Err LockRefusal.NotFree → ⊥ }
        ensures refused { OnErr result (self.new ≡ self.old) }
    {
        let most = self.machine().drain_bound();
        self.log.make_room(most)?;
        Ok(self.log.drain())
    }

    /// Takes one whole instruction of a processor, as [`machine_steps::Machine::one`] does, and enters its steps, at
    /// most `2k + 3`. Makes room for as many first.
    ///
    /// # Errors
    ///
    /// [`LockRefusal::Unnamed`] if the machine has no processor of this number; otherwise [`LockRefusal::Full`] if the
    /// log would have more than [`steps::MAX_STEPS`] steps with `2k + 3` more; otherwise [`LockRefusal::Memory`] if
    /// there is no memory for them. Each leaves everything unchanged.
    pub fn one(&mut self, p: u8) -> Result<Outcome, LockRefusal>
        ensures whole { IfOk result (λ o. IsIdle self.old.machine → IsOne self.old.machine p o self.new.machine) }
        ensures busy { IfOk result (λ o. (IsIdle self.old.machine → ⊥) →
            (o ≡ Outcome.Stalled) × (self.new ≡ self.old)) }
        ensures entered { OnOk result (IsIdle self.old.machine →
            self.new.steps ≡ self.old.steps ++ one_steps self.old.machine p) }
        ensures longer { OnOk result (IsLonger self.old self.new (2 * self.old.machine.config.k + 3)) }
        ensures unnamed { (result ≡ Err LockRefusal.Unnamed) ↔ (nat_lt p (2 ^ self.old.machine.config.k) ≡ false) }
        ensures not_free { result ≡ Err LockRefusal.NotFree → ⊥ }
        ensures full { (result ≡ Err LockRefusal.Full)
            ↔ ((p < 2 ^ self.old.machine.config.k)
            × (4194304 < length self.old.steps + (2 * self.old.machine.config.k + 3))) }
        ensures refused { OnErr result (self.new ≡ self.old) }
    {
        let config = self.machine().config();
        if p >= config.processors() {
            return Err(LockRefusal::Unnamed);
        }
        self.log.make_room(2 * u32::from(config.k) + 3)?;
        Ok(self.log.one(p))
    }

    /// Writes these pokes from outside, one after another, and enters them. Makes room for all of them first. No
    /// reference may be open, and each poke must be lawful ([`Machine::is_lawful`]).
    ///
    /// # Errors
    ///
    /// [`LockRefusal::Full`] if the log would have more than [`steps::MAX_STEPS`] steps with them; otherwise
    /// [`LockRefusal::Memory`] if there is no memory for them. Either leaves everything unchanged.
    pub fn pokes(&mut self, pokes: &[Poke]) -> Result<(), LockRefusal>
        requires idle { IsIdle self.old.machine }
        requires lawful { AreLawful self.old.machine.config pokes.now }
        ensures poked { OnOk result (HasPoked self.old pokes.now self.new) }
        ensures full { (result ≡ Err LockRefusal.Full) ↔ (4194304 < length self.old.steps + length pokes.now) }
        ensures named { result ≡ Err LockRefusal.Unnamed → ⊥ }
        ensures not_free { result ≡ Err LockRefusal.NotFree → ⊥ }
        ensures refused { OnErr result (self.new ≡ self.old) }
    {
        let Ok(count) = u32::try_from(pokes.len()) else {
            return Err(LockRefusal::Full);
        };
        self.log.make_room(count)?;
        self.log.pokes(pokes);
        Ok(())
    }
}

/// What holds of every log. A proof about one may cite it at no cost.
pub fn log_is_well_formed(log: &Logged)
    ensures kept { IsWellFormed log.now }
    ensures home { AreHome log.now.machine }
    ensures replay { IsReplay log.now.opening log.now.steps log.now.machine }
{
    laws::reserved_log_is_well_formed(&log.log);
}
