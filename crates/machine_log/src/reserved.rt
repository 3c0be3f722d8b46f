//! A log with room for steps.

ghost use Rattle.std.specs.Prelude.{◌≡◌, ◌≤◌, ◌<◌, ◌+◌, ◌*◌, ◌↔◌, ◌++◌, [], length, Err, OnOk};
ghost use Rattle.machine_steps.specs.Machines.{AreHome, IsIdle};
ghost use Rattle.machine_steps.specs.Draining.{drain_bound, drain_steps, IsDrained};
ghost use Rattle.machine_steps.specs.Runs.{answer_after, IsReplay, IsSerialized};
ghost use Rattle.machine_steps.specs.Whole.{one_steps, IsOne, IsPoked};
ghost use Rattle.machine_log.specs.Logs.{opened, AreLawful, HasPoked, HasTaken, IsWellFormed, IsLonger, KeepsCapacity};

use crate::entering;
use crate::refusal::LockRefusal;
use flat_machine::Poke;
use machine_steps::{Machine, laws};
use std::alloc::Global;
use std::marker::Model;
use std::snapshot::Snapshot;
use steps::{MAX_STEPS, Outcome, Step};

/// A machine with the log of its steps, and room for more. It takes and enters as many steps as it has places left
/// without a refusal.
#[derive(Drop)]
pub struct ReservedLog {
    machine: Machine,
    steps: Vec<Step>,
    opening: Snapshot<Machine>,
}

impl Model for ReservedLog {
    ghost use Rattle.std.specs.Vec.{vec_capacity};
    ghost use Rattle.machine_log.specs.Logs.{ReservedLogModel, places_of, IsWellFormed};

    ghost Value = { ReservedLogModel };

    ghost view = { λ l. record {
      log = record { opening = l.opening.value; steps = l.steps.items; machine = l.machine };
      capacity_left = places_of (vec_capacity l.steps) l.steps.items;
    } };

    ghost invariant = { λ l. IsWellFormed (record {
      opening = l.opening.value;
      steps = l.steps.items;
      machine = l.machine;
    }) };
}

impl ReservedLog {
    /// Makes the log of a machine that has taken no step.
    pub(crate) fn new(alloc: Global, machine: Machine) -> Self
        requires idle { IsIdle machine }
        requires home { AreHome machine }
        ensures { result.log ≡ opened machine }
    {
        laws::machine_is_well_formed(&machine);
        let opening = Snapshot::of(&machine);
        ReservedLog {
            machine,
            steps: Vec::new(alloc),
            opening,
        }
    }

    /// Makes the log of a machine that has taken these steps since its opening.
    pub(crate) fn of_parts(machine: Machine, steps: Vec<Step>, opening: Snapshot<Machine>) -> Self
        requires kept { IsWellFormed (record { opening = opening.value; steps = steps.items; machine = machine }) }
        ensures { result.log ≡ record { opening = opening.value; steps = steps.items; machine = machine } }
    {
        ReservedLog {
            machine,
            steps,
            opening,
        }
    }

    /// The machine, the steps that it has taken, and the opening.
    pub(crate) fn into_parts(self) -> (Machine, Vec<Step>, Snapshot<Machine>)
        ensures machine { result.0 ≡ self.log.machine }
        ensures steps { result.1.items ≡ self.log.steps }
        ensures opening { result.2.value ≡ self.log.opening }
        ensures kept { IsWellFormed self.log }
    {
        let ReservedLog {
            machine,
            steps,
            opening,
        } = self;
        (machine, steps, opening)
    }

    /// Makes room for more steps.
    ///
    /// # Errors
    ///
    /// [`LockRefusal::Full`] if the log would have more than [`steps::MAX_STEPS`] steps with them; otherwise
    /// [`LockRefusal::Memory`] if there is no memory.
    pub(crate) fn make_room(&mut self, extra: u32) -> Result<(), LockRefusal>
        ensures capacity_left { OnOk result (extra ≤ self.new.capacity_left) }
        ensures full { (result ≡ Err LockRefusal.Full) ↔ (4194304 < length self.old.log.steps + extra) }
        ensures named { result ≡ Err LockRefusal.Unnamed → ⊥ }
        ensures not_free { result ≡ Err LockRefusal.NotFree → ⊥ }
        ensures kept { self.new.log ≡ self.old.log }
    {
        if extra as usize > MAX_STEPS - self.steps.len() {
            return Err(LockRefusal::Full);
        }
        match self.steps.reserve(extra as usize) {
            Ok(()) => Ok(()),
            Err(_) => Err(LockRefusal::Memory),
        }
    }

    /// The machine. It is the replay of its opening over the steps, and one serial order of whole instructions explains
    /// what it did. No core is away.
    pub fn machine(&self) -> &Machine
        ensures machine { result.now ≡ self.now.log.machine }
        ensures home { AreHome result.now }
        ensures kept { IsWellFormed self.now.log }
        ensures replay { IsReplay self.now.log.opening self.now.log.steps self.now.log.machine }
        ensures explained { IsSerialized self.now.log.opening self.now.log.steps self.now.log.machine }
    {
        &self.machine
    }

    /// The steps that the machine has taken, in order. None of them stalled.
    pub fn steps(&self) -> &[Step]
        ensures steps { result.now ≡ self.now.log.steps }
        ensures room { length result.now ≤ 4194304 }
    {
        self.steps.as_slice()
    }

    /// Takes a step, and enters it unless it stalls. It stalls if the machine lacks a place that it names.
    #[inline(always)]
    pub fn step(&mut self, step: Step) -> Outcome
        requires room { 0 < self.old.capacity_left }
        ensures taken { HasTaken self.old.log step result self.new.log }
        ensures answer { result ≡ answer_after self.old.log.opening self.old.log.steps step }
        ensures poked { IsIdle self.old.log.machine → (poke : Poke) → step ≡ Step.Poke poke →
            IsPoked self.old.log.machine poke result self.new.log.machine }
        ensures capacity_left { KeepsCapacity self.old self.new }
    {
        entering::enter(&mut self.machine, &mut self.steps, step)
    }

    /// Takes steps until no reference is open, as [`machine_steps::Machine::drain`] does, enters them, and returns
    /// their number, at most `2^k * (2k + 2)`.
    pub fn drain(&mut self) -> u32
        requires room { drain_bound self.old.log.machine.config ≤ self.old.capacity_left }
        ensures drained { IsDrained self.old.log.machine result self.new.log.machine }
        ensures entered { self.new.log.steps ≡ self.old.log.steps ++ drain_steps self.old.log.machine }
        ensures opening { self.new.log.opening ≡ self.old.log.opening }
        ensures capacity_left { KeepsCapacity self.old self.new }
    {
        entering::drain(&mut self.machine, &mut self.steps)
    }

    /// Takes one whole instruction of a processor, as [`machine_steps::Machine::one`] does, and enters its steps, at
    /// most `2k + 3`.
    pub fn one(&mut self, p: u8) -> Outcome
        requires room { 2 * self.old.log.machine.config.k + 3 ≤ self.old.capacity_left }
        ensures whole { IsIdle self.old.log.machine → IsOne self.old.log.machine p result self.new.log.machine }
        ensures entered { IsIdle self.old.log.machine →
            self.new.log.steps ≡ self.old.log.steps ++ one_steps self.old.log.machine p }
        ensures busy { (IsIdle self.old.log.machine → ⊥) → (result ≡ Outcome.Stalled) × (self.new.log ≡ self.old.log) }
        ensures longer { IsLonger self.old.log self.new.log (2 * self.old.log.machine.config.k + 3) }
        ensures capacity_left { KeepsCapacity self.old self.new }
    {
        if !self.machine.is_idle() {
            return Outcome::Stalled;
        }
        entering::one(&mut self.machine, &mut self.steps, p)
    }

    /// Writes these pokes from outside, one after another, and enters them. No reference may be open, and each poke
    /// must be lawful ([`Machine::is_lawful`]).
    pub fn pokes(&mut self, pokes: &[Poke])
        requires idle { IsIdle self.old.log.machine }
        requires lawful { AreLawful self.old.log.machine.config pokes.now }
        requires room { length pokes.now ≤ self.old.capacity_left }
        ensures poked { HasPoked self.old.log pokes.now self.new.log }
        ensures capacity_left { KeepsCapacity self.old self.new }
    {
        entering::pokes(&mut self.machine, &mut self.steps, pokes);
    }
}

/// What holds of every log with room. A proof about one may cite it at no cost.
pub fn reserved_log_is_well_formed(reserved: &ReservedLog)
    ensures kept { IsWellFormed reserved.now.log }
    ensures home { AreHome reserved.now.log.machine }
    ensures replay { IsReplay reserved.now.log.opening reserved.now.log.steps reserved.now.log.machine }
{
    let _ = &reserved.steps;
}
