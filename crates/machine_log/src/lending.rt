//! A log that lends cores.

ghost use Rattle.std.specs.Prelude.{◌≡◌, ◌≢◌, ◌≤◌, ◌<◌, ◌+◌, ◌^◌, ◌↔◌, ◌++◌, ℕ, [], ◌∷◌, true, false, length, Some};
ghost use Rattle.std.specs.Prelude.{None, Err, IfOk, IfErr, IsTrue, OnOk, OnErr, is_some, replicate, slice_set};
ghost use Rattle.std.specs.Arc.{arc_value};
ghost use Rattle.machine_theory.specs.Processors.{port_at};
ghost use Rattle.machine_theory.specs.Steps.{outcome_of};
ghost use Rattle.machine_steps.specs.Machines.{is_free, machine_of, without_core_at};
ghost use Rattle.machine_steps.specs.Runs.{answer_after, IsReplay};
ghost use Rattle.steps.specs.Kinds.{is_within};
ghost use Rattle.machine_log.specs.Logs.{HasTaken, IsWellFormed};
ghost use Rattle.machine_theory.specs.Loans.{turns_of};
ghost use Rattle.hart.specs.LocalRuns.{TakesLocal};
ghost use Rattle.std.specs.Vec.{vec_capacity};
ghost use Rattle.machine_log.specs.Lendings.{IsBack, OfOthers, lent_at, may_lend, promised};
ghost use Rattle.machine_log.specs.declared.lent.Lent.{Lent};

use crate::entering::enter;
use crate::lent::Lent;
use crate::log::Logged;
use crate::refusal::LockRefusal;
use flat_machine::{Retired, Status};
use hart::Core;
use local_memory::Code;
use machine_steps::Machine;
use std::alloc::{AllocError, Global};
use std::marker::Model;
use std::snapshot::Snapshot;
use std::sync::Arc;
use steps::{MAX_STEPS, Outcome, Step};

/// A machine with the log of its steps, some of whose cores may be away. Contracts see the log as if each of these
/// cores were back as it was lent.
#[derive(Drop)]
pub struct Lending {
    machine: Machine,
    steps: Vec<Step>,
    opening: Snapshot<Machine>,
    lent: Vec<Option<Lent>>,
    /// For each processor, cores that are no longer used. Its next loan writes its records into their memory.
    spares: Vec<Option<(Core, Core)>>,
    promises: usize,
}

impl Model for Lending {
    ghost use Rattle.std.specs.Prelude.{◌≡◌};
    ghost use Rattle.std.specs.Vec.{vec_capacity};
    ghost use Rattle.machine_log.specs.Lendings.{LendingLog, IsLending, promised, whole};

    ghost Value = { LendingLog };

    ghost view = { λ l. record {
      log = record { opening = l.opening.value; steps = l.steps.items; machine = whole l.machine l.lent.items };
      lent = l.lent.items;
    } };

    ghost invariant = { λ l. IsLending l.opening.value l.machine l.steps.items (vec_capacity l.steps) l.lent.items
        × (l.promises ≡ promised l.lent.items) };
}

impl Lending {
    /// Makes a log none of whose cores is lent. If there is no memory, the log comes back unchanged.
    pub fn new(alloc: Global, logged: Logged) -> Result<Self, Logged>
        ensures lending { IfOk result (λ l. l
            ≡ record { log = logged; lent = replicate (2 ^ logged.machine.config.k) None }) }
        ensures refused { IfErr result (λ l. l ≡ logged) }
    {
        let count = logged.machine().config().processors();
        let mut lent = Vec::new(alloc);
        if lent.reserve(usize::from(count)).is_err() {
            return Err(logged);
        }
        let mut spares = Vec::new(alloc);
        if spares.reserve(usize::from(count)).is_err() {
            return Err(logged);
        }
        for _ in 0..count {
            lent.push_reserved(None);
            spares.push_reserved(None);
        }
        let (machine, steps, opening) = logged.into_parts();
        Ok(Lending {
            machine,
            steps,
            opening,
            lent,
            spares,
            promises: 0,
        })
    }

    /// The machine, without the cores that are away. A step of others has the same outcome as with all cores back.
    pub fn machine(&self) -> &Machine
        ensures config { result.now.config ≡ self.now.log.machine.config }
        ensures answers { (s : Step) → OfOthers self.now.lent s →
            outcome_of result.now.config result.now.code (machine_of result.now (λ p. [])) s
            ≡ outcome_of self.now.log.machine.config self.now.log.machine.code
            (machine_of self.now.log.machine (λ p. [])) s }
    {
        machine_theory::laws::others_do_not_notice();
        &self.machine
    }

    /// The code, which all processors share.
    pub fn code(&self) -> &Arc<Code, Global>
        ensures { arc_value result.now ≡ self.now.log.machine.code }
    {
        self.machine.code()
    }

    /// Whether the core of a processor is lent.
    pub fn is_lent(&self, p: u8) -> bool
        ensures { result ≡ is_some (lent_at self.now.lent p) }
    {
        matches!(self.lent.get(usize::from(p)), Some(Some(_)))
    }

    /// Whether the machine has each place that the step names.
    pub fn names(&self, step: &Step) -> bool
        ensures { result ≡ is_within self.now.log.machine.config.k step.now }
    {
        step.is_within(self.machine.config().k)
    }

    /// Whether the log has [`MAX_STEPS`] steps, with those that are promised to loans.
    pub fn is_full(&self) -> bool
        ensures { IsTrue result ↔ (4194304 ≤ length self.now.log.steps + promised self.now.lent) }
    {
        self.steps.len() + self.promises >= MAX_STEPS
    }

    /// The steps that the machine has taken, in order. None of them stalled.
    pub fn steps(&self) -> &[Step]
        ensures { result.now ≡ self.now.log.steps }
    {
        self.steps.as_slice()
    }

    /// Takes a step, and enters it unless it stalls. The step must not be a turn of a processor whose core is lent,
    /// nor, if any core is lent, a write from outside.
    ///
    /// # Errors
    ///
    /// [`LockRefusal::Full`] if the log would have more than [`MAX_STEPS`] steps with this one and those that are
    /// promised; otherwise [`LockRefusal::Memory`] if there is no memory. Either leaves everything unchanged.
    pub fn step(&mut self, step: Step) -> Result<Outcome, LockRefusal>
        requires others { OfOthers self.old.lent step }
        ensures taken { IfOk result (λ o. HasTaken self.old.log step o self.new.log) }
        ensures answer { IfOk result (λ o. o ≡ answer_after self.old.log.opening self.old.log.steps step) }
        ensures lent { self.new.lent ≡ self.old.lent }
        ensures full { (result ≡ Err LockRefusal.Full)
            ↔ (4194304 ≤ length self.old.log.steps + promised self.old.lent) }
        ensures named { result ≡ Err LockRefusal.Unnamed → ⊥ }
        ensures not_free { result ≡ Err LockRefusal.NotFree → ⊥ }
        ensures refused { OnErr result (self.new ≡ self.old) }
    {
        machine_theory::laws::others_do_not_notice();
        if self.steps.len() + self.promises >= MAX_STEPS {
            return Err(LockRefusal::Full);
        }
        match self.steps.reserve(self.promises + 1) {
            Ok(()) => Ok(enter(&mut self.machine, &mut self.steps, step)),
            Err(_) => Err(LockRefusal::Memory),
        }
    }
}

impl Lending {
    /// Whether the core of a processor can be lent: the machine has the processor, which runs and has no reference
    /// open, and its core is not already lent.
    #[inline(always)]
    pub fn may_lend(&self, p: u8) -> bool
        ensures { result ≡ may_lend self.now p }
    {
        is_free(&self.machine, p)
    }

    /// Lends the core of a processor for at most this many instructions, and promises as many places in the log.
    /// Returns the core with a record of the loan, and keeps a copy of the record.
    ///
    /// # Errors
    ///
    /// [`LockRefusal::NotFree`] if the machine has no processor of this number, or the processor has a reference open,
    /// does not run, or its core is already lent; otherwise [`LockRefusal::Full`] if the log would have more than
    /// [`MAX_STEPS`] steps with all that are promised; otherwise [`LockRefusal::Memory`] if there is no memory for the
    /// records or the places. Each leaves everything unchanged.
    #[inline(always)]
    pub fn lend(&mut self, p: u8, most: u32) -> Result<(Core, Lent), LockRefusal>
        ensures loan { IfOk result (λ loan. (loan.1
            ≡ record { core = (port_at self.old.log.machine.ports p).core; most = most }) × (loan.0 ≡ loan.1.core)) }
        ensures lent { OnOk result (self.new ≡ record self.old {
          lent = slice_set self.old.lent p (Some (record {
            core = (port_at self.old.log.machine.ports p).core;
            most = most;
          }));
        }) }
        ensures unlent { OnOk result (lent_at self.old.lent p ≡ None) }
        ensures free { (result ≡ Err LockRefusal.NotFree) ↔ (may_lend self.old p ≡ false) }
        ensures named { result ≡ Err LockRefusal.Unnamed → ⊥ }
        ensures full { (result ≡ Err LockRefusal.Full)
            ↔ ((may_lend self.old p ≡ true) × (4194304 < length self.old.log.steps + (promised self.old.lent + most))) }
        ensures refused { OnErr result (self.new ≡ self.old) }
    {
        if !self.may_lend(p) {
            return Err(LockRefusal::NotFree);
        }
        let promises = self.promises + most as usize;
        if promises > MAX_STEPS - self.steps.len() {
            return Err(LockRefusal::Full);
        }
        let spare = taken_from(&mut self.spares, p);
        let Ok((kept, given)) = records(&self.machine, p, most, spare) else {
            return Err(LockRefusal::Memory);
        };
        let Ok(()) = self.steps.reserve(promises) else {
            return Err(LockRefusal::Memory);
        };
        let core = taken_out(&mut self.machine, p);
        machine_steps::laws::machine_is_well_formed(&self.machine);
        self.lent[usize::from(p)] = Some(kept);
        self.promises = promises;
        Ok((core, given))
    }

    /// Puts the core of a processor back, which has retired these local instructions since it was lent as the record
    /// says, and enters a turn of the processor for each of them.
    ///
    /// # Errors
    ///
    /// The core and the record, if the core was not lent as the record says. Then nothing changes.
    #[inline(always)]
    pub fn give_back(
        &mut self,
        p: u8,
        lent: Lent,
        core: Core,
        taken: &[Retired],
    ) -> Result<(), (Core, Lent)>
        requires there { p < 2 ^ self.old.log.machine.config.k }
        requires turns { TakesLocal lent.core.setting self.old.log.machine.code lent.core.state taken.now core.state }
        requires setting { core.setting ≡ lent.core.setting }
        requires few { length taken.now ≤ lent.most }
        ensures back { OnOk result (IsBack self.old p core taken.now self.new) }
        ensures refused { OnErr result (self.new ≡ self.old) }
        ensures differs { IfErr result (λ handed. (handed.0 ≡ core) × (handed.1 ≡ lent)
            × (lent_at self.old.lent p ≡ Some lent → ⊥)) }
    {
        if !self.is_record(p, &lent) {
            return Err((core, lent));
        }
        machine_theory::laws::local_turns_catch_up();
        machine_steps::laws::runs_are_joined();
        hart::laws::core_has_registers(&core);
        self.machine.put_core(p, core);
        machine_steps::laws::machine_is_well_formed(&self.machine);
        self.promises -= lent.most as usize;
        let kept = self.lent[usize::from(p)].take();
        put_by(&mut self.spares, p, kept, lent);
        enter_turns(&mut self.steps, p, taken.len());
        Ok(())
    }

    /// Whether a core is away that was lent as the record says.
    #[inline(always)]
    fn is_record(&self, p: u8, lent: &Lent) -> bool
        ensures { IsTrue result ↔ (lent_at self.now.lent p ≡ Some lent.now) }
    {
        match self.lent.get(usize::from(p)) {
            Some(Some(kept)) => kept.most == lent.most && kept.core.equals(&lent.core),
            _ => false,
        }
    }

    /// The log, with each core that is away put back as it was lent.
    pub fn into_logged(mut self) -> Logged
        ensures { result ≡ self.log }
    {
        for p in 0..self.machine.config().processors() {
            self.bring_back(p);
        }
        let Lending {
            machine,
            steps,
            opening,
            ..
        } = self;
        Logged::of_parts(machine, steps, opening)
    }

    /// Puts the core of a processor back as it was lent, if it is away.
    pub fn bring_back(&mut self, p: u8)
        requires there { p < 2 ^ self.old.log.machine.config.k }
        ensures { self.new ≡ record self.old { lent = slice_set self.old.lent p None } }
    {
        let Some(Lent { core, most }) = self.lent[usize::from(p)].take() else {
            return;
        };
        self.machine.put_core(p, core);
        machine_steps::laws::machine_is_well_formed(&self.machine);
        self.promises -= most as usize;
    }
}

/// Enters this many turns of a processor. The list has room for them.
#[inline(always)]
fn enter_turns(steps: &mut Vec<Step>, p: u8, count: usize)
    requires room { length steps.old.items + count ≤ vec_capacity steps.old }
    ensures entered { steps.new.items ≡ steps.old.items ++ turns_of p count }
    ensures capacity { vec_capacity steps.new ≡ vec_capacity steps.old }
{
    let turn = Step::Turn(p);
    for _ in 0..count {
        steps.push_reserved(turn);
    }
}

/// Whether a core can be taken out of a machine.
#[inline(always)]
fn is_free(machine: &Machine, p: u8) -> bool
    ensures { result ≡ is_free machine.now p }
{
    machine.status(p) == Some(Status::Running) && machine.is_open(p) == Some(false)
}

/// Two equal records of a loan. If there are spare cores, this takes no memory.
#[inline(always)]
fn records(
    machine: &Machine,
    p: u8,
    most: u32,
    spare: Option<(Core, Core)>,
) -> Result<(Lent, Lent), AllocError>
    requires { is_free machine.now p ≡ true }
    ensures { IfOk result (λ both. (both.0 ≡ record { core = (port_at machine.now.ports p).core; most = most })
        × (both.1 ≡ both.0)) }
{
    let Some(core) = machine.core(p) else {
        unreachable!()
    };
    let (kept, given) = copies(core, spare)?;
    Ok((Lent { core: kept, most }, Lent { core: given, most }))
}

/// Two copies of a core, written into spare cores if there are any.
#[inline(always)]
fn copies(core: &Core, spare: Option<(Core, Core)>) -> Result<(Core, Core), AllocError>
    ensures { IfOk result (λ both. (both.0 ≡ core.now) × (both.1 ≡ core.now)) }
{
    match spare {
        Some((mut one, mut other)) => {
            one.copy_from(core);
            other.copy_from(core);
            Ok((one, other))
        }
        None => Ok((core.copy()?, core.copy()?)),
    }
}

/// Takes out the spare cores of a processor.
#[inline(always)]
fn taken_from(spares: &mut Vec<Option<(Core, Core)>>, p: u8) -> Option<(Core, Core)> {
    match spares.get_mut(usize::from(p)) {
        Some(spare) => spare.take(),
        None => None,
    }
}

/// Puts the cores of two records aside, for the next loan of a processor.
#[inline(always)]
fn put_by(spares: &mut Vec<Option<(Core, Core)>>, p: u8, kept: Option<Lent>, given: Lent) {
    let Some(kept) = kept else {
        return;
    };
    if let Some(spare) = spares.get_mut(usize::from(p)) {
        *spare = Some((kept.core, given.core));
    }
}

/// Takes out a core that is free to be taken.
#[inline(always)]
fn taken_out(machine: &mut Machine, p: u8) -> Core
    requires { is_free machine.old p ≡ true }
    ensures core { result ≡ (port_at machine.old.ports p).core }
    ensures away { machine.new ≡ without_core_at machine.old p }
{
    let Some(core) = machine.take_core(p) else {
        unreachable!()
    };
    core
}

/// What holds of every log that lends. A proof about one may cite it at no cost.
pub fn lending_is_well_formed(lending: &Lending)
    ensures kept { IsWellFormed lending.now.log }
    ensures room { length lending.now.log.steps + promised lending.now.lent ≤ 4194304 }
    ensures all { length lending.now.lent ≡ 2 ^ lending.now.log.machine.config.k }
{
    let _ = &lending.steps;
}
