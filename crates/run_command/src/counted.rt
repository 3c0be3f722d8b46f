//! A machine that keeps no log of its steps.

ghost use Rattle.std.specs.Prelude.{◌≡◌, ◌≤◌};
ghost use Rattle.machine_log.specs.Logs.{opened};
ghost use Rattle.run_command.specs.CountedMachines.{IsCountedLog, IsDrainedLog};

use command_io::Tally;
use machine_steps::{Machine, laws};
use run_reports::{drain_tallied, step_tallied};
use schedules::StepTaker;
use std::alloc::Global;
use std::marker::Model;
use std::snapshot::Snapshot;
use steps::{Outcome, Step};

/// A machine that keeps no log of its steps. It counts them, and what its processors show in them.
#[derive(Drop)]
pub(crate) struct CountedMachine {
    machine: Machine,
    opening: Snapshot<Machine>,
    /// The number of steps that it has taken.
    count: u32,
    /// What its processors have shown, or None since memory ran out.
    tally: Option<Tally>,
}

impl Model for CountedMachine {
    ghost use Rattle.run_command.specs.CountedMachines.{CountedModel, HasNoted};

    ghost Value = { CountedModel };

    ghost view = { λ c. record {
      opening = c.opening.value;
      machine = c.machine;
      count = c.count;
      tally = c.tally;
    } };

    ghost invariant = { λ c. HasNoted c.tally c.count };
}

impl CountedMachine {
    /// Makes a machine that has taken no step of one that may have taken some. The machine becomes the opening.
    pub(crate) fn new(alloc: Global, machine: Machine) -> Self
        ensures log { IsCountedLog result (opened machine) }
        ensures machine { result.machine ≡ machine }
        ensures count { result.count ≡ 0 }
    {
        let tally = Tally::new(alloc, machine.config().processors());
        let opening = Snapshot::of(&machine);
        CountedMachine {
            machine,
            opening,
            count: 0,
            tally: tally.ok(),
        }
    }

    /// Takes steps until no reference is open, and returns the machine with what its processors have shown, if there
    /// was memory to count it.
    pub(crate) fn drained(self) -> (Machine, Option<Tally>)
        requires { self.count ≤ 4000000000 }
        ensures { IsDrainedLog self result.0 result.1 }
    {
        laws::machine_is_well_formed(&self.machine);
        let CountedMachine {
            mut machine,
            opening: _,
            count: _,
            tally,
        } = self;
        let tally = drain_tallied(&mut machine, tally);
        (machine, tally)
    }
}

/// It takes fewer than 2^32 steps.
impl StepTaker for CountedMachine {
    ghost use Rattle.run_command.specs.CountedMachines.{IsCountedLog};

    ghost machine = { λ c. c.machine };

    ghost count = { λ c. c.count };

    ghost most = { λ c. 4000000000 };

    ghost is_log = { λ c log. IsCountedLog c log };

    ghost of_machine = { λ c log is. record {
      machine = is.machine;
      count = is.count;
      replay = is.counted.replay;
    } };

    #[inline(always)]
    fn machine(&self) -> &Machine {
        &self.machine
    }

    #[inline(always)]
    fn count(&self) -> usize {
        self.count as usize
    }

    #[inline(always)]
    fn step(&mut self, step: Step) -> Outcome {
        let outcome = step_tallied(&mut self.machine, &mut self.tally, step);
        if !outcome.is_stalled() {
            self.count += 1;
        }
        outcome
    }
}
