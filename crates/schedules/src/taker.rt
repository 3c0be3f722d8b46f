//! What takes the steps of a sweep.

ghost use Rattle.std.specs.Prelude.{◌≡◌, ◌<◌};
ghost use Rattle.machine_steps.specs.Machines.{IsStep};
ghost use Rattle.machine_log.specs.Logs.{HasTaken};
ghost use Rattle.schedules.specs.Takers.{EachGoesOn, IsOfMachine};

use machine_log::{ReservedLog, laws};
use machine_steps::Machine;
use steps::{Outcome, Step};

/// A machine that takes steps, and counts those that do something. It need not keep them: contracts speak of each log
/// that it may have.
pub trait StepTaker {
    ghost use Rattle.std.specs.Prelude.{ℕ};
    ghost use Rattle.machine_steps.specs.Machines.{MachineLists};
    ghost use Rattle.machine_log.specs.Logs.{Log};

    /// The machine after the steps.
    ghost machine: { Self → MachineLists };

    /// The number of steps that it has taken. Those that stalled do not count.
    ghost count: { Self → ℕ };

    /// The most steps that it may take.
    ghost most: { Self → ℕ };

    /// The log has the machine's opening, and steps that it may have taken since then.
    ghost is_log: { Self → Log → Type 0 };

    /// The machine after the steps.
    fn machine(&self) -> &Machine
        ensures { result.now ≡ Self.machine self.now };

    /// The number of steps that it has taken. Those that stalled do not count.
    fn count(&self) -> usize
        ensures { result ≡ Self.count self.now };

    /// Takes a step, and counts it unless it stalls.
    fn step(&mut self, step: Step) -> Outcome
        requires room { Self.count self.old < Self.most self.old }
        ensures step { IsStep (Self.machine self.old) step result (Self.machine self.new) }
        ensures taken { EachGoesOn Self.is_log self.old self.new (λ old new. HasTaken old step result new) }
        ensures most { Self.most self.new ≡ Self.most self.old };

    /// Each of its logs is one of its machine, with as many steps as it counts.
    ghost of_machine: { (taker : Self) (log : Log) → is_log taker log →
        IsOfMachine (machine taker) (count taker) log };
}

impl StepTaker for ReservedLog {
    ghost use Rattle.std.proofs.Common.{ap};
    ghost use Rattle.std.specs.Prelude.{◌+◌, length};
    ghost use Rattle.machine_log.specs.Logs.{Log};
    ghost use Rattle.schedules.specs.Takers.{IsLogOf};

    ghost machine = { λ l. l.log.machine };

    ghost count = { λ l. length l.log.steps };

    ghost most = { λ l. length l.log.steps + l.capacity_left };

    ghost is_log = { λ l log. IsLogOf l.log log };

    ghost of_machine = { λ l log is. record {
      machine = ap (λ (x : Log). x.machine) is.is;
      count = ap (λ (x : Log). length x.steps) is.is;
      replay = is.replay;
    } };

    #[inline(always)]
    fn machine(&self) -> &Machine {
        ReservedLog::machine(self)
    }

    #[inline(always)]
    fn count(&self) -> usize {
        self.steps().len()
    }

    #[inline(always)]
    fn step(&mut self, step: Step) -> Outcome {
        let outcome = ReservedLog::step(self, step);
        laws::reserved_log_is_well_formed(self);
        outcome
    }
}
