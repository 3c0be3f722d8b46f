//! Takes steps of a machine, and enters them in a list.

ghost use Rattle.std.specs.Prelude.{◌≡◌, ◌≤◌, ◌<◌, ◌+◌, ◌*◌, ◌++◌, ℕ, List, [], length};
ghost use Rattle.std.specs.Vec.{vec_capacity};
ghost use Rattle.flat_machine.specs.declared.event.Event.{Event};
ghost use Rattle.machine_theory.specs.Steps.{outcome_of};
ghost use Rattle.machine_steps.specs.Machines.{machine_of, AreHome, IsIdle, IsStep};
ghost use Rattle.machine_steps.specs.Draining.{drain_bound, drain_steps, IsDrained};
ghost use Rattle.machine_steps.specs.Whole.{one_steps, IsOne, IsPoked};
ghost use Rattle.machine_log.specs.Logs.{entered, AreLawful, ArePoked, IsEntered};

use flat_machine::Poke;
use machine_steps::{Machine, laws};
use steps::{Outcome, Step};

/// Takes a step, and enters it in a list unless it stalls. The list has room for it.
#[inline(always)]
pub fn enter(machine: &mut Machine, steps: &mut Vec<Step>, step: Step) -> Outcome
    requires room { length steps.old.items < vec_capacity steps.old }
    ensures step { IsStep machine.old step result machine.new }
    ensures answer { result ≡ outcome_of machine.old.config machine.old.code (machine_of machine.old (λ p. [])) step }
    ensures poked { IsIdle machine.old → AreHome machine.old → (poke : Poke) → step ≡ Step.Poke poke →
        IsPoked machine.old poke result machine.new }
    ensures stalled { result ≡ Outcome.Stalled → (shown : ℕ → List Event) →
        machine_of machine.new shown ≡ machine_of machine.old shown }
    ensures steps { steps.new.items ≡ entered steps.old.items step result }
    ensures entered { IsEntered machine.old steps.old.items 1 machine.new steps.new.items }
    ensures capacity { vec_capacity steps.new ≡ vec_capacity steps.old }
{
    let outcome = machine.apply(step);
    if !outcome.is_stalled() {
        steps.push_reserved(step);
    }
    outcome
}

/// Takes and enters the steps of one whole instruction of a processor, on a machine in which no reference is open. The
/// list has room for them.
pub(crate) fn one(machine: &mut Machine, steps: &mut Vec<Step>, p: u8) -> Outcome
    requires idle { IsIdle machine.old }
    requires room { length steps.old.items + (2 * machine.old.config.k + 3) ≤ vec_capacity steps.old }
    ensures whole { IsOne machine.old p result machine.new }
    ensures steps { steps.new.items ≡ steps.old.items ++ one_steps machine.old p }
    ensures entered { IsEntered machine.old steps.old.items (2 * machine.old.config.k + 3) machine.new steps.new.items }
    ensures capacity { vec_capacity steps.new ≡ vec_capacity steps.old }
{
    let Ok(outcome) = machine.one_observed(p, steps);
    laws::machine_is_well_formed(machine);
    outcome
}

/// Takes and enters the steps of a drain, and returns their number. The list has room for them.
pub(crate) fn drain(machine: &mut Machine, steps: &mut Vec<Step>) -> u32
    requires room { length steps.old.items + drain_bound machine.old.config ≤ vec_capacity steps.old }
    ensures drained { IsDrained machine.old result machine.new }
    ensures steps { steps.new.items ≡ steps.old.items ++ drain_steps machine.old }
    ensures entered { IsEntered machine.old steps.old.items (drain_bound machine.old.config) machine.new
        steps.new.items }
    ensures capacity { vec_capacity steps.new ≡ vec_capacity steps.old }
{
    let Ok(moves) = machine.drain_observed(steps);
    laws::machine_is_well_formed(machine);
    moves
}

/// Takes and enters these pokes, all of which are lawful, on a machine in which no reference is open and no core is
/// away. The list has room for them.
pub(crate) fn pokes(machine: &mut Machine, steps: &mut Vec<Step>, pokes: &[Poke])
    requires idle { IsIdle machine.old }
    requires home { AreHome machine.old }
    requires lawful { AreLawful machine.old.config pokes.now }
    requires room { length steps.old.items + length pokes.now ≤ vec_capacity steps.old }
    ensures poked { ArePoked machine.old steps.old.items pokes.now machine.new steps.new.items }
    ensures capacity { vec_capacity steps.new ≡ vec_capacity steps.old }
{
    laws::machine_is_well_formed(machine);
    for poke in pokes {
        enter(machine, steps, Step::Poke(*poke));
    }
}
