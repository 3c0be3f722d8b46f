//! Entries of a serial order, taken one at a time.

ghost use Rattle.std.specs.Prelude.{◌≡◌};
ghost use Rattle.flat_machine.specs.Flat.{is_lawful};
ghost use Rattle.machine_steps.specs.machine_theory.Processors.{is_lawful_poke};
ghost use Rattle.machine_steps.specs.Machines.{AreHome, IsIdle};
ghost use Rattle.machine_steps.specs.Runs.{flat_state};
ghost use Rattle.trace_commands.specs.Taking.{HasTaken};

use flat_machine::{Entry, Poke};
use machine_steps::{Machine, laws};
use steps::{Outcome, Step};

/// Takes an entry: a processor's next instruction, whole, or a poke. No reference is open, and no core is away.
pub(crate) fn execute(machine: &mut Machine, entry: Entry) -> Outcome
    requires idle { IsIdle machine.old }
    requires home { AreHome machine.old }
    ensures { HasTaken machine.old entry result machine.new }
{
    match entry {
        Entry::Processor(p) => machine.one(p),
        Entry::Poke(poke) => {
            lawful_alike(machine, poke);
            machine.apply(Step::Poke(poke))
        }
    }
}

/// A poke is lawful for a machine exactly if it is for the flat machine. The proof of [`execute`] cites this.
fn lawful_alike(machine: &Machine, poke: Poke)
    ensures { is_lawful_poke machine.now.config poke ≡ is_lawful (flat_state machine.now) poke }
{
    laws::machine_is_well_formed(machine);
    laws::flat_states_are_read();
}
