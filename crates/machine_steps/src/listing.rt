//! The serial order of a run, as a list.

ghost use Rattle.std.specs.Prelude.{◌≡◌, IfErr, IfOk, OnOk, OnErr};
ghost use Rattle.machine_steps.specs.Machines.{IsIdle};
ghost use Rattle.machine_steps.specs.Runs.{IsRun, IsSerialized, passed};
ghost use Rattle.machine_steps.specs.Ordering.{is_open_at};

use crate::entering::SerialOrder;
use crate::error::NewError;
use crate::laws;
use crate::machine::Machine;
use flat_machine::Entry;
use std::alloc::Global;
use steps::Step;

impl Machine {
    /// Takes each of these steps in turn, as [`Machine::run`] does, and lists the serial order that their outcomes
    /// give: the flat machine does in this order what the machine did. No reference may be open before. Asks for memory
    /// first: an entry for each step, and the groups of references that wait.
    ///
    /// # Errors
    ///
    /// [`NewError::Memory`] if there is no memory for them. Then no step is taken.
    pub fn order(&mut self, alloc: Global, steps: &[Step]) -> Result<Vec<Entry>, NewError>
        requires idle { IsIdle self.old }
        ensures order { IfOk result (λ entries. entries.items ≡ (passed self.old steps.now).order) }
        ensures run { OnOk result (IsRun self.old steps.now self.new) }
        ensures serialized { OnOk result (IsSerialized self.old steps.now self.new) }
        ensures memory { IfErr result (λ e. e ≡ NewError.Memory) }
        ensures refused { OnErr result (self.new ≡ self.old) }
    {
        let mut order = SerialOrder::new(alloc, steps.len())?;
        laws::machine_is_well_formed(self);
        for &step in steps {
            let was_open = is_open_at(self, step);
            let outcome = self.apply(step);
            order.enter(step, was_open, outcome);
        }
        laws::machine_is_well_formed(self);
        Ok(order.into_entries())
    }
}

/// Whether the step is a turn of a processor that is open.
fn is_open_at(machine: &Machine, step: Step) -> bool
    ensures { result ≡ is_open_at machine.now step }
{
    laws::machine_is_well_formed(machine);
    match step {
        Step::Turn(p) => match machine.is_open(p) {
            Some(is_open) => is_open,
            None => false,
        },
        _ => false,
    }
}
