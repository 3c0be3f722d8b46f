//! What the processors of a machine are doing.

ghost use Rattle.std.specs.Prelude.{◌≡◌, ◌↔◌, ◌^◌, IsTrue};
ghost use Rattle.machine_steps.specs.Standing.{HasFaulted, HasRunning};

use crate::machine::Machine;
use flat_machine::Status;

/// Whether a fault has stopped a processor of the machine.
pub fn any_is_faulted(machine: &Machine) -> bool
    ensures { IsTrue result ↔ HasFaulted machine.now }
{
    for p in 0..machine.config().processors() {
        if let Some(Status::Faulted(_)) = machine.status(p) {
            return true;
        }
    }
    false
}

/// Whether a processor of the machine runs.
pub fn any_runs(machine: &Machine) -> bool
    ensures { IsTrue result ↔ HasRunning machine.now }
{
    for p in 0..machine.config().processors() {
        if let Some(Status::Running) = machine.status(p) {
            return true;
        }
    }
    false
}
