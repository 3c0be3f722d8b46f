//! The processors that faults have stopped.

ghost use Rattle.std.specs.Prelude.{◌≡◌, ◌<◌, ℕ};
ghost use Rattle.machine_steps.specs.Machines.{AreHome};
ghost use Rattle.machine_steps.specs.Runs.{flat_state};
ghost use Rattle.debug_replies.specs.Stops.{is_faulted, is_faulted_at, is_flagged};

use flat_machine::Status;
use machine_steps::{Machine, flat_processors, flat_status};
use std::marker::Model;

/// The most processors of a machine.
const MOST_PROCESSORS: usize = 64;

/// The processors that faults had stopped at some moment: a flag for each, seen as a list in their order.
#[derive(Drop)]
pub struct Faults {
    flags: [bool; 64],
}

impl Model for Faults {
    ghost use Rattle.std.specs.Prelude.{List, Bool, ◌≡◌, length};

    ghost Value = { List Bool };

    ghost view = { λ f. f.flags };

    ghost invariant = { λ f. length f.flags ≡ 64 };
}

impl Faults {
    /// The processors of this machine that faults have stopped.
    pub fn of(machine: &Machine) -> Self
        requires home { AreHome machine.now }
        ensures { (p : ℕ) → is_flagged result p ≡ is_faulted_at (flat_state machine.now) p }
    {
        let mut flags = [false; MOST_PROCESSORS];
        for processor in 0..flat_processors(machine) {
            flags[processor as usize] = is_faulted(machine, processor);
        }
        Faults { flags }
    }

    /// Whether a processor is among them.
    pub(crate) fn contains(&self, processor: u32) -> bool
        requires { processor < 64 }
        ensures { result ≡ is_flagged self.now processor }
    {
        self.flags[processor as usize]
    }
}

/// Whether a processor is there and a fault has stopped it.
pub(crate) fn is_faulted(machine: &Machine, processor: u32) -> bool
    requires home { AreHome machine.now }
    ensures { result ≡ is_faulted_at (flat_state machine.now) processor }
{
    match flat_status(machine, processor) {
        Some(status) => has_faulted(status),
        None => false,
    }
}

/// Whether a status is that of a processor that a fault has stopped.
fn has_faulted(status: Status) -> bool
    ensures { result ≡ is_faulted status }
{
    matches!(status, Status::Faulted(_))
}
