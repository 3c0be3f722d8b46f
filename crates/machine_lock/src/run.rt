//! What names a run of threads.

use crate::row::PassState;
use ghost_map::{Naming, Next};
use std::marker::Brand;

/// A run of threads on a logged machine: its table of rows, the machine's opening, the steps that were taken before
/// it, and how many processors there are. Each call of a program picks them, in proofs alone.
pub trait Run: Naming {
    ghost use Rattle.std.specs.Prelude.{ℕ, List};
    ghost use Rattle.machine_steps.specs.Machines.{MachineLists};
    ghost use Rattle.steps.specs.declared.step.Step.{Step};

    ghost opening: { MachineLists };

    ghost first: { List Step };

    ghost count: { ℕ };
}

impl Run for Brand {
    ghost use Rattle.std.specs.Prelude.{[]};
    ghost use Rattle.machine_lock.specs.Passes.{no_machine};

    ghost opening = { no_machine };

    ghost first = { [] };

    ghost count = { 0 };
}

impl Next<PassState> for Brand {
    ghost use Rattle.machine_lock.specs.Rows.{new_row};

    ghost next = { new_row };
}
