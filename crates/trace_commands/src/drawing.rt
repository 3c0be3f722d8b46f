//! A machine that takes steps, and its picture.

ghost use Rattle.std.specs.Prelude.{IfOk, OnOk, length, string_bytes};
ghost use Rattle.machine_views.specs.Views.{view_of};
ghost use Rattle.machine_steps.specs.Runs.{IsRun};

use machine_picture::Draw;
use machine_steps::Machine;
use machine_views::view_of;
use std::alloc::{AllocError, Global};
use steps::Step;

/// Takes these steps, and draws the view of the machine after them.
///
/// # Errors
///
/// [`AllocError`] if there is no memory for the picture.
pub fn picture_text<D: Draw>(
    alloc: Global,
    machine: &mut Machine,
    steps: &[Step],
    drawing: &D,
) -> Result<String, AllocError>
    ensures run { OnOk result (IsRun machine.old steps.now machine.new) }
    ensures drawn { IfOk result (λ text. D.draws drawing.now (view_of machine.new (length steps.now))
        (string_bytes text)) }
{
    machine.run(steps);
    let view = view_of(alloc, machine, steps.len())?;
    drawing.draw(alloc, &view)
}
