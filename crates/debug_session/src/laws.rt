//! What a run does on the flat machine, and that each log has a trace.

ghost use Rattle.std.specs.Prelude.{◌≡◌};
ghost use Rattle.trace_file.specs.Traces.{IsTrace, trace_of};
ghost use Rattle.flat_machine.specs.Flat.{flat_run};
ghost use Rattle.machine_steps.specs.Machines.{IsIdle};
ghost use Rattle.machine_steps.specs.Runs.{flat_state, passed};
ghost use Rattle.machine_log.specs.Logs.{IsWellFormed, Log};
ghost use Rattle.debug_session.specs.Runs.{HasDriven};

use machine_log::Logged;

/// Whatever steps a runner takes, the machine after them is the flat machine that was there before and has taken the
/// serial order of these steps.
pub fn runs_are_in_order()
    ensures { (old new : Log) → IsWellFormed old → IsWellFormed new → IsIdle old.machine → (run : HasDriven old new) →
        flat_state new.machine ≡ flat_run (flat_state old.machine) (passed old.machine run.more).order }
{
    machine_steps::laws::runs_are_serialized();
}

/// Each log has a trace: each of its steps has a record, pokes included.
pub(crate) fn log_has_trace(log: &Logged)
    ensures { IsTrace (trace_of log.now.machine.config log.now.steps) }
{
    machine_log::laws::log_is_well_formed(log);
}
