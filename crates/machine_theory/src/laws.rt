//! Laws of the machine's processors: each is the contract of a function that does nothing.

ghost use Rattle.std.specs.Prelude.{ℕ, List};
ghost use Rattle.machine_ports.specs.flat_machine.declared.config.Config.{Config};
ghost use Rattle.machine_theory.specs.Explained.{RunsAreExplained};

pub use crate::loan_laws::{
    cores_are_put, cores_that_are_away_rest, loans_are_runs, local_turns_catch_up,
    others_do_not_notice,
};

/// One serial order of whole instructions of the flat machine explains, at every moment, any steps that a machine
/// takes. Each reference is served once, between its issue and its retirement.
pub fn one_order_explains_all()
    ensures { (c : Config) (code : List ℕ) → RunsAreExplained c code }
{}
