//! Trials on one thread, with the passes of a machine's processors and what they share.

ghost use Rattle.std.specs.Prelude.{◌≡◌, ◌^◌};

use super::loans::{both_away, lend_at_the_limit, lend_twice, lose};
use super::passes::add_by_passes;
use super::refusals::refuse_without_memory;
use super::together::{after_a_loan, turn_by_turn};
use ghost_map::NewTable;
use machine_lock::{PassState, Run, Shared};
use machine_log::Logged;
use std::alloc::Global;
use std::marker::Brand;
use std::process::Abort;
use std::sync::Wait;
use std::test::Fail;

/// A trial.
#[derive(Clone, Copy, Drop)]
pub(super) enum Trial {
    FourAdds,
    BothAway,
    LentTwice,
    AtTheLimit,
    Lost,
    Refused,
    TurnByTurn,
    AfterALoan,
}

/// Makes the trial with the passes of this log, in this table.
fn go<N: Run, R: Wait + Abort>(
    rt: &R,
    alloc: Global,
    room: NewTable<PassState>,
    logged: Logged,
    trial: Trial,
) -> Result<(), Fail>
    requires room { room ≡ N.table }
    requires opening { logged.opening ≡ N.opening }
    requires first { logged.steps ≡ N.first }
    requires count { N.count ≡ 2 ^ N.opening.config.k }
{
    let (shared, passes) = match Shared::<N>::new(alloc, room, logged) {
        Ok(made) => made,
        Err((_, refusal)) => return Err(Fail::from(refusal)),
    };
    match trial {
        Trial::FourAdds => add_by_passes(rt, alloc, shared, passes),
        Trial::BothAway => both_away(rt, alloc, shared, passes),
        Trial::LentTwice => lend_twice(rt, alloc, shared, passes),
        Trial::AtTheLimit => lend_at_the_limit(rt, alloc, shared, passes),
        Trial::Lost => lose(rt, alloc, shared, passes),
        Trial::Refused => refuse_without_memory(rt, alloc, shared, passes),
        Trial::TurnByTurn => turn_by_turn(rt, shared, passes),
        Trial::AfterALoan => after_a_loan(rt, alloc, shared, passes),
    }
}

/// Makes the trial with the passes of this log, in a new table.
pub(super) fn attempt<R: Wait + Abort>(
    rt: &R,
    alloc: Global,
    logged: Logged,
    trial: Trial,
) -> Result<(), Fail> {
    match NewTable::new(alloc) {
        Ok(room) => go::<Brand, R>(rt, alloc, room, logged, trial),
        Err(error) => Err(Fail::from(error)),
    }
}
