//! A machine of one processor under its lock, the pass of that processor, and its core on loan.

ghost use Rattle.std.specs.Prelude.{◌≡◌, ◌^◌};
ghost use Rattle.machine_lock.specs.Passes.{IsWhole};

use machine_lock::{
    Loan, LocalEnd, LockRefusal, Logged, NewTable, Pass, PassEvent, PassState, Run, Shared,
};
use machine_steps::{Outcome, Step};
use std::alloc::Global;
use std::marker::Brand;
use std::process::Abort;
use std::sync::Wait;
use std::test::Fail;
use test_support::{assert_same, lend, log_of, size};

/// Two local instructions, and one that adds 5 to shared word 0.
const TEXT: &str = "lui x12, 0x80000\naddi x11, x0, 5\namoadd.w x10, x11, (x12)";

/// Takes local instructions with the core on loan, as many as there are.
fn take_local<N: Run, R: Wait + Abort>(
    rt: &R,
    alloc: Global,
    shared: &Shared<N>,
    pass: &mut Pass<N>,
) -> Result<(), LockRefusal>
    ensures { pass.new.processor ≡ pass.old.processor }
{
    let mut loan: Loan<N> = match shared.lend(rt, alloc, pass, 64) {
        Ok(loan) => loan,
        Err(refusal) => return Err(refusal),
    };
    assert_same!(rt; loan.run_local(), LocalEnd::Other);
    assert!(rt; shared.give_back(rt, pass, loan).is_ok());
    Ok(())
}

/// Takes a reference: its turn, its service, and the turn that takes the reply.
fn refer<N: Run, R: Wait + Abort>(rt: &R, shared: &Shared<N>, pass: &mut Pass<N>)
    ensures { pass.new.processor ≡ pass.old.processor }
{
    assert_same!(rt; shared.turn(rt, pass), Ok(Outcome::Issued));
    assert_same!(rt; shared.net(rt, pass, Step::Serve(0)), Ok(Outcome::Served { leader: 0 }));
    assert_same!(rt; shared.net(rt, pass, Step::Turn(0)), Err(LockRefusal::Unnamed));
    assert!(rt; matches!(shared.turn(rt, pass), Ok(Outcome::Retired(_))));
}

/// Takes both local instructions and the reference.
fn take_all<N: Run, R: Wait + Abort>(
    rt: &R,
    alloc: Global,
    shared: &Shared<N>,
    pass: &mut Pass<N>,
) -> Result<(), Fail>
    ensures { pass.new.processor ≡ pass.old.processor }
{
    take_local(rt, alloc, shared, pass)?;
    refer(rt, shared, pass);
    Ok(())
}

/// The same with the first of the passes.
fn take_all_first<N: Run, R: Wait + Abort>(
    rt: &R,
    alloc: Global,
    shared: &Shared<N>,
    passes: &mut Vec<Pass<N>>,
) -> Result<(), Fail>
    requires whole { IsWhole N.count passes.old.items }
    ensures whole { IsWhole N.count passes.new.items }
{
    if passes.len() == 0 {
        return Err(Fail::new("no pass"));
    }
    take_all(rt, alloc, shared, &mut passes[0])
}

/// The place of one of a pass's events.
fn place_of(pass_events: &[PassEvent], number: usize) -> Option<u32> {
    match pass_events.get(number) {
        Some(pass_event) => Some(pass_event.place),
        None => None,
    }
}

/// Checks that a pass has three retirements, at places 0, 1 and 4.
fn has_places(rt: &impl Abort, pass_events: &[PassEvent]) {
    for (number, place) in [(0, Some(0)), (1, Some(1)), (2, Some(4)), (3, None)] {
        assert_same!(rt; place_of(pass_events, number), place, number);
    }
}

/// The place of the last answer to a pass, and the step that it answers.
fn last_of<N: Run>(pass: &Pass<N>) -> Option<(u32, Step)> {
    match pass.last() {
        Some(answer) => Some((answer.place, answer.step)),
        None => None,
    }
}

/// Checks that a pass has retired, and that its last answer was to the turn at place 4.
fn has_retired<N: Run>(rt: &impl Abort, pass: &Pass<N>) {
    assert_same!(rt; (pass.processor(), pass.steps(), pass.is_lent()), (0, 5, false));
    has_places(rt, pass.pass_events());
    assert_same!(rt; last_of(pass), Some((4, Step::Turn(0))));
}

/// Checks the machine and the steps of the log, and its one pass.
fn are_gathered<N: Run>(rt: &impl Abort, logged: &Logged, passes: &[Pass<N>]) {
    assert_same!(rt; logged.machine().word(0), Some(5));
    assert_same!(rt; (logged.steps().len(), passes.len()), (5, 1));
    for pass in passes {
        has_retired(rt, pass);
    }
}

/// Takes all of them, and gathers the log.
fn by_passes<N: Run, R: Wait + Abort>(
    rt: &R,
    alloc: Global,
    shared: Shared<N>,
    mut passes: Vec<Pass<N>>,
) -> Result<(), Fail>
    requires { IsWhole N.count passes.items }
{
    let taken = take_all_first(rt, alloc, &shared, &mut passes);
    lend(
        shared.gather(passes),
        |(logged, passes)| are_gathered(rt, logged, passes.as_slice()),
    );
    taken
}

/// Puts a log under a lock.
fn go<N: Run, R: Wait + Abort>(
    rt: &R,
    alloc: Global,
    room: NewTable<PassState>,
    logged: Logged,
) -> Result<(), Fail>
    requires room { room ≡ N.table }
    requires opening { logged.opening ≡ N.opening }
    requires first { logged.steps ≡ N.first }
    requires count { N.count ≡ 2 ^ N.opening.config.k }
{
    match Shared::<N>::new(alloc, room, logged) {
        Ok((shared, passes)) => by_passes(rt, alloc, shared, passes),
        Err((_, refusal)) => Err(Fail::from(refusal)),
    }
}

/// The same with a new table.
fn attempt<R: Wait + Abort>(rt: &R, alloc: Global, logged: Logged) -> Result<(), Fail> {
    match NewTable::new(alloc) {
        Ok(room) => go::<Brand, R>(rt, alloc, room, logged),
        Err(error) => Err(Fail::from(error)),
    }
}

#[test]
fn a_pass_takes_turns(rt: HostRuntime) -> Result<(), Fail> {
    let logged = log_of(rt.alloc(), TEXT, size(0))?;
    attempt(&rt, rt.alloc(), logged)
}
