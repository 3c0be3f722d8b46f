//! One thread with the passes of four processors: the answer to each call, and the passes and the log at the end. The
//! program and its steps are those in which four adds combine, worked out by hand.

ghost use Rattle.std.specs.Prelude.{◌≡◌};
ghost use Rattle.machine_lock.specs.Passes.{IsWhole};

use super::trials::{Trial, attempt};
use machine_lock::{Answer, Pass, Run, Shared};
use machine_log::LockRefusal;
use std::alloc::Global;
use std::process::Abort;
use std::sync::Wait;
use std::test::Fail;
use steps::{Outcome, Step};
use test_support::{
    COMBINED_ADDS, FOUR_ADDENDS, add_pokes, adders_log, assert_same, combined_add, lend, size,
};

/// The processor whose pass asks for each of the steps: for a turn its own, and for a move or a service any.
static ASKERS: [u8; 18] = [0, 1, 2, 3, 3, 2, 1, 0, 0, 1, 2, 3, 0, 1, 0, 1, 2, 3];

/// Asks for a step with a pass.
fn ask<N: Run, R: Wait>(
    rt: &R,
    shared: &Shared<N>,
    pass: &mut Pass<N>,
    step: Step,
) -> Result<Outcome, LockRefusal>
    ensures { pass.new.processor ≡ pass.old.processor }
{
    match step {
        Step::Turn(_) => shared.turn(rt, pass),
        _ => shared.net(rt, pass, step),
    }
}

/// Asks for a step with the pass of a processor, and checks its outcome.
fn ask_as<N: Run, R: Wait + Abort>(
    rt: &R,
    shared: &Shared<N>,
    passes: &mut Vec<Pass<N>>,
    asker: u8,
    step: Step,
    wanted: Outcome,
) -> Result<(), Fail>
    requires whole { IsWhole N.count passes.old.items }
    ensures whole { IsWhole N.count passes.new.items }
{
    let place = usize::from(asker);
    if place >= passes.len() {
        return Err(Fail::new("no such pass"));
    }
    match ask(rt, shared, &mut passes[place], step) {
        Ok(outcome) => assert!(rt; outcome == wanted, "{step:?}"),
        Err(refusal) => return Err(Fail::from(refusal)),
    }
    Ok(())
}

/// Asks for the steps of the adds from one place to another, each with the pass of its asker, and checks the outcomes.
fn ask_all<N: Run, R: Wait + Abort>(
    rt: &R,
    shared: &Shared<N>,
    passes: &mut Vec<Pass<N>>,
    from: usize,
    to: usize,
) -> Result<(), Fail>
    requires whole { IsWhole N.count passes.old.items }
    ensures whole { IsWhole N.count passes.new.items }
{
    for place in from..to.min(COMBINED_ADDS.len()) {
        let step = COMBINED_ADDS[place];
        ask_as(rt, shared, passes, ASKERS[place], step, combined_add(place))?;
    }
    Ok(())
}

/// Checks the step, the outcome and the place of the last answer to pass 0.
fn last_is<N: Run>(rt: &impl Abort, passes: &[Pass<N>], step: Step, outcome: Outcome, place: u32) {
    let last = match passes.first() {
        Some(pass) => pass.last(),
        None => None,
    };
    let wanted = Answer {
        step,
        outcome,
        place,
    };
    assert_same!(rt; last, Some(wanted), step);
}

/// Asks for all steps, and then for a move of a message that is not there. The pokes are nine steps, so the first turn
/// has place 9, and the turn in which processor 0 retires has place 9 + 14.
fn ask_for_adds<N: Run, R: Wait + Abort>(
    rt: &R,
    shared: &Shared<N>,
    passes: &mut Vec<Pass<N>>,
) -> Result<(), Fail>
    requires whole { IsWhole N.count passes.old.items }
    ensures whole { IsWhole N.count passes.new.items }
{
    ask_all(rt, shared, passes, 0, 15)?;
    last_is(rt, passes, Step::Turn(0), combined_add(14), 23);
    ask_all(rt, shared, passes, 15, 18)?;
    ask_as(rt, shared, passes, 0, COMBINED_ADDS[4], Outcome::Stalled)?;
    last_is(rt, passes, COMBINED_ADDS[4], Outcome::Stalled, 27);
    Ok(())
}

/// Checks that the log has the pokes, and after them the steps of the adds.
fn assert_entered(rt: &impl Abort, alloc: Global, steps: &[Step]) {
    let (before, behind) = steps.split_at(steps.len().min(9));
    let pokes = add_pokes(alloc, 10, &FOUR_ADDENDS).expect(rt, "memory");
    assert_same!(rt; before, pokes.as_slice());
    assert_same!(rt; behind, COMBINED_ADDS.as_slice());
}

/// For each pass its processor, the place of its retirement, and how many steps it entered.
static ENDS: [(u8, u32, u32); 4] = [(0, 23, 5), (1, 24, 5), (2, 25, 4), (3, 26, 4)];

/// Checks that the passes have ended as [`ENDS`] says.
fn assert_ended<N: Run>(rt: &impl Abort, passes: &[Pass<N>]) {
    assert_same!(rt; passes.len(), ENDS.len());
    for (pass, end) in passes.iter().zip(ENDS) {
        let place = pass
            .pass_events()
            .first()
            .map_or(0, |pass_event| pass_event.place);
        assert_same!(rt; (pass.processor(), place, pass.steps()), end);
    }
}

/// Four adds by the passes of four processors.
pub(super) fn add_by_passes<N: Run, R: Wait + Abort>(
    rt: &R,
    alloc: Global,
    shared: Shared<N>,
    mut passes: Vec<Pass<N>>,
) -> Result<(), Fail>
    requires { IsWhole N.count passes.items }
{
    let asked = ask_for_adds(rt, &shared, &mut passes);
    lend(shared.gather(passes), |(logged, passes)| {
        assert_entered(rt, alloc, logged.steps());
        assert_same!(rt; logged.machine().word(0), Some(25));
        assert!(rt; logged.machine().is_idle());
        assert_ended(rt, passes.as_slice());
    });
    asked
}

#[test]
fn four_adds_by_passes(rt: HostRuntime) -> Result<(), Fail> {
    let logged = adders_log(
        rt.alloc(),
        "amoadd.w a0, a1, (a2)",
        size(2),
        10,
        &FOUR_ADDENDS,
    )?;
    attempt(&rt, rt.alloc(), logged, Trial::FourAdds)
}
