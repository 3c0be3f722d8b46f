//! What the calls of passes refuse, in which order, and that each refusal leaves the pass as it was.

ghost use Rattle.std.specs.Prelude.{◌≤◌};

use super::trials::{Trial, attempt};
use machine_lock::{Answer, Pass, Run, Shared};
use machine_log::LockRefusal;
use std::alloc::Global;
use std::process::Abort;
use std::sync::Wait;
use std::test::Fail;
use steps::{Outcome, Step};
use test_support::{HUNDRED_ADDS, assert_same, lend, log_of, size};

/// Steps that the network of two processors does not have.
static UNNAMED: [Step; 4] = [
    Step::Serve(2),
    Step::Up { stage: 1, wire: 0 },
    Step::Down { stage: 0, wire: 2 },
    Step::Turn(0),
];

/// What a pass stores, and of its events the number.
fn stored<N: Run>(pass: &Pass<N>) -> (usize, u32, Option<Answer>, bool) {
    (
        pass.pass_events().len(),
        pass.steps(),
        pass.last(),
        pass.is_lent(),
    )
}

/// Checks that each of these steps is refused, and leaves the pass as it was.
pub(super) fn refuses_unnamed<N: Run, R: Wait + Abort>(
    rt: &R,
    shared: &Shared<N>,
    pass: &mut Pass<N>,
) {
    let before = stored(pass);
    for step in UNNAMED {
        assert_same!(rt; shared.net(rt, pass, step), Err(LockRefusal::Unnamed), step);
    }
    assert_same!(rt; stored(pass), before);
}

/// Checks that a loan for this many instructions has this refusal, and leaves the pass as it was.
pub(super) fn refuses_to_lend<N: Run, R: Wait + Abort>(
    rt: &R,
    alloc: Global,
    shared: &Shared<N>,
    pass: &mut Pass<N>,
    most: u32,
    wanted: LockRefusal,
)
    requires some { 1 ≤ most }
    requires few { most ≤ 1024 }
{
    let before = stored(pass);
    let refusal = shared.lend(rt, alloc, pass, most).err();
    assert_same!(rt; refusal, Some(wanted), most);
    assert_same!(rt; stored(pass), before);
}

/// Checks that a turn and a step of the network find the log full, and leave the pass as it was.
pub(super) fn finds_it_full<N: Run, R: Wait + Abort>(
    rt: &R,
    shared: &Shared<N>,
    pass: &mut Pass<N>,
) {
    let before = stored(pass);
    assert_same!(rt; shared.turn(rt, pass), Err(LockRefusal::Full));
    assert_same!(rt; shared.net(rt, pass, Step::Serve(0)), Err(LockRefusal::Full));
    assert_same!(rt; stored(pass), before);
}

/// The outcome of a turn. If there is no memory for it, the pass has to be as it was.
fn answered<N: Run, R: Wait + Abort>(
    rt: &R,
    shared: &Shared<N>,
    pass: &mut Pass<N>,
) -> Result<Outcome, Fail> {
    let before = stored(pass);
    match shared.turn(rt, pass) {
        Ok(outcome) => Ok(outcome),
        Err(refusal) => {
            assert_same!(rt; refusal, LockRefusal::Memory);
            assert_same!(rt; stored(pass), before);
            Err(Fail::from(refusal))
        }
    }
}

/// Takes turns of the first pass until it has sent a request, and makes calls that are refused.
pub(super) fn refuse_without_memory<N: Run, R: Wait + Abort>(
    rt: &R,
    alloc: Global,
    shared: Shared<N>,
    mut passes: Vec<Pass<N>>,
) -> Result<(), Fail> {
    let other = passes.pop().expect(rt, "a pass");
    let one = passes.pop().expect(rt, "a pass");
    lend((shared, one, other), |(shared, one, other)| {
        for _ in 0..3 {
            refuses_unnamed(rt, shared, one);
            assert!(rt; matches!(answered(rt, shared, one)?, Outcome::Retired(_)));
        }
        assert_same!(rt; answered(rt, shared, one)?, Outcome::Issued);
        refuses_unnamed(rt, shared, one);
        refuses_to_lend(rt, alloc, shared, one, 64, LockRefusal::NotFree);
        let before = stored(other);
        match shared.lend(rt, alloc, other, 64) {
            Ok(_) => assert!(rt; other.is_lent()),
            Err(refusal) => {
                assert_same!(rt; refusal, LockRefusal::Memory);
                assert_same!(rt; stored(other), before);
                return Err(Fail::from(refusal));
            }
        }
        assert_same!(rt; answered(rt, shared, other)?, Outcome::Stalled);
        refuses_to_lend(rt, alloc, shared, other, 64, LockRefusal::NotFree);
        Ok(())
    })
}

/// A step that the machine does not have, or the loan of a core that is away or waits, has its own refusal, even if
/// memory runs out: `tests/cli/memory.sh` refuses each request of this test for memory in turn.
#[test]
fn in_order_or_short_of_memory(rt: HostRuntime) -> Result<(), Fail> {
    let logged = log_of(rt.alloc(), HUNDRED_ADDS, size(1))?;
    attempt(&rt, rt.alloc(), logged, Trial::Refused)
}
