//! Cores on loan: two at once on one thread, one that is lent twice, one that leaves no room in the log, and one that
//! is lost.

ghost use Rattle.std.specs.Prelude.{◌≡◌, ◌≤◌, ℕ, Some};
ghost use Rattle.machine_lock.specs.Passes.{IsWhole};

use super::refusals::{finds_it_full, refuses_to_lend, refuses_unnamed};
use super::trials::{Trial, attempt};
use flat_machine::{CODE_START, Status};
use hart::LocalEnd;
use machine_lock::{Pass, Run, Shared};
use machine_log::LockRefusal;
use std::alloc::Global;
use std::process::Abort;
use std::sync::Wait;
use std::test::Fail;
use steps::Outcome;
use test_support::{HUNDRED_ADDS, assert_same, lend, log_of, poke_often, prepared, size};

/// A processor that writes the byte 65 to the console with its fourth instruction.
const WRITES: &str =
    "addi x17, x0, 1\naddi x10, x0, 65\naddi x6, x0, 300\nloop: ecall\naddi x6, x6, -1\nbne x6, x0, loop\n";

/// Lends the core of a pass for this many instructions, runs it once, and takes it back. Returns how the run ended, and
/// how many instructions it retired.
fn run_once<N: Run, R: Wait + Abort>(
    rt: &R,
    alloc: Global,
    shared: &Shared<N>,
    pass: &mut Pass<N>,
    most: u32,
) -> Result<(LocalEnd, usize), Fail>
    requires some { 1 ≤ most }
    requires few { most ≤ 1024 }
{
    let mut loan = match shared.lend(rt, alloc, pass, most) {
        Ok(loan) => loan,
        Err(refusal) => return Err(Fail::from(refusal)),
    };
    let end = loan.run_local();
    let retired = loan.retirements().len();
    assert!(rt; shared.give_back(rt, pass, loan).is_ok());
    Ok((end, retired))
}

/// Whether a turn of the pass's processor has this outcome. While its core is lent, the pass does not change.
fn turn_is<N: Run, R: Wait>(rt: &R, shared: &Shared<N>, pass: &mut Pass<N>, wanted: Outcome) -> bool
    ensures { (most : ℕ) → pass.old.row.lent ≡ Some most → pass.new ≡ pass.old }
{
    match shared.turn(rt, pass) {
        Ok(outcome) => outcome == wanted,
        Err(_) => false,
    }
}

/// The place of the last answer to a pass.
fn last_place<N: Run>(pass: &Pass<N>) -> Option<u32> {
    match pass.last() {
        Some(answer) => Some(answer.place),
        None => None,
    }
}

/// Runs the core of one pass while that of another is away. Returns how the two runs ended, and how many instructions
/// each retired. A turn of a processor whose core is away stalls.
fn run_both<N: Run, R: Wait + Abort>(
    rt: &R,
    alloc: Global,
    shared: &Shared<N>,
    one: &mut Pass<N>,
    other: &mut Pass<N>,
) -> Result<[(LocalEnd, usize); 2], Fail> {
    let mut loan = match shared.lend(rt, alloc, one, 64) {
        Ok(loan) => loan,
        Err(refusal) => return Err(Fail::from(refusal)),
    };
    let second = run_once(rt, alloc, shared, other, 64);
    assert!(rt; one.is_lent());
    assert!(rt; turn_is(rt, shared, one, Outcome::Stalled));
    let end = loan.run_local();
    let retired = loan.retirements().len();
    assert!(rt; shared.give_back(rt, one, loan).is_ok());
    Ok([(end, retired), second?])
}

/// Lends the cores of two processors, and runs each once.
pub(super) fn both_away<N: Run, R: Wait + Abort>(
    rt: &R,
    alloc: Global,
    shared: Shared<N>,
    mut passes: Vec<Pass<N>>,
) -> Result<(), Fail> {
    let other = passes.pop().expect(rt, "a pass");
    let one = passes.pop().expect(rt, "a pass");
    lend((shared, one, other), |(shared, one, other)| {
        let ran = run_both(rt, alloc, shared, one, other)?;
        assert_same!(rt; ran, [(LocalEnd::Other, 3), (LocalEnd::Other, 3)]);
        assert!(rt; !one.is_lent());
        assert_same!(rt; (one.steps(), other.steps()), (3, 3));
        assert!(rt; turn_is(rt, shared, one, Outcome::Issued));
        assert_same!(rt; last_place(one), Some(6));
        assert!(rt; turn_is(rt, shared, other, Outcome::Issued));
        Ok(())
    })
}

/// Both cores are away at once on one thread, so no loan holds the lock. Each takes the three instructions before its
/// first add, so the log has six steps then.
#[test]
fn both_cores_away(rt: HostRuntime) -> Result<(), Fail> {
    let logged = log_of(rt.alloc(), HUNDRED_ADDS, size(1))?;
    attempt(&rt, rt.alloc(), logged, Trial::BothAway)
}

/// Lends the core of the last pass twice.
pub(super) fn lend_twice<N: Run, R: Wait + Abort>(
    rt: &R,
    alloc: Global,
    shared: Shared<N>,
    mut passes: Vec<Pass<N>>,
) -> Result<(), Fail> {
    let pass = passes.pop().expect(rt, "a pass");
    lend((shared, pass), |(shared, pass)| {
        assert_same!(rt; run_once(rt, alloc, shared, pass, 3)?, (LocalEnd::Most, 3));
        assert_same!(rt; run_once(rt, alloc, shared, pass, 3)?, (LocalEnd::Out(65), 1));
        assert_same!(rt; pass.steps(), 4);
        Ok(())
    })
}

/// The first loan ends after all instructions that it may take, and the second with the byte that its first instruction
/// gives. If a request for memory is refused (`tests/cli/memory.sh`), a call reports it.
#[test]
fn one_core_twice_or_short_of_memory(rt: HostRuntime) -> Result<(), Fail> {
    let logged = log_of(rt.alloc(), WRITES, size(0))?;
    attempt(&rt, rt.alloc(), logged, Trial::LentTwice)
}

/// Lends the core of one pass for three instructions, runs it, and takes it back. Returns how the run ended, and how
/// many instructions it retired. While the core is away, no place is left for another step or loan.
fn run_in_the_last_places<N: Run, R: Wait + Abort>(
    rt: &R,
    alloc: Global,
    shared: &Shared<N>,
    one: &mut Pass<N>,
    other: &mut Pass<N>,
) -> Result<(LocalEnd, usize), Fail> {
    let mut loan = match shared.lend(rt, alloc, one, 3) {
        Ok(loan) => loan,
        Err(refusal) => return Err(Fail::from(refusal)),
    };
    finds_it_full(rt, shared, other);
    refuses_unnamed(rt, shared, other);
    refuses_to_lend(rt, alloc, shared, other, 1, LockRefusal::Full);
    assert!(rt; turn_is(rt, shared, one, Outcome::Stalled));
    let end = loan.run_local();
    let retired = loan.retirements().len();
    assert!(rt; shared.give_back(rt, one, loan).is_ok());
    Ok((end, retired))
}

/// Lends a core twice in a log that has six places left.
pub(super) fn lend_at_the_limit<N: Run, R: Wait + Abort>(
    rt: &R,
    alloc: Global,
    shared: Shared<N>,
    mut passes: Vec<Pass<N>>,
) -> Result<(), Fail> {
    let other = passes.pop().expect(rt, "a pass");
    let one = passes.pop().expect(rt, "a pass");
    lend((shared, one, other), |(shared, one, other)| {
        assert_same!(rt; run_once(rt, alloc, shared, one, 3)?, (LocalEnd::Most, 3));
        refuses_to_lend(rt, alloc, shared, one, 4, LockRefusal::Full);
        let last = run_in_the_last_places(rt, alloc, shared, one, other)?;
        assert_same!(rt; last, (LocalEnd::Out(65), 1));
        refuses_to_lend(rt, alloc, shared, one, 3, LockRefusal::Full);
        for place in [4_194_302, 4_194_303] {
            assert!(rt; matches!(shared.turn(rt, other), Ok(Outcome::Retired(_))));
            assert_same!(rt; last_place(other), Some(place));
        }
        finds_it_full(rt, shared, other);
        refuses_unnamed(rt, shared, other);
        Ok(())
    })
}

/// The second loan takes one of the three instructions that it may. So the other two places that it reserved are free
/// again: two turns find room, and a third does not. No call that was refused took a place.
#[test]
fn places_are_released(rt: HostRuntime) -> Result<(), Fail> {
    let log = log_of(rt.alloc(), WRITES, size(1))?;
    let logged = prepared(log, |log| poke_often(log, 4_194_298))?;
    attempt(&rt, rt.alloc(), logged, Trial::AtTheLimit)
}

/// Lends the core of the first pass, lets it run, and loses it.
fn lose_one<N: Run, R: Wait + Abort>(
    rt: &R,
    alloc: Global,
    shared: &Shared<N>,
    passes: &mut Vec<Pass<N>>,
) -> Result<LocalEnd, Fail>
    requires whole { IsWhole N.count passes.old.items }
    ensures whole { IsWhole N.count passes.new.items }
{
    if passes.len() == 0 {
        return Err(Fail::new("no pass"));
    }
    match shared.lend(rt, alloc, &mut passes[0], 64) {
        Ok(mut loan) => Ok(loan.run_local()),
        Err(refusal) => Err(Fail::from(refusal)),
    }
}

/// Gathers all passes, while the core of one is still lent.
pub(super) fn lose<N: Run, R: Wait + Abort>(
    rt: &R,
    alloc: Global,
    shared: Shared<N>,
    mut passes: Vec<Pass<N>>,
) -> Result<(), Fail>
    requires { IsWhole N.count passes.items }
{
    let end = lose_one(rt, alloc, &shared, &mut passes);
    lend(shared.gather(passes), |(logged, passes)| {
        assert!(rt; passes.iter().all(|pass| pass.is_lent()));
        assert_same!(rt; logged.steps().len(), 0);
        let machine = logged.machine();
        assert!(rt; machine.are_home());
        assert_same!(rt; machine.pc(0), Some(CODE_START));
        assert_same!(rt; machine.status(0), Some(Status::Running));
    });
    assert_same!(rt; end?, LocalEnd::Other);
    Ok(())
}

/// A core that was lent and does not come back is in the machine as it was lent: its instructions on loan have not
/// happened.
#[test]
fn core_that_is_lost(rt: HostRuntime) -> Result<(), Fail> {
    let logged = log_of(rt.alloc(), HUNDRED_ADDS, size(0))?;
    attempt(&rt, rt.alloc(), logged, Trial::Lost)
}
