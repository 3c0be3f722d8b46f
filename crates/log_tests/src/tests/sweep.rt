//! Runs and rounds worked out by hand, and the sweep compared with one that asks for each of its steps.

mod rounds;

use self::rounds::round_of;
use machine_log::{LockRefusal, Logged};
use machine_steps::{Machine, any_is_faulted, any_runs};
use schedules::{Round, SweepEnd, follow_sweep};
use std::process::Abort;
use std::test::Fail;
use steps::Step;
use test_support::{assert_same, lend, log_of, machine_of, tight_size};

/// Each of four processors stops by a fault in its first turn, and each of these turns ends a sweep.
#[test]
fn ends_at_each_fault(rt: HostRuntime) -> Result<(), Fail> {
    lend(log_of(rt.alloc(), "ebreak", tight_size(2))?, |log| {
        assert_same!(rt; follow_sweep(log, 0), Ok(SweepEnd::Budget));
        assert_same!(rt; log.steps().len(), 0);
        assert!(rt; !any_is_faulted(log.machine()));
        for count in 1..5 {
            assert!(rt; any_runs(log.machine()));
            assert_same!(rt; follow_sweep(log, 100), Ok(SweepEnd::Over));
            assert_same!(rt; log.steps().len(), count);
            assert!(rt; any_is_faulted(log.machine()));
        }
        assert!(rt; !any_runs(log.machine()));
        assert_same!(rt; follow_sweep(log, 0), Ok(SweepEnd::Over));
        assert_same!(rt; log.steps().len(), 4);
        Ok(())
    })
}

/// Two processors take turns. In their fifth, processor 0 refers to a shared word, and processor 1 stops by EBREAK.
const FAULTS: &str = "
 addi x17, x0, 2
 ecall
 bne x10, x0, odd
 lui x5, 0x80000
 lw x6, 0(x5)
 ecall
odd: addi x7, x0, 1
 ebreak
";

/// Ten turns, and then the steps of a drain.
static DRAINED: [Step; 14] = [
    Step::Turn(0),
    Step::Turn(1),
    Step::Turn(0),
    Step::Turn(1),
    Step::Turn(0),
    Step::Turn(1),
    Step::Turn(0),
    Step::Turn(1),
    Step::Turn(0),
    Step::Turn(1),
    Step::Up { stage: 0, wire: 0 },
    Step::Serve(0),
    Step::Down { stage: 0, wire: 0 },
    Step::Turn(0),
];

/// Processor 1 stops by a fault in the round in which processor 0 issues its reference. A drain then completes it:
/// the request goes up to module 0 and is served, the reply comes down, and the processor takes it.
#[test]
fn drains_after_a_fault(rt: HostRuntime) -> Result<(), Fail> {
    lend(log_of(rt.alloc(), FAULTS, tight_size(1))?, |log| {
        assert_same!(rt; follow_sweep(log, 100), Ok(SweepEnd::Over));
        assert_same!(rt; log.steps(), DRAINED.as_slice());
        assert!(rt; log.machine().is_idle());
        Ok(())
    })
}

/// Each processor loads shared word 0 in its second turn, and halts.
const LOADS: &str = "lui x5, 0x80000\nlw x6, 0(x5)\necall";

/// A reference that is open when the budget is used up is drained too.
#[test]
fn drains_after_the_budget(rt: HostRuntime) -> Result<(), Fail> {
    lend(log_of(rt.alloc(), LOADS, tight_size(0))?, |log| {
        assert_same!(rt; follow_sweep(log, 2), Ok(SweepEnd::Budget));
        let taken = [Step::Turn(0), Step::Turn(0), Step::Serve(0), Step::Turn(0)];
        assert_same!(rt; log.steps(), taken.as_slice());
        assert_same!(rt; follow_sweep(log, 1), Ok(SweepEnd::Over));
        assert_same!(rt; log.steps().len(), 5);
        Ok(())
    })
}

/// The sweep asks for room for its steps and those of its drain, before it takes the first of them.
#[test]
fn asks_for_room_first(rt: HostRuntime) -> Result<(), Fail> {
    lend(log_of(rt.alloc(), "jal x0, 0", tight_size(0))?, |log| {
        assert_same!(rt; follow_sweep(log, 200_000), Ok(SweepEnd::Budget));
        // After 200,000 steps there is room for 3,994,304 more: those of a sweep, and two for its drain.
        assert_same!(rt; follow_sweep(log, 3_994_303), Err(LockRefusal::Full));
        assert_same!(rt; log.steps().len(), 200_000);
        assert_same!(rt; follow_sweep(log, 3), Ok(SweepEnd::Budget));
        assert_same!(rt; log.steps().len(), 200_003);
        Ok(())
    })
}

/// Takes a round, and checks that its steps are these.
fn takes(rt: &impl Abort, machine: &mut Machine, steps: &[Step]) {
    let mut round = Round::new(machine.config().k);
    for step in steps {
        assert_same!(rt; round.next(machine), Some(*step));
        machine.apply(*step);
    }
    assert_same!(rt; round.next(machine), None);
}

/// A round in which two processors refer to one word.
static ROUND: [Step; 6] = [
    Step::Turn(0),
    Step::Turn(1),
    Step::Up { stage: 0, wire: 0 },
    Step::Up { stage: 0, wire: 1 },
    Step::Serve(0),
    Step::Down { stage: 0, wire: 0 },
];

/// Two processors both load word 0 in their second turn. The second request combines with the first at the one stage,
/// the module serves them, and the reply is split. All this is in the round in which they are sent, because each row of
/// the round finds what the row before left.
#[test]
fn rounds_of_two_processors(rt: HostRuntime) -> Result<(), Fail> {
    lend(machine_of(rt.alloc(), LOADS, tight_size(1))?, |machine| {
        let turns = &ROUND[..2];
        takes(&rt, machine, turns);
        takes(&rt, machine, &ROUND);
        assert!(rt; !machine.is_idle());
        // Both retire, and halt.
        takes(&rt, machine, turns);
        assert!(rt; machine.is_idle());
        takes(&rt, machine, turns);
        assert!(rt; !any_runs(machine));
        Ok(())
    })
}

/// Each processor adds 1 to one word ten times, and then to a word of its own, so that requests combine, find full
/// queues, and go alone.
const ADDS: &str = "
 addi x17, x0, 2
 ecall
 slli x10, x10, 2
 lui x5, 0x80000
 add x10, x10, x5
 addi x6, x0, 10
 addi x7, x0, 1
again: amoadd.w x8, x7, (x5)
 addi x6, x6, -1
 bne x6, x0, again
 amoadd.w x8, x7, (x10)
 addi x17, x0, 0
 ecall
";

/// Takes a step, and returns whether the log did not refuse it.
fn is_answered(log: &mut Logged, step: Step) -> bool {
    log.step(step).is_ok()
}

/// Asks for each step of a round, again and again, until no processor runs.
fn ask_for_all(rt: &impl Abort, log: &mut Logged, round: &[Step]) {
    for _ in 0..100_000 {
        for step in round {
            if !any_runs(log.machine()) {
                return;
            }
            assert!(rt; is_answered(log, *step));
        }
    }
}

/// The log has the same steps as one that is asked for each step of the sweep.
#[test]
fn leaves_out_only_what_stalls(rt: HostRuntime) -> Result<(), Fail> {
    for k in 0..7 {
        let round = round_of(rt.alloc(), k)?;
        let plain = log_of(rt.alloc(), ADDS, tight_size(k))?;
        lend(
            (log_of(rt.alloc(), ADDS, tight_size(k))?, plain, round),
            |(log, plain, round)| {
                assert_same!(rt; follow_sweep(log, 100_000), Ok(SweepEnd::Over));
                ask_for_all(&rt, plain, round.as_slice());
                assert!(rt; !log.steps().is_empty());
                assert_same!(rt; log.steps(), plain.steps(), k);
            },
        );
    }
    Ok(())
}
