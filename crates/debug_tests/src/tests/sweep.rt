//! Sweeps with breaks, worked out by hand.

use debug_replies::Breaks;
use debug_session::{Runner, Sweep};
use flat_machine::Status;
use machine_log::{LockRefusal, Logged};
use std::process::Abort;
use std::test::Fail;
use steps::Step;
use test_support::{assert_same, lend, log_of, tight_size};

/// The breaks at these addresses.
fn breaks_at(rt: &impl Abort, addresses: &[u32]) -> Breaks {
    let mut breaks = Breaks::new();
    for address in addresses {
        assert!(rt; breaks.set(*address));
    }
    breaks
}

/// Runs a sweep and returns its answer. No reference is open after it.
fn go_on(
    rt: &impl Abort,
    log: &mut Logged,
    breaks: &Breaks,
    budget: u32,
) -> Result<(), LockRefusal> {
    assert!(rt; log.machine().is_idle());
    let answer = Sweep.run(log, breaks, budget);
    assert!(rt; log.machine().is_idle());
    answer
}

/// Runs a sweep, which has to succeed and to leave this many steps in the log.
fn goes_on(rt: &impl Abort, log: &mut Logged, breaks: &Breaks, budget: u32, steps: usize) {
    assert_same!(rt; go_on(rt, log, breaks, budget), Ok(()));
    assert_same!(rt; log.steps().len(), steps);
}

/// Three instructions of code, at 0x10000, 0x10004 and 0x10008.
const THREE: &str = "addi x1, x0, 1\naddi x2, x0, 2\necall";

/// The second instruction refers to shared word 0.
const REFERS: &str = "lui x5, 0x80000\nlw x6, 0(x5)\necall";

/// The steps of its run on one processor.
static REFERRED: [Step; 5] = [
    Step::Turn(0),
    Step::Turn(0),
    Step::Serve(0),
    Step::Turn(0),
    Step::Turn(0),
];

/// A sweep stops before the instruction of a break. The next sweep gets past it to the next break, and then to the end.
#[test]
fn goes_from_break_to_break(rt: HostRuntime) -> Result<(), Fail> {
    let breaks = breaks_at(&rt, &[0x10004, 0x10008]);
    lend(log_of(rt.alloc(), THREE, tight_size(0))?, |log| {
        goes_on(&rt, log, &breaks, 100, 1);
        assert_same!(rt; log.machine().pc(0), Some(0x10004));
        goes_on(&rt, log, &breaks, 100, 2);
        assert_same!(rt; log.machine().pc(0), Some(0x10008));
        goes_on(&rt, log, &breaks, 100, 3);
        assert_same!(rt; log.machine().status(0), Some(Status::Halted(0)));
        // If no processor runs, nothing is done.
        goes_on(&rt, log, &breaks, 100, 3);
    });
    Ok(())
}

/// The break at which a processor is when a sweep begins does not stop it at once, but when it comes there again.
#[test]
fn gets_past_the_first_break(rt: HostRuntime) -> Result<(), Fail> {
    let breaks = breaks_at(&rt, &[0x10000]);
    lend(
        log_of(rt.alloc(), "again: jal x0, again", tight_size(0))?,
        |log| {
            for count in 1..4 {
                goes_on(&rt, log, &breaks, 100, count);
                assert_same!(rt; log.machine().pc(0), Some(0x10000));
            }
        },
    );
    Ok(())
}

/// Processor 1 comes to 0x10010, and processor 0 stays in a loop before it.
const APART: &str = "
 addi x17, x0, 2
 ecall
 bne x10, x0, odd
here: jal x0, here
odd: addi x7, x0, 1
";

/// Three turns of each, and a fourth of processor 0.
static TURNS: [Step; 7] = [
    Step::Turn(0),
    Step::Turn(1),
    Step::Turn(0),
    Step::Turn(1),
    Step::Turn(0),
    Step::Turn(1),
    Step::Turn(0),
];

/// The sweep stops in the fourth round, before the turn of processor 1 at its break. Processor 0 is then in a loop
/// without one.
#[test]
fn stops_all_at_the_break_of_one(rt: HostRuntime) -> Result<(), Fail> {
    let breaks = breaks_at(&rt, &[0x10010]);
    lend(log_of(rt.alloc(), APART, tight_size(1))?, |log| {
        goes_on(&rt, log, &breaks, 100, 7);
        assert_same!(rt; log.machine().pc(1), Some(0x10010));
        assert_same!(rt; log.machine().pc(0), Some(0x1000C));
        assert_same!(rt; log.steps(), TURNS.as_slice());
    });
    Ok(())
}

/// A processor with an open reference does not stop at a break, although its `pc` is there: a sweep stops before the
/// load at 0x10004, and the next one takes it whole.
#[test]
fn finishes_an_open_reference(rt: HostRuntime) -> Result<(), Fail> {
    let breaks = breaks_at(&rt, &[0x10004]);
    lend(log_of(rt.alloc(), REFERS, tight_size(0))?, |log| {
        goes_on(&rt, log, &breaks, 100, 1);
        goes_on(&rt, log, &breaks, 100, 5);
        assert_same!(rt; log.steps(), REFERRED.as_slice());
        assert_same!(rt; log.machine().status(0), Some(Status::Halted(0)));
    });
    Ok(())
}

/// A used-up budget ends a sweep too, and a reference that is open then is completed.
#[test]
fn ends_with_the_budget(rt: HostRuntime) -> Result<(), Fail> {
    let breaks = breaks_at(&rt, &[]);
    lend(log_of(rt.alloc(), REFERS, tight_size(0))?, |log| {
        goes_on(&rt, log, &breaks, 0, 0);
        goes_on(&rt, log, &breaks, 2, 4);
        assert_same!(rt; log.steps(), &REFERRED[..4]);
    });
    Ok(())
}

/// Each of four processors stops by a fault in its first turn, and each of these turns ends a sweep.
#[test]
fn ends_at_each_fault(rt: HostRuntime) -> Result<(), Fail> {
    let breaks = breaks_at(&rt, &[0x10000]);
    lend(log_of(rt.alloc(), "ebreak", tight_size(2))?, |log| {
        for count in 1..5 {
            goes_on(&rt, log, &breaks, 100, count);
        }
        goes_on(&rt, log, &breaks, 100, 4);
    });
    Ok(())
}

/// Checks that there is no room for a sweep with this budget, and that nothing is done.
fn is_refused(rt: &impl Abort, log: &mut Logged, breaks: &Breaks, budget: u32) {
    let before = log.steps().len();
    assert_same!(rt; go_on(rt, log, breaks, budget), Err(LockRefusal::Full));
    assert_same!(rt; log.steps().len(), before);
}

/// A sweep asks for room for its own steps and those of its drain before it takes the first.
#[test]
fn asks_for_room_first(rt: HostRuntime) -> Result<(), Fail> {
    let breaks = breaks_at(&rt, &[0x10004]);
    lend(log_of(rt.alloc(), THREE, tight_size(0))?, |log| {
        is_refused(&rt, log, &breaks, 4_294_967_295);
        is_refused(&rt, log, &breaks, 4_194_303);
        goes_on(&rt, log, &breaks, 4_194_302, 1);
        assert_same!(rt; log.machine().pc(0), Some(0x10004));
        // With one step there is room for 4,194,303 more, two of them for the drain.
        is_refused(&rt, log, &breaks, 4_194_302);
        goes_on(&rt, log, &breaks, 4_194_301, 3);
    });
    Ok(())
}
