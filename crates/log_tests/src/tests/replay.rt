//! Replays of small traces, worked out by hand.

use flat_machine::Config;
use machine_log::{StalledStep, replay};
use machine_steps::Machine;
use std::alloc::{AllocError, Global};
use std::test::Fail;
use steps::Step;
use test_support::{adders, assert_same, lend};

/// A machine of two processors.
const TWO: Config = Config {
    k: 1,
    c: 2,
    b: 1,
    r: 1,
    shared_words: 4,
};

/// Two processors that are to add 1 and 2 to shared word 0.
fn two_adds(alloc: Global) -> Result<Machine, Fail> {
    adders(alloc, "amoadd.w a0, a1, (a2)", TWO, 0, &[(0, 1), (1, 2)])
}

/// The requests combine at the stage, and both replies come back. Processor 0 comes second, and finds what processor 1
/// left.
static COMBINED: [Step; 8] = [
    Step::Turn(0),
    Step::Turn(1),
    Step::Up { stage: 0, wire: 1 },
    Step::Up { stage: 0, wire: 0 },
    Step::Serve(0),
    Step::Down { stage: 0, wire: 0 },
    Step::Turn(0),
    Step::Turn(1),
];

/// The `pc` of both processors, what they found, and shared word 0.
fn look_at(machine: &Machine) -> [Option<u32>; 5] {
    [
        machine.pc(0),
        machine.reg(0, 10),
        machine.pc(1),
        machine.reg(1, 10),
        machine.word(0),
    ]
}

/// A replay takes all steps of a trace if none of them stalls.
#[test]
fn replays_a_trace(rt: HostRuntime) -> Result<(), Fail> {
    lend(two_adds(rt.alloc())?, |machine| {
        let wanted = [0x0001_0004, 2, 0x0001_0004, 0, 3];
        assert_same!(rt; replay(machine, &COMBINED), Ok(()));
        assert_same!(rt; look_at(machine), wanted.map(Some));
        assert!(rt; machine.is_idle());
        assert_same!(rt; replay(machine, &[]), Ok(()));
        assert_same!(rt; look_at(machine), wanted.map(Some));
    });
    Ok(())
}

/// The trace with one more step at this place, which names nothing of the machine.
fn with_a_stall(alloc: Global, place: usize) -> Result<Vec<Step>, AllocError> {
    let (before, behind) = COMBINED.split_at(place.min(COMBINED.len()));
    let mut steps = Vec::from_slice(alloc, before)?;
    steps.push(Step::Serve(2))?;
    steps.extend_from_slice(behind)?;
    Ok(steps)
}

/// If a step stalls, its place is reported, and the machine has taken exactly the steps before it. The step names
/// nothing of the machine, and is put before each step of the trace and after the last.
#[test]
fn stops_at_a_step_that_stalls(rt: HostRuntime) -> Result<(), Fail> {
    for place in 0..=COMBINED.len() {
        let steps = with_a_stall(rt.alloc(), place)?;
        let machines = (two_adds(rt.alloc())?, two_adds(rt.alloc())?);
        lend((machines, steps), |((machine, wanted), steps)| {
            assert_same!(rt; replay(machine, steps.as_slice()), Err(StalledStep { place }));
            wanted.run(&COMBINED[..place]);
            assert_same!(rt; look_at(machine), look_at(wanted), place);
            assert_same!(rt; machine.is_idle(), wanted.is_idle(), place);
        });
    }
    Ok(())
}
