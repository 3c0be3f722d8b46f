//! Latencies of steps, worked out by hand.

use flat_machine::Retired;
use run_counts::{Latencies, latencies_text};
use rv_table::Insn;
use std::alloc::AllocError;
use std::process::Abort;
use std::test::Fail;
use steps::{Outcome, Step};
use test_support::{assert_same, lend};

/// An instruction that has retired.
const RETIRED: Outcome = Outcome::Retired(Retired {
    pc: 0x0001_0000,
    insn: Insn::Ecall,
    result: None,
    out: None,
});

/// Observes a turn of a processor.
fn turn(
    rt: &impl Abort,
    latencies: &mut Latencies,
    processor: u8,
    outcome: &Outcome,
    word: Option<u32>,
) -> Result<(), AllocError> {
    assert!(rt; latencies.rounds() < 1000);
    latencies.observe(&Step::Turn(processor), outcome, word)
}

/// Processors 0 and 1 refer to word 5 in the first round. Twenty turns of processor 2 follow, on no word, of which the
/// first is in that round, and then processors 0 and 1 retire in round 21. Processor 0 refers to word 3 in round 22, and
/// retires in the next.
fn wait_long(rt: &impl Abort, latencies: &mut Latencies) -> Result<(), AllocError> {
    turn(rt, latencies, 0, &Outcome::Issued, Some(5))?;
    turn(rt, latencies, 1, &Outcome::Issued, Some(5))?;
    for _ in 0..20 {
        turn(rt, latencies, 2, &RETIRED, None)?;
    }
    turn(rt, latencies, 0, &RETIRED, Some(5))?;
    turn(rt, latencies, 1, &RETIRED, Some(5))?;
    turn(rt, latencies, 0, &Outcome::Issued, Some(3))?;
    turn(rt, latencies, 0, &RETIRED, Some(3))
}

/// Processor 3 refers to word 0 twelve times. Each time its next turn is in the next round, but at last two turns of
/// processor 2 come between, the first of which begins a round and the second another one, in which processor 3 retires.
/// The mean, 13 rounds by 12, is a little more than 1.08, and that of all, 54 by 15, is 3.6.
fn wait_once(rt: &impl Abort, latencies: &mut Latencies) -> Result<(), AllocError> {
    for _ in 0..11 {
        turn(rt, latencies, 3, &Outcome::Issued, Some(0))?;
        turn(rt, latencies, 3, &RETIRED, Some(0))?;
    }
    turn(rt, latencies, 3, &Outcome::Issued, Some(0))?;
    turn(rt, latencies, 2, &RETIRED, None)?;
    turn(rt, latencies, 2, &RETIRED, None)?;
    turn(rt, latencies, 3, &RETIRED, Some(0))
}

#[test]
fn lines_of_latencies(rt: HostRuntime) -> Result<(), Fail> {
    let text = lend(Latencies::new(rt.alloc(), 6)?, |latencies| {
        wait_long(&rt, latencies)?;
        wait_once(&rt, latencies)?;
        latencies_text(rt.alloc(), latencies)
    })?;
    assert_same!(rt; text.as_str(), "latency all references 15 least 1 mean 3.60 greatest 20 rounds 1x12 2x1 16x2
latency processor 0 references 2 least 1 mean 10.50 greatest 20 rounds 1x1 16x1
latency processor 1 references 1 least 20 mean 20.00 greatest 20 rounds 16x1
latency processor 3 references 12 least 1 mean 1.08 greatest 2 rounds 1x11 2x1
latency word 0 references 12 least 1 mean 1.08 greatest 2 rounds 1x11 2x1
latency word 3 references 1 least 1 mean 1.00 greatest 1 rounds 1x1
latency word 5 references 2 least 20 mean 20.00 greatest 20 rounds 16x2
");
    Ok(())
}
