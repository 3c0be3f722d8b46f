//! Arbiters that name the steps of a list. Each step is asked for once, in that order, whether a thread has its arbiter
//! name one step at a time or many ahead. So the number of rounds of a run is known.

ghost use Rattle.std.specs.Prelude.{◌≤◌};

use super::rounds::{Seen, run_text};
use processor_threads::{Gate, RunFault};
use schedules::Arbiter;
use std::alloc::{AllocGlobal, Global};
use std::process::Abort;
use std::sync::Wait;
use std::sync::atomic::{AtomicU64, Ordering};
use std::test::Fail;
use std::thread::Threads;
use steps::Step;
use test_support::{assert_same, lend};

/// Processor 0 adds 2 to word 0, and both halt.
const ADDS: &str = "
 addi x17, x0, 2
 ecall
 bne x10, x0, done
 lui x12, 0x80000
 amoadd.w x11, x17, (x12)
done: addi x17, x0, 0
 addi x10, x0, 0
 ecall
";

/// A service at a module to which no request comes.
const NOTHING: Step = Step::Serve(1);

/// The steps of the request and of the reply, with steps between them that do nothing.
static WAY: [Step; 7] = [
    NOTHING,
    NOTHING,
    NOTHING,
    Step::Up { stage: 0, wire: 0 },
    NOTHING,
    Step::Serve(0),
    Step::Down { stage: 0, wire: 0 },
];

/// Names this many steps that do nothing, then the steps of the list from a place on, and then steps that do nothing.
#[derive(Drop)]
struct ByList {
    idle: usize,
    place: usize,
}

impl Arbiter for ByList {
    fn next(&mut self, _k: u8) -> Step
        requires { _k ≤ 6 }
    {
        if self.idle > 0 {
            self.idle -= 1;
            return NOTHING;
        }
        let step = match WAY.get(self.place) {
            Some(step) => *step,
            None => NOTHING,
        };
        self.place = self.place.saturating_add(1);
        step
    }
}

/// Runs the program with such arbiters. That of processor 0 names the whole list, and that of the other none of it.
fn run_listed<G: Gate + Sync, R: Threads + Wait + Sync>(
    rt: &R,
    alloc: Global,
    gate: &G,
    idle: usize,
    budget: u32,
) -> Result<Seen, Fail> {
    let arbiter = |p: u8| ByList {
        idle,
        place: usize::from(p) * WAY.len(),
    };
    run_text(rt, alloc, ADDS, 1, arbiter, gate, budget)
}

/// A gate that lets this many rounds pass at once, and adds up the arguments of its calls.
#[derive(Drop)]
struct Sums {
    at_once: usize,
    /// How often the gate was passed, and the sums of the processors and of the turns with which it was.
    passed: AtomicU64,
    processors: AtomicU64,
    turns: AtomicU64,
    /// The rounds and the instructions that were reported.
    rounds: AtomicU64,
    retired: AtomicU64,
}

impl Sums {
    fn new(at_once: usize) -> Self {
        Sums {
            at_once,
            passed: AtomicU64::new(0),
            processors: AtomicU64::new(0),
            turns: AtomicU64::new(0),
            rounds: AtomicU64::new(0),
            retired: AtomicU64::new(0),
        }
    }

    fn all(&self) -> [u64; 5] {
        [
            self.passed.load(Ordering::SeqCst),
            self.processors.load(Ordering::SeqCst),
            self.turns.load(Ordering::SeqCst),
            self.rounds.load(Ordering::SeqCst),
            self.retired.load(Ordering::SeqCst),
        ]
    }
}

impl Gate for Sums {
    fn before(&self, p: u8, turn: u64) {
        self.passed.fetch_add(1, Ordering::SeqCst);
        self.processors.fetch_add(u64::from(p), Ordering::SeqCst);
        self.turns.fetch_add(turn, Ordering::SeqCst);
    }

    fn at_once(&self) -> usize {
        self.at_once
    }

    fn progress(&self, rounds: u64, retired: u64) {
        self.rounds.fetch_add(rounds, Ordering::SeqCst);
        self.retired.fetch_add(retired, Ordering::SeqCst);
    }
}

/// How many rounds pass a gate at once, how many steps that do nothing come before the list, how many rounds count
/// towards the budget, and the sums of the gate.
///
/// Processor 0 sends its request in its first round, after its local instructions. With no step before the list the
/// fourth round moves it, the sixth serves it, the seventh moves the reply, the eighth takes it, and in the ninth the
/// processor halts. The other halts in its first round. If one round passes at a time, each counts. If many do, the six
/// rounds of processor 0 that do something count, and of the others the first of each 512: with 507 steps before the
/// list the move is in the 511th round, and with 508 the 513th does nothing.
static RUNS: [(usize, usize, u32, [u64; 5]); 6] = [
    (1, 0, 9, [10, 1, 36, 10, 12]),
    (1, 3, 12, [13, 1, 66, 13, 12]),
    (usize::MAX, 0, 7, [3, 1, 8, 10, 12]),
    (usize::MAX, 507, 7, [4, 1, 1027, 517, 12]),
    (usize::MAX, 508, 8, [4, 1, 1028, 518, 12]),
    (usize::MAX, 1100, 9, [5, 1, 2644, 1110, 12]),
];

/// Checks the fault of a run of this row with this budget, which is that of processor 0's thread, and how many
/// instructions the processors retired. Returns the gate of the run.
fn ends(
    rt: &(impl Threads + Wait + Abort + Sync + AllocGlobal),
    (at_once, idle): (usize, usize),
    budget: u32,
    fault: Option<RunFault>,
    retired: [usize; 2],
) -> Result<Sums, Fail> {
    let gate = Sums::new(at_once);
    lend(run_listed(rt, rt.alloc(), &gate, idle, budget)?, |seen| {
        assert_same!(rt; seen.fault, fault, (at_once, idle, budget));
        assert_same!(rt; seen.faults.as_slice(), [fault, None].as_slice(), (at_once, idle, budget));
        assert_same!(rt; seen.retired.as_slice(), retired.as_slice(), (at_once, idle, budget));
    });
    Ok(gate)
}

/// Each step is named once, so the number of rounds is known. A run needs a budget of the rounds that count, and does
/// the same with a larger one.
#[test]
fn each_step_once(rt: HostRuntime) -> Result<(), Fail> {
    for (at_once, idle, rounds, sums) in RUNS {
        let row = (at_once, idle);
        let gate = ends(&rt, row, 1_000_000, None, [7, 5])?;
        assert_same!(rt; gate.all(), sums, row);
        ends(&rt, row, rounds, None, [7, 5])?;
        ends(
            &rt,
            row,
            rounds.saturating_sub(1),
            Some(RunFault::Budget),
            [5, 5],
        )?;
    }
    Ok(())
}

/// A processor that sends two bytes, and then halts.
const SENDS_TWO: &str = "addi x17, x0, 1\naddi x10, x0, 65\necall\necall\naddi x17, x0, 0\necall\n";

/// Runs it with an arbiter that names no step of the list.
fn run_sending<G: Gate + Sync, R: Threads + Wait + Sync>(
    rt: &R,
    alloc: Global,
    gate: &G,
    budget: u32,
) -> Result<Seen, Fail> {
    let arbiter = |_p: u8| ByList {
        idle: 0,
        place: WAY.len(),
    };
    run_text(rt, alloc, SENDS_TWO, 0, arbiter, gate, budget)
}

/// Each byte ends a loan, is held, and is sent in a round of its own, in which no gate is passed. With the halt there
/// are five rounds.
#[test]
fn byte_takes_a_round(rt: HostRuntime) -> Result<(), Fail> {
    let gate = Sums::new(usize::MAX);
    lend(run_sending(&rt, rt.alloc(), &gate, 5)?, |seen| {
        assert_same!(rt; seen.fault, None);
        assert_same!(rt; gate.all(), [3, 0, 3, 5, 5]);
        for bytes in &seen.consoles {
            assert_same!(rt; bytes.as_slice(), b"AA".as_slice());
        }
    });
    lend(run_sending(&rt, rt.alloc(), &Sums::new(1), 4)?, |seen| {
        assert_same!(rt; seen.fault, Some(RunFault::Budget));
    });
    Ok(())
}
