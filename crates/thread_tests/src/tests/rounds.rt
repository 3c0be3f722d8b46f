//! Programs on threads. The images are assembled from texts, and what is expected is worked out by hand.

ghost use Rattle.std.specs.Prelude.{◌≡◌, ◌^◌, IfOk, vec_len};

use flat_machine::{Event, Status};
use ghost_map::NewTable;
use machine_lock::{Pass, PassState, Run};
use machine_log::Logged;
use processor_threads::{Gate, Open, RunFault, run_threads};
use schedules::{Arbiter, Shuffled};
use std::alloc::Global;
use std::marker::Brand;
use std::process::Abort;
use std::sync::Wait;
use std::sync::atomic::{AtomicU64, Ordering};
use std::test::Fail;
use std::thread;
use std::thread::Threads;
use std::time::{Clock, Duration};
use test_support::{HUNDRED_ADDS, assert_same, lend, log_of, size};

/// An arbiter for each processor of a log.
fn arbiters<A: Drop, F: Fn(u8) -> A>(
    alloc: Global,
    logged: &Logged,
    arbiter: F,
) -> Result<Vec<A>, Fail>
    requires { F.IsAlwaysCallable arbiter }
    ensures { IfOk result (λ arbiters. vec_len arbiters ≡ 2 ^ logged.now.opening.config.k) }
{
    let mut arbiters = Vec::new(alloc);
    for p in 0..logged.machine().config().processors() {
        arbiters.push(arbiter(p))?;
    }
    Ok(arbiters)
}

/// What tests look at after a run.
#[derive(Drop)]
pub(super) struct Seen {
    pub(super) logged: Logged,
    pub(super) fault: Option<RunFault>,
    /// The fault of each processor's thread, and of the listener.
    pub(super) faults: Vec<Option<RunFault>>,
    pub(super) listener: Option<RunFault>,
    pub(super) consoles: Vec<Vec<u8>>,
    /// How many instructions each processor retired, by its pass.
    pub(super) retired: Vec<usize>,
}

/// Runs a log on threads.
fn run<N: Run + Send + Sync, A: Arbiter + Send + Drop, G: Gate + Sync, R: Threads + Wait + Sync>(
    rt: &R,
    limits: (Global, &G, u32),
    room: NewTable<PassState>,
    logged: Logged,
    arbiters: Vec<A>,
) -> Result<Seen, Fail>
    requires room { room ≡ N.table }
    requires opening { logged.opening ≡ N.opening }
    requires first { logged.steps ≡ N.first }
    requires count { N.count ≡ 2 ^ N.opening.config.k }
    requires arbiters { vec_len arbiters ≡ N.count }
{
    let (alloc, gate, budget) = limits;
    let ended = run_threads::<N, A, G, R>(rt, alloc, room, logged, arbiters, gate, budget);
    let mut retired = Vec::new(alloc);
    for pass in &ended.passes {
        retired.push(retired_by(pass))?;
    }
    Ok(Seen {
        logged: ended.logged,
        fault: ended.fault,
        faults: ended.faults,
        listener: ended.listener,
        consoles: ended.consoles,
        retired,
    })
}

/// How many instructions a processor retired, by its pass.
fn retired_by<N: Run>(pass: &Pass<N>) -> usize {
    let pass_events = pass.pass_events();
    pass_events
        .iter()
        .filter(|pass_event| matches!(pass_event.event, Event::Retired(_)))
        .count()
}

/// Runs the image of a text on `2^k` processors, each of which has an arbiter.
pub(super) fn run_text<
    A: Arbiter + Send + Drop,
    F: Fn(u8) -> A,
    G: Gate + Sync,
    R: Threads + Wait + Sync,
>(rt: &R, alloc: Global, text: &str, k: u8, arbiter: F, gate: &G, budget: u32) -> Result<Seen, Fail>
    requires { F.IsAlwaysCallable arbiter }
{
    let logged = log_of(alloc, text, size(k))?;
    let room = NewTable::new(alloc)?;
    let arbiters = arbiters(alloc, &logged, arbiter)?;
    run::<Brand, A, G, R>(rt, (alloc, gate, budget), room, logged, arbiters)
}

/// The arbiter of a processor, in a run whose start is 1.
pub(super) fn shuffled(p: u8) -> Shuffled {
    Shuffled::new(1, p)
}

/// A budget that no program here uses up, unless a thread cannot go on.
const AMPLE: u32 = 10_000_000;

/// Checks that each of two processors retired its 311 instructions, and that the word has all adds.
fn have_added(rt: &impl Abort, seen: &Seen) {
    assert_same!(rt; seen.fault, None);
    assert_same!(rt; seen.faults.as_slice(), [None, None].as_slice());
    assert_same!(rt; seen.listener, None);
    assert_same!(rt; seen.retired.as_slice(), [311, 311].as_slice());
    assert_same!(rt; seen.logged.machine().word(0), Some(200));
}

/// Each of two processors reads at least its own sum and prints its `A`.
#[test]
fn a_hundred_adds_each(rt: HostRuntime) -> Result<(), Fail> {
    lend(
        run_text(&rt, rt.alloc(), HUNDRED_ADDS, 1, shuffled, &Open, AMPLE)?,
        |seen| {
            have_added(&rt, seen);
            assert_same!(rt; seen.consoles.len(), 2);
            for bytes in &seen.consoles {
                assert_same!(rt; bytes.as_slice(), b"A".as_slice());
            }
            let machine = seen.logged.machine();
            assert_same!(rt; machine.status(0), Some(Status::Halted(0)));
            assert_same!(rt; machine.pc(1), Some(0x0001_0038));
        },
    );
    Ok(())
}

/// A processor that sends 300 bytes, more than its queue holds.
pub(super) const SENDS_MANY: &str = "
 addi x17, x0, 1
 addi x10, x0, 65
 addi x6, x0, 300
loop: ecall
 addi x6, x6, -1
 bne x6, x0, loop
 addi x17, x0, 0
 addi x10, x0, 0
 ecall
";

/// None of the 300 bytes is lost.
#[test]
fn more_bytes_than_a_queue_holds(rt: HostRuntime) -> Result<(), Fail> {
    lend(
        run_text(&rt, rt.alloc(), SENDS_MANY, 0, shuffled, &Open, AMPLE)?,
        |seen| {
            assert_same!(rt; seen.fault, None);
            assert_same!(rt; seen.retired.as_slice(), [905].as_slice());
            assert_same!(rt; seen.consoles.len(), 1);
            for bytes in &seen.consoles {
                assert_same!(rt; bytes.as_slice(), [b'A'; 300].as_slice());
            }
            assert_same!(rt; seen.logged.machine().pc(0), Some(0x0001_0020));
        },
    );
    Ok(())
}

/// Holds back the first turn of processor 1 until processor 0 is about to take its first, and that turn until processor
/// 1 is about to take its second. So no thread can take all turns one after another, and none can come to the gate
/// while it holds the lock.
#[derive(Drop)]
struct Turnstile<'a, C: Clock> {
    clock: &'a C,
    /// Not 0 after processor 0 has come to the gate for its first turn.
    begun: AtomicU64,
    /// Not 0 after processor 1 has taken its first turn and come to the gate for its second.
    answered: AtomicU64,
    /// Not 0 after a wait that was too long.
    gave_up: AtomicU64,
}

impl<C: Clock> Turnstile<'_, C> {
    /// Waits until the flag is up, for ten seconds at most.
    fn wait_for(&self, flag: &AtomicU64) {
        for _ in 0..10_000 {
            if flag.load(Ordering::SeqCst) != 0 {
                return;
            }
            thread::sleep(self.clock, Duration::from_millis(1));
        }
        self.gave_up.store(1, Ordering::SeqCst);
    }
}

impl<C: Clock> Gate for Turnstile<'_, C> {
    fn before(&self, p: u8, turn: u64) {
        match (p, turn) {
            (0, 0) => {
                self.begun.store(1, Ordering::SeqCst);
                self.wait_for(&self.answered);
            }
            (1, 0) => self.wait_for(&self.begun),
            (1, 1) => self.answered.store(1, Ordering::SeqCst),
            _ => {}
        }
    }
}

/// Two threads run side by side: neither order in which one thread would run both processors gets through the gate.
/// Both flags are up at the end, so the gate was called before each turn that it waits for.
#[test]
fn side_by_side(rt: HostRuntime) -> Result<(), Fail> {
    let gate = Turnstile {
        clock: &rt,
        begun: AtomicU64::new(0),
        answered: AtomicU64::new(0),
        gave_up: AtomicU64::new(0),
    };
    lend(
        run_text(&rt, rt.alloc(), HUNDRED_ADDS, 1, shuffled, &gate, AMPLE)?,
        |seen| {
            assert_same!(rt; gate.gave_up.load(Ordering::SeqCst), 0);
            assert_same!(rt; gate.begun.load(Ordering::SeqCst), 1);
            assert_same!(rt; gate.answered.load(Ordering::SeqCst), 1);
            have_added(&rt, seen);
        },
    );
    Ok(())
}
