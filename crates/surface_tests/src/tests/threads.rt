//! A program on two threads, and the steps that the arbiter picks.

ghost use Rattle.std.specs.Prelude.{◌≡◌, ◌^◌, IfOk, vec_len};

use machine_lock::{Logged, NewTable, PassState, Run};
use machine_steps::{Machine, Status, Step};
use processor_threads::{Arbiter, Ended, Gate, Shuffled, run_threads};
use std::alloc::Global;
use std::marker::Brand;
use std::process::Abort;
use std::sync::Wait;
use std::sync::atomic::{AtomicU64, Ordering};
use std::test::Fail;
use std::thread::Threads;
use test_support::{assert_same, lend, log_of, size};

/// Each processor adds 1 to shared word 0, writes `A` to the console, and halts with that byte.
const TEXT: &str = "
 lui x12, 0x80000
 addi x11, x0, 1
 amoadd.w x13, x11, (x12)
 addi x17, x0, 1
 addi x10, x0, 65
 ecall
 addi x17, x0, 0
 ecall
";

/// Lets all threads through, and records whether those of processors 0 and 1 have come.
#[derive(Drop)]
struct Counted {
    first: AtomicU64,
    second: AtomicU64,
}

impl Gate for Counted {
    fn before(&self, p: u8, turn: u64) {
        match (p, turn) {
            (0, 0) => self.first.store(1, Ordering::SeqCst),
            (1, 0) => self.second.store(1, Ordering::SeqCst),
            _ => {}
        }
    }
}

/// An arbiter for each processor of a log.
fn arbiters(alloc: Global, logged: &Logged) -> Result<Vec<Shuffled>, Fail>
    ensures { IfOk result (λ arbiters. vec_len arbiters ≡ 2 ^ logged.now.opening.config.k) }
{
    let mut arbiters = Vec::new(alloc);
    for p in 0..logged.machine().config().processors() {
        arbiters.push(Shuffled::new(1, p))?;
    }
    Ok(arbiters)
}

/// Checks that the machine has the adds, and each console its byte.
fn has_run<N: Run>(rt: &impl Abort, ended: &Ended<N>) {
    assert_same!(rt; (ended.fault, ended.listener), (None, None));
    assert_same!(rt; ended.faults.as_slice(), [None, None].as_slice());
    assert_same!(rt; ended.passes.len(), 2);
    have_written(rt, ended.consoles.as_slice());
    have_halted(rt, ended.logged.machine());
}

/// Checks that each of two consoles has its byte.
fn have_written(rt: &impl Abort, consoles: &[Vec<u8>]) {
    assert_same!(rt; consoles.len(), 2);
    for bytes in consoles {
        assert_same!(rt; bytes.as_slice(), b"A".as_slice());
    }
}

/// Checks that the word has both adds, and that processor 1 has halted.
fn have_halted(rt: &impl Abort, machine: &Machine) {
    assert_same!(rt; machine.word(0), Some(2));
    assert_same!(rt; machine.status(1), Some(Status::Halted(65)));
}

/// Runs a log on threads.
fn go<N: Run + Send + Sync, R: Threads + Wait + Sync + Abort>(
    rt: &R,
    alloc: Global,
    room: NewTable<PassState>,
    logged: Logged,
    arbiters: Vec<Shuffled>,
) -> Result<(), Fail>
    requires room { room ≡ N.table }
    requires opening { logged.opening ≡ N.opening }
    requires first { logged.steps ≡ N.first }
    requires count { N.count ≡ 2 ^ N.opening.config.k }
    requires arbiters { vec_len arbiters ≡ N.count }
{
    let gate = Counted {
        first: AtomicU64::new(0),
        second: AtomicU64::new(0),
    };
    let ended = run_threads::<N, Shuffled, Counted, R>(
        rt, alloc, room, logged, arbiters, &gate, 1_000_000,
    );
    lend(ended, |ended| has_run(rt, ended));
    assert_same!(rt; gate.first.load(Ordering::SeqCst), 1);
    assert_same!(rt; gate.second.load(Ordering::SeqCst), 1);
    Ok(())
}

/// Runs a log on threads, with a new table.
fn attempt<R: Threads + Wait + Sync + Abort>(
    rt: &R,
    alloc: Global,
    logged: Logged,
    arbiters: Vec<Shuffled>,
) -> Result<(), Fail>
    requires { vec_len arbiters ≡ 2 ^ logged.opening.config.k }
{
    match NewTable::new(alloc) {
        Ok(room) => go::<Brand, R>(rt, alloc, room, logged, arbiters),
        Err(error) => Err(Fail::from(error)),
    }
}

/// Runs the program on two threads.
fn run_two<R: Threads + Wait + Sync + Abort>(rt: &R, alloc: Global) -> Result<(), Fail> {
    let logged = log_of(alloc, TEXT, size(1))?;
    match arbiters(alloc, &logged) {
        Ok(arbiters) => attempt(rt, alloc, logged, arbiters),
        Err(fail) => Err(fail),
    }
}

#[test]
fn two_threads(rt: HostRuntime) -> Result<(), Fail> {
    run_two(&rt, rt.alloc())
}

/// After state 1 the generator has the states 270369 and 67634689. Two stages have 20 steps, of which both states pick
/// the tenth, the service of module 1.
#[test]
fn steps_are_shuffled(rt: HostRuntime) {
    let mut arbiter = Shuffled::new(1, 0);
    assert_same!(rt; arbiter.next(2), Step::Serve(1));
    assert_same!(rt; arbiter.next(2), Step::Serve(1));
}
