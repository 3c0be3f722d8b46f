//! A run of a logged machine on threads.

ghost use Rattle.std.specs.Prelude.{◌≡◌, ℕ, ◌≤◌, ◌^◌, true, None, Some, [], ◌∷◌, ◌++◌, Contains, map, replicate};
ghost use Rattle.std.specs.Prelude.{slice_get, vec_capacity, vec_len};
ghost use Rattle.machine_lock.specs.Rows.{Fits};
ghost use Rattle.machine_lock.specs.Passes.{Held, IsWhole, TotalsAgree, new_passes, rows_of};
ghost use Rattle.console_monitor.specs.Ends.{queues_of, sent_by};
ghost use Rattle.processor_threads.specs.Consoles.{AreBeginnings, bytes_of, console_of, end_queue};
ghost use Rattle.processor_threads.specs.Endings.{AreEnded, EndsWithStop, IsOfMemory, WereMade};
ghost use Rattle.processor_threads.specs.Faults.{fault_of, is_of_listener};
ghost use Rattle.processor_threads.specs.declared.fault.RunFault.{RunFault};
ghost use Rattle.processor_threads.specs.declared.fault.RunFault.TheVariants.{Cancelled};

use crate::context::RunContext;
use crate::fault::{RunFault, fault_of, graver_of};
use crate::gate::Gate;
use crate::listener::{Listener, consoles};
use crate::workers::{AllBack, Workers, run_workers};
use flat_machine::Config;
use ghost_map::NewTable;
use machine_lock::{Pass, PassState, Run, Shared};
use machine_log::Logged;
use schedules::Arbiter;
use std::alloc::Global;
use std::sync::Wait;
use std::thread::Threads;

/// How a run on threads ended.
#[derive(Drop)]
pub struct Ended<N: Run> {
    /// The logged machine.
    pub logged: Logged,
    /// The passes of all processors, in order; none if there was no memory to begin.
    pub passes: Vec<Pass<N>>,
    /// The bytes that each processor sent to the console.
    pub consoles: Vec<Vec<u8>>,
    /// The fault of each processor's thread, in order. A thread that has none stopped its processor.
    pub faults: Vec<Option<RunFault>>,
    /// The fault of the thread that listens to the consoles: [`RunFault::Console`] or [`RunFault::Start`].
    pub listener: Option<RunFault>,
    /// The fault of the run: of the faults above, the listener's last, the first that is of the host, which is out of
    /// memory or could not start a thread; if there is none, the first of all. That a thread was cancelled is reported
    /// only if there is no other fault.
    pub fault: Option<RunFault>,
}

/// Runs a logged machine on threads: one for each processor, with an arbiter of its own, and one that listens to the
/// consoles. A thread takes at most as many rounds as the budget allows. In a round it tries to send the byte that it
/// holds for the console, if any. If it holds none, it calls the gate, takes up to 64 local instructions with the
/// processor's core on loan, if there may be some, and then, unless it now holds a byte, a turn. Then it asks its
/// arbiter for a step of the network, and asks the machine to take it.
///
/// A thread ends when its processor stops, or with a fault. Any fault except that of a budget ends the run: each other
/// thread that has not stopped its processor by then stops before its next round ([`RunFault::Cancelled`]).
pub fn run_threads<
    N: Run + Send + Sync,
    A: Arbiter + Send + Drop,
    G: Gate + Sync,
    R: Threads + Wait + Sync,
>(
    rt: &R,
    alloc: Global,
    room: NewTable<PassState>,
    logged: Logged,
    arbiters: Vec<A>,
    gate: &G,
    budget: u32,
) -> Ended<N>
    requires room { room ≡ N.table }
    requires opening { logged.opening ≡ N.opening }
    requires first { logged.steps ≡ N.first }
    requires count { N.count ≡ 2 ^ N.opening.config.k }
    requires arbiters { vec_len arbiters ≡ N.count }
    ensures opening { result.logged.opening ≡ N.opening }
    ensures refused { result.passes.items ≡ [] → (result.logged ≡ logged) × IsOfMemory result.fault }
    ensures whole { WereMade result.passes.items → IsWhole N.count result.passes.items }
    ensures fits { WereMade result.passes.items →
        Fits N.opening N.first N.count result.logged.steps (rows_of result.passes.items) }
    ensures totals { WereMade result.passes.items →
        TotalsAgree N.opening N.first result.logged.steps result.passes.items }
    ensures consoles { AreBeginnings (map bytes_of result.consoles.items) (map console_of result.passes.items) }
    ensures sent { result.fault ≡ None → map bytes_of result.consoles.items ≡ map console_of result.passes.items }
    ensures stopped { result.fault ≡ None → (p : ℕ) (h : Held) → slice_get result.passes.items p ≡ Some h →
        EndsWithStop h }
    ensures ended { AreEnded result.faults.items result.passes.items }
    ensures listener { is_of_listener result.listener ≡ true }
    ensures fault { WereMade result.passes.items →
        result.fault ≡ fault_of (result.faults.items ++ result.listener ∷ []) }
    ensures cancelled { result.fault ≡ Some Cancelled → (f : RunFault) →
        Contains (result.faults.items ++ result.listener ∷ []) (Some f) → f ≡ Cancelled }
{
    let config = size(&logged);
    let Ok((ends, listener)) = consoles(alloc, config.processors()) else {
        return unstarted_run(alloc, logged, RunFault::Console);
    };
    let Ok(faults) = Vec::with_capacity(alloc, usize::from(config.processors())) else {
        return unstarted_run(alloc, logged, RunFault::Memory);
    };
    match Shared::<N>::new(alloc, room, logged) {
        Err((logged, _)) => unstarted_run(alloc, logged, RunFault::Memory),
        Ok((shared, passes)) => {
            let workers = Workers {
                passes,
                ends,
                arbiters,
                faults,
            };
            let context = RunContext::new(alloc, config.k, budget);
            run_made(rt, alloc, shared, context, gate, workers, listener)
        }
    }
}

/// The size of a log's machine.
fn size(logged: &Logged) -> Config
    ensures size { result ≡ logged.now.opening.config }
    ensures few { result.k ≤ 6 }
{
    logged.machine().config()
}

/// A run that did not begin.
fn unstarted_run<N: Run>(alloc: Global, logged: Logged, fault: RunFault) -> Ended<N>
    ensures logged { result.logged ≡ logged }
    ensures passes { result.passes.items ≡ [] }
    ensures consoles { result.consoles.items ≡ [] }
    ensures faults { result.faults.items ≡ [] }
    ensures listener { result.listener ≡ None }
    ensures fault { result.fault ≡ Some fault }
{
    Ended {
        logged,
        passes: Vec::new(alloc),
        consoles: Vec::new(alloc),
        faults: Vec::new(alloc),
        listener: None,
        fault: Some(fault),
    }
}

/// Runs threads after all that they begin with was made.
fn run_made<
    N: Run + Send + Sync,
    A: Arbiter + Send + Drop,
    G: Gate + Sync,
    R: Threads + Wait + Sync,
>(
    rt: &R,
    alloc: Global,
    shared: Shared<N>,
    context: RunContext,
    gate: &G,
    workers: Workers<N, A>,
    listener: Listener,
) -> Ended<N>
    requires passes { workers.passes.items ≡ new_passes N.count }
    requires ends { map sent_by workers.ends.items ≡ replicate N.count [] }
    requires arbiters { vec_len workers.arbiters ≡ N.count }
    requires queues { map end_queue workers.ends.items ≡ queues_of listener.monitor }
    requires whole { IsWhole N.count workers.passes.items }
    requires faults { workers.faults.items ≡ [] }
    requires room { vec_len workers.passes ≤ vec_capacity workers.faults }
    ensures opening { result.logged.opening ≡ N.opening }
    ensures whole { IsWhole N.count result.passes.items }
    ensures fits { Fits N.opening N.first N.count result.logged.steps (rows_of result.passes.items) }
    ensures totals { TotalsAgree N.opening N.first result.logged.steps result.passes.items }
    ensures consoles { AreBeginnings (map bytes_of result.consoles.items) (map console_of result.passes.items) }
    ensures sent { result.fault ≡ None → map bytes_of result.consoles.items ≡ map console_of result.passes.items }
    ensures stopped { result.fault ≡ None → (p : ℕ) (h : Held) → slice_get result.passes.items p ≡ Some h →
        EndsWithStop h }
    ensures ended { AreEnded result.faults.items result.passes.items }
    ensures listener { is_of_listener result.listener ≡ true }
    ensures fault { result.fault ≡ fault_of (result.faults.items ++ result.listener ∷ []) }
{
    let AllBack { workers, listener } = run_workers(rt, &shared, &context, gate, workers, listener);
    let Workers {
        passes,
        ends,
        arbiters: _,
        faults,
    } = workers;
    let (logged, passes) = shared.gather(passes);
    let (consoles, listener) = listener.finish(rt, alloc, ends);
    let fault = graver_of(fault_of(faults.as_slice()), listener);
    Ended {
        logged,
        passes,
        consoles,
        faults,
        listener,
        fault,
    }
}
