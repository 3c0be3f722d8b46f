//! A thread for each processor, and one that listens to their consoles.

ghost use Rattle.std.specs.Prelude.{◌≡◌, ◌+◌, ◌≤◌, ◌<◌, [], ◌∷◌, ◌++◌, IfErr, IfOk, IfSome, IfNone, vec_capacity};
ghost use Rattle.std.specs.Prelude.{vec_len, map};
ghost use Rattle.console_monitor.specs.Ends.{queues_of};
ghost use Rattle.processor_threads.specs.Endings.{AllComeBack, AreSent, ComesBack};

use crate::context::{LISTENER, RunContext};
use crate::fault::RunFault;
use crate::gate::Gate;
use crate::handle::ProcessorHandle;
use crate::listener::Listener;
use crate::worker::{Back, Worker};
use console_monitor::End;
use machine_lock::{Pass, Run, Shared};
use schedules::Arbiter;
use std::snapshot::Snapshot;
use std::sync::Wait;
use std::thread;
use std::thread::{Promise, PromisedHandle, Threads};

/// What the threads of processors begin with, and what is left of them. For each, in order: its pass, the end of its
/// console's queue and its arbiter, and after it has ended, its fault.
#[derive(Drop)]
pub(crate) struct Workers<N: Run, A: Drop> {
    pub(crate) passes: Vec<Pass<N>>,
    pub(crate) ends: Vec<End>,
    pub(crate) arbiters: Vec<A>,
    pub(crate) faults: Vec<Option<RunFault>>,
}

/// A promise that what a thread was given comes back.
#[derive(Drop)]
pub(crate) struct Returns<N: Run>(Snapshot<ProcessorHandle<N>>);

impl<N: Run> Promise<Back<N>> for Returns<N> {
    ghost use Rattle.processor_threads.specs.Endings.{ComesBack};

    ghost kept_by = { λ p b. ComesBack p.0.value.pass p.0.value.end b.handle.pass b.handle.end b.fault };
}

/// A promise that a listener comes back.
#[derive(Drop)]
pub(crate) struct Listens(Snapshot<Listener>);

impl Promise<Listener> for Listens {
    ghost use Rattle.std.specs.Prelude.{◌≡◌};
    ghost use Rattle.console_monitor.specs.Ends.{queues_of};

    ghost kept_by = { λ p l. queues_of l.monitor ≡ queues_of p.0.value.monitor };
}

impl<N: Run, A: Arbiter + Drop> Workers<N, A> {
    /// Removes and returns what the last thread begins with.
    fn pop(&mut self) -> Option<Worker<N, A>>
        requires ends { vec_len self.old.ends ≡ vec_len self.old.passes }
        requires arbiters { vec_len self.old.arbiters ≡ vec_len self.old.passes }
        requires sent { AreSent self.old.passes.items self.old.ends.items }
        ensures none { IfNone result ((self.old.passes.items ≡ []) × (self.new.passes.items ≡ self.old.passes.items)
            × (self.new.ends.items ≡ self.old.ends.items)) }
        ensures pass { IfSome result (λ w. self.old.passes.items ≡ self.new.passes.items ++ w.handle.pass ∷ []) }
        ensures end { IfSome result (λ w. self.old.ends.items ≡ self.new.ends.items ++ w.handle.end ∷ []) }
        ensures arbiter { IfSome result (λ w. vec_len self.old.arbiters ≡ vec_len self.new.arbiters + 1) }
        ensures sent { AreSent self.new.passes.items self.new.ends.items }
        ensures turns { IfSome result (λ w. w.turns ≡ 0) }
        ensures faults { self.new.faults.items ≡ self.old.faults.items }
        ensures room { (vec_capacity self.new.passes ≡ vec_capacity self.old.passes)
            × (vec_capacity self.new.ends ≡ vec_capacity self.old.ends)
            × (vec_capacity self.new.faults ≡ vec_capacity self.old.faults) }
    {
        let Some(pass) = self.passes.pop() else {
            return None;
        };
        let end = self.ends.pop()?;
        let arbiter = self.arbiters.pop()?;
        Some(Worker {
            handle: ProcessorHandle {
                pass,
                end,
                waits: false,
            },
            arbiter,
            turns: 0,
        })
    }

    /// Puts back what came back from a thread. There is room for it.
    fn push_reserved(&mut self, back: Back<N>)
        requires passes { vec_len self.old.passes < vec_capacity self.old.passes }
        requires ends { vec_len self.old.ends < vec_capacity self.old.ends }
        requires faults { vec_len self.old.faults < vec_capacity self.old.faults }
        ensures pass { self.new.passes.items ≡ self.old.passes.items ++ back.handle.pass ∷ [] }
        ensures end { self.new.ends.items ≡ self.old.ends.items ++ back.handle.end ∷ [] }
        ensures fault { self.new.faults.items ≡ self.old.faults.items ++ back.fault ∷ [] }
        ensures room { (vec_capacity self.new.passes ≡ vec_capacity self.old.passes)
            × (vec_capacity self.new.ends ≡ vec_capacity self.old.ends)
            × (vec_capacity self.new.faults ≡ vec_capacity self.old.faults) }
    {
        self.passes.push_reserved(back.handle.pass);
        self.ends.push_reserved(back.handle.end);
        self.faults.push_reserved(back.fault);
    }
}

/// Starts the thread of a processor. If it cannot be started, what it was to have comes back at once.
fn start<
    's,
    E,
    N: Run + Send + Sync,
    A: Arbiter + Send + Drop + 's,
    G: Gate + Sync,
    R: Threads + Wait + Sync,
>(
    rt: &'s R,
    scope: &thread::Scope<'s, E>,
    shared: &'s Shared<N>,
    context: &'s RunContext,
    gate: &'s G,
    worker: Worker<N, A>,
) -> Result<PromisedHandle<Back<N>, Returns<N>>, Back<N>>
    requires { worker.turns ≡ 0 }
    ensures ok { IfOk result (λ h. (h.promise.0.value.pass ≡ worker.handle.pass)
        × (h.promise.0.value.end ≡ worker.handle.end)) }
    ensures err { IfErr result
        (λ b. ComesBack worker.handle.pass worker.handle.end b.handle.pass b.handle.end b.fault) }
{
    let processor = worker.handle.pass.processor();
    let promise = Returns(Snapshot::of(&worker.handle));
    match scope.spawn_with(
        promise,
        move || -> Back<N>
            requires { worker.turns ≡ 0 }
            ensures { ComesBack worker.handle.pass worker.handle.end result.handle.pass result.handle.end result.fault }
        { worker.run(rt, shared, context, gate) },
    ) {
        Ok(handle) => Ok(handle),
        Err(refused) => {
            context.report_unstarted(processor);
            Err((refused.value)())
        }
    }
}

/// Runs the thread of each processor, and puts what comes back in its place, with the thread's fault.
#[tactic(auto, using(crate::proofs::Rows::none_comes_back))]
pub(crate) fn run_all<
    's,
    E,
    N: Run + Send + Sync,
    A: Arbiter + Send + Drop + 's,
    G: Gate + Sync,
    R: Threads + Wait + Sync,
>(
    rt: &'s R,
    scope: &thread::Scope<'s, E>,
    shared: &'s Shared<N>,
    context: &'s RunContext,
    gate: &'s G,
    workers: &mut Workers<N, A>,
)
    requires ends { vec_len workers.old.ends ≡ vec_len workers.old.passes }
    requires arbiters { vec_len workers.old.arbiters ≡ vec_len workers.old.passes }
    requires sent { AreSent workers.old.passes.items workers.old.ends.items }
    requires faults { workers.old.faults.items ≡ [] }
    requires room { vec_len workers.old.passes ≤ vec_capacity workers.old.faults }
    ensures back { AllComeBack workers.old.passes.items workers.old.ends.items workers.new.passes.items
        workers.new.ends.items
        workers.new.faults.items }
    ensures many { vec_len workers.new.faults ≡ vec_len workers.old.passes }
    ensures room { (vec_capacity workers.old.passes ≤ vec_capacity workers.new.passes)
        × (vec_capacity workers.old.ends ≤ vec_capacity workers.new.ends)
        × (vec_capacity workers.old.faults ≤ vec_capacity workers.new.faults) }
{
    let Some(worker) = workers.pop() else {
        return;
    };
    let started = start(rt, scope, shared, context, gate, worker);
    run_all(rt, scope, shared, context, gate, workers);
    let back = match started {
        Ok(handle) => handle.join(rt),
        Err(back) => back,
    };
    workers.push_reserved(back);
}

/// Starts the listener's thread. If it cannot be started, the listener comes back at once.
fn start_listener<'s, E, R: Threads + Wait + Sync>(
    rt: &'s R,
    scope: &thread::Scope<'s, E>,
    context: &'s RunContext,
    listener: Listener,
) -> Result<PromisedHandle<Listener, Listens>, Listener>
    ensures ok { IfOk result (λ h. h.promise.0.value.monitor ≡ listener.monitor) }
    ensures err { IfErr result (λ l. queues_of l.monitor ≡ queues_of listener.monitor) }
{
    let promise = Listens(Snapshot::of(&listener));
    match scope.spawn_with(
        promise,
        move || -> Listener
            ensures { queues_of result.monitor ≡ queues_of listener.monitor }
        { listener.listen(rt, context) },
    ) {
        Ok(handle) => Ok(handle),
        Err(refused) => {
            context.report_unstarted(LISTENER);
            Err((refused.value)())
        }
    }
}

/// What comes back from all threads.
#[derive(Drop)]
pub(crate) struct AllBack<N: Run, A: Drop> {
    pub(crate) workers: Workers<N, A>,
    pub(crate) listener: Listener,
}

/// Runs all threads, and waits for them.
pub(crate) fn run_workers<
    N: Run + Send + Sync,
    A: Arbiter + Send + Drop,
    G: Gate + Sync,
    R: Threads + Wait + Sync,
>(
    rt: &R,
    shared: &Shared<N>,
    context: &RunContext,
    gate: &G,
    mut workers: Workers<N, A>,
    listener: Listener,
) -> AllBack<N, A>
    requires ends { vec_len workers.ends ≡ vec_len workers.passes }
    requires arbiters { vec_len workers.arbiters ≡ vec_len workers.passes }
    requires sent { AreSent workers.passes.items workers.ends.items }
    requires faults { workers.faults.items ≡ [] }
    requires room { vec_len workers.passes ≤ vec_capacity workers.faults }
    ensures back { AllComeBack workers.passes.items workers.ends.items result.workers.passes.items
        result.workers.ends.items
        result.workers.faults.items }
    ensures listener { queues_of result.listener.monitor ≡ queues_of listener.monitor }
{
    thread::scope(
        thread::scope_env(),
        rt,
        |scope| -> AllBack<N, A>
            requires ends { vec_len workers.ends ≡ vec_len workers.passes }
            requires arbiters { vec_len workers.arbiters ≡ vec_len workers.passes }
            requires sent { AreSent workers.passes.items workers.ends.items }
            requires faults { workers.faults.items ≡ [] }
            requires room { vec_len workers.passes ≤ vec_capacity workers.faults }
            ensures back { AllComeBack workers.passes.items workers.ends.items result.workers.passes.items
                result.workers.ends.items result.workers.faults.items }
            ensures listener { queues_of result.listener.monitor ≡ queues_of listener.monitor }
        {
            let listening = start_listener(rt, scope, context, listener);
            run_all(rt, scope, shared, context, gate, &mut workers);
            context.report_end();
            gate.over();
            let listener = match listening {
                Ok(handle) => handle.join(rt),
                Err(listener) => listener,
            };
            AllBack { workers, listener }
        },
    )
}
