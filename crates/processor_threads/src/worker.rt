//! The rounds of one processor's thread.

ghost use Rattle.std.specs.Prelude.{◌≡◌, ◌+◌, ◌≤◌, ◌<◌, ◌^◌, [], true, Ok, OnOk, IfOk, MatchResult};
ghost use Rattle.processor_threads.specs.Consoles.{end_queue};
ghost use Rattle.processor_threads.specs.Endings.{ComesBack, EndsWithStop};
ghost use Rattle.processor_threads.specs.Rounds.{begin, thread, AreWithin, GoesOn, HasFailed, HasStopped, HasUsed};
ghost use Rattle.processor_threads.specs.declared.handle.RoundsDone.{RoundsDone};

use crate::context::RunContext;
use crate::fault::RunFault;
use crate::gate::Gate;
use crate::handle::{ProcessorHandle, RoundsDone, one_round};
use crate::step_buffer::StepBuffer;
use crate::tally::Tally;
use flat_machine::Event;
use machine_lock::{Run, Shared};
use schedules::Arbiter;
use std::sync::Wait;
use std::thread::yield_now;

/// The fewest rounds that a thread takes between two reports of its progress.
const ROUNDS_REPORTED: u64 = 1024;

/// How far a thread has got.
#[derive(Clone, Copy, Debug, PartialEq, Eq, Drop)]
struct Progress {
    /// The rounds that it has taken, whether they count against its budget or not.
    rounds: u64,
    /// The instructions that its processor has retired.
    retired: u64,
}

/// What the thread of a processor begins with.
#[derive(Drop)]
pub(crate) struct Worker<N: Run, A: Drop> {
    pub(crate) handle: ProcessorHandle<N>,
    pub(crate) arbiter: A,
    /// How many turns it has taken.
    pub(crate) turns: u64,
}

/// What comes back from the thread of a processor.
#[derive(Drop)]
pub(crate) struct Back<N: Run> {
    pub(crate) handle: ProcessorHandle<N>,
    pub(crate) fault: Option<RunFault>,
}

impl<N: Run, A: Arbiter + Drop> Worker<N, A> {
    /// Takes rounds until the processor stops, a call is refused, the budget is used up, or the fault of another thread
    /// has decided how the run ends. Takes none if the thread could not be started. The steps that the arbiter names
    /// are on the thread's own stack: threads are started by a recursion, which moves each worker more than once.
    pub(crate) fn run<G: Gate, R: Wait>(
        mut self,
        rt: &R,
        shared: &Shared<N>,
        context: &RunContext,
        gate: &G,
    ) -> Back<N>
        requires { self.turns ≡ 0 }
        ensures { ComesBack self.handle.pass self.handle.end result.handle.pass result.handle.end result.fault }
    {
        let fault = if context.is_unstarted(self.handle.pass.processor()) {
            Some(RunFault::Start)
        } else {
            let mut buffer = StepBuffer::new();
            self.rounds(rt, shared, context, gate, &mut buffer).err()
        };
        if let Some(fault) = fault {
            context.report(fault);
        }
        Back {
            handle: self.handle,
            fault,
        }
    }

    /// Takes rounds until the processor stops. Each time that all steps that the arbiter has named are used up, lets
    /// other threads run: if the host has fewer processors than there are threads, or has other work, a processor that
    /// waits for another one would use up its budget while that one's thread does not run. For the same reason, idle
    /// rounds count once for each time that the thread lets others run.
    ///
    /// # Errors
    ///
    /// Those of [`ProcessorHandle::rounds`], [`RunFault::Budget`] if the rounds that count have reached the budget, and
    /// [`RunFault::Cancelled`] if the fault of another thread has decided how the run ends.
    fn rounds<G: Gate, R: Wait>(
        &mut self,
        rt: &R,
        shared: &Shared<N>,
        context: &RunContext,
        gate: &G,
        buffer: &mut StepBuffer,
    ) -> Result<(), RunFault>
        requires turns { self.old.turns ≡ 0 }
        requires none { buffer.old ≡ [] }
        ensures ran { let old = begin (thread self.old.handle.pass self.old.handle.end self.old.handle.waits) in
            let new = thread self.new.handle.pass self.new.handle.end self.new.handle.waits in MatchResult result
            (λ _. HasStopped N.opening N.first context.now.budget old new)
            (λ fault. HasFailed N.opening N.first context.now.budget fault old new) }
        ensures stopped { OnOk result (EndsWithStop self.new.handle.pass) }
        ensures processor { self.new.handle.pass.processor ≡ self.old.handle.pass.processor }
        ensures queue { end_queue self.new.handle.end ≡ end_queue self.old.handle.end }
    {
        let mut tally = Tally::new();
        let mut gone = 0;
        let mut reported = Progress {
            rounds: 0,
            retired: 0,
        };
        while tally.counted < context.budget {
            if context.is_cancelled() {
                return Err(RunFault::Cancelled);
            }
            let most = context.budget - tally.counted;
            let done = match self.go_on(rt, shared, context, gate, buffer, most) {
                Ok(done) => done,
                Err(fault) => return Err(fault),
            };
            gone += done.rounds as u64;
            let lets_run = buffer.is_empty();
            tally.count(done, lets_run);
            if lets_run {
                yield_now();
            }
            if done.stopped {
                self.report(gone, reported, gate);
                return Ok(());
            }
            reported = self.report_if_due(gone, reported, gate);
        }
        self.report(gone, reported, gate);
        Err(RunFault::Budget)
    }

    /// Reports, if enough rounds were taken since the last report. Returns the progress that is reported by now.
    fn report_if_due<G: Gate>(&self, gone: u64, reported: Progress, gate: &G) -> Progress
        requires { reported.rounds ≤ gone }
        ensures { result.rounds ≤ gone }
    {
        if gone - reported.rounds < ROUNDS_REPORTED {
            return reported;
        }
        self.report(gone, reported, gate)
    }

    /// Reports to the gate the rounds that were taken, and the instructions that were retired in them, except those
    /// that were reported before. Returns how far the thread has got.
    fn report<G: Gate>(&self, gone: u64, reported: Progress, gate: &G) -> Progress
        ensures { result.rounds ≡ gone }
    {
        let pass_events = self.handle.pass.pass_events();
        // The stop of a processor is its last event.
        let stops = match pass_events.last() {
            Some(pass_event) => u64::from(matches!(pass_event.event, Event::Stopped(_))),
            None => 0,
        };
        let retired = (pass_events.len() as u64).saturating_sub(stops);
        gate.progress(
            gone.saturating_sub(reported.rounds),
            retired.saturating_sub(reported.retired),
        );
        Progress {
            rounds: gone,
            retired,
        }
    }

    /// Takes rounds, at least one and at most this many. In a round, if a byte is held, the thread tries to put it; if
    /// none is, it passes the gate and takes local instructions and a turn. Then it asks for the step of the network
    /// that its arbiter names, unless the processor has stopped. The arbiter does not see what a turn answers, so it is
    /// asked first, and the turn and the step are taken under one lock. So are those of the next rounds while the
    /// processor waits, as many as the gate lets pass at once.
    ///
    /// # Errors
    ///
    /// Those of [`ProcessorHandle::rounds`].
    fn go_on<G: Gate, R: Wait>(
        &mut self,
        rt: &R,
        shared: &Shared<N>,
        context: &RunContext,
        gate: &G,
        buffer: &mut StepBuffer,
        most: u32,
    ) -> Result<RoundsDone, RunFault>
        requires some { 1 ≤ most }
        requires turns { self.old.turns + most < 2 ^ 64 }
        ensures goes { GoesOn N.opening N.first (thread self.old.handle.pass self.old.handle.end self.old.handle.waits)
            buffer.old most result
            (thread self.new.handle.pass self.new.handle.end self.new.handle.waits) buffer.new }
        ensures stopped { (done : RoundsDone) → result ≡ Ok done → done.stopped ≡ true →
            EndsWithStop self.new.handle.pass }
        ensures rounds { IfOk result (λ done. AreWithin done most) }
        ensures left { IfOk result (λ done. HasUsed done.rounds buffer.old buffer.new) }
        ensures processor { self.new.handle.pass.processor ≡ self.old.handle.pass.processor }
        ensures queue { end_queue self.new.handle.end ≡ end_queue self.old.handle.end }
        ensures turns { IfOk result (λ done. self.new.turns ≤ self.old.turns + done.rounds) }
    {
        if self.handle.end.held.is_some() {
            self.handle.put(rt, context);
            buffer.fill(&mut self.arbiter, context.stages, gate.at_once());
            let fault = self.handle.net(rt, shared, buffer.steps(1)[0]);
            buffer.advance(1);
            return one_round(fault);
        }
        gate.before(self.handle.pass.processor(), self.turns);
        buffer.fill(&mut self.arbiter, context.stages, gate.at_once());
        let steps = buffer.steps(most as usize);
        match self.handle.rounds(rt, context.alloc, shared, steps) {
            Ok(done) => {
                buffer.advance(done.rounds);
                self.turns += done.rounds as u64;
                Ok(done)
            }
            Err(fault) => Err(fault),
        }
    }
}
