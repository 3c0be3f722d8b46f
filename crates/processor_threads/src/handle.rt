//! What the thread of a processor holds of the machine and of the console.

ghost use Rattle.std.specs.Prelude.{◌≡◌, ◌≤◌, [], length, true, None, Ok, IfOk, IfSome};
ghost use Rattle.machine_lock.specs.Passes.{IsLoanOf};
ghost use Rattle.console_monitor.specs.Ends.{held_of, sent_by};
ghost use Rattle.processor_threads.specs.Consoles.{byte_of, console_of, end_queue};
ghost use Rattle.processor_threads.specs.Endings.{EndsWithStop};
ghost use Rattle.processor_threads.specs.Rounds.{thread, AreWithin, AsksNet, GoesThrough, IsApplied, IsTried};
ghost use Rattle.processor_threads.specs.Rounds.{RunsAlone, TakesTurns};
ghost use Rattle.processor_threads.specs.Rounds.{fault_of_net, fault_of_no_loan, fault_of_refusal, one_round};
ghost use Rattle.processor_threads.specs.Rounds.{unless_fault};
ghost use Rattle.processor_threads.specs.declared.handle.RoundsDone.{RoundsDone};

use crate::context::RunContext;
use crate::fault::RunFault;
use console_monitor::End;
use hart::LocalEnd;
use machine_lock::{Loan, Pass, Rounds, Run, Shared, is_stop, is_waiting};
use machine_log::LockRefusal;
use std::alloc::Global;
use std::sync::Wait;
use steps::{Outcome, Step};

/// The most instructions for which a core is lent.
const MOST: u32 = 64;

/// Rounds that a thread has taken.
#[derive(Clone, Copy, Debug, PartialEq, Eq, Drop)]
pub(crate) struct RoundsDone {
    /// How many.
    pub(crate) rounds: usize,
    /// How many of them were idle: their turn stalled, and so did their step of the network.
    pub(crate) idle: usize,
    /// Whether the last of them stopped the processor.
    pub(crate) stopped: bool,
}

/// The pass of a processor, and the end of its console's queue. All console bytes that the pass stores were put into
/// the queue, except at most one, which is held.
#[derive(Drop)]
pub(crate) struct ProcessorHandle<N: Run> {
    pub(crate) pass: Pass<N>,
    pub(crate) end: End,
    /// Whether the last turn has begun a reference, or has stalled. Then the processor has no local instruction to
    /// take.
    pub(crate) waits: bool,
    ghost sent: { console_of pass ≡ sent_by end },
}

impl<N: Run> ProcessorHandle<N> {
    /// Tries to put the held byte into the queue, and calls the listener. The byte stays held if the queue is full.
    pub(crate) fn put<R: Wait>(&mut self, rt: &R, context: &RunContext)
        ensures pass { self.new.pass ≡ self.old.pass }
        ensures waits { self.new.waits ≡ self.old.waits }
        ensures tried { IfSome self.old.end.held (λ byte. IsTried byte self.old.end self.new.end) }
        ensures queue { end_queue self.new.end ≡ end_queue self.old.end }
    {
        if let Some(byte) = self.end.held {
            self.end.held = self.end.sender.put(rt, byte).err();
            context.call_listener();
        }
    }

    /// Takes local instructions with the core on loan, if there may be some, and then, unless one gave the console a
    /// byte, a turn of the processor. Unless that stopped the processor, asks for the first of these steps of the
    /// network too. As long as the processor waits, goes on with rounds that take a turn and ask for the next of these
    /// steps. A byte for the console is held.
    ///
    /// # Errors
    ///
    /// [`RunFault::Full`] if the log is full, [`RunFault::Memory`] if out of memory, and [`RunFault::Loan`] if a loan
    /// is handed back.
    pub(crate) fn rounds<R: Wait>(
        &mut self,
        rt: &R,
        alloc: Global,
        shared: &Shared<N>,
        steps: &[Step],
    ) -> Result<RoundsDone, RunFault>
        requires held { self.old.end.held ≡ None }
        requires some { 1 ≤ length steps.now }
        ensures goes { GoesThrough N.opening N.first self.old.waits
            (thread self.old.pass self.old.end self.old.waits) steps.now result
            (thread self.new.pass self.new.end self.new.waits) }
        ensures stopped { (done : RoundsDone) → result ≡ Ok done → done.stopped ≡ true → EndsWithStop self.new.pass }
        ensures rounds { IfOk result (λ done. AreWithin done (length steps.now)) }
        ensures processor { self.new.pass.processor ≡ self.old.pass.processor }
        ensures queue { end_queue self.new.end ≡ end_queue self.old.end }
    {
        if self.waits {
            return self.turns(rt, shared, steps);
        }
        match shared.lend(rt, alloc, &mut self.pass, MOST) {
            Ok(loan) => self.run_alone(rt, shared, loan, steps),
            Err(refusal) => match fault_of_no_loan(refusal) {
                Some(fault) => Err(fault),
                None => self.turns(rt, shared, steps),
            },
        }
    }

    /// Takes local instructions with a core that was lent on the pass, and gives it back. If the last of them gave the
    /// console a byte, that is held; else turns follow, as [`ProcessorHandle::turns`] takes them.
    ///
    /// # Errors
    ///
    /// Those of [`ProcessorHandle::rounds`].
    #[inline(always)]
    fn run_alone<R: Wait>(
        &mut self,
        rt: &R,
        shared: &Shared<N>,
        mut loan: Loan<N>,
        steps: &[Step],
    ) -> Result<RoundsDone, RunFault>
        requires held { self.old.end.held ≡ None }
        requires lent { IsLoanOf self.old.pass loan }
        requires none { loan.retired ≡ [] }
        requires some { 1 ≤ length steps.now }
        ensures runs { RunsAlone N.opening N.first loan (thread self.old.pass self.old.end self.old.waits) steps.now
            result
            (thread self.new.pass self.new.end self.new.waits) }
        ensures stopped { (done : RoundsDone) → result ≡ Ok done → done.stopped ≡ true → EndsWithStop self.new.pass }
        ensures rounds { IfOk result (λ done. AreWithin done (length steps.now)) }
        ensures processor { self.new.pass.processor ≡ self.old.pass.processor }
        ensures queue { end_queue self.new.end ≡ end_queue self.old.end }
    {
        match loan.run_local() {
            LocalEnd::Out(byte) => {
                let Some(()) = shared.give_back(rt, &mut self.pass, loan).ok() else {
                    return Err(RunFault::Loan);
                };
                self.end.held = Some(byte);
                one_round(self.net(rt, shared, steps[0]))
            }
            LocalEnd::Most | LocalEnd::Other => {
                let Some(rounds) = shared.end_loan(rt, &mut self.pass, loan, steps).ok() else {
                    return Err(RunFault::Loan);
                };
                apply_answer(&mut self.end, &mut self.waits, rounds)
            }
        }
    }

    /// Takes a turn of the processor, and holds a byte that it gives the console. Unless the processor has stopped,
    /// asks for the first of these steps of the network too, and as long as the processor waits, does the same with the
    /// next.
    ///
    /// # Errors
    ///
    /// [`RunFault::Full`] if the log is full, and [`RunFault::Memory`] if out of memory.
    #[inline(always)]
    fn turns<R: Wait>(
        &mut self,
        rt: &R,
        shared: &Shared<N>,
        steps: &[Step],
    ) -> Result<RoundsDone, RunFault>
        requires held { self.old.end.held ≡ None }
        requires some { 1 ≤ length steps.now }
        ensures turns { TakesTurns N.opening N.first (thread self.old.pass self.old.end self.old.waits) steps.now result
            (thread self.new.pass self.new.end self.new.waits) }
        ensures stopped { (done : RoundsDone) → result ≡ Ok done → done.stopped ≡ true → EndsWithStop self.new.pass }
        ensures rounds { IfOk result (λ done. AreWithin done (length steps.now)) }
        ensures processor { self.new.pass.processor ≡ self.old.pass.processor }
        ensures queue { end_queue self.new.end ≡ end_queue self.old.end }
    {
        let rounds = shared.rounds(rt, &mut self.pass, steps);
        apply_answer(&mut self.end, &mut self.waits, rounds)
    }

    /// Asks for a step of the network, and returns the fault with which the thread ends, if any. A step that names a
    /// place that the machine does not have is no fault.
    pub(crate) fn net<R: Wait>(
        &mut self,
        rt: &R,
        shared: &Shared<N>,
        step: Step,
    ) -> Option<RunFault>
        ensures net { AsksNet N.opening N.first self.old.pass step result self.new.pass }
        ensures processor { self.new.pass.processor ≡ self.old.pass.processor }
        ensures end { self.new.end ≡ self.old.end }
        ensures waits { self.new.waits ≡ self.old.waits }
    {
        fault_of_net(Some(shared.net(rt, &mut self.pass, step)))
    }
}

/// Applies the answer to rounds: holds the byte that the last round's turn gave, and notes whether its processor waits.
///
/// # Errors
///
/// Those of [`fault_of_refusal`], of the turn or of the step of the network.
#[inline(always)]
fn apply_answer(end: &mut End, waits: &mut bool, rounds: Rounds) -> Result<RoundsDone, RunFault>
    ensures { IsApplied rounds end.old waits.old result end.new waits.new }
{
    let Rounds { gone, idle, answer } = rounds;
    match answer {
        Ok(round) => {
            end.held = byte_of(&round.turn);
            *waits = is_waiting(&round.turn);
            let done = RoundsDone {
                rounds: gone,
                idle,
                stopped: is_stop(&round.turn),
            };
            unless_fault(fault_of_net(round.net), done)
        }
        Err(refusal) => {
            let done = RoundsDone {
                rounds: gone,
                idle,
                stopped: false,
            };
            unless_fault(fault_of_refusal(refusal), done)
        }
    }
}

/// The rounds that were done, unless the thread has a fault.
///
/// # Errors
///
/// The fault.
#[inline(always)]
fn unless_fault(fault: Option<RunFault>, done: RoundsDone) -> Result<RoundsDone, RunFault>
    ensures { result ≡ unless_fault fault done }
{
    match fault {
        None => Ok(done),
        Some(fault) => Err(fault),
    }
}

/// One round of a thread, without a turn, or with a loan that gave a byte.
///
/// # Errors
///
/// The fault.
pub(crate) fn one_round(fault: Option<RunFault>) -> Result<RoundsDone, RunFault>
    ensures { result ≡ one_round fault }
{
    let done = RoundsDone {
        rounds: 1,
        idle: 0,
        stopped: false,
    };
    unless_fault(fault, done)
}

/// The fault of a thread whose turn or step of the network was refused: none if it named a place that the machine does
/// not have.
fn fault_of_refusal(refusal: LockRefusal) -> Option<RunFault>
    ensures { result ≡ fault_of_refusal refusal }
{
    match refusal {
        LockRefusal::Memory => Some(RunFault::Memory),
        LockRefusal::Full => Some(RunFault::Full),
        LockRefusal::Unnamed | LockRefusal::NotFree => None,
    }
}

/// The fault of a thread that is lent no core: none if it may take a turn all the same.
fn fault_of_no_loan(refusal: LockRefusal) -> Option<RunFault>
    ensures { result ≡ fault_of_no_loan refusal }
{
    match refusal {
        LockRefusal::Memory => Some(RunFault::Memory),
        LockRefusal::Full | LockRefusal::Unnamed | LockRefusal::NotFree => None,
    }
}

/// The fault of a thread whose step of the network had this answer, if it asked for one.
fn fault_of_net(net: Option<Result<Outcome, LockRefusal>>) -> Option<RunFault>
    ensures { result ≡ fault_of_net net }
{
    match net {
        Some(Err(refusal)) => fault_of_refusal(refusal),
        _ => None,
    }
}

/// The byte that a turn gives the console.
fn byte_of(outcome: &Outcome) -> Option<u8>
    ensures { result ≡ byte_of outcome.now }
{
    match outcome {
        Outcome::Retired(retired) => retired.out,
        _ => None,
    }
}
