//! The thread that listens to the consoles of all processors.

ghost use Rattle.std.specs.Prelude.{◌≡◌, ◌<◌, true, None, IfOk, OnErr, OnOk, [], length, map, replicate, vec_len};
ghost use Rattle.console_monitor.specs.Ends.{joined, put_of, queues_of, sender_queue, sent_by, takens_of};
ghost use Rattle.processor_threads.specs.Consoles.{AreBeginnings, bytes_of, end_queue};
ghost use Rattle.processor_threads.specs.Faults.{is_of_listener};

use crate::context::{LISTENER, RunContext};
use crate::fault::{RunFault, graver_of};
use console_monitor::{ConsoleRefusal, End, Monitor, Sender, console};
use std::alloc::{AllocError, Global};
use std::sync::Wait;

/// Takes the bytes of all consoles, and keeps what it has taken.
#[derive(Drop)]
pub(crate) struct Listener {
    pub(crate) monitor: Monitor,
    taken: Vec<Vec<u8>>,
    processors: u8,
    fault: Option<RunFault>,
    ghost takes: { map bytes_of taken.items ≡ takens_of monitor },
    ghost all: { vec_len taken ≡ processors },
    ghost own: { is_of_listener fault ≡ true },
}

/// The consoles of this many processors: an end for each, and their listener.
pub(crate) fn consoles(
    alloc: Global,
    processors: u8,
) -> Result<(Vec<End>, Listener), ConsoleRefusal>
    ensures queues { IfOk result (λ made. map end_queue made.0.items ≡ queues_of made.1.monitor) }
    ensures sent { IfOk result (λ made. map sent_by made.0.items ≡ replicate processors []) }
{
    let (senders, monitor) = console(alloc, processors)?;
    let ends = ends_of(alloc, senders)?;
    let taken = empty_lists(alloc, processors)?;
    Ok((
        ends,
        Listener {
            monitor,
            taken,
            processors,
            fault: None,
        },
    ))
}

/// An end for each sender, with no byte held.
fn ends_of(alloc: Global, senders: Vec<Sender>) -> Result<Vec<End>, AllocError>
    ensures queues { IfOk result (λ ends. map end_queue ends.items ≡ map sender_queue senders.items) }
    ensures sent { IfOk result (λ ends. map sent_by ends.items ≡ map put_of senders.items) }
{
    let mut ends = Vec::new(alloc);
    for sender in senders {
        ends.push(End { sender, held: None })?;
    }
    Ok(ends)
}

fn empty_lists(alloc: Global, count: u8) -> Result<Vec<Vec<u8>>, AllocError>
    ensures { IfOk result (λ lists. map bytes_of lists.items ≡ replicate count []) }
{
    let mut lists = Vec::new(alloc);
    for _ in 0..count {
        lists.push(Vec::new(alloc))?;
    }
    Ok(lists)
}

impl Listener {
    /// Takes bytes until the threads of all processors have ended, or there is no memory for a byte. Takes none if its
    /// own thread could not be started. A fault ends the run: a processor whose queue is full would wait for ever.
    pub(crate) fn listen<R: Wait>(mut self, rt: &R, context: &RunContext) -> Self
        ensures { queues_of result.monitor ≡ queues_of self.monitor }
    {
        let fault = if context.is_unstarted(LISTENER) {
            RunFault::Start
        } else if self.take_all(rt, context).is_err() {
            RunFault::Console
        } else {
            return self;
        };
        context.report(fault);
        self.fault = Some(fault);
        self
    }

    /// Takes bytes until the threads of all processors have ended.
    fn take_all<R: Wait>(&mut self, rt: &R, context: &RunContext) -> Result<(), AllocError>
        ensures { queues_of self.new.monitor ≡ queues_of self.old.monitor }
    {
        for _ in rt.forever() {
            if context.have_ended() {
                break;
            }
            if !self.take_of_each()? {
                context.wait_for_call(rt);
            }
        }
        Ok(())
    }

    /// Takes a byte from each processor that has sent one, and returns whether any has.
    fn take_of_each(&mut self) -> Result<bool, AllocError>
        ensures { queues_of self.new.monitor ≡ queues_of self.old.monitor }
    {
        let mut any = false;
        for p in 0..self.processors {
            any |= self.take(p)?;
        }
        Ok(any)
    }

    /// Takes a byte from a processor, if it has sent one. Makes room before it takes the byte, so none is lost.
    fn take(&mut self, p: u8) -> Result<bool, AllocError>
        requires there { p < self.old.processors }
        ensures queues { queues_of self.new.monitor ≡ queues_of self.old.monitor }
        ensures all { self.new.processors ≡ self.old.processors }
    {
        let bytes = &mut self.taken[usize::from(p)];
        bytes.reserve(1)?;
        match self.monitor.take(p) {
            Some(byte) => {
                bytes.push_reserved(byte);
                Ok(true)
            }
            None => Ok(false),
        }
    }

    /// The consoles of all processors after their threads have ended: what was taken from each, then what is still in
    /// its queue, and the byte that it still held. If there is no memory for these, the fault says so, and the lists
    /// are beginnings.
    pub(crate) fn finish<R: Wait>(
        self,
        rt: &R,
        alloc: Global,
        ends: Vec<End>,
    ) -> (Vec<Vec<u8>>, Option<RunFault>)
        requires { map end_queue ends.items ≡ queues_of self.monitor }
        ensures begun { AreBeginnings (map bytes_of result.0.items) (map sent_by ends.items) }
        ensures whole { result.1 ≡ None → map bytes_of result.0.items ≡ map sent_by ends.items }
        ensures fault { is_of_listener result.1 ≡ true }
    {
        let Listener {
            monitor,
            mut taken,
            processors: _,
            fault,
        } = self;
        match monitor.finish(rt, alloc, ends) {
            Ok(rests) => match append_each(&mut taken, rests.as_slice()) {
                Ok(()) => (taken, fault),
                Err(AllocError) => (taken, graver_of(fault, Some(RunFault::Console))),
            },
            Err(ConsoleRefusal::Memory) => {
                clear_each(&mut taken);
                (taken, graver_of(fault, Some(RunFault::Console)))
            }
        }
    }
}

/// Appends its rest to each list. If there is no memory for one, that list and those after it stay as they are.
fn append_each(lists: &mut Vec<Vec<u8>>, rests: &[Vec<u8>]) -> Result<(), AllocError>
    requires { vec_len lists.old ≡ length rests.now }
    ensures whole { OnOk result (map bytes_of lists.new.items
        ≡ joined (map bytes_of lists.old.items) (map bytes_of rests.now)) }
    ensures begun { AreBeginnings (map bytes_of lists.new.items)
        (joined (map bytes_of lists.old.items) (map bytes_of rests.now)) }
{
    for p in 0..rests.len() {
        lists[p].extend_from_slice(rests[p].as_slice())?;
    }
    Ok(())
}

fn clear_each(lists: &mut Vec<Vec<u8>>)
    ensures { map bytes_of lists.new.items ≡ replicate (vec_len lists.old) [] }
{
    for p in 0..lists.len() {
        lists[p].clear();
    }
}
