//! What all threads of a run share.

ghost use Rattle.std.specs.Prelude.{◌≡◌, ◌≤◌};

use crate::fault::RunFault;
use std::alloc::Global;
use std::sync::Wait;
use std::sync::atomic::{AtomicBool, AtomicU64, Ordering};
use std::thread::Parker;

/// What holds for all threads of a run, and what they share.
#[derive(Drop)]
pub(crate) struct RunContext {
    /// The stages of the machine's network.
    pub(crate) stages: u8,
    /// How many rounds a thread may take.
    pub(crate) budget: u32,
    /// Where loans get their memory.
    pub(crate) alloc: Global,
    /// The thread that could not be started; of several, the last. Its function is called all the same, to give back
    /// what it was given.
    unstarted: AtomicU64,
    /// Whether a fault has decided how the run ends.
    cancelled: AtomicBool,
    /// Whether the threads of all processors have ended.
    ended: AtomicBool,
    /// Where the listener's thread sleeps until there is something to listen to.
    bell: Parker,
    ghost few: { stages ≤ 6 },
}

/// The number of the listener's thread, which is no processor's.
pub(crate) const LISTENER: u8 = 254;

/// The number of no thread.
const NONE: u64 = 255;

impl RunContext {
    /// The context of a run before it begins.
    pub(crate) fn new(alloc: Global, stages: u8, budget: u32) -> Self
        requires { stages ≤ 6 }
    {
        RunContext {
            stages,
            budget,
            alloc,
            unstarted: AtomicU64::new(NONE),
            cancelled: AtomicBool::new(false),
            ended: AtomicBool::new(false),
            bell: Parker::new(),
        }
    }

    /// Reports that the thread of this number could not be started.
    pub(crate) fn report_unstarted(&self, thread: u8) {
        self.unstarted.store(u64::from(thread), Ordering::SeqCst);
    }

    /// Whether the thread of this number could not be started.
    pub(crate) fn is_unstarted(&self, thread: u8) -> bool {
        self.unstarted.load(Ordering::SeqCst) == u64::from(thread)
    }

    /// Reports that a thread ends with this fault. If the fault decides how the run ends, the other threads stop before
    /// their next round.
    pub(crate) fn report(&self, fault: RunFault) {
        if fault.ends_the_run() {
            self.cancelled.store(true, Ordering::SeqCst);
        }
    }

    /// Whether a fault has decided how the run ends.
    pub(crate) fn is_cancelled(&self) -> bool {
        self.cancelled.load(Ordering::SeqCst)
    }

    /// Reports that the threads of all processors have ended.
    pub(crate) fn report_end(&self) {
        self.ended.store(true, Ordering::SeqCst);
        self.call_listener();
    }

    /// Whether the threads of all processors have ended.
    pub(crate) fn have_ended(&self) -> bool {
        self.ended.load(Ordering::SeqCst)
    }

    /// Wakes the listener's thread. If it does not sleep, it will not sleep the next time either.
    pub(crate) fn call_listener(&self) {
        self.bell.unpark();
    }

    /// Sleeps until the listener is called. Returns at once if it was called since it last slept.
    pub(crate) fn wait_for_call<R: Wait>(&self, rt: &R) {
        self.bell.park(rt);
    }
}
