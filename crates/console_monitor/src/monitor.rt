//! All queues together.
ghost use Rattle.std.specs.Prelude.{◌≡◌, ◌<◌, [], ◌∷◌, ◌++◌, length, map, replicate, vec_len, MatchOption, IfOk};
ghost use Rattle.std.specs.Prelude.{slice_set};
ghost use Rattle.console_monitor.specs.Ends.{
  put_of,
  taken_of,
  sender_queue,
  inlet_queue,
  at,
  queues_of,
  takens_of,
  sent_by,
  joined,
};

use crate::ends::{both_ends, rest};
use crate::queue::{Inlet, Sender};
use crate::refusal::ConsoleRefusal;
use std::alloc::{AllocError, Global};
use std::sync::Wait;

/// Takes the bytes of all senders.
#[derive(Drop)]
pub struct Monitor {
    inlets: Vec<Inlet>,
}

/// A sender that has ended, and the byte that it still held.
#[derive(Drop)]
pub struct End {
    pub sender: Sender,
    pub held: Option<u8>,
}

/// Queues for `n` processors: their senders, and the monitor.
///
/// # Errors
///
/// [`ConsoleRefusal::Memory`] if there is no memory for them.
pub fn console(alloc: Global, n: u8) -> Result<(Vec<Sender>, Monitor), ConsoleRefusal>
    ensures queues { IfOk result (λ made. map sender_queue made.0.items ≡ queues_of made.1) }
    ensures put { IfOk result (λ made. map put_of made.0.items ≡ replicate n []) }
    ensures taken { IfOk result (λ made. takens_of made.1 ≡ replicate n []) }
{
    let mut senders = Vec::new(alloc);
    let mut inlets = Vec::new(alloc);
    for _ in 0..n {
        let (sender, inlet) = both_ends(alloc)?;
        senders.push(sender)?;
        inlets.push(inlet)?;
    }
    Ok((senders, Monitor { inlets }))
}

impl Monitor {
    /// Takes the next byte of processor `p`, if there is one.
    pub fn take(&mut self, p: u8) -> Option<u8>
        requires { p < length (queues_of self.old) }
        ensures queues { queues_of self.new ≡ queues_of self.old }
        ensures taken { MatchOption result (takens_of self.new ≡ takens_of self.old)
            (λ byte. takens_of self.new ≡ slice_set (takens_of self.old) p (at (takens_of self.old) p ++ byte ∷ [])) }
    {
        self.inlets[usize::from(p)].take()
    }

    /// Returns what was still in each queue after all senders had ended, followed by the byte that its sender held.
    ///
    /// # Errors
    ///
    /// [`ConsoleRefusal::Memory`] if there is no memory for these bytes. Then they are lost.
    pub fn finish<R: Wait>(
        self,
        rt: &R,
        alloc: Global,
        ends: Vec<End>,
    ) -> Result<Vec<Vec<u8>>, ConsoleRefusal>
        requires { map (λ e. sender_queue e.sender) ends.items ≡ queues_of self }
        ensures count { IfOk result (λ rests. vec_len rests ≡ vec_len ends) }
        ensures whole { IfOk result (λ rests. joined (takens_of self) (map (λ v. v.items) rests.items)
            ≡ map sent_by ends.items) }
    {
        let mut rests = Vec::new(alloc);
        for (end, inlet) in ends.into_iter().zip(self.inlets) {
            rests.push(end.rest(rt, alloc, inlet)?)?;
        }
        Ok(rests)
    }
}

impl End {
    /// What is still in the queue, and then the held byte.
    pub(crate) fn rest<R: Wait>(
        self,
        rt: &R,
        alloc: Global,
        inlet: Inlet,
    ) -> Result<Vec<u8>, AllocError>
        requires { sender_queue self.sender ≡ inlet_queue inlet }
        ensures { IfOk result (λ rest. taken_of inlet ++ rest.items ≡ sent_by self) }
    {
        let mut bytes = rest(rt, alloc, self.sender, inlet)?;
        if let Some(byte) = self.held {
            bytes.push(byte)?;
        }
        Ok(bytes)
    }
}
