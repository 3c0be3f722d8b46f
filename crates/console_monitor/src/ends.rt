//! What the two ends of a queue do.
ghost use Rattle.std.specs.Prelude.{◌≡◌, ◌≤◌, [], ◌∷◌, ◌++◌, length, MatchOption, MatchResult, IfOk};
ghost use Rattle.console_monitor.specs.Ends.{put_of, taken_of, sender_queue, inlet_queue, ComesBack};

use crate::queue::{CAPACITY, Ends, Inlet, Puts, Queue, Sender, Takes};
use std::alloc::{AllocError, Global};
use std::sync::{Arc, Wait};

impl Sender {
    /// Sends a byte to the monitor. It comes back only if the queue was full.
    pub fn put<R: Wait>(&mut self, rt: &R, byte: u8) -> Result<(), u8>
        ensures queue { sender_queue self.new ≡ sender_queue self.old }
        ensures put { MatchResult result
            (λ _. put_of self.new ≡ put_of self.old ++ byte ∷ [])
            (λ back. (back ≡ byte) × ComesBack (put_of self.old) (put_of self.new)) }
    {
        self.queue.push_as::<Puts, R>(rt, &mut self.pass, byte)
    }
}

impl Inlet {
    /// Takes the next byte of the queue, if there is one.
    pub fn take(&mut self) -> Option<u8>
        ensures queue { inlet_queue self.new ≡ inlet_queue self.old }
        ensures taken { MatchOption result (taken_of self.new ≡ taken_of self.old)
            (λ byte. taken_of self.new ≡ taken_of self.old ++ byte ∷ []) }
    {
        self.queue.try_pop_as::<Takes>(&mut self.pass)
    }
}

/// Both ends of a new queue.
pub fn both_ends(alloc: Global) -> Result<(Sender, Inlet), AllocError>
    ensures queue { IfOk result (λ ends. sender_queue ends.0 ≡ inlet_queue ends.1) }
    ensures put { IfOk result (λ ends. put_of ends.0 ≡ []) }
    ensures taken { IfOk result (λ ends. taken_of ends.1 ≡ []) }
{
    let (queue, mut pass) = Queue::ruled(alloc, CAPACITY)?;
    let queue = Arc::new(alloc, queue)?;
    let theirs = Arc::try_clone(&queue)?;
    let other = queue.another::<Ends>(&mut pass);
    Ok((
        Sender { queue, pass },
        Inlet {
            queue: theirs,
            pass: other,
        },
    ))
}

/// Empties a queue whose two ends are both here, and returns the bytes.
pub fn rest<R: Wait>(
    rt: &R,
    alloc: Global,
    sender: Sender,
    inlet: Inlet,
) -> Result<Vec<u8>, AllocError>
    requires { sender_queue sender ≡ inlet_queue inlet }
    ensures { IfOk result (λ rest. taken_of inlet ++ rest.items ≡ put_of sender) }
{
    let Sender { queue, mut pass } = sender;
    queue.absorb::<Ends>(&mut pass, inlet.pass);
    let mut rest = Vec::new(alloc);
    for _ in rt.forever() {
        match queue.pop_as::<Takes, R>(rt, &mut pass) {
            Some(byte) => rest.push(byte)?,
            None => break,
        }
    }
    Ok(rest)
}
