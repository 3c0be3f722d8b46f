//! Bytes through the queue of one sender.

ghost use Rattle.std.specs.Prelude.{◌≡◌, ◌<◌, length, map, IfOk};
ghost use Rattle.console_monitor.specs.Ends.{queues_of, sender_queue};
ghost use Rattle.processor_threads.specs.Consoles.{end_queue};

use console_monitor::{CAPACITY, ConsoleRefusal, End, Monitor, Sender, console};
use std::alloc::{AllocError, Global};
use std::process::Abort;
use std::sync::Wait;
use std::test::Fail;
use test_support::assert_same;

/// Bytes are taken in the order in which they were put. A full queue gives the byte back.
fn are_taken<R: Wait + Abort>(rt: &R, sender: &mut Sender, monitor: &mut Monitor)
    requires { 0 < length (queues_of monitor.old) }
{
    assert_same!(rt; monitor.take(0), None);
    for _ in 0..CAPACITY {
        assert_same!(rt; sender.put(rt, b'a'), Ok(()));
    }
    assert_same!(rt; sender.put(rt, b'b'), Err(b'b'));
    assert_same!(rt; monitor.take(0), Some(b'a'));
    assert_same!(rt; sender.put(rt, b'b'), Ok(()));
}

#[test]
fn bytes_go_through(rt: HostRuntime) -> Result<(), Fail> {
    let (mut senders, mut monitor): (Vec<Sender>, Monitor) = console(rt.alloc(), 1)?;
    let mut sender = senders.pop().expect(&rt, "a sender");
    are_taken(&rt, &mut sender, &mut monitor);
    Ok(())
}

/// The end of a sender that has put one byte, and holds another.
fn end_of<R: Wait + Abort>(rt: &R, mut sender: Sender) -> End
    ensures { end_queue result ≡ sender_queue sender }
{
    assert_same!(rt; sender.put(rt, b'a'), Ok(()));
    End {
        sender,
        held: Some(b'b'),
    }
}

/// The ends of all senders, each of which does so.
fn ended<R: Wait + Abort>(
    rt: &R,
    alloc: Global,
    senders: Vec<Sender>,
) -> Result<Vec<End>, AllocError>
    ensures { IfOk result (λ ends. map end_queue ends.items ≡ map sender_queue senders.items) }
{
    let mut ends = Vec::new(alloc);
    for sender in senders {
        ends.push(end_of(rt, sender))?;
    }
    Ok(ends)
}

/// What is left of the bytes of two senders.
fn left<R: Wait + Abort>(rt: &R, alloc: Global) -> Result<Vec<Vec<u8>>, ConsoleRefusal> {
    let (senders, monitor) = console(alloc, 2)?;
    let ends = ended(rt, alloc, senders)?;
    monitor.finish(rt, alloc, ends)
}

/// The bytes that nobody took are left, and after them the byte that each sender holds.
#[test]
fn bytes_are_left(rt: HostRuntime) -> Result<(), Fail> {
    let left = left(&rt, rt.alloc())?;
    assert_same!(rt; left.len(), 2);
    for bytes in &left {
        assert_same!(rt; bytes.as_slice(), b"ab".as_slice());
    }
    Ok(())
}
