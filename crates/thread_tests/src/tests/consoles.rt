//! Bytes through the queues of consoles.

ghost use Rattle.std.specs.Prelude.{◌≡◌, IfOk, map};
ghost use Rattle.console_monitor.specs.Ends.{sender_queue};
ghost use Rattle.processor_threads.specs.Consoles.{end_queue};

use console_monitor::{CAPACITY, End, Sender, console};
use std::alloc::{AllocError, Global};
use std::process::Abort;
use std::sync::Wait;
use std::test::*;
use test_support::assert_same;

/// The bytes of each sender come in order, apart from those of the other.
#[test]
fn two_senders(rt: HostRuntime) -> Result<(), Fail> {
    let (mut senders, mut monitor) = console(rt.alloc(), 2)?;
    assert_same!(rt; senders[0].put(&rt, b'a'), Ok(()));
    assert_same!(rt; senders[1].put(&rt, b'x'), Ok(()));
    assert_same!(rt; senders[0].put(&rt, b'b'), Ok(()));
    assert_same!(rt; monitor.take(0), Some(b'a'));
    assert_same!(rt; monitor.take(1), Some(b'x'));
    assert_same!(rt; monitor.take(1), None);
    assert_same!(rt; monitor.take(0), Some(b'b'));
    assert_same!(rt; monitor.take(0), None);
    Ok(())
}

/// A full queue gives the byte back. After a byte is taken, the queue has room for it.
#[test]
fn full_queue(rt: HostRuntime) -> Result<(), Fail> {
    let alloc = rt.alloc();
    let (mut senders, mut monitor) = console(alloc, 1)?;
    let Some(mut sender) = senders.pop() else {
        return Err(Fail::new("no sender"));
    };
    for _ in 0..CAPACITY {
        assert_same!(rt; sender.put(&rt, b'a'), Ok(()));
    }
    assert_same!(rt; sender.put(&rt, b'b'), Err(b'b'));
    assert_same!(rt; monitor.take(0), Some(b'a'));
    assert_same!(rt; sender.put(&rt, b'b'), Ok(()));
    assert_same!(rt; sender.put(&rt, b'c'), Err(b'c'));
    Ok(())
}

/// The end of a sender that has sent this byte and the next, and holds the one after them.
fn end_of<R: Wait + Abort>(rt: &R, mut sender: Sender, first: u8) -> End
    ensures { end_queue result ≡ sender_queue sender }
{
    assert_same!(rt; sender.put(rt, first), Ok(()));
    assert_same!(rt; sender.put(rt, first.wrapping_add(1)), Ok(()));
    let held = Some(first.wrapping_add(2));
    End { sender, held }
}

/// The ends of such senders: the first has sent `a` and `b` and holds `c`, and the second goes on with `d`.
fn ends_of<R: Wait + Abort>(
    rt: &R,
    alloc: Global,
    senders: Vec<Sender>,
) -> Result<Vec<End>, AllocError>
    ensures { IfOk result (λ ends. map end_queue ends.items ≡ map sender_queue senders.items) }
{
    let mut ends = Vec::new(alloc);
    let mut first = b'a';
    for sender in senders {
        ends.push(end_of(rt, sender, first))?;
        first = first.wrapping_add(3);
    }
    Ok(ends)
}

/// What is left of each sender's bytes is what was not taken. If a request for memory is refused
/// (`tests/cli/memory.sh`), a call reports it.
#[test]
fn finish_is_short_of_memory(rt: HostRuntime) -> Result<(), Fail> {
    let alloc = rt.alloc();
    let (senders, mut monitor) = console(alloc, 2)?;
    let ends = ends_of(&rt, alloc, senders)?;
    assert_same!(rt; monitor.take(0), Some(b'a'));
    let rests = monitor.finish(&rt, alloc, ends)?;
    assert_same!(rt; rests.len(), 2);
    for (rest, wanted) in rests.iter().zip([b"bc".as_slice(), b"def"]) {
        assert_same!(rt; rest.as_slice(), wanted);
    }
    Ok(())
}
