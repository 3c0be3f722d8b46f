//! `tests/cli/memory.sh` refuses each request of this test for memory in turn. Then there is no session, or the command
//! that needs the memory is answered `E06`, and all others as with ample memory.

use super::{BUDGET, THREE};
use debug_session::{SessionEnd, Sweep, serve};
use flat_machine::{LOCAL_START, Status};
use link::Meter;
use machine_log::Logged;
use std::process::Abort;
use std::test::Fail;
use test_support::{Sink, assert_same, lend, log_of, size};

/// Commands that take steps, and one that takes none.
const INPUT: &[u8] = b"write 0 20000 0102030405060708\nstep 0\ncont\nquit\n";

/// Whether the reply is this one, of a command that was carried out. Otherwise it has to report that memory ran out.
fn is_done(rt: &impl Abort, reply: &str, wanted: &str) -> bool {
    if reply == "E06" {
        return false;
    }
    assert!(rt; reply == wanted, "{reply}");
    true
}

/// Checks that the machine and its log are as these replies say.
fn is_left(rt: &impl Abort, log: &Logged, replies: &str) {
    let mut lines = replies.lines();
    let has_written = is_done(rt, lines.next().unwrap_or(""), "ok");
    let has_stepped = is_done(rt, lines.next().unwrap_or(""), "at 0");
    let has_gone_on = is_done(rt, lines.next().unwrap_or(""), "halted");
    assert!(rt; is_done(rt, lines.next().unwrap_or(""), "ok"));
    assert!(rt; lines.next().is_none());
    let (written, byte) = if has_written { (8_usize, 8) } else { (0, 0) };
    // Of three instructions, `step` takes one, and `cont` takes the rest.
    let taken = match (has_stepped, has_gone_on) {
        (_, true) => 3,
        (true, false) => 1,
        (false, false) => 0,
    };
    let status = if has_gone_on {
        Status::Halted(0)
    } else {
        Status::Running
    };
    let machine = log.machine();
    assert_same!(rt; log.steps().len(), written.saturating_add(taken));
    assert_same!(rt; machine.byte(0, LOCAL_START + 7), Some(byte));
    assert_same!(rt; machine.reg(0, 1), Some(if taken == 0 { 0 } else { 1 }));
    assert_same!(rt; machine.status(0), Some(status));
    assert!(rt; machine.is_idle());
}

/// A session that runs out of memory at its beginning reads nothing, and changes nothing.
#[test]
fn serve_is_short_of_memory(rt: HostRuntime) -> Result<(), Fail> {
    lend(log_of(rt.alloc(), THREE, size(0))?, |log| {
        let mut reader = Meter::new(INPUT);
        let mut writer = Meter::new(Sink::new(Vec::with_capacity(rt.alloc(), 32)?, 0));
        let end = serve(&rt, &mut reader, &mut writer, log, &mut Sweep, BUDGET);
        let text = writer.device.bytes.as_slice();
        if end == SessionEnd::Memory {
            assert_same!(rt; reader.device, INPUT);
            assert_same!(rt; text.len(), 0);
            assert_same!(rt; log.steps().len(), 0);
        } else {
            assert_same!(rt; end, SessionEnd::Quit);
            is_left(&rt, log, str::from_utf8(text)?);
        }
        Ok(())
    })
}
