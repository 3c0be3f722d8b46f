//! Sessions that are saved: their traces replay to what they showed.

use super::{LoopbackPort, open_door};
use debug_session::{SessionEnd, Sweep, debug_command, serve};
use link::Meter;
use std::alloc::AllocGlobal;
use std::sync::Wait;
use std::test::Fail;
use test_support::{EBREAK, Sink, assert_same, lend, log_of, metered, size};
use trace_commands::replay_command;

/// Lines that poke a byte and a `pc`, step into the `ebreak`, and then show all this.
const LINES: &[u8] =
    b"write 0 80000004 2a\nset 1 20 10004\nstep 3\nmem 0 80000004 4\nreg 1 20\nstate 3\n";

/// The trace of these lines: the header of a machine of four processors, two pokes, and a turn of processor 3.
const TRACE: [u8; 48] = [
    0x55, 0x4C, 0x54, 0x52, 1, 2, 4, 4, 3, 0, 0, 0, //
    7, 0, 0, 0, 4, 0, 0, 0x80, 0x2A, 0, 0, 0, //
    5, 1, 32, 0, 0, 0, 0, 0, 4, 0, 1, 0, //
    1, 3, 0, 0, 0, 0, 0, 0, 0, 0, 0, 0,
];

/// The replies to these lines.
const REPLIES: &[u8] = b"ok\nok\nat 3\n2a000000\n00010004\nfault 8\n";

/// The report on the machine after these lines.
const REPORT: &str = "\
processor 0 pc 00010000 run retired 0 console -
processor 1 pc 00010004 run retired 0 console -
processor 2 pc 00010000 run retired 0 console -
processor 3 pc 00010000 fault 8 retired 0 console -
word 1 0000002a
";

/// The exit status of a session of four processors at this port, what it writes to standard error, and what it writes
/// of its trace, whose writer fails at this call.
fn saved(
    rt: &(impl Wait + AllocGlobal),
    image: &'static [u8],
    door: &mut LoopbackPort,
    fails_at: usize,
) -> (u8, Vec<u8>, Vec<u8>) {
    let mut err = Vec::new(rt.alloc());
    let mut trace = Some(Meter::new(Sink::new(Vec::new(rt.alloc()), fails_at)));
    let status = debug_command(
        rt,
        rt.alloc(),
        &mut Meter::new(image),
        size(2),
        1000,
        door,
        &mut trace,
        &mut err,
    );
    let bytes = match trace {
        Some(writer) => writer.device.bytes,
        None => Vec::new(rt.alloc()),
    };
    (status, err, bytes)
}

/// A session shows what its trace replays to.
#[test]
fn replays_to_what_was_shown(rt: HostRuntime) -> Result<(), Fail> {
    let alloc = rt.alloc();
    lend(log_of(alloc, "ebreak", size(2))?, |log| {
        let mut writer = Meter::new(Sink::new(Vec::new(alloc), 0));
        let end = serve(
            &rt,
            &mut Meter::new(LINES),
            &mut writer,
            log,
            &mut Sweep,
            1000,
        );
        assert_same!(rt; end, SessionEnd::EndOfInput);
        assert_same!(rt; writer.device.bytes.as_slice(), REPLIES);
    });
    let mut out = Meter::new(Sink::new(Vec::new(alloc), 0));
    let mut err = Vec::new(alloc);
    let mut trace = Meter::new(TRACE.as_slice());
    let mut file = metered(Ok(EBREAK.as_slice()));
    let status = replay_command(alloc, &mut trace, &mut file, 1024, &mut out, &mut err);
    assert_same!(rt; err.as_slice(), b"".as_slice());
    assert_same!(rt; out.device.bytes.as_slice(), REPORT.as_bytes());
    assert_same!(rt; status, 1);
    Ok(())
}

/// However a session ends, its trace has the steps of the lines that were carried out. The reader fails after the last
/// line, and the writer at the reply to the fourth, after all lines that take steps.
#[test]
fn sessions_are_saved(rt: HostRuntime) {
    for (read_fails_at, write_fails_at, status, reported) in [
        (0, 0, 1, ""),
        (LINES.len() + 1, 0, 3, "ultra: link\n"),
        (0, 12, 3, "ultra: link\n"),
    ] {
        let mut door = LoopbackPort {
            read_fails_at,
            write_fails_at,
            ..open_door(rt.alloc(), LINES)
        };
        let (ended, err, trace) = saved(&rt, EBREAK.as_slice(), &mut door, 0);
        assert_same!(rt; ended, status);
        assert_same!(rt; err.as_slice(), reported.as_bytes());
        assert_same!(rt; trace.as_slice(), TRACE.as_slice());
    }
}

/// Wherever the trace's writer fails, that is reported in place of how the session ended, and the bytes before the
/// failure stay.
#[test]
fn traces_fail(rt: HostRuntime) {
    for read_fails_at in [0, LINES.len() + 1] {
        for fails_at in 1..=TRACE.len() {
            let mut door = LoopbackPort {
                read_fails_at,
                ..open_door(rt.alloc(), LINES)
            };
            let (ended, err, trace) = saved(&rt, EBREAK.as_slice(), &mut door, fails_at);
            assert_same!(rt; ended, 3, fails_at);
            assert_same!(rt; err.as_slice(), b"ultra: X5\n".as_slice(), fails_at);
            assert_same!(rt; trace.as_slice(), &TRACE[..fails_at - 1], fails_at);
        }
    }
}

/// Without a session no trace is written. Lines after `quit` are not carried out, and the trace of a session without
/// steps is its header.
#[test]
fn nothing_is_saved(rt: HostRuntime) {
    for (image, is_shut, written, reported) in [
        (EBREAK.as_slice(), true, 0, "ultra: link\n"),
        (&EBREAK[..51], false, 0, "ultra: I1\n"),
        (EBREAK.as_slice(), false, 12, ""),
    ] {
        let mut door = LoopbackPort {
            is_shut,
            ..open_door(rt.alloc(), b"quit\nstep 3\n")
        };
        let (_, err, trace) = saved(&rt, image, &mut door, 0);
        assert_same!(rt; err.as_slice(), reported.as_bytes());
        assert_same!(rt; trace.len(), written);
    }
}
