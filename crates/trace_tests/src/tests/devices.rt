//! Reads and writes that fail, and a test of which `tests/cli/memory.sh` refuses each request for memory in turn.

use super::{Asked, WHOLE, ask};
use link::Meter;
use std::test::Fail;
use test_support::{Deaf, EBREAK, ONE_TURN, Sink, Source, assert_same};

/// The report on one turn of an image of `ebreak` on one processor.
fn stopped(asked: Asked) -> &'static [u8] {
    match asked {
        Asked::Order(_) => b"0 0 00010000 fault 8\n",
        Asked::Story(_) => b"0 turn 0: stops fault 8\n",
        Asked::Rounds(_) => b"round 1\n0 turn 0: stops fault 8\n",
        Asked::QueueTable => b"round,stage,requests,records,replies\n",
        Asked::Stats | Asked::LatencyStats | Asked::QueueStats => {
            b"machine k 0 c 4 b 4 r 1
steps 1 turns 1 up 0 serve 0 down 0 poke 0 rounds 1
module 0 serves 0
processor 0 turns 1 retired 0
"
        }
    }
}

/// If a write fails, the bytes before it are printed, and the exit status is that of the failed write and not that of
/// the processor's fault.
#[test]
fn lines_that_cannot_be_printed(rt: HostRuntime) {
    let alloc = rt.alloc();
    for asked in WHOLE {
        let lines = stopped(asked);
        for fails_at in [0, 1, 2, lines.len() / 2, lines.len(), lines.len() + 1] {
            let mut out = Meter::new(Sink::new(Vec::new(alloc), fails_at));
            let mut err = Sink::new(Vec::new(alloc), 0);
            let trace = ONE_TURN.as_slice();
            let file = Ok(EBREAK.as_slice());
            let status = ask(alloc, asked, trace, file, 1, &mut out, &mut err);
            if 1 <= fails_at && fails_at <= lines.len() {
                assert_same!(rt; Some(out.device.bytes.as_slice()), lines.get(..fails_at - 1));
                assert_same!(rt; err.bytes.as_slice(), b"ultra: link\n".as_slice());
                assert_same!(rt; status, 3, (&asked, &fails_at));
            } else {
                assert_same!(rt; out.device.bytes.as_slice(), lines);
                assert_same!(rt; status, 1, (&asked, &fails_at));
            }
        }
    }
}

/// A trace and an image that cannot be read. If standard error fails too, only the exit status reports the fault.
#[test]
fn files_that_cannot_be_read(rt: HostRuntime) {
    let alloc = rt.alloc();
    for asked in WHOLE {
        let mut out = Meter::new(Sink::new(Vec::new(alloc), 0));
        let mut err = Sink::new(Vec::new(alloc), 0);
        let trace = Source::new(&ONE_TURN, 5);
        let file = Ok(EBREAK.as_slice());
        let status = ask(alloc, asked, trace, file, 1, &mut out, &mut err);
        assert_same!(rt; err.bytes.as_slice(), b"ultra: X5\n".as_slice());
        assert_same!(rt; out.device.bytes.len(), 0);
        assert_same!(rt; status, 3);
        let mut out = Meter::new(Sink::new(Vec::new(alloc), 0));
        let trace = ONE_TURN.as_slice();
        let file = Ok(Source::new(&EBREAK, 5));
        let status = ask(alloc, asked, trace, file, 1, &mut out, &mut Deaf);
        assert_same!(rt; out.device.bytes.len(), 0);
        assert_same!(rt; status, 3);
    }
}

#[test]
fn short_of_memory(rt: HostRuntime) -> Result<(), Fail> {
    let alloc = rt.alloc();
    for asked in WHOLE {
        let mut out = Meter::new(Sink::new(Vec::with_capacity(alloc, 128)?, 0));
        let mut err = Sink::new(Vec::with_capacity(alloc, 128)?, 0);
        let trace = ONE_TURN.as_slice();
        let file = Ok(EBREAK.as_slice());
        let status = ask(alloc, asked, trace, file, 1, &mut out, &mut err);
        if status == 1 {
            assert_same!(rt; out.device.bytes.as_slice(), stopped(asked));
            assert_same!(rt; err.bytes.len(), 0);
        } else {
            assert_same!(rt; status, 4);
            assert_same!(rt; out.device.bytes.len(), 0);
            assert_same!(rt; err.bytes.as_slice(), b"ultra: memory\n".as_slice());
        }
    }
    Ok(())
}
