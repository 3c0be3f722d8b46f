//! A reader and a writer that fail.

use super::{BUDGET, ROW, talk};
use debug_session::{SessionEnd, Sweep, serve};
use link::Meter;
use machine_log::Logged;
use std::process::Abort;
use std::test::Fail;
use test_support::{Sink, Source, assert_same, lend, log_of, size};

/// Checks how a session ended, the value of word 0 after it, and that no reference is open.
fn is_left(rt: &impl Abort, log: &Logged, ends: (SessionEnd, SessionEnd), word: u32, call: usize) {
    assert_same!(rt; ends.0, ends.1, call);
    assert_same!(rt; log.machine().word(0), Some(word), call);
    assert!(rt; log.machine().is_idle());
}

/// If the reader fails, the lines that were whole before are answered.
#[test]
fn fails_at_each_read(rt: HostRuntime) -> Result<(), Fail> {
    let input = b"write 0 80000000 2a000000\n";
    for call in 1..input.len() + 3 {
        let (output, word) = if call > input.len() {
            ("ok\n", 42)
        } else {
            ("", 0)
        };
        let wanted = if call > input.len() + 1 {
            SessionEnd::EndOfInput
        } else {
            SessionEnd::ReadFailed
        };
        lend(log_of(rt.alloc(), ROW, size(2))?, |log| {
            let (end, text) = talk(&rt, log, &mut Meter::new(Source::new(input, call)));
            assert_same!(rt; text.as_slice(), output.as_bytes(), call);
            is_left(&rt, log, (end, wanted), word, call);
        });
    }
    Ok(())
}

/// If the writer fails, the line whose reply was written is carried out, and none after it.
#[test]
fn fails_at_each_write(rt: HostRuntime) -> Result<(), Fail> {
    let input = b"write 0 80000000 2a000000\nwrite 0 80000000 2b000000\n".as_slice();
    let output = b"ok\nok\n".as_slice();
    for count in 0..output.len() + 1 {
        let fails_at = count + 1;
        let written = &output[..count];
        let word = if count < 3 { 42 } else { 43 };
        let wanted = if count < output.len() {
            SessionEnd::WriteFailed
        } else {
            SessionEnd::EndOfInput
        };
        lend(log_of(rt.alloc(), ROW, size(2))?, |log| {
            let mut reader = Meter::new(input);
            let mut writer = Meter::new(Sink::new(Vec::new(rt.alloc()), fails_at));
            let end = serve(&rt, &mut reader, &mut writer, log, &mut Sweep, BUDGET);
            assert_same!(rt; writer.device.bytes.as_slice(), written, count);
            is_left(&rt, log, (end, wanted), word, count);
        });
    }
    Ok(())
}
