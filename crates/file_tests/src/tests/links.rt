//! Links over devices that transfer one byte at each call, and may fail at one.

ghost use Rattle.std.specs.Prelude.{◌≡◌, false};

use link::{Failed, Link, LinkRead, LinkWrite, Meter, ReadError, fill, read_within, write_whole};
use std::alloc::{AllocGlobal, Global};
use std::io;
use std::io::{ErrorKind, Read, Write};
use std::process::Abort;
use test_support::{Sink, Source, assert_same};

/// A sink whose failure is an interruption. If it is quiet, its failure is a write of no byte, and its flush fails.
#[derive(Drop)]
struct Fickle {
    sink: Sink,
    /// Whether the failing write returns 0 instead of an error.
    is_quiet: bool,
}

impl Write for Fickle {
    fn write(&mut self, buf: &[u8]) -> io::Result<usize> {
        match self.sink.write(buf) {
            Ok(count) => Ok(count),
            Err(_) if self.is_quiet => Ok(0),
            Err(_) => Err(ErrorKind::Interrupted.into()),
        }
    }

    fn flush(&mut self) -> io::Result<()> {
        if self.is_quiet {
            Err(ErrorKind::Other.into())
        } else {
            Ok(())
        }
    }
}

fn metered_sink(alloc: Global, fails_at: usize, is_quiet: bool) -> Meter<Fickle>
    ensures { ⟦<Meter<Fickle> as Link>⟧.has_failed result ≡ false }
{
    Meter::new(Fickle {
        sink: Sink::new(Vec::new(alloc), fails_at),
        is_quiet,
    })
}

/// Reading the five bytes takes five calls, and a sixth to find the end.
#[test]
fn reads_to_the_end_or_fails(rt: HostRuntime) {
    for fails_at in 0..8 {
        let mut reader = Meter::new(Source::new(b"hello", fails_at));
        let read = read_within(rt.alloc(), &mut reader, 5);
        let found = match &read {
            Ok(bytes) => (bytes.as_slice(), None, reader.failed()),
            Err(error) => (&[][..], Some(*error), reader.failed()),
        };
        let wanted = match fails_at {
            1..=6 => (&[][..], Some(ReadError::Link), true),
            _ => (b"hello".as_slice(), None, false),
        };
        assert_same!(rt; found, wanted, fails_at);
    }
}

/// A read takes one byte past the limit, and no more.
#[test]
fn does_not_read_a_long_input_to_its_end(rt: HostRuntime) {
    let mut reader = Meter::new(Source::new(b"hello, world", 0));
    let read = read_within(rt.alloc(), &mut reader, 4);
    assert_same!(rt; (read.err(), reader.failed()), (Some(ReadError::TooLong), false));
    assert_same!(rt; reader.device.bytes, b", world".as_slice());
}

/// An input may be as long as the limit.
#[test]
fn reads_a_long_input(rt: HostRuntime) {
    let mut all: &[u8] = &[7; 10_000];
    let read = read_within(rt.alloc(), &mut Meter::new(&mut all), 10_000);
    assert_same!(rt; read.map_or(0, |bytes| bytes.len()), 10_000);
}

/// After a failure the device is not called again.
#[test]
fn a_failed_reader_has_ended(rt: HostRuntime) {
    let mut reader = Meter::new(Source::new(b"hello", 2));
    let mut buf = [0u8; 4];
    assert_same!(rt; (reader.receive(&mut buf), buf[0]), (Ok(1), b'h'));
    for _ in 0..2 {
        assert!(rt; reader.read(&mut buf).is_err());
        assert_same!(rt; (reader.failed(), reader.device.calls), (true, 2));
    }
}

/// If no call fails, the first buffer gets four of the six bytes, in calls 1 to 4. The second gets the other two in
/// calls 5 and 6, and call 7 finds the end.
#[test]
fn fills_buffers(rt: HostRuntime) {
    for fails_at in 0..9 {
        let mut reader = Meter::new(Source::new(b"hello!", fails_at));
        let mut buf = [0u8; 4];
        let filled = fill(&mut reader, &mut buf);
        let wanted = match fails_at {
            1..=4 => (Err(Failed), true),
            _ => (Ok(4), false),
        };
        assert_same!(rt; (filled, reader.failed()), wanted, fails_at);
        if filled.is_err() {
            continue;
        }
        assert!(rt; buf == *b"hell");
        let filled = fill(&mut reader, &mut buf);
        let wanted = match fails_at {
            5..=7 => (Err(Failed), true),
            _ => (Ok(2), false),
        };
        assert_same!(rt; (filled, reader.failed()), wanted, fails_at);
        assert!(rt; filled.is_err() || buf == *b"o!ll");
    }
}

/// A writer that fails at a call keeps the bytes of the calls before it, and takes no more.
#[test]
fn writes_a_beginning(rt: HostRuntime) {
    for fails_at in 0..8 {
        for is_quiet in [false, true] {
            compare_beginning(&rt, fails_at, is_quiet);
        }
    }
}

fn compare_beginning(rt: &(impl Abort + AllocGlobal), fails_at: usize, is_quiet: bool) {
    let mut writer = metered_sink(rt.alloc(), fails_at, is_quiet);
    let wrote = write_whole(&mut writer, b"hello");
    let (text, fails) = match fails_at {
        1..=5 => (&b"hello"[..fails_at - 1], true),
        _ => (b"hello".as_slice(), false),
    };
    let found = (
        writer.device.sink.bytes.as_slice(),
        wrote.is_err(),
        writer.failed(),
    );
    assert_same!(rt; found, (text, fails, fails), fails_at);
    if fails {
        assert!(rt; writer.write(b"!").is_err() && writer.flush().is_err());
        assert_same!(rt; writer.device.sink.bytes.as_slice(), text);
    }
}

/// A write of no byte is no failure if there is none to write.
#[test]
fn empty_writes(rt: HostRuntime) {
    let mut writer = metered_sink(rt.alloc(), 0, false);
    assert_same!(rt; (write_whole(&mut writer, b""), writer.device.sink.calls), (Ok(()), 0));
    assert!(rt; writer.write(b"").is_ok());
    assert_same!(rt; writer.send(b"ab"), Ok(1));
    assert!(rt; writer.flush().is_ok() && !writer.failed());
}

/// A failed flush is a failure of the writer, which then takes no more.
#[test]
fn failed_flushes(rt: HostRuntime) {
    let mut writer = metered_sink(rt.alloc(), 0, true);
    assert!(rt; writer.flush().is_err() && writer.failed() && writer.write(b"a").is_err());
}
