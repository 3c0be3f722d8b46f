//! Devices that transfer one byte at each call, and may fail at one.

use super::config;
use link::{Link, Meter};
use std::io;
use std::io::Write;
use steps::Step;
use test_support::{ONE_TURN, Sink, Source, assert_same};
use trace_file::{TraceError, is_trace, read_trace, write_trace};

/// A writer that takes all bytes, and counts them and its calls.
#[derive(Drop)]
struct Counter {
    bytes: usize,
    calls: usize,
}

impl Write for Counter {
    fn write(&mut self, buf: &[u8]) -> io::Result<usize> {
        self.calls = self.calls.saturating_add(1);
        self.bytes = self.bytes.saturating_add(buf.len());
        Ok(buf.len())
    }

    fn flush(&mut self) -> io::Result<()> {
        Ok(())
    }
}

/// Reading the 24 bytes takes 24 calls, and one more to find the end.
#[test]
fn each_read_fails_in_turn(rt: HostRuntime) {
    for fails_at in 0..28 {
        let mut reader = Meter::new(Source::new(&ONE_TURN, fails_at));
        let trace = read_trace(rt.alloc(), &mut reader);
        let found = match &trace {
            Ok(trace) => (trace.steps(), None, reader.failed()),
            Err(error) => (&[][..], Some(*error), reader.failed()),
        };
        let wanted = match fails_at {
            1..=25 => (&[][..], Some(TraceError::Link), true),
            _ => (STEPS.as_slice(), None, false),
        };
        assert_same!(rt; found, wanted, fails_at);
    }
}

/// The steps of `ONE_TURN`.
static STEPS: [Step; 1] = [Step::Turn(0)];

/// A write that fails leaves the bytes written before it.
#[test]
fn each_write_fails_in_turn(rt: HostRuntime) {
    let config = config(0);
    assert!(rt; is_trace(&config, &STEPS));
    for fails_at in 0..28 {
        let mut writer = Meter::new(Sink::new(Vec::new(rt.alloc()), fails_at));
        let written = write_trace(&mut writer, &config, &STEPS);
        let found = (writer.device.bytes.as_slice(), written, writer.failed());
        let wanted = match fails_at {
            1..=24 => (&ONE_TURN[..fails_at - 1], Err(TraceError::Link), true),
            _ => (ONE_TURN.as_slice(), Ok(()), false),
        };
        assert_same!(rt; found, wanted, fails_at);
    }
}

/// A reader takes no byte after the first trailing one, and none after a wrong header.
#[test]
fn takes_no_more_than_tells(rt: HostRuntime) {
    let mut rest: &[u8] = &LONGER;
    let read = read_trace(rt.alloc(), &mut Meter::new(&mut rest));
    assert_same!(rt; (read.err(), rest.len()), (Some(TraceError::Trailing), 15));
    let mut rest: &[u8] = &LONGER[12..];
    let read = read_trace(rt.alloc(), &mut Meter::new(&mut rest));
    assert_same!(rt; (read.err(), rest.len()), (Some(TraceError::Header), 16));
}

/// The trace of one turn, and sixteen bytes more.
static LONGER: [u8; 40] = [
    0x55, 0x4C, 0x54, 0x52, 1, 0, 4, 4, 1, 0, 0, 0, // the header
    1, 0, 0, 0, 0, 0, 0, 0, 0, 0, 0, 0, // the record
    9, 9, 9, 9, 9, 9, 9, 9, 9, 9, 9, 9, 9, 9, 9, 9,
];

/// The writer is called once for the header, and once for each piece of up to 341 records.
#[test]
fn calls_for_pieces(rt: HostRuntime) {
    let mut writer = Meter::new(Counter { bytes: 0, calls: 0 });
    let config = config(0);
    let steps = [Step::Turn(0); 1000];
    assert!(rt; is_trace(&config, &steps));
    let written = write_trace(&mut writer, &config, &steps);
    assert_same!(rt; (written, writer.device.bytes, writer.device.calls), (Ok(()), 12_012, 4));
}
