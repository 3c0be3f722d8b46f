//! Traces made by hand: each kind of step, each error, and devices that fail.

ghost use Rattle.std.specs.Prelude.{◌≡◌};

mod combinations;
mod devices;
mod limits;
mod refusing;
mod writing;

use flat_machine::Config;
use link::Meter;
use std::alloc::{AllocError, AllocGlobal, Global};
use std::process::Abort;
use steps::Step;
use test_support::assert_same;
use trace_file::{Trace, TraceError, is_trace, read_trace, write_trace};

/// The size of a machine with `k` stages, and with `c` and `b` of 4.
fn config(k: u8) -> Config {
    Config {
        k,
        c: 4,
        b: 4,
        r: 1,
        shared_words: 1024,
    }
}

/// The bytes of the trace of these steps, which have one.
fn written(rt: &impl Abort, alloc: Global, config: &Config, steps: &[Step]) -> Vec<u8> {
    assert!(rt; is_trace(config, steps));
    let mut writer = Meter::new(Vec::new(alloc));
    assert_same!(rt; write_trace(&mut writer, config, steps), Ok(()));
    writer.device
}

/// The result of reading these bytes as a trace.
fn read(alloc: Global, bytes: &[u8]) -> Result<Trace, TraceError> {
    read_trace(alloc, &mut Meter::new(bytes))
}

/// The error of these bytes, or none if they spell a trace.
fn refusal(alloc: Global, bytes: &[u8]) -> Option<TraceError> {
    read(alloc, bytes).err()
}

/// Checks that the steps are written as this trace, and that the trace is read as these steps.
fn compare(rt: &(impl Abort + AllocGlobal), config: &Config, steps: &[Step], trace: &[u8]) {
    let bytes = written(rt, rt.alloc(), config, steps);
    assert_same!(rt; bytes.as_slice(), trace, steps);
    let read = read(rt.alloc(), trace).expect(rt, "a trace");
    let found = (read.config(config.shared_words), read.steps());
    assert_same!(rt; found, (*config, steps));
}

/// The error of a trace with another byte at a place.
fn refusal_with(
    alloc: Global,
    trace: &[u8],
    place: usize,
    byte: u8,
) -> Result<Option<TraceError>, AllocError> {
    let mut bytes = Vec::from_slice(alloc, trace)?;
    if let Some(there) = bytes.as_mut_slice().get_mut(place) {
        *there = byte;
    }
    Ok(refusal(alloc, bytes.as_slice()))
}

/// A place in a trace, the byte put there, and the error.
type Change = (usize, u8, Option<TraceError>);

/// Makes these changes to a trace, one at a time, and compares the errors.
fn compare_changes(rt: &(impl Abort + AllocGlobal), trace: &[u8], changes: &[Change]) {
    for (place, byte, fault) in changes {
        let found = refusal_with(rt.alloc(), trace, *place, *byte);
        assert_same!(rt; found, Ok(*fault), (byte, place));
    }
}

/// The error of a trace with one more byte.
fn refusal_longer(alloc: Global, trace: &[u8]) -> Result<Option<TraceError>, AllocError> {
    let mut longer = Vec::from_slice(alloc, trace)?;
    longer.push(0)?;
    Ok(refusal(alloc, longer.as_slice()))
}

/// Compares the errors of a trace that is cut short at each place, and of one with one more byte.
fn compare_lengths(rt: &(impl Abort + AllocGlobal), trace: &[u8]) {
    for length in 0..trace.len() {
        let found = refusal(rt.alloc(), &trace[..length]);
        assert_same!(rt; found, Some(TraceError::Truncated), length);
    }
    assert_same!(rt; refusal(rt.alloc(), trace), None);
    assert_same!(rt; refusal_longer(rt.alloc(), trace), Ok(Some(TraceError::Trailing)));
}
