//! Long traces, and the greatest number of steps that a trace can have.

use super::{config, read, written};
use std::alloc::{AllocError, Global};
use steps::{MAX_STEPS, Step};
use test_support::assert_same;
use trace_file::is_trace;

/// This many turns, of one processor after another.
fn turns(alloc: Global, count: u32) -> Result<Vec<Step>, AllocError> {
    let mut steps = Vec::new(alloc);
    for number in 0..count {
        steps.push(Step::Turn((number % 64) as u8))?;
    }
    Ok(steps)
}

/// Traces of whole pieces of 341 records, and of a few records more or less.
#[test]
fn several_pieces(rt: HostRuntime) {
    for count in [340u32, 341, 342, 682, 1000, 3410] {
        let steps = turns(rt.alloc(), count).expect(&rt, "memory");
        let bytes = written(&rt, rt.alloc(), &config(6), steps.as_slice());
        let trace = read(rt.alloc(), bytes.as_slice()).expect(&rt, "a trace");
        assert!(rt; trace.steps() == steps.as_slice(), "{count} steps");
    }
}

/// Returns whether this many steps have a trace.
fn have_trace(alloc: Global, count: usize) -> Result<bool, AllocError> {
    let steps = vec![in alloc; Step::Serve(0); count]?;
    Ok(is_trace(&config(0), steps.as_slice()))
}

/// A trace has at most 4,194,304 steps.
#[test]
fn too_many_steps(rt: HostRuntime) {
    assert_same!(rt; MAX_STEPS, 4_194_304);
    assert_same!(rt; have_trace(rt.alloc(), 4_194_304), Ok(true));
    assert_same!(rt; have_trace(rt.alloc(), 4_194_305), Ok(false));
}
