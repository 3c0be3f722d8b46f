//! Traces of machines whose queues may combine an entry more than once. They have a longer header.

use super::{Change, compare, compare_changes, compare_lengths};
use flat_machine::Config;
use steps::Step;
use test_support::assert_same;
use trace_file::TraceError::{self, Header, Truncated};
use trace_file::is_trace;

/// The trace of no steps of a machine of four processors that combines an entry up to three times.
static NO_STEPS: [u8; 16] = [0x55, 0x4C, 0x54, 0x52, 2, 2, 4, 4, 3, 0, 0, 0, 0, 0, 0, 0];

/// The trace of one service of the same machine, if it combines an entry up to twice.
static ONE_SERVICE: [u8; 28] = [
    0x55, 0x4C, 0x54, 0x52, 2, 2, 4, 4, 2, 0, 0, 0, 1, 0, 0, 0, // the header
    3, 3, 0, 0, 0, 0, 0, 0, 0, 0, 0, 0, // the record
];

/// The size of that machine, which combines an entry up to `r` times.
fn config(r: u8) -> Config {
    Config {
        k: 2,
        c: 4,
        b: 4,
        r,
        shared_words: 1024,
    }
}

#[test]
fn spelled_and_read(rt: HostRuntime) {
    compare(&rt, &config(3), &[], &NO_STEPS);
    compare(&rt, &config(2), &[Step::Serve(3)], &ONE_SERVICE);
    assert_same!(rt; (is_trace(&config(0), &[]), is_trace(&config(4), &[])), (false, false));
}

/// A trace that is cut short at each place, and one with one more byte.
#[test]
fn lengths(rt: HostRuntime) {
    compare_lengths(&rt, &NO_STEPS);
}

/// Each byte of the header, at its limits and one past them. A machine with an `r` of 1 has only the shorter header.
#[test]
fn headers(rt: HostRuntime) {
    compare_changes(&rt, &NO_STEPS, &HEADERS);
}

static HEADERS: [Change; 20] = [
    (3, 0x72, Some(Header)),
    (4, 1, Some(Truncated)), // three records
    (4, 3, Some(Header)),
    (5, 6, None),
    (5, 7, Some(Header)),
    (6, 3, Some(Header)),
    (6, 16, None),
    (6, 17, Some(Header)),
    (7, 16, None),
    (7, 17, Some(Header)),
    (8, 0, Some(Header)),
    (8, 1, Some(Header)),
    (8, 2, None),
    (8, 4, Some(Header)),
    (9, 1, Some(Header)),
    (10, 1, Some(Header)),
    (11, 1, Some(Header)),
    (12, 1, Some(Truncated)),
    (14, 0x40, Some(Truncated)), // 0x00400000 records
    (15, 1, Some(Header)),
];
