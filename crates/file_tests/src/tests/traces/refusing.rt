//! Bytes that spell no trace, each with its error.

use super::{Change, compare_changes, compare_lengths, refusal};
use std::alloc::{AllocError, Global};
use test_support::{ONE_TURN, assert_same, trace_of};
use trace_file::TraceError::{self, Header, Link, Memory, Record, Trailing, Truncated};

/// A trace that is cut short at each place, and one with one more byte.
#[test]
fn lengths(rt: HostRuntime) {
    compare_lengths(&rt, &ONE_TURN);
}

/// Each byte of the header, at its limits and one past them.
#[test]
fn headers(rt: HostRuntime) {
    compare_changes(&rt, &ONE_TURN, &HEADERS);
    assert_same!(rt; refusal(rt.alloc(), &MOST_RECORDS), Some(Truncated));
}

static HEADERS: [Change; 21] = [
    (0, 0x54, Some(Header)),
    (1, 0x4D, Some(Header)),
    (2, 0, Some(Header)),
    (3, 0x72, Some(Header)),
    (4, 0, Some(Header)),
    (4, 2, Some(Header)),
    (5, 6, None),
    (5, 7, Some(Header)),
    (5, 255, Some(Header)),
    (6, 1, Some(Header)),
    (6, 2, None),
    (6, 16, None),
    (6, 17, Some(Header)),
    (7, 0, None),
    (7, 16, None),
    (7, 17, Some(Header)),
    (8, 0, Some(Trailing)),
    (8, 2, Some(Truncated)),
    (9, 1, Some(Truncated)),
    (10, 0x40, Some(Header)), // 0x00400001 records
    (11, 1, Some(Header)),
];

/// The header of a trace of 0x00400000 records.
static MOST_RECORDS: [u8; 12] = [0x55, 0x4C, 0x54, 0x52, 1, 0, 4, 4, 0, 0, 0x40, 0];

/// Each byte of the record of a turn: its kind, the processor, and the unused bytes.
#[test]
fn records(rt: HostRuntime) {
    compare_changes(&rt, &ONE_TURN, &RECORDS);
}

static RECORDS: [Change; 13] = [
    (12, 0, Some(Record)),
    (12, 8, Some(Record)),
    (13, 1, Some(Record)),
    (14, 1, Some(Record)),
    (15, 1, Some(Record)),
    (16, 1, Some(Record)),
    (17, 1, Some(Record)),
    (18, 1, Some(Record)),
    (19, 1, Some(Record)),
    (20, 1, Some(Record)),
    (21, 1, Some(Record)),
    (22, 1, Some(Record)),
    (23, 1, Some(Record)),
];

/// Records of a machine of four processors, and whether each spells a step. They have a field at its limit or one past
/// it, or a nonzero byte that the kind does not use.
static ENTRIES: [([u8; 12], bool); 29] = [
    ([1, 3, 0, 0, 0, 0, 0, 0, 0, 0, 0, 0], true),
    ([1, 4, 0, 0, 0, 0, 0, 0, 0, 0, 0, 0], false),
    ([2, 1, 3, 0, 0, 0, 0, 0, 0, 0, 0, 0], true),
    ([2, 2, 3, 0, 0, 0, 0, 0, 0, 0, 0, 0], false),
    ([2, 1, 4, 0, 0, 0, 0, 0, 0, 0, 0, 0], false),
    ([2, 1, 3, 0, 1, 0, 0, 0, 0, 0, 0, 0], false),
    ([2, 1, 3, 0, 0, 0, 0, 0, 1, 0, 0, 0], false),
    ([3, 4, 0, 0, 0, 0, 0, 0, 0, 0, 0, 0], false),
    ([3, 0, 1, 0, 0, 0, 0, 0, 0, 0, 0, 0], false),
    ([4, 2, 0, 0, 0, 0, 0, 0, 0, 0, 0, 0], false),
    ([4, 0, 4, 0, 0, 0, 0, 0, 0, 0, 0, 0], false),
    ([4, 0, 3, 1, 0, 0, 0, 0, 0, 0, 0, 0], false),
    ([5, 4, 1, 0, 0, 0, 0, 0, 0, 0, 0, 0], false),
    ([5, 0, 0, 0, 0, 0, 0, 0, 0, 0, 0, 0], false),
    ([5, 0, 31, 0, 0, 0, 0, 0, 3, 0, 0, 0], true),
    ([5, 0, 32, 0, 0, 0, 0, 0, 3, 0, 0, 0], false),
    ([5, 0, 32, 0, 0, 0, 0, 0, 4, 0, 0, 0x80], true),
    ([5, 0, 33, 0, 0, 0, 0, 0, 4, 0, 0, 0], false),
    ([5, 0, 1, 0, 1, 0, 0, 0, 0, 0, 0, 0], false),
    ([6, 4, 0, 0, 0, 0, 2, 0, 0, 0, 0, 0], false),
    ([6, 0, 1, 0, 0, 0, 2, 0, 0, 0, 0, 0], false),
    ([6, 0, 0, 0, 0xFF, 0xFF, 1, 0, 0, 0, 0, 0], false),
    ([6, 0, 0, 0, 0, 0, 3, 0, 0, 0, 0, 0], false),
    ([6, 0, 0, 0, 0, 0, 2, 0, 0, 1, 0, 0], false),
    ([7, 1, 0, 0, 0, 0, 0, 0x80, 0, 0, 0, 0], false),
    ([7, 0, 1, 0, 0, 0, 0, 0x80, 0, 0, 0, 0], false),
    ([7, 0, 0, 0, 0xFF, 0xFF, 0xFF, 0x7F, 0, 0, 0, 0], false),
    ([7, 0, 0, 0, 0, 0, 0x10, 0x80, 0, 0, 0, 0], false),
    ([7, 0, 0, 0, 0, 0, 0, 0x80, 0, 1, 0, 0], false),
];

/// The error of a trace with this one record, of a machine of four processors.
fn entry_refusal(alloc: Global, record: &[u8; 12]) -> Result<Option<TraceError>, AllocError> {
    let trace = trace_of(alloc, (2, 4, 4), &[*record])?;
    Ok(refusal(alloc, trace.as_slice()))
}

#[test]
fn entries(rt: HostRuntime) {
    for (record, is_one) in &ENTRIES {
        let fault = if *is_one { None } else { Some(Record) };
        assert_same!(rt; entry_refusal(rt.alloc(), record), Ok(fault), record);
    }
}

/// Bytes with several errors, and the first of them, which is reported. A header or record that is cut short
/// gives `Truncated`, whatever its bytes.
static SEVERAL_FAULTS: [(&[u8], TraceError); 5] = [
    (&[0xFF; 11], Truncated),
    (&[0xFF; 12], Header),
    (
        &[
            0x55, 0x4C, 0x54, 0x52, 1, 0, 4, 4, 3, 0, 0, 0, // the header of three records
            1, 0, 0, 0, 0, 0, 0, 0, 0, 0, 0, 0, // one of them
            0xFF, 0xFF, 0xFF, 0xFF, 0xFF, 0xFF, 0xFF, 0xFF, 0xFF, 0xFF, 0xFF,
        ],
        Truncated,
    ),
    (
        &[
            0x55, 0x4C, 0x54, 0x52, 1, 0, 4, 4, 3, 0, 0, 0, // the header of three records
            1, 0, 0, 0, 0, 0, 0, 0, 0, 0, 0, 0, // one of them
            0xFF, 0xFF, 0xFF, 0xFF, 0xFF, 0xFF, 0xFF, 0xFF, 0xFF, 0xFF, 0xFF, 0xFF,
        ],
        Record,
    ),
    (
        &[
            0x55, 0x4C, 0x54, 0x52, 1, 0, 4, 4, 1, 0, 0, 0, // the header
            1, 0, 0, 1, 0, 0, 0, 0, 0, 0, 0, 0, // the record
            0,
        ],
        Record,
    ),
];

#[test]
fn first_fault(rt: HostRuntime) {
    for (bytes, fault) in &SEVERAL_FAULTS {
        assert_same!(rt; refusal(rt.alloc(), bytes), Some(*fault), bytes);
    }
}

/// Each error, and its text.
static NUMBERS: [(TraceError, &str); 6] = [
    (Truncated, "X1"),
    (Header, "X2"),
    (Record, "X3"),
    (Trailing, "X4"),
    (Link, "X5"),
    (Memory, "X6"),
];

#[test]
fn numbers(rt: HostRuntime) {
    for (error, number) in &NUMBERS {
        let reported = error.to_string(rt.alloc()).expect(&rt, "memory");
        assert_same!(rt; reported.as_str(), *number);
    }
}
