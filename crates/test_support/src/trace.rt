//! Traces by their bytes.

use std::alloc::{AllocError, Global};

/// The trace of one turn of the one processor, on a machine with `c` and `b` of 4.
pub const ONE_TURN: [u8; 24] = [
    0x55, 0x4C, 0x54, 0x52, 1, 0, 4, 4, 1, 0, 0, 0, // the header
    1, 0, 0, 0, 0, 0, 0, 0, 0, 0, 0, 0, // the record
];

/// Four processors add 1, 2, 4 and 8 to shared word 0, which is 10. The requests of 0 and 2 meet at stage 0, those of
/// 1 and 3 do, and both groups meet at stage 1.
pub const FOUR_ADDS: [[u8; 12]; 27] = [
    [5, 0, 11, 0, 0, 0, 0, 0, 1, 0, 0, 0],
    [5, 1, 11, 0, 0, 0, 0, 0, 2, 0, 0, 0],
    [5, 2, 11, 0, 0, 0, 0, 0, 4, 0, 0, 0],
    [5, 3, 11, 0, 0, 0, 0, 0, 8, 0, 0, 0],
    [5, 0, 12, 0, 0, 0, 0, 0, 0, 0, 0, 0x80],
    [5, 1, 12, 0, 0, 0, 0, 0, 0, 0, 0, 0x80],
    [5, 2, 12, 0, 0, 0, 0, 0, 0, 0, 0, 0x80],
    [5, 3, 12, 0, 0, 0, 0, 0, 0, 0, 0, 0x80],
    [7, 0, 0, 0, 0, 0, 0, 0x80, 10, 0, 0, 0],
    [1, 0, 0, 0, 0, 0, 0, 0, 0, 0, 0, 0],
    [1, 1, 0, 0, 0, 0, 0, 0, 0, 0, 0, 0],
    [1, 2, 0, 0, 0, 0, 0, 0, 0, 0, 0, 0],
    [1, 3, 0, 0, 0, 0, 0, 0, 0, 0, 0, 0],
    [2, 0, 0, 0, 0, 0, 0, 0, 0, 0, 0, 0],
    [2, 0, 2, 0, 0, 0, 0, 0, 0, 0, 0, 0],
    [2, 0, 1, 0, 0, 0, 0, 0, 0, 0, 0, 0],
    [2, 0, 3, 0, 0, 0, 0, 0, 0, 0, 0, 0],
    [2, 1, 0, 0, 0, 0, 0, 0, 0, 0, 0, 0],
    [2, 1, 2, 0, 0, 0, 0, 0, 0, 0, 0, 0],
    [3, 0, 0, 0, 0, 0, 0, 0, 0, 0, 0, 0],
    [4, 1, 0, 0, 0, 0, 0, 0, 0, 0, 0, 0],
    [4, 0, 0, 0, 0, 0, 0, 0, 0, 0, 0, 0],
    [4, 0, 2, 0, 0, 0, 0, 0, 0, 0, 0, 0],
    [1, 0, 0, 0, 0, 0, 0, 0, 0, 0, 0, 0],
    [1, 1, 0, 0, 0, 0, 0, 0, 0, 0, 0, 0],
    [1, 2, 0, 0, 0, 0, 0, 0, 0, 0, 0, 0],
    [1, 3, 0, 0, 0, 0, 0, 0, 0, 0, 0, 0],
];

/// A trace of these records, 255 at most, on a machine of `2^k` processors.
///
/// # Errors
///
/// [`AllocError`] if there is no memory for it.
pub fn trace_of(
    alloc: Global,
    (k, c, b): (u8, u8, u8),
    records: &[[u8; 12]],
) -> Result<Vec<u8>, AllocError> {
    let mut trace = b"ULTR\x01".to_vec(alloc)?;
    trace.extend_from_slice(&[k, c, b])?;
    trace.extend_from_slice(&[records.len().min(255) as u8, 0, 0, 0])?;
    for record in records {
        trace.extend_from_slice(record)?;
    }
    Ok(trace)
}
