//! What segments place in the regions.

use super::{Part, compare, file_of};
use test_support::EBREAK;

/// An image of one instruction, which is also the entry.
#[test]
fn one_instruction(rt: HostRuntime) {
    compare(&rt, &EBREAK, 1024, "00100073");
}

/// Segments, the bytes after the headers, the shared words of the machine, and what is placed.
static PLACED: [(&[Part], &[u8], u32, &str); 3] = [
    // Segments of each region, not in the order of their addresses, with gaps between them, and bytes past `p_filesz`.
    // All take their bytes from the same five of the file, which begin at offset 52 + 32 * 6.
    (
        &[
            (0x0002_0005, 244, 2, 3, 6),
            (0x0001_0000, 245, 4, 4, 5),
            (0x0002_0001, 247, 2, 2, 6),
            (0x8000_0002, 244, 5, 9, 6),
            (0x0001_0008, 244, 0, 2, 4),
            (0x0002_0003, 246, 1, 2, 6),
        ],
        &[1, 2, 3, 4, 5],
        1024,
        "05040302 00000000 0000 local 00 04 05 03 00 01 02 00 shared 00*2 01 02 03 04 05 00*4",
    ),
    // The bytes past `p_filesz` are zero, whatever the file has there.
    (
        &[(0x0002_0000, 84, 2, 6, 6)],
        &[9; 16],
        1024,
        "local 09*2 00*4",
    ),
    // The last byte of the largest shared memory.
    (
        &[(0x800F_FFFF, 84, 1, 1, 6)],
        &[7],
        262_144,
        "shared 00*1048575 07",
    ),
];

#[test]
fn segments_are_placed(rt: HostRuntime) {
    for (parts, bytes, shared_words, wanted) in &PLACED {
        let file = file_of(rt.alloc(), parts, bytes).expect(&rt, "memory");
        compare(&rt, file.as_slice(), *shared_words, wanted);
    }
}
