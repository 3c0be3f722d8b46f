//! Images that are refused, each with its error, and the order of errors.

use super::{Part, changed, file_of, refusal, refusal_of};
use elf_image::ImageError::{
    self, Entry, NotExecutable, OutsideInput, OutsideRegions, Overlap, TooLong, Truncated,
    UnsupportedHeader,
};
use std::alloc::{AllocError, Global};
use test_support::{EBREAK, assert_same, with_bytes};

/// An image cut to fewer than 84 bytes has no whole program header, and one cut to fewer than 88 has no whole segment.
#[test]
fn cut_short(rt: HostRuntime) {
    for length in 0..89usize {
        let expected = match length {
            88 => None,
            84..88 => Some(OutsideInput),
            _ => Some(Truncated),
        };
        let refused = refusal(rt.alloc(), &EBREAK[..length], 1024);
        assert_same!(rt; refused, expected, length);
    }
}

/// A wrong byte at each of the first seven places.
#[test]
fn identification(rt: HostRuntime) {
    for place in 0..7usize {
        let refused = refusal(rt.alloc(), &changed(place, &[0x80]), 1024);
        assert_same!(rt; refused, Some(NotExecutable), place);
    }
}

/// Each field of the ELF header and of the program header, if only that field is wrong.
#[test]
fn header_fields(rt: HostRuntime) {
    for (place, number, expected) in FILE_HEADER.iter().chain(&PROGRAM_HEADER) {
        let refused = refusal(rt.alloc(), &changed(*place, &number.to_le_bytes()), 1024);
        assert_same!(rt; refused, Some(*expected), (number, place));
    }
}

/// Offsets of fields of the ELF header, wrong values, and their errors.
static FILE_HEADER: [(usize, u32, ImageError); 23] = [
    (16, 1, NotExecutable),
    (16, 0x0102, NotExecutable),
    (18, 62, NotExecutable),
    (20, 0, UnsupportedHeader),
    (20, 0x0100_0001, UnsupportedHeader),
    (24, 0x0000_FFFC, Entry),
    (24, 0x0001_0002, Entry),
    (24, 0x0001_0001, Entry),
    (24, 0x0002_0000, Entry),
    (24, 0x8000_0000, Entry),
    (28, 57, Truncated),
    (28, 0xFFFF_FFFF, Truncated),
    (28, 0xFFFF_FFE0, Truncated),
    (36, 1, UnsupportedHeader),
    (36, 0x8000_0000, UnsupportedHeader),
    (40, 0x0020_0033, UnsupportedHeader),
    (40, 0x0020_0134, UnsupportedHeader),
    (42, 0x0001_0028, UnsupportedHeader),
    (44, 0, UnsupportedHeader),
    (44, 2, Truncated),
    (44, 16, Truncated),
    (44, 17, UnsupportedHeader),
    (44, 0x0101, UnsupportedHeader),
];

/// Offsets of fields of the program header, wrong values, and their errors.
static PROGRAM_HEADER: [(usize, u32, ImageError); 19] = [
    (56, 85, OutsideInput),
    (56, 0xFFFF_FFFF, OutsideInput),
    (56, 0xFFFF_FFFC, OutsideInput),
    (60, 0x0000_FFFF, OutsideRegions),
    (60, 0x0001_FFFD, OutsideRegions),
    (60, 0x0002_0000, OutsideRegions),
    (60, 0x0003_0000, OutsideRegions),
    (60, 0, OutsideRegions),
    (68, 5, OutsideInput),
    (68, 0xFFFF_FFFF, OutsideInput),
    (72, 3, OutsideInput),
    (72, 0, OutsideInput),
    (72, 0x0001_0001, OutsideRegions),
    (72, 0xFFFF_FFFF, OutsideRegions),
    (76, 0, OutsideRegions),
    (76, 1, OutsideRegions),
    (76, 6, OutsideRegions),
    (76, 7, OutsideRegions),
    (76, 0x0100_0005, OutsideRegions),
];

/// Sums of two fields do not wrap at 32 bits.
#[test]
fn sums_do_not_wrap(rt: HostRuntime) {
    let file = with_bytes(changed(56, &[0xFF; 4]), 68, &[0xFF; 4]);
    assert_same!(rt; refusal(rt.alloc(), &file, 1024), Some(OutsideInput));
    let file = with_bytes(changed(60, &0xFFFF_FFFCu32.to_le_bytes()), 72, &[8]);
    assert_same!(rt; refusal(rt.alloc(), &file, 1024), Some(OutsideRegions));
}

/// The number of shared words, a segment's address, length and flags, and whether it is accepted.
static REGIONS: [(u32, u32, u32, u32, bool); 20] = [
    (1024, 0x0001_0000, 0x0001_0000, 4, true),
    (1024, 0x0001_0000, 0x0001_0001, 4, false),
    (1024, 0x0001_0000, 4, 1, false),
    (1024, 0x0002_0000, 0x0001_0000, 6, true),
    (1024, 0x0002_0000, 0x0001_0001, 6, false),
    (1024, 0x0001_FFFF, 2, 6, false),
    (1024, 0x0002_0000, 4, 4, false),
    (1024, 0x0002_0000, 4, 5, false),
    (1024, 0x0002_0000, 4, 7, false),
    (1024, 0x0003_0000, 1, 6, false),
    (1024, 0x7FFF_FFFF, 2, 6, false),
    (1024, 0x8000_0000, 4096, 6, true),
    (1024, 0x8000_0000, 4097, 6, false),
    (1024, 0x8000_1000, 1, 6, false),
    (1024, 0x8000_0000, 4, 5, false),
    (1, 0x8000_0003, 1, 6, true),
    (1, 0x8000_0004, 1, 6, false),
    (262_144, 0x800F_FFFF, 1, 6, true),
    (262_144, 0x800F_FFFF, 2, 6, false),
    (262_144, 0x8010_0000, 1, 6, false),
];

#[test]
fn regions(rt: HostRuntime) {
    for (shared_words, p_vaddr, p_memsz, p_flags, is_accepted) in &REGIONS {
        let part = (*p_vaddr, 84, 0, *p_memsz, *p_flags);
        let refused = refusal_of(rt.alloc(), &[part], *shared_words);
        let expected = if *is_accepted {
            None
        } else {
            Some(OutsideRegions)
        };
        assert_same!(rt; refused, Ok(expected), (p_memsz, p_vaddr));
    }
}

/// Addresses and lengths of two segments, and whether they are accepted. Adjacent segments are, in either order, and
/// segments that share an address are not.
static OVERLAPS: [((u32, u32), (u32, u32), bool); 12] = [
    ((0x0002_0000, 8), (0x0002_0008, 8), true),
    ((0x0002_0008, 8), (0x0002_0000, 8), true),
    ((0x0002_0000, 9), (0x0002_0008, 8), false),
    ((0x0002_0008, 8), (0x0002_0000, 9), false),
    ((0x0002_0000, 8), (0x0002_0000, 8), false),
    ((0x0002_0000, 8), (0x0002_0003, 1), false),
    ((0x0002_0003, 1), (0x0002_0000, 8), false),
    ((0x0002_0000, 8), (0x0002_0004, 0), true),
    ((0x0002_0004, 0), (0x0002_0000, 8), true),
    ((0x0002_0004, 0), (0x0002_0004, 0), true),
    ((0x8000_0000, 1), (0x8000_0000, 1), false),
    ((0x8000_0000, 1), (0x0002_0000, 1), true),
];

#[test]
fn overlaps(rt: HostRuntime) {
    for ((first, first_size), (second, second_size), is_accepted) in &OVERLAPS {
        let parts = [
            (*first, 0, 0, *first_size, 6),
            (*second, 0, 0, *second_size, 6),
        ];
        let refused = refusal_of(rt.alloc(), &parts, 1024);
        let expected = if *is_accepted { None } else { Some(Overlap) };
        assert_same!(rt; refused, Ok(expected), (first, second));
    }
}

const GOOD: Part = (0x0001_0000, 0, 4, 4, 5);

/// A segment at an address of no region.
const UNPLACED: Part = (0, 0, 4, 4, 5);

/// A segment whose bytes would be past the end of the file.
const UNFILED: Part = (0x0001_0000, 1_000_000, 4, 4, 5);

const NEITHER: Part = (0, 1_000_000, 4, 4, 5);

/// Segments, some with several errors, and the error that is reported.
static FIRST_FAULTS: [(&[Part], ImageError); 5] = [
    (&[GOOD, GOOD, UNPLACED], OutsideRegions),
    (&[GOOD, UNPLACED, UNFILED], OutsideRegions),
    (&[GOOD, UNFILED, UNPLACED], OutsideInput),
    (&[NEITHER, GOOD, GOOD], OutsideInput),
    (&[GOOD, GOOD, GOOD], Overlap),
];

/// The error of a file of these segments in which these bytes are changed.
fn refusal_with(
    alloc: Global,
    parts: &[Part],
    wrong: &[(usize, u8)],
) -> Result<Option<ImageError>, AllocError> {
    let mut file = file_of(alloc, parts, &[])?;
    for (place, byte) in wrong {
        if let Some(there) = file.as_mut_slice().get_mut(*place) {
            *there = *byte;
        }
    }
    Ok(refusal(alloc, file.as_slice(), 1024))
}

/// The errors of a file of these segments: with a wrong entry, then with a wrong version too, and then with a wrong
/// first byte too.
fn first_faults(alloc: Global, parts: &[Part]) -> Result<[Option<ImageError>; 3], AllocError> {
    let entry = refusal_with(alloc, parts, &[(24, 2)])?;
    let version = refusal_with(alloc, parts, &[(24, 2), (20, 2)])?;
    let first_byte = refusal_with(alloc, parts, &[(24, 2), (20, 2), (0, 0)])?;
    Ok([entry, version, first_byte])
}

/// Errors of the headers take precedence over those of segments, and these over an error of the entry.
#[test]
fn first_fault_first(rt: HostRuntime) {
    for (parts, expected) in &FIRST_FAULTS {
        let found = first_faults(rt.alloc(), parts);
        let wanted = [
            Some(*expected),
            Some(UnsupportedHeader),
            Some(NotExecutable),
        ];
        assert_same!(rt; found, Ok(wanted));
    }
}

/// A file of this many bytes that begins with the image of EBREAK.
fn long_file(alloc: Global, length: usize) -> Result<Vec<u8>, AllocError> {
    let mut file = Vec::from_slice(alloc, &EBREAK)?;
    file.resize(length, 0xFF)?;
    Ok(file)
}

/// An input longer than 1 MiB is refused, whatever it holds.
#[test]
fn too_long(rt: HostRuntime) {
    let file = long_file(rt.alloc(), 1_048_576).expect(&rt, "memory");
    assert_same!(rt; refusal(rt.alloc(), file.as_slice(), 1024), None);
    let mut file = long_file(rt.alloc(), 1_048_577).expect(&rt, "memory");
    assert_same!(rt; refusal(rt.alloc(), file.as_slice(), 1024), Some(TooLong));
    if let Some(first) = file.as_mut_slice().get_mut(0) {
        *first = 0;
    }
    assert_same!(rt; refusal(rt.alloc(), file.as_slice(), 1024), Some(TooLong));
}
