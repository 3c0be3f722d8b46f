//! Images that are accepted, and fields that are ignored.

use super::{Part, changed, compare, file_of, read, refusal, refusal_of};
use elf_image::{Image, ImageError};
use std::alloc::{AllocError, AllocGlobal, Global};
use std::process::Abort;
use test_support::{EBREAK, assert_same, layout_text, with_bytes};

/// Offsets of bytes that are ignored: in the rest of `e_ident`, the section fields, `p_paddr` and `p_align`.
static UNSEEN: [usize; 15] = [7, 8, 15, 32, 35, 46, 47, 48, 49, 50, 51, 64, 67, 80, 83];

#[test]
fn fields_not_looked_at(rt: HostRuntime) {
    for place in &UNSEEN {
        let refused = refusal(rt.alloc(), &changed(*place, &[0xA5]), 1024);
        assert_same!(rt; refused, None, place);
    }
}

/// The offset of a field, its new value, and what the file then places: the last address of code as the entry and as a
/// segment's address, and flags without execute permission.
static ENDS: [(usize, u32, &str); 3] = [
    (24, 0x0001_FFFC, "00100073 entry 0001fffc"),
    (60, 0x0001_FFFC, "00000000*16383 00100073"),
    (76, 4, "00100073"),
];

#[test]
fn ends_of_code(rt: HostRuntime) {
    for (place, number, wanted) in &ENDS {
        compare(&rt, &changed(*place, &number.to_le_bytes()), 1024, wanted);
    }
}

/// Types of program headers that place nothing. The other fields of such a header are ignored.
static OTHER_TYPES: [u32; 6] = [0, 2, 6, 0x0100_0001, 0x6474_E551, 0x7000_0003];

#[test]
fn other_types(rt: HostRuntime) {
    for p_type in &OTHER_TYPES {
        let file = with_bytes(changed(52, &p_type.to_le_bytes()), 56, &[0xFF; 24]);
        compare(&rt, &file, 1024, "");
    }
}

/// Addresses and file offsets of an empty segment. Its address may be anything, but its offset must not exceed the
/// length of the input, which is 84 bytes.
static EMPTY: [(u32, u32, Option<ImageError>); 5] = [
    (0, 0, None),
    (0xFFFF_FFFF, 84, None),
    (0x0001_0000, 84, None),
    (0x1234_5678, 85, Some(ImageError::OutsideInput)),
    (0x0001_0000, 0xFFFF_FFFF, Some(ImageError::OutsideInput)),
];

#[test]
fn segments_of_no_address(rt: HostRuntime) {
    for (p_vaddr, p_offset, expected) in &EMPTY {
        let refused = refusal_of(rt.alloc(), &[(*p_vaddr, *p_offset, 0, 0, 0)], 1024);
        assert_same!(rt; refused, Ok(*expected), (p_vaddr, p_offset));
    }
}

/// The error of a file with this many segments of sixteen bytes.
fn refusal_of_count(alloc: Global, count: u32) -> Result<Option<ImageError>, AllocError> {
    let mut parts: Vec<Part> = Vec::new(alloc);
    for number in 0..count {
        let p_vaddr = 0x0002_0000 + 16 * (number % 256);
        parts.push((p_vaddr, 0, 16, 16, 6))?;
    }
    let file = file_of(alloc, parts.as_slice(), &[0; 64])?;
    Ok(refusal(alloc, file.as_slice(), 1024))
}

/// A file has one to sixteen program headers.
#[test]
fn counts_of_headers(rt: HostRuntime) {
    for count in 0..18 {
        let expected = match count {
            1..=16 => None,
            _ => Some(ImageError::UnsupportedHeader),
        };
        assert_same!(rt; refusal_of_count(rt.alloc(), count), Ok(expected), count);
    }
}

/// The copy of an image that was read for this many shared words.
fn copied(alloc: Global, shared_words: u32) -> Result<Image, ImageError> {
    let image = read(alloc, &EBREAK, shared_words)?;
    image.copy(alloc)
}

/// The bytes that an image places, and the number of shared words for which it was read.
fn kept(alloc: Global, image: &Image) -> Result<String, AllocError> {
    let text = layout_text(alloc, image.layout())?;
    format!(in alloc; "{text} words {}", image.shared_words())
}

fn compare_kept(rt: &(impl Abort + AllocGlobal), image: Result<Image, ImageError>, wanted: &str) {
    match image {
        Ok(image) => {
            let text = kept(rt.alloc(), &image).expect(rt, "memory");
            assert_same!(rt; text.as_str(), wanted);
        }
        Err(error) => assert_same!(rt; Some(error), None, wanted),
    }
}

/// The number of shared words for which an image is read, and what it keeps.
static KEPT: [(u32, &str); 3] = [
    (1, "00100073 words 1"),
    (1024, "00100073 words 1024"),
    (262_144, "00100073 words 262144"),
];

/// An image keeps the number of shared words for which it was read, and its copy keeps it too.
#[test]
fn keeps_its_shared_words(rt: HostRuntime) {
    for (shared_words, wanted) in &KEPT {
        compare_kept(&rt, read(rt.alloc(), &EBREAK, *shared_words), wanted);
        compare_kept(&rt, copied(rt.alloc(), *shared_words), wanted);
    }
}
