//! The image files of layouts.

ghost use Rattle.std.specs.Prelude.{◌≡◌, true};
ghost use Rattle.elf_image.specs.Spellings.{FitsRegions};

use super::{compare, layout_of};
use elf_image::{ImageError, Layout, write_image};
use link::Meter;
use std::alloc::{AllocGlobal, Global};
use std::process::Abort;
use test_support::{EBREAK, assert_same};

/// Returns whether a layout fits its regions.
pub fn fits(layout: &Layout) -> bool
    ensures { result ≡ true → FitsRegions layout.now }
{
    layout.code.len() <= 0x0001_0000
        && layout.local.len() <= 0x0001_0000
        && layout.shared.len() <= 0x0010_0000
}

/// Compares the image file of a layout with these bytes.
fn compare_file(rt: &(impl Abort + AllocGlobal), layout: &Layout, wanted: &[u8]) {
    let file = written(rt, rt.alloc(), layout);
    assert_same!(rt; file.as_slice(), wanted);
}

/// The image file of a layout.
fn written(rt: &impl Abort, alloc: Global, layout: &Layout) -> Vec<u8> {
    assert!(rt; fits(layout));
    let mut writer = Meter::new(Vec::new(alloc));
    assert_same!(rt; write_image(&mut writer, layout), Ok(()));
    writer.device
}

/// A layout of one instruction is written as the image of EBREAK.
#[test]
fn spelling_of_one_instruction(rt: HostRuntime) {
    let layout = layout_of(rt.alloc(), &[0x73, 0, 0x10, 0], &[], &[]).expect(&rt, "memory");
    compare_file(&rt, &layout, &EBREAK);
}

/// Bytes of code, of local memory and of shared memory, any of them empty, and the report on what is read back.
static LAYOUTS: [(&[u8], &[u8], &[u8], &str); 5] = [
    (&[], &[], &[], ""),
    (&[1, 2, 3, 4], &[5], &[], "04030201 local 05"),
    (&[1, 2, 3, 4], &[], &[6, 7], "04030201 shared 06 07"),
    (&[], &[5, 0, 0], &[6, 7, 0], "local 05 00*2 shared 06 07 00"),
    (
        &[0; 5],
        &[0; 6],
        &[0; 7],
        "00000000 00 local 00*6 shared 00*7",
    ),
];

/// A layout that is written is read back.
#[test]
fn read_back(rt: HostRuntime) {
    for (code, local, shared, wanted) in &LAYOUTS {
        let layout = layout_of(rt.alloc(), code, local, shared).expect(&rt, "memory");
        let file = written(&rt, rt.alloc(), &layout);
        compare(&rt, file.as_slice(), 1024, wanted);
    }
}

/// The file of three segments, made by hand: an ELF header of 52 bytes, three program headers of 32, and then the bytes
/// of the segments.
static THREE_SEGMENTS: [u8; 155] = [
    0x7F, 0x45, 0x4C, 0x46, 1, 1, 1, 0, 0, 0, 0, 0, 0, 0, 0, 0, 2, 0, 0xF3, 0, 1, 0, 0, 0, 0, 0, 1,
    0, 0x34, 0, 0, 0, 0, 0, 0, 0, 0, 0, 0, 0, 0x34, 0, 0x20, 0, 3, 0, 0, 0, 0, 0, 0, 0, // the header
    1, 0, 0, 0, 148, 0, 0, 0, 0, 0, 1, 0, 0, 0, 1, 0, 4, 0, 0, 0, 4, 0, 0, 0, 5, 0, 0, 0, 1, 0, 0,
    0, // code
    1, 0, 0, 0, 152, 0, 0, 0, 0, 0, 2, 0, 0, 0, 2, 0, 1, 0, 0, 0, 1, 0, 0, 0, 6, 0, 0, 0, 1, 0, 0,
    0, // local memory
    1, 0, 0, 0, 153, 0, 0, 0, 0, 0, 0, 0x80, 0, 0, 0, 0x80, 2, 0, 0, 0, 2, 0, 0, 0, 6, 0, 0, 0, 1,
    0, 0, 0, // shared memory
    1, 2, 3, 4, 5, 6, 7,
];

#[test]
fn spelling_of_three_segments(rt: HostRuntime) {
    let layout = layout_of(rt.alloc(), &[1, 2, 3, 4], &[5], &[6, 7]).expect(&rt, "memory");
    compare_file(&rt, &layout, &THREE_SEGMENTS);
}

/// Each error, and its text.
static ERRORS: [(ImageError, &str); 10] = [
    (ImageError::Truncated, "I1"),
    (ImageError::NotExecutable, "I2"),
    (ImageError::UnsupportedHeader, "I3"),
    (ImageError::OutsideInput, "I4"),
    (ImageError::OutsideRegions, "I5"),
    (ImageError::Overlap, "I6"),
    (ImageError::Entry, "I7"),
    (ImageError::TooLong, "I8"),
    (ImageError::Link, "I9"),
    (ImageError::Memory, "I10"),
];

#[test]
fn numbers_of_errors(rt: HostRuntime) {
    for (error, text) in &ERRORS {
        let reported = format!(in rt.alloc(); "{error}").expect(&rt, "memory");
        assert_same!(rt; reported.as_str(), *text);
    }
}
