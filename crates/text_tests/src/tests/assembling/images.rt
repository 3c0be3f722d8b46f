//! Programs that are written as image files and read back.

use crate::tests::image_of;
use elf_image::{Image, ImageError, read_image};
use flat_machine::Config;
use link::Meter;
use std::alloc::{AllocError, Global};
use std::test::Fail;
use test_support::{EBREAK, assert_same, layout_text};

/// The report on a text's image file, read for a machine with this many shared words: its error, or its layout and the
/// number of shared words for which it was read.
fn read_back(alloc: Global, text: &str, shared_words: u32) -> Result<String, Fail> {
    let file = image_of(alloc, text)?;
    Ok(reported(alloc, read(alloc, file.as_slice(), shared_words))?)
}

fn read(alloc: Global, file: &[u8], shared_words: u32) -> Result<Image, ImageError> {
    let config = Config {
        k: 0,
        c: 2,
        b: 0,
        r: 1,
        shared_words,
    };
    read_image(alloc, &mut Meter::new(file), &config)
}

fn reported(alloc: Global, read: Result<Image, ImageError>) -> Result<String, AllocError> {
    match read {
        Ok(image) => {
            let text = layout_text(alloc, image.layout())?;
            format!(in alloc; "{text} words {}", image.shared_words())
        }
        Err(error) => format!(in alloc; "{error}"),
    }
}

#[test]
fn image_of_one_instruction(rt: HostRuntime) -> Result<(), Fail> {
    let file = image_of(rt.alloc(), "ebreak")?;
    assert_same!(rt; file.as_slice(), EBREAK.as_slice());
    Ok(())
}

/// The image has a header for each section with bytes. The bytes of the sections follow the headers.
#[test]
fn image_of_three_sections(rt: HostRuntime) -> Result<(), Fail> {
    let text = "ecall\nstart: ebreak\n.shared\n.byte 6, 7, 8\n.local\n.byte 5";
    let file = image_of(rt.alloc(), text)?;
    assert_same!(rt; file.as_slice(), THREE_SECTIONS.as_slice());
    Ok(())
}

/// The ELF header, three program headers, and the bytes of code, of local memory and of shared memory.
static THREE_SECTIONS: [u8; 160] = [
    0x7F, 0x45, 0x4C, 0x46, 1, 1, 1, 0, 0, 0, 0, 0, 0, 0, 0, 0, 2, 0, 0xF3, 0, 1, 0, 0, 0, 4, 0, 1,
    0, 0x34, 0, 0, 0, 0, 0, 0, 0, 0, 0, 0, 0, 0x34, 0, 0x20, 0, 3, 0, 0, 0, 0, 0, 0, 0, // the header
    1, 0, 0, 0, 148, 0, 0, 0, 0, 0, 1, 0, 0, 0, 1, 0, 8, 0, 0, 0, 8, 0, 0, 0, 5, 0, 0, 0, 1, 0, 0,
    0, 1, 0, 0, 0, 156, 0, 0, 0, 0, 0, 2, 0, 0, 0, 2, 0, 1, 0, 0, 0, 1, 0, 0, 0, 6, 0, 0, 0, 1, 0,
    0, 0, 1, 0, 0, 0, 157, 0, 0, 0, 0, 0, 0, 0x80, 0, 0, 0, 0x80, 3, 0, 0, 0, 3, 0, 0, 0, 6, 0, 0,
    0, 1, 0, 0, 0, 0x73, 0, 0, 0, 0x73, 0, 0x10, 0, 5, 6, 7, 8,
];

#[test]
fn programs_are_read_back(rt: HostRuntime) -> Result<(), Fail> {
    for (text, shared_words, wanted) in &READ_BACK {
        let found = read_back(rt.alloc(), text, *shared_words)?;
        assert_same!(rt; found.as_str(), *wanted, text);
    }
    Ok(())
}

/// Texts, the shared words of the machine, and what is reported.
static READ_BACK: [(&str, u32, &str); 10] = [
    (
        ".local\n.byte 1, 0\n.shared\n.word 0x04030201\n.byte 5\n.code\nebreak\nstart: ecall",
        2,
        "00100073 00000073 local 01 00 shared 01 02 03 04 05 entry 00010004 words 2",
    ),
    ("", 1, " words 1"),
    // The shared section is as long as shared memory, and then a byte longer.
    (".shared\n.zero 8", 2, "shared 00*8 words 2"),
    (".shared\n.zero 9", 2, "I5"),
    (".shared\n.zero 9", 3, "shared 00*9 words 3"),
    (
        ".shared\n.zero 786432",
        196_608,
        "shared 00*786432 words 196608",
    ),
    (".shared\n.zero 786432", 196_607, "I5"),
    // The entry is the last word of code, and then the address after it.
    (
        ".zero 65532\nstart: ebreak",
        1,
        "00000000*16383 00100073 entry 0001fffc words 1",
    ),
    (".zero 65536\nstart:", 1, "I7"),
    // All three sections have their greatest length.
    (
        LARGEST,
        262_144,
        "00000000*16384 local 00*65536 shared 00*786432 words 262144",
    ),
];

const LARGEST: &str = ".zero 65536\n.local\n.zero 65536\n.shared\n.zero 786432";

/// The headers have 148 bytes, and the sections 917,504.
#[test]
fn image_of_the_largest_program(rt: HostRuntime) -> Result<(), Fail> {
    let file = image_of(rt.alloc(), LARGEST)?;
    assert_same!(rt; file.len(), 148 + 917_504);
    Ok(())
}
