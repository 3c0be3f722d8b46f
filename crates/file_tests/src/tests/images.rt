//! Images made by hand: the 88 bytes of one instruction, with each field changed in turn, and files of several
//! segments.

mod accepting;
mod devices;
mod linked;
mod loading;
mod refusing;
mod writing;

use elf_image::{Bytes, Image, ImageError, Layout, read_image};
use flat_machine::Config;
use link::Meter;
use std::alloc::{AllocError, AllocGlobal, Global};
use std::process::Abort;
use test_support::{EBREAK, assert_same, layout_text, with_bytes};

/// A segment of a file made for a test: its `p_vaddr`, `p_offset`, `p_filesz`, `p_memsz` and `p_flags`.
type Part = (u32, u32, u32, u32, u32);

/// The size of a machine with this many shared words.
fn config(shared_words: u32) -> Config {
    Config {
        k: 0,
        c: 2,
        b: 0,
        r: 1,
        shared_words,
    }
}

/// The result of reading a file.
fn read(alloc: Global, file: &[u8], shared_words: u32) -> Result<Image, ImageError> {
    read_image(alloc, &mut Meter::new(file), &config(shared_words))
}

/// Compares the report on a file.
fn compare(rt: &(impl Abort + AllocGlobal), file: &[u8], shared_words: u32, wanted: &str) {
    let text = reported(rt.alloc(), file, shared_words).expect(rt, "memory");
    assert_same!(rt; text.as_str(), wanted);
}

/// The error of a file, or none if it is accepted.
fn refusal(alloc: Global, file: &[u8], shared_words: u32) -> Option<ImageError> {
    read(alloc, file, shared_words).err()
}

/// The report on a file: its error, or the bytes that it places.
fn reported(alloc: Global, file: &[u8], shared_words: u32) -> Result<String, AllocError> {
    outcomes_of(alloc, read(alloc, file, shared_words))
}

/// The report on the result of reading an image.
fn outcomes_of(alloc: Global, read: Result<Image, ImageError>) -> Result<String, AllocError> {
    match read {
        Ok(image) => layout_text(alloc, image.layout()),
        Err(error) => format!(in alloc; "{error}"),
    }
}

/// A layout with these bytes.
fn layout_of(
    alloc: Global,
    code: &[u8],
    local: &[u8],
    shared: &[u8],
) -> Result<Layout, AllocError> {
    let code = bytes_of(alloc, code)?;
    let local = bytes_of(alloc, local)?;
    let shared = bytes_of(alloc, shared)?;
    Ok(Layout {
        entry: 0x0001_0000,
        code,
        local,
        shared,
    })
}

fn bytes_of(alloc: Global, bytes: &[u8]) -> Result<Bytes, AllocError> {
    Ok(Bytes::from_vec(Vec::from_slice(alloc, bytes)?))
}

/// The image of EBREAK with these bytes from a place on.
fn changed(place: usize, bytes: &[u8]) -> [u8; 88] {
    with_bytes(EBREAK, place, bytes)
}

/// A file with these segments, and these bytes after its headers. The entry is 0x00010000.
fn file_of(alloc: Global, parts: &[Part], bytes: &[u8]) -> Result<Vec<u8>, AllocError> {
    let mut file = Vec::from_slice(alloc, &EBREAK[..44])?;
    file.extend_from_slice(&[parts.len().min(255) as u8, 0, 0, 0, 0, 0, 0, 0])?;
    for (p_vaddr, p_offset, p_filesz, p_memsz, p_flags) in parts {
        for field in [
            1, *p_offset, *p_vaddr, *p_vaddr, *p_filesz, *p_memsz, *p_flags, 1,
        ] {
            file.extend_from_slice(&field.to_le_bytes())?;
        }
    }
    file.extend_from_slice(bytes)?;
    Ok(file)
}

/// The error of a file with these segments and no bytes after its headers.
fn refusal_of(
    alloc: Global,
    parts: &[Part],
    shared_words: u32,
) -> Result<Option<ImageError>, AllocError> {
    let file = file_of(alloc, parts, &[])?;
    Ok(refusal(alloc, file.as_slice(), shared_words))
}

/// Bytes that are added one by one, from a slice and by a count.
fn added(alloc: Global) -> Result<Bytes, AllocError> {
    let mut bytes = Bytes::new(alloc);
    bytes.push(7)?;
    bytes.extend_from_slice(&[8, 9])?;
    bytes.extend_by(0, 2)?;
    Ok(bytes)
}

#[test]
fn bytes_are_added_after_the_last(rt: HostRuntime) {
    assert!(rt; Bytes::new(rt.alloc()).is_empty());
    let bytes = added(rt.alloc()).expect(&rt, "memory");
    assert_same!(rt; (bytes.as_slice(), bytes.len()), ([7, 8, 9, 0, 0].as_slice(), 5));
}

/// The text of a layout of one instruction.
fn one_instruction(alloc: Global) -> Result<String, AllocError> {
    layout_text(alloc, &layout_of(alloc, &[0x73, 0, 0x10, 0], &[], &[])?)
}

#[test]
fn a_layout_keeps_its_parts(rt: HostRuntime) {
    let text = one_instruction(rt.alloc()).expect(&rt, "memory");
    assert_same!(rt; text.as_str(), "00100073");
}
