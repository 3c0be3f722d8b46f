//! Devices that transfer one byte at each call, and may fail at one.

use super::writing::fits;
use super::{config, layout_of, outcomes_of};
use elf_image::{ImageError, read_image, write_image};
use link::{Link, Meter};
use std::alloc::{AllocError, Global};
use test_support::{EBREAK, Sink, Source, assert_same};

/// The report on the image of EBREAK if this call of its reader fails, and whether the reader has then failed.
fn read(alloc: Global, fails_at: usize) -> Result<(String, bool), AllocError> {
    let mut reader = Meter::new(Source::new(&EBREAK, fails_at));
    let image = read_image(alloc, &mut reader, &config(1024));
    Ok((outcomes_of(alloc, image)?, reader.failed()))
}

/// Reading the 88 bytes takes 88 calls, and one more to find the end.
#[test]
fn each_read_fails_in_turn(rt: HostRuntime) {
    for fails_at in 0..91 {
        let (text, has_failed) = read(rt.alloc(), fails_at).expect(&rt, "memory");
        let wanted = match fails_at {
            1..=89 => ("I9", true),
            _ => ("00100073", false),
        };
        assert_same!(rt; (text.as_str(), has_failed), wanted, fails_at);
    }
}

/// A write that fails leaves the bytes written before it.
#[test]
fn each_write_fails_in_turn(rt: HostRuntime) {
    let layout = layout_of(rt.alloc(), &[0x73, 0, 0x10, 0], &[], &[]).expect(&rt, "memory");
    assert!(rt; fits(&layout));
    for fails_at in 0..90 {
        let mut writer = Meter::new(Sink::new(Vec::new(rt.alloc()), fails_at));
        let written = write_image(&mut writer, &layout);
        let found = (writer.device.bytes.as_slice(), written, writer.failed());
        let wanted = match fails_at {
            1..=88 => (&EBREAK[..fails_at - 1], Err(ImageError::Link), true),
            _ => (EBREAK.as_slice(), Ok(()), false),
        };
        assert_same!(rt; found, wanted, fails_at);
    }
}
