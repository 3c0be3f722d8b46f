//! Images that are read and written, on devices that work and on devices that fail.

ghost use Rattle.std.specs.Prelude.{◌≡◌, true};
ghost use Rattle.elf_image.specs.Spellings.{FitsRegions};

use elf_image::{Config, Image, ImageError, Layout, Link, Meter, read_image, write_image};
use std::alloc::Global;
use std::process::Abort;
use std::test::Fail;
use test_support::{EBREAK, Sink, Source, assert_same, lend, size};

/// Whether a layout fits its regions.
fn fits(layout: &Layout) -> bool
    ensures { result ≡ true → FitsRegions layout.now }
{
    layout.code.len() <= 0x0001_0000
        && layout.local.len() <= 0x0001_0000
        && layout.shared.len() <= 0x0010_0000
}

/// A copy of the image of `ebreak`.
fn copy_of_ebreak(alloc: Global) -> Result<Image, ImageError> {
    let config: Config = size(0);
    let image = read_image(alloc, &mut Meter::new(EBREAK.as_slice()), &config)?;
    image.copy(alloc)
}

/// What is written of a layout to a device that fails at this call, how the write ended, and whether the device failed.
fn written(
    rt: &impl Abort,
    alloc: Global,
    layout: &Layout,
    fails_at: usize,
) -> (Vec<u8>, Result<(), ImageError>, bool) {
    assert!(rt; fits(layout));
    let mut writer = Meter::new(Sink::new(Vec::new(alloc), fails_at));
    let ended = write_image(&mut writer, layout);
    let has_failed = writer.failed();
    (writer.device.bytes, ended, has_failed)
}

#[test]
fn an_image_has_its_layout(rt: HostRuntime) -> Result<(), Fail> {
    lend(copy_of_ebreak(rt.alloc())?, |image| {
        let layout = image.layout();
        assert_same!(rt; layout.entry, 0x0001_0000);
        assert_same!(rt; layout.code.as_slice(), [0x73, 0, 0x10, 0].as_slice());
        assert!(rt; layout.local.is_empty() && layout.shared.is_empty());
    });
    Ok(())
}

/// Checks what is written of a layout to such a device, and how the write ends.
fn is_written<R: Abort>(
    rt: &R,
    alloc: Global,
    layout: &Layout,
    fails_at: usize,
    wanted: &[u8],
    ended: Result<(), ImageError>,
) {
    lend(
        written(rt, alloc, layout, fails_at),
        |(bytes, found, has_failed)| {
            assert_same!(rt; bytes.as_slice(), wanted);
            assert_same!(rt; (*found, *has_failed), (ended, ended.is_err()));
        },
    );
}

/// A writer that takes a byte a call has the bytes before the call that fails.
#[test]
fn an_image_is_written(rt: HostRuntime) -> Result<(), Fail> {
    lend(copy_of_ebreak(rt.alloc())?, |image| {
        is_written(&rt, rt.alloc(), image.layout(), 0, &EBREAK, Ok(()));
        is_written(
            &rt,
            rt.alloc(),
            image.layout(),
            5,
            &EBREAK[..4],
            Err(ImageError::Link),
        );
    });
    Ok(())
}

/// Why these bytes are refused if this read of them fails, and whether the reader failed.
fn refusal(alloc: Global, bytes: &[u8], fails_at: usize) -> (Option<ImageError>, bool) {
    let mut reader = Meter::new(Source::new(bytes, fails_at));
    let refused = read_image(alloc, &mut reader, &size(0)).err();
    (refused, reader.failed())
}

#[test]
fn images_are_refused(rt: HostRuntime) {
    for (count, fails_at, wanted) in [
        (88, 0, (None, false)),
        (51, 0, (Some(ImageError::Truncated), false)),
        (88, 3, (Some(ImageError::Link), true)),
    ] {
        assert_same!(rt; refusal(rt.alloc(), &EBREAK[..count], fails_at), wanted, count);
    }
}
