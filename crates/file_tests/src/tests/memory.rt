//! The tests run with each of their allocations refused in turn. A call then reports that it is out of memory, which
//! ends the test, or it returns what it returns with ample memory.

use elf_image::{Bytes, Image, ImageError, read_image};
use flat_machine::Config;
use link::{Meter, read_within};
use std::alloc::{AllocError, Global};
use std::test::Fail;
use steps::Step;
use test_support::{EBREAK, ONE_TURN, assert_same, layout_text};
use trace_file::read_trace;

/// The machine for which the image is read.
const ONE: Config = Config {
    k: 0,
    c: 2,
    b: 0,
    r: 1,
    shared_words: 1024,
};

/// A copy of the code of EBREAK.
fn code(alloc: Global) -> Result<Bytes, AllocError> {
    let mut code = Bytes::new(alloc);
    code.push(0x73)?;
    code.extend_from_slice(&[0, 0x10])?;
    code.extend_by(0, 1)?;
    code.copy(alloc)
}

#[test]
fn code_is_short_of_memory(rt: HostRuntime) -> Result<(), Fail> {
    let code = code(rt.alloc())?;
    assert_same!(rt; code.as_slice(), [0x73, 0, 0x10, 0].as_slice());
    Ok(())
}

/// A copy of the image of EBREAK.
fn image(alloc: Global) -> Result<Image, ImageError> {
    let image = read_image(alloc, &mut Meter::new(EBREAK.as_slice()), &ONE)?;
    image.copy(alloc)
}

/// The text of a copy of an image's layout.
fn reported(alloc: Global, image: &Image) -> Result<String, AllocError> {
    let layout = image.layout().copy(alloc)?;
    layout_text(alloc, &layout)
}

#[test]
fn image_is_short_of_memory(rt: HostRuntime) -> Result<(), Fail> {
    let image = image(rt.alloc())?;
    let text = reported(rt.alloc(), &image)?;
    assert_same!(rt; text.as_str(), "00100073");
    Ok(())
}

#[test]
fn trace_is_short_of_memory(rt: HostRuntime) -> Result<(), Fail> {
    let bytes = read_within(rt.alloc(), &mut Meter::new(ONE_TURN.as_slice()), 24)?;
    let trace = read_trace(rt.alloc(), &mut Meter::new(bytes.as_slice()))?;
    assert_same!(rt; trace.steps(), [Step::Turn(0)].as_slice());
    Ok(())
}
