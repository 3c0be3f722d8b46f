//! Programs by their words, and the machines that open on them.

use elf_image::{Bytes, Image, Layout, read_image, write_image};
use flat_machine::Config;
use link::Meter;
use machine_steps::Machine;
use std::alloc::{AllocError, Global};
use std::test::Fail;

/// What an image is made of.
#[derive(Clone, Copy, Drop)]
pub struct Program<'a> {
    /// The address at which each processor begins.
    pub entry: u32,
    /// The words of code.
    pub code: &'a [u32],
    /// The first bytes of each local memory.
    pub local: &'a [u8],
    /// The first bytes of shared memory.
    pub shared: &'a [u8],
}

/// The layout of a program.
fn layout_of(alloc: Global, program: &Program) -> Result<Layout, AllocError> {
    let code = code_of(alloc, program.code)?;
    let local = bytes_of(alloc, program.local)?;
    let shared = bytes_of(alloc, program.shared)?;
    Ok(Layout {
        entry: program.entry,
        code,
        local,
        shared,
    })
}

/// The bytes of these words, the lowest of each first.
fn code_of(alloc: Global, words: &[u32]) -> Result<Bytes, AllocError> {
    let mut code = Bytes::new(alloc);
    for word in words {
        code.extend_from_slice(&word.to_le_bytes())?;
    }
    Ok(code)
}

fn bytes_of(alloc: Global, bytes: &[u8]) -> Result<Bytes, AllocError> {
    Ok(Bytes::from_vec(Vec::from_slice(alloc, bytes)?))
}

impl Program<'_> {
    /// The image of the program, written and read for machines of this size.
    ///
    /// # Errors
    ///
    /// If the program does not fit its regions, if the image is refused, and if out of memory.
    pub fn image(&self, alloc: Global, config: &Config) -> Result<Image, Fail> {
        let layout = layout_of(alloc, self)?;
        if layout.code.len() > 0x0001_0000
            || layout.local.len() > 0x0001_0000
            || layout.shared.len() > 0x0010_0000
        {
            return Err(Fail::new("the program does not fit its regions"));
        }
        let mut writer = Meter::new(Vec::new(alloc));
        write_image(&mut writer, &layout)?;
        let mut reader = Meter::new(writer.device.as_slice());
        Ok(read_image(alloc, &mut reader, config)?)
    }

    /// The machine of this size that opens on the program's image.
    ///
    /// # Errors
    ///
    /// Those of [`Program::image`], and if the size is refused.
    pub fn machine(&self, alloc: Global, config: Config) -> Result<Machine, Fail> {
        let image = self.image(alloc, &config)?;
        Ok(Machine::new(alloc, image, config)?)
    }
}
