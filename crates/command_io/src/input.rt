//! The image that a command reads, and the machine that opens on it.

ghost use Rattle.std.specs.Prelude.{◌≡◌, ◌↔◌, true, false, IfOk, IfErr, IsErrOf};
ghost use Rattle.flat_machine.specs.Limits.{IsWithinLimits};
ghost use Rattle.elf_image.specs.Files.{IsImageOf};
ghost use Rattle.machine_steps.specs.Openings.{IsOpening};
ghost use Rattle.command_io.specs.Files.{IsFaultOfImage, IsFaultOfSize};

use crate::fault::Fault;
use elf_image::{Image, ImageError, read_image};
use flat_machine::Config;
use link::LinkRead;
use machine_steps::{Machine, NewError};
use std::alloc::Global;

/// Reads the image in a file, for machines of this size.
///
/// # Errors
///
/// [`Fault::Image`] with [`ImageError::Link`] exactly if a read fails, and with another error if the file is refused;
/// and [`Fault::Memory`].
pub fn image_of<R: LinkRead>(alloc: Global, file: &mut R, config: &Config) -> Result<Image, Fault>
    requires works { R.has_failed file.old ≡ false }
    ensures image { IfOk result (IsImageOf config.now.shared_words (R.remaining file.old)) }
    ensures refused { IfErr result (IsFaultOfImage config.now.shared_words (R.remaining file.old)) }
    ensures link { IsErrOf result (Fault.Image ImageError.Link) ↔ (R.has_failed file.new ≡ true) }
{
    Ok(read_image(alloc, file, config)?)
}

/// The machine of this size that opens on an image. The image was read for that number of shared words.
///
/// # Errors
///
/// [`Fault::Size`] exactly if the size is out of limits, else [`Fault::Memory`].
pub fn machine_of(alloc: Global, image: Image, config: Config) -> Result<Machine, Fault>
    requires { image.shared_words ≡ config.shared_words }
    ensures opening { IfOk result (IsOpening config image) }
    ensures refused { IfErr result (IsFaultOfSize config) }
    ensures size { (IsWithinLimits config → ⊥) → IsErrOf result Fault.Size }
{
    match Machine::new(alloc, image, config) {
        Ok(machine) => Ok(machine),
        Err(NewError::Config) => Err(Fault::Size),
        Err(NewError::Memory) => Err(Fault::Memory),
    }
}

/// A machine of this size that opens on a copy of the image. The image was read for that number of shared words.
///
/// # Errors
///
/// [`Fault::Size`] exactly if the size is out of limits, else [`Fault::Memory`].
pub fn machine_of_copy(alloc: Global, image: &Image, config: Config) -> Result<Machine, Fault>
    requires words { image.now.shared_words ≡ config.shared_words }
    ensures opening { IfOk result (IsOpening config image.now) }
    ensures refused { IfErr result (IsFaultOfSize config) }
    ensures size { (IsWithinLimits config → ⊥) → IsErrOf result Fault.Size }
{
    // Before the copy, so that a lack of memory for it does not hide the size.
    if !config.is_within_limits() {
        return Err(Fault::Size);
    }
    machine_of(alloc, image.copy(alloc)?, config)
}
