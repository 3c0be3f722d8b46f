//! Images, machines and logs that open on a text.

ghost use Rattle.std.specs.Prelude.{◌≡◌, [], IfOk};
ghost use Rattle.machine_steps.specs.Machines.{AreHome, IsIdle};

use assembler::assemble;
use elf_image::read_image;
use flat_machine::Config;
use link::Meter;
use machine_log::Logged;
use machine_steps::Machine;
use std::alloc::Global;
use std::test::Fail;

/// The image of a text, as a file has it.
///
/// # Errors
///
/// If the text has a fault, or if out of memory.
pub fn image_of(alloc: Global, text: &str) -> Result<Vec<u8>, Fail> {
    Ok(assemble(alloc, text)?.to_elf(alloc)?)
}

/// The machine of this size that opens on the image of a text. No reference is open and no core away.
///
/// # Errors
///
/// If the text, its image or the size is refused, or if out of memory.
pub fn machine_of(alloc: Global, text: &str, config: Config) -> Result<Machine, Fail>
    ensures config { IfOk result (λ m. m.config ≡ config) }
    ensures idle { IfOk result (λ m. IsIdle m) }
    ensures home { IfOk result (λ m. AreHome m) }
{
    let file = image_of(alloc, text)?;
    let image = read_image(alloc, &mut Meter::new(file.as_slice()), &config)?;
    Ok(Machine::new(alloc, image, config)?)
}

/// The log of such a machine, without steps.
///
/// # Errors
///
/// Those of [`machine_of`].
pub fn log_of(alloc: Global, text: &str, config: Config) -> Result<Logged, Fail>
    ensures config { IfOk result (λ log. log.opening.config ≡ config) }
    ensures machine { IfOk result (λ log. log.machine ≡ log.opening) }
    ensures steps { IfOk result (λ log. log.steps ≡ []) }
{
    Ok(Logged::new(alloc, machine_of(alloc, text, config)?))
}
