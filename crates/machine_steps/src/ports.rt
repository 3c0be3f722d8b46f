//! The ports with which a machine opens.

ghost use Rattle.std.specs.Prelude.{◌≡◌, ◌^◌, IfOk};
ghost use Rattle.flat_machine.specs.Limits.{IsWithinLimits};
ghost use Rattle.elf_image.specs.Images.{IsPlaced};
ghost use Rattle.machine_steps.specs.Parts.{opening_ports};

use elf_image::Layout;
use flat_machine::{Config, Setting};
use machine_ports::Port;
use std::alloc::{AllocError, Global};

/// Makes the ports of all processors of a machine of this size, each at the layout's entry.
///
/// # Errors
///
/// [`AllocError`] if there is no memory for them.
#[tactic(auto, using(crate::proofs::Parts::one_port_more))]
pub fn new_ports(alloc: Global, config: Config, layout: &Layout) -> Result<Vec<Port>, AllocError>
    requires limits { IsWithinLimits config }
    requires placed { IsPlaced layout.now config.shared_words }
    ensures { IfOk result (λ ports. ports.items ≡ opening_ports config layout.now (2 ^ config.k)) }
{
    let processors = config.processors();
    let mut ports = Vec::with_capacity(alloc, usize::from(processors))?;
    for number in 0..processors {
        let setting = Setting {
            number,
            processors,
            shared_words: config.shared_words,
        };
        ports.push(Port::new(alloc, setting, layout.entry, layout.local.as_slice())?)?;
    }
    Ok(ports)
}
