//! Programs: assembled texts.

ghost use Rattle.std.specs.Prelude.{◌≡◌, IfOk, IsOkUnless};
ghost use Rattle.elf_image.specs.Spellings.{spelling};
ghost use Rattle.assembler.specs.declared.fault.AsmFault.TheVariants.{Memory};
ghost use Rattle.assembler.specs.Meaning.{FitsRegions};

use crate::fault::{AsmError, AsmFault};
use elf_image::{Layout, write_image};
use link::Meter;
use std::alloc::Global;
use std::marker::Model;

/// An assembled text. Its model is its layout, each part of which fits into its region.
#[derive(Debug, Drop)]
pub struct Program {
    layout: Layout,
}

impl Model for Program {
    ghost use Rattle.elf_image.specs.declared.layout.Layout.{Layout};
    ghost use Rattle.assembler.specs.Meaning.{FitsRegions};

    ghost Value = { Layout };

    ghost view = { λ p. p.layout };

    ghost invariant = { λ p. FitsRegions p.layout };
}

impl Program {
    /// The program with this layout.
    pub(crate) fn new(layout: Layout) -> Self
        requires { FitsRegions layout }
        ensures { result ≡ layout }
    {
        Program { layout }
    }

    /// The entry, and the bytes of each region.
    pub fn layout(&self) -> &Layout
        ensures layout { result.now ≡ self.now }
        ensures fits { FitsRegions self.now }
    {
        &self.layout
    }

    /// The image file of the program: the one spelling of its layout.
    ///
    /// # Errors
    ///
    /// Only [`AsmFault::Memory`], if out of memory. It names line 1, since no line is at fault.
    pub fn to_elf(&self, alloc: Global) -> Result<Vec<u8>, AsmError>
        ensures ok { IfOk result (λ file. file.items ≡ spelling self.now) }
        ensures err { IsOkUnless result (record { line = 1; fault = Memory }) }
    {
        let mut writer = Meter::new(Vec::new(alloc));
        // A vector refuses bytes only if out of memory.
        match write_image(&mut writer, &self.layout) {
            Ok(()) => Ok(writer.device),
            Err(_) => Err(AsmError {
                line: 1,
                fault: AsmFault::Memory,
            }),
        }
    }
}
