//! What one processor has shown.

ghost use Rattle.std.specs.Prelude.{◌≡◌, ◌+◌, ◌<◌, ◌≤◌, ◌^◌, OnErr, OnOk};
ghost use Rattle.command_io.specs.Tallies.{ShownBy, nothing_shown, with_retired};

use std::alloc::{AllocError, Global};
use std::marker::Model;

/// What a processor has shown: how many instructions retired, and what it wrote to the console.
#[derive(Debug, Drop)]
pub struct Shown {
    retired: u32,
    console: Vec<u8>,
}

impl Model for Shown {
    ghost use Rattle.command_io.specs.Tallies.{ShownBy};

    ghost Value = { ShownBy };

    ghost view = { λ s. record { retired = s.retired; console = s.console.items } };
}

impl Shown {
    /// A processor that has shown nothing.
    pub fn new(alloc: Global) -> Self
        ensures { result ≡ nothing_shown }
    {
        Shown {
            retired: 0,
            console: Vec::new(alloc),
        }
    }

    /// How many instructions have retired.
    pub fn retired_count(&self) -> u32
        ensures { result ≡ self.now.retired }
    {
        self.retired
    }

    /// The bytes that the processor wrote to the console, in order.
    pub fn console(&self) -> &[u8]
        ensures { result.now ≡ self.now.console }
    {
        self.console.as_slice()
    }

    /// Counts one more retired instruction, and appends the byte that it wrote to the console, if any.
    ///
    /// # Errors
    ///
    /// [`AllocError`] if there is no memory for the byte. Then nothing changes.
    pub fn retire(&mut self, out: Option<u8>) -> Result<(), AllocError>
        requires { self.old.retired + 1 < 2 ^ 32 }
        ensures shown { OnOk result (self.new ≡ with_retired self.old out) }
        ensures refused { OnErr result (self.new ≡ self.old) }
        ensures few { self.new.retired ≤ self.old.retired + 1 }
    {
        if let Some(byte) = out {
            self.console.push(byte)?;
        }
        self.retired += 1;
        Ok(())
    }
}
