//! Drawings of views.

ghost use Rattle.std.specs.Prelude.{IfOk, string_bytes};

use machine_views::MachineView;
use std::alloc::{AllocError, Global};

/// A way to draw a machine. It sees the machine's view and nothing else.
pub trait Draw {
    ghost use Rattle.machine_picture.specs.Drawings.{Draws};

    /// The texts that may be drawn of a view.
    ghost draws: { Self → Draws };

    /// Draws a view.
    ///
    /// # Errors
    ///
    /// [`AllocError`] if there is no memory for the text.
    fn draw(&self, alloc: Global, view: &MachineView) -> Result<String, AllocError>
        ensures { IfOk result (λ text. Self.draws self.now view.now (string_bytes text)) };
}
