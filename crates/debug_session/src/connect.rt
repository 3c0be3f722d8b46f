//! The source of a session's link.

ghost use Rattle.std.specs.Prelude.{◌≡◌, false, IfOk};

use link::{Failed, LinkRead, LinkWrite};

/// Gives a session its link after the machine has opened. It may listen, report its address, and wait for a debugger.
pub trait Connect {
    type Reader: LinkRead + Drop;

    type Writer: LinkWrite + Drop;

    /// What holds of a link when it is given.
    ghost gives: { Self → Self.Reader × Self.Writer → Type 0 };

    /// Returns the two sides of a link, on which no call has failed.
    ///
    /// # Errors
    ///
    /// [`Failed`] if there is no link, or if its address cannot be reported.
    fn connect(&mut self) -> Result<(Self::Reader, Self::Writer), Failed>
        ensures gives { IfOk result (gives self.old) }
        ensures reads { IfOk result (λ link. Self.Reader.has_failed link.0 ≡ false) }
        ensures writes { IfOk result (λ link. Self.Writer.has_failed link.1 ≡ false) };
}
