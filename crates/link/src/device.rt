//! Links: devices whose failures last.

ghost use Rattle.std.specs.Prelude.{◌≡◌, ◌<◌, ◌≤◌, Bool, true, ℕ, length, is_err, IfOk};
ghost use Rattle.std.specs.Io.KnownBytes.{ReadConsumes, WriteAppends};

use std::io::{Read, Write};
use thiserror::Error;

/// A call on the device failed, now or earlier.
#[derive(Clone, Copy, Debug, PartialEq, Eq, Drop, Error)]
#[error("link")]
pub struct Failed;

/// A device whose failures last: after one, [`LinkRead::receive`] and [`LinkWrite::send`] fail and
/// change nothing.
pub trait Link {
    /// Whether a call on the device has failed.
    ghost has_failed: { Self → Bool };

    /// Whether a call on the device has failed.
    fn failed(&self) -> bool
        ensures { result ≡ has_failed self.now };
}

/// A reader that is a link.
pub trait LinkRead: Read + Link {
    /// Reads once. Returns 0 bytes only at the end of the input, or for an empty buffer.
    ///
    /// # Errors
    ///
    /// [`Failed`] exactly if the link fails in this call or had failed before. Then nothing was
    /// taken.
    fn receive(&mut self, buf: &mut [u8]) -> Result<usize, Failed>
        ensures failed { Self.has_failed self.new ≡ is_err result }
        ensures ended { Self.has_failed self.old ≡ true → (self.new ≡ self.old) }
        ensures bound { IfOk result (λ count. count ≤ length buf.new) }
        ensures bytes { ReadConsumes (Self.remaining self.old) (Self.remaining self.new) result buf.new };
}

/// A writer that is a link.
pub trait LinkWrite: Write + Link {
    /// Writes some of the bytes, from the first on, and at least one.
    ///
    /// # Errors
    ///
    /// [`Failed`] exactly if the link fails in this call or had failed before. A write of no byte
    /// is a failure too. Then nothing was written.
    fn send(&mut self, bytes: &[u8]) -> Result<usize, Failed>
        requires { 0 < length bytes.now }
        ensures failed { Self.has_failed self.new ≡ is_err result }
        ensures ended { Self.has_failed self.old ≡ true → (self.new ≡ self.old) }
        ensures bound { IfOk result (λ count. (0 < count) × (count ≤ length bytes.now)) }
        ensures written { WriteAppends (Self.contents self.old) (Self.contents self.new) result bytes.now };
}
