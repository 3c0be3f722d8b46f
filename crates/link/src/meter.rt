//! A link made of any reader or writer.

ghost use Rattle.std.specs.Prelude.{◌≡◌, ◌≤◌, ◌<◌, Bool, true, false, ℕ, length, is_err, IfOk};
ghost use Rattle.std.specs.Io.{ReadsAtMost, WritesAtMost};
ghost use Rattle.std.specs.Io.KnownBytes.{Keeps, ReadConsumes, WriteAppends};

use crate::device::{Failed, Link, LinkRead, LinkWrite};
use std::io;
use std::io::{ErrorKind, Read, Write};

/// A reader or writer that records whether a call on it has failed.
///
/// Every `Err` of the device counts as a failure, `ErrorKind::Interrupted` too, and so does a write
/// of no byte. After a failure the device is not called again, and every call returns an error.
#[derive(Drop)]
pub struct Meter<T> {
    /// The reader or writer.
    pub device: T,
    has_failed: bool,
}

impl<T> Meter<T> {
    /// A link made of the device, on which no call has failed yet.
    pub fn new(device: T) -> Self
        ensures device { result.device ≡ device }
        ensures works { ⟦<Meter<T> as Link>⟧.has_failed result ≡ false }
    {
        Meter {
            device,
            has_failed: false,
        }
    }
}

impl<T> Link for Meter<T> {
    ghost has_failed = { λ m. m.has_failed };

    fn failed(&self) -> bool {
        self.has_failed
    }
}

impl<T: Read> Read for Meter<T> {
    ghost remaining = { λ m. T.remaining m.device };

    fn read(&mut self, buf: &mut [u8]) -> io::Result<usize>
        ensures bound { ReadsAtMost result buf.new }
        ensures bytes { ReadConsumes (T.remaining self.old.device) (T.remaining self.new.device) result buf.new }
        ensures failed { ⟦<Meter<T> as Link>⟧.has_failed self.new ≡ is_err result }
        ensures ended { ⟦<Meter<T> as Link>⟧.has_failed self.old ≡ true → (self.new ≡ self.old) }
    {
        if self.has_failed {
            return Err(ErrorKind::Other.into());
        }
        let result = self.device.read(buf);
        self.has_failed = result.is_err();
        result
    }
}

impl<T: Read> LinkRead for Meter<T> {
    fn receive(&mut self, buf: &mut [u8]) -> Result<usize, Failed> {
        match self.read(buf) {
            Ok(count) => Ok(count),
            Err(_) => Err(Failed),
        }
    }
}

impl<T: Write> Write for Meter<T> {
    ghost contents = { λ m. T.contents m.device };

    fn write(&mut self, buf: &[u8]) -> io::Result<usize>
        ensures bound { WritesAtMost result buf.now }
        ensures bytes { WriteAppends (T.contents self.old.device) (T.contents self.new.device) result buf.now }
        ensures failed { ⟦<Meter<T> as Link>⟧.has_failed self.new ≡ is_err result }
        ensures some { IfOk result (λ count. 0 < length buf.now → 0 < count) }
        ensures ended { ⟦<Meter<T> as Link>⟧.has_failed self.old ≡ true → (self.new ≡ self.old) }
    {
        if self.has_failed {
            return Err(ErrorKind::Other.into());
        }
        match self.device.write(buf) {
            Ok(0) if !buf.is_empty() => {
                self.has_failed = true;
                Err(ErrorKind::WriteZero.into())
            }
            Ok(count) => Ok(count),
            Err(error) => {
                self.has_failed = true;
                Err(error)
            }
        }
    }

    fn flush(&mut self) -> io::Result<()>
        ensures bytes { Keeps (T.contents self.old.device) (T.contents self.new.device) }
        ensures failed { ⟦<Meter<T> as Link>⟧.has_failed self.new ≡ is_err result }
        ensures ended { ⟦<Meter<T> as Link>⟧.has_failed self.old ≡ true → (self.new ≡ self.old) }
    {
        if self.has_failed {
            return Err(ErrorKind::Other.into());
        }
        let flushed = self.device.flush();
        self.has_failed = flushed.is_err();
        flushed
    }
}

impl<T: Write> LinkWrite for Meter<T> {
    fn send(&mut self, bytes: &[u8]) -> Result<usize, Failed> {
        match self.write(bytes) {
            Ok(count) => Ok(count),
            Err(_) => Err(Failed),
        }
    }
}
