//! Writers.

ghost use Rattle.std.specs.Prelude.{◌≡◌, ◌+◌, [], Some, IsErr};
ghost use Rattle.std.specs.Io.{WritesAtMost};
ghost use Rattle.std.specs.Io.KnownBytes.{Keeps, WriteAppends};

use std::io;
use std::io::{ErrorKind, Write};

/// A writer that shows what it has taken.
pub trait Taken {
    /// The bytes that it has taken.
    fn taken(&self) -> &[u8];
}

impl Taken for Vec<u8> {
    fn taken(&self) -> &[u8] {
        self.as_slice()
    }
}

/// A writer that takes one byte a call, and fails at one call.
#[derive(Drop)]
pub struct Sink {
    /// The bytes that it has taken.
    pub bytes: Vec<u8>,
    /// How many calls there were.
    pub calls: usize,
    /// The number of the call that fails, from 1. If it is 0, none fails.
    pub fails_at: usize,
}

impl Sink {
    /// A sink that has taken these bytes, and fails at this call.
    pub fn new(bytes: Vec<u8>, fails_at: usize) -> Self
        ensures bytes { result.bytes.items ≡ bytes.items }
        ensures calls { result.calls ≡ 0 }
        ensures fails_at { result.fails_at ≡ fails_at }
    {
        Sink {
            bytes,
            calls: 0,
            fails_at,
        }
    }
}

impl Write for Sink {
    ghost contents = { λ s. Some s.bytes.items };

    fn write(&mut self, buf: &[u8]) -> io::Result<usize>
        ensures bound { WritesAtMost result buf.now }
        ensures bytes { WriteAppends (Some self.old.bytes.items) (Some self.new.bytes.items) result buf.now }
        ensures fails { self.old.calls + 1 ≡ self.old.fails_at → IsErr result }
    {
        self.calls = self.calls.saturating_add(1);
        if self.calls == self.fails_at {
            return Err(ErrorKind::StorageFull.into());
        }
        if buf.is_empty() {
            return Ok(0);
        }
        self.bytes.push(buf[0])?;
        Ok(1)
    }

    fn flush(&mut self) -> io::Result<()> {
        Ok(())
    }
}

impl Taken for Sink {
    fn taken(&self) -> &[u8] {
        self.bytes.as_slice()
    }
}

/// A device that takes no byte, and reports no error.
#[derive(Drop)]
pub struct Deaf;

impl Write for Deaf {
    ghost contents = { λ d. Some [] };

    fn write(&mut self, _buf: &[u8]) -> io::Result<usize> {
        Ok(0)
    }

    fn flush(&mut self) -> io::Result<()> {
        Ok(())
    }
}

impl Taken for Deaf {
    fn taken(&self) -> &[u8] {
        &[]
    }
}

/// A device on which there is no room.
#[derive(Drop)]
pub struct Full;

impl Write for Full {
    fn write(&mut self, _buf: &[u8]) -> io::Result<usize> {
        Err(ErrorKind::StorageFull.into())
    }

    fn flush(&mut self) -> io::Result<()> {
        Ok(())
    }
}

impl Taken for Full {
    fn taken(&self) -> &[u8] {
        &[]
    }
}
