//! Files and streams whose calls leave the system's error when they fail.

use std::cell::Cell;
use std::io::{self, ErrorKind, Read, Write};

/// The system's error of the last call on a file that failed.
pub type Reason = Cell<Option<io::Error>>;

/// A file or standard output. A call on it that fails leaves its error in `reason`.
#[derive(Drop)]
pub struct Explained<'a, T> {
    pub device: T,
    pub reason: &'a Reason,
}

impl<T: Read> Read for Explained<'_, T> {
    fn read(&mut self, buf: &mut [u8]) -> io::Result<usize> {
        match self.device.read(buf) {
            Ok(count) => Ok(count),
            Err(error) => {
                self.reason.set(Some(error));
                Err(error)
            }
        }
    }
}

impl<T: Write> Write for Explained<'_, T> {
    fn write(&mut self, buf: &[u8]) -> io::Result<usize> {
        match self.device.write(buf) {
            Ok(0) if !buf.is_empty() => {
                self.reason.set(Some(ErrorKind::WriteZero.into()));
                Ok(0)
            }
            Ok(count) => Ok(count),
            Err(error) => {
                self.reason.set(Some(error));
                Err(error)
            }
        }
    }

    fn flush(&mut self) -> io::Result<()> {
        match self.device.flush() {
            Ok(()) => Ok(()),
            Err(error) => {
                self.reason.set(Some(error));
                Err(error)
            }
        }
    }
}
