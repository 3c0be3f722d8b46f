//! A writer whose first write opens its device.

ghost use Rattle.std.specs.Prelude.{◌≡◌, ⊤, None, IfOk, IsOk, is_some, true, OnOk};
ghost use Rattle.std.specs.Io.{WritesAtMost};
ghost use Rattle.std.specs.Io.KnownBytes.{Keeps, WriteAppends};
ghost use Rattle.command_io.specs.OnFirstWrite.{contents_of, IsFirstWrite};

use std::io::Write;
use std::rt::Files;
use std::{fs, io};

/// What opens a device to write to.
pub trait Open {
    type Device: Write + Drop;

    /// What holds of a device when it is opened.
    ghost opens: { Self → Self.Device → Type 0 };

    /// Opens the device, which keeps nothing of its old content.
    fn open(&mut self) -> io::Result<Self::Device>
        ensures { IfOk result (opens self.old) };
}

/// A file that opening creates, or empties if it exists.
#[derive(Drop)]
pub struct CreateAt<'a, R> {
    /// The host's files.
    pub files: &'a R,
    /// The path of the file.
    pub path: &'a str,
}

impl<'a, R: Files> Open for CreateAt<'a, R> {
    type Device = R::File;

    // No contract knows the content of a file.
    ghost opens = { λ c file. ⊤ };

    fn open(&mut self) -> io::Result<R::File> {
        fs::create(self.files, self.path)
    }
}

/// A writer whose first write opens its device, so that a command that fails before it leaves the device as it was. If
/// the device fails to open, the write fails, and the next write tries again. What is written comes after what the
/// device had when it was opened.
#[derive(Drop)]
pub struct OnFirstWrite<O: Open + Drop> {
    /// What opens the device.
    pub opener: O,
    /// The device, once it is open.
    pub device: Option<O::Device>,
}

impl<O: Open + Drop> OnFirstWrite<O> {
    /// A writer whose device is not open yet.
    pub fn new(opener: O) -> Self
        ensures { result.device ≡ None }
    {
        OnFirstWrite {
            opener,
            device: None,
        }
    }
}

impl<O: Open + Drop> Write for OnFirstWrite<O> {
    ghost contents = { λ w. contents_of O.Device.contents w.device };

    fn write(&mut self, buf: &[u8]) -> io::Result<usize>
        ensures bound { WritesAtMost result buf.now }
        ensures bytes { WriteAppends (contents_of O.Device.contents self.old.device)
            (contents_of O.Device.contents self.new.device) result buf.now }
        ensures open { OnOk result (is_some self.new.device ≡ true) }
        ensures first { self.old.device ≡ None →
            IsFirstWrite (O.opens self.old.opener) O.Device.contents self.new.device result buf.now }
    {
        if let Some(device) = &mut self.device {
            return device.write(buf);
        }
        let mut device = self.opener.open()?;
        let written = device.write(buf);
        self.device = Some(device);
        written
    }

    fn flush(&mut self) -> io::Result<()>
        ensures bytes { Keeps (contents_of O.Device.contents self.old.device)
            (contents_of O.Device.contents self.new.device) }
        ensures shut { self.old.device ≡ None → (self.new ≡ self.old) × IsOk result }
    {
        match &mut self.device {
            Some(device) => device.flush(),
            None => Ok(()),
        }
    }
}
