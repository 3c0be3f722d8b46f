//! Files of this machine that a search creates.

ghost use Rattle.std.specs.Prelude.{⊤, IfOk};

use command_io::Open;
use host_files::are_one_file;
use std::fs::{self, File};
use std::io::{self, ErrorKind};
use std::rt::Files;

/// A file that is created when it is opened, or emptied if it may be overwritten. If it is the image itself, it cannot
/// be opened.
#[derive(Drop)]
pub(crate) struct CreateNamed<'a, R> {
    pub(crate) files: &'a R,
    pub(crate) image: &'a str,
    pub(crate) path: String,
    pub(crate) overwrite: bool,
}

impl<'a, R: Files> CreateNamed<'a, R> {
    /// Opens the file, unless it is the one at another path, which was written before it.
    pub(crate) fn open_beside(&mut self, other: Option<&str>) -> io::Result<R::File> {
        if let Some(other) = other {
            if are_one_file(self.files, other, self.path.as_str()) {
                return Err(io::Error::from(ErrorKind::AlreadyExists));
            }
        }
        self.open()
    }
}

impl<'a, R: Files> Open for CreateNamed<'a, R> {
    type Device = R::File;

    // No contract knows what a file holds.
    ghost opens = { λ c file. ⊤ };

    fn open(&mut self) -> io::Result<R::File> {
        if !self.overwrite {
            // So a file that was created after the check is not lost.
            return File::create_new(self.files, self.path.as_str());
        }
        if are_one_file(self.files, self.image, self.path.as_str()) {
            return Err(io::Error::from(ErrorKind::AlreadyExists));
        }
        fs::create(self.files, self.path.as_str())
    }
}
