//! What a command does on devices.

use crate::sink::Taken;
use std::test::Fail;

/// The exit status of a command, and what it wrote to two devices.
#[derive(Drop)]
pub struct Ran<W: Drop, E: Drop = Vec<u8>> {
    /// The exit status.
    pub status: u8,
    /// Standard output.
    pub out: W,
    /// Whether a call on standard output failed.
    pub has_failed: bool,
    /// Standard error.
    pub err: E,
}

impl<W: Taken + Drop, E: Taken + Drop> Ran<W, E> {
    /// Compares all that the command did: its exit status, the bytes on standard output, and the text on standard
    /// error.
    ///
    /// # Errors
    ///
    /// Both, if they differ.
    pub fn comes_to(self, status: u8, out: &[u8], err: &str) -> Result<(), Fail> {
        let found = self.observed_step();
        let wanted = Observed { status, err, out };
        if found == wanted {
            return Ok(());
        }
        Err(Fail::new(format_args!("{found:?}, and not {wanted:?}")))
    }

    /// Compares the same if there was enough memory. If not, the command has to report that, and write nothing.
    ///
    /// # Errors
    ///
    /// Both, if they differ.
    pub fn comes_to_or_lacks_memory(self, status: u8, out: &[u8], err: &str) -> Result<(), Fail> {
        if self.status == 4 {
            return self.comes_to(4, &[], "ultra: memory\n");
        }
        self.comes_to(status, out, err)
    }

    /// What the command did, with standard error as a text.
    fn observed_step(&self) -> Observed<'_> {
        Observed {
            status: self.status,
            err: str::from_utf8(self.err.taken()).unwrap_or("no text"),
            out: self.out.taken(),
        }
    }
}

/// What a command did, as tests print it.
#[derive(Clone, Copy, Debug, PartialEq, Eq, Drop)]
struct Observed<'a> {
    status: u8,
    err: &'a str,
    out: &'a [u8],
}

/// What a command does with these devices as standard output and standard error. The command is a call with two
/// writers, whose names are between bars.
#[macro_export]
macro_rules! ran {
    ($out_device:expr, $err_device:expr, |$out:ident, $err:ident| $command:expr) => {{
        let mut out = $crate::Meter::new($out_device);
        let mut err = $err_device;
        let $out = &mut out;
        let $err = &mut err;
        let status = $command;
        let has_failed = $crate::Link::failed(&out);
        $crate::Ran {
            status,
            out: out.device,
            has_failed,
            err,
        }
    }};
}
