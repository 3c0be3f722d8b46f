//! Where a debugger connects: a port of this machine.

ghost use Rattle.std.specs.Prelude.{◌≡◌, false, IfOk, ⊤};

use debug_session::{Connect, announce, loopback};
use host_files::Reason;
use link::{Failed, Meter};
use std::io;
use std::io::{ErrorKind, Write};
use std::net::{Net, OpenListener, OpenStream, TcpListener};

/// A port of 127.0.0.1 that waits for one connection, and the writer that reports when the connection can be made.
#[derive(Drop)]
pub(crate) struct LoopbackPort<'a, R: Net, W: Write> {
    pub(crate) net: &'a R,
    pub(crate) port: u16,
    /// The system's error if there is no connection.
    pub(crate) reason: &'a Reason,
    pub(crate) out: &'a mut W,
}

impl<R: Net, W: Write> Connect for LoopbackPort<'_, R, W> {
    type Reader = Meter<R::Stream>;

    type Writer = Meter<R::Stream>;

    ghost gives = { λ loopback_port link. ⊤ };

    /// Listens at the port, reports it, and waits for one connection.
    fn connect(&mut self) -> Result<(Meter<R::Stream>, Meter<R::Stream>), Failed> {
        match self.streams() {
            Ok((reader, writer)) => Ok((Meter::new(reader), Meter::new(writer))),
            Err(error) => {
                // If standard output failed, its error is the reason, and not the one that the meter gives afterwards.
                if self.reason.get().is_none() {
                    self.reason.set(Some(error));
                }
                Err(Failed)
            }
        }
    }
}

impl<R: Net, W: Write> LoopbackPort<'_, R, W> {
    /// The two sides of the one connection.
    fn streams(&mut self) -> io::Result<(R::Stream, R::Stream)> {
        let listener = TcpListener::bind(self.net, loopback(self.port))?;
        // If the port asked for is 0, the host has chosen another.
        let port = listener.local_addr()?.port();
        let Ok(()) = announce_on(self.out, port) else {
            return Err(ErrorKind::Other.into());
        };
        self.out.flush()?;
        let (stream, _) = listener.accept()?;
        // A reply is one line, and the debugger waits for it.
        stream.set_nodelay(true)?;
        Ok((stream.try_clone()?, stream))
    }
}

/// Reports on a writer that the debugger can connect at a port.
fn announce_on<W: Write>(out: &mut W, port: u16) -> Result<(), Failed> {
    announce(port, &mut Meter::new(out))
}
