//! The address that `debug` listens at, and the line that says so.

ghost use Rattle.std.specs.Prelude.{◌≡◌, ◌∷◌, [], false, is_err, OnErr, OnOk};
ghost use Rattle.std.specs.Io.KnownBytes.{Appends};
ghost use Rattle.std.specs.Net.Socket.{socket_ip, socket_port};
ghost use Rattle.link.specs.Transfer.{AppendsPart};
ghost use Rattle.debug_session.specs.Listening.{listening_line, octets_of};

use arrayvec::ArrayString;
use itoa::Buffer;
use link::{Failed, LinkWrite, write_whole};
use std::net::{IpAddr, Ipv4Addr, SocketAddr};

/// The address of this port of 127.0.0.1, which no other machine reaches.
pub fn loopback(port: u16) -> SocketAddr
    ensures host { octets_of (socket_ip result) ≡ 127 ∷ 0 ∷ 0 ∷ 1 ∷ [] }
    ensures port { socket_port result ≡ port }
{
    SocketAddr::new(IpAddr::V4(Ipv4Addr::new(127, 0, 0, 1)), port)
}

/// Writes the port that a debugger can connect to: the line `listening PORT`, with the port in decimal.
///
/// # Errors
///
/// [`Failed`] exactly if the writer failed in this call. Then a beginning of the line is written, and not all of it.
pub fn announce<W: LinkWrite>(port: u16, out: &mut W) -> Result<(), Failed>
    requires works { W.has_failed out.old ≡ false }
    ensures failed { W.has_failed out.new ≡ is_err result }
    ensures announced { OnOk result (Appends (W.contents out.old) (W.contents out.new) (listening_line port)) }
    ensures begun { OnErr result (AppendsPart (W.contents out.old) (W.contents out.new) (listening_line port)) }
{
    write_whole(out, listening_line(port).as_bytes())
}

/// The line `listening PORT`.
#[tactic(auto, unfolding(crate::specs::Listening::listening_line))]
fn listening_line(port: u16) -> ArrayString<16>
    ensures { result.bytes ≡ listening_line port }
{
    let mut line = ArrayString::new();
    line.push_str("listening ");
    line.push_str(Buffer::new().format(port));
    line.push_str("\n");
    line
}
