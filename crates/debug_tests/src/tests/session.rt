//! Sessions over memory, over devices that fail or give few bytes, and over a connection. Expected replies are worked
//! out by hand.

ghost use Rattle.std.specs.Prelude.{◌≡◌, false};

mod cutting;
mod failing;
mod limits;
mod memory;
mod replies;
mod socket;

use debug_session::{SessionEnd, Sweep, serve};
use link::{LinkRead, Meter};
use machine_log::Logged;
use std::alloc::{AllocGlobal, Global};
use std::process::Abort;
use std::sync::Wait;
use std::test::Fail;
use test_support::{FOUR_ADDENDS, Sink, adders_log, assert_same, size};

/// Instructions that refer to the shared word at `a2`, at 0x10000 to 0x10010.
const ROW: &str = "
 amoadd.w x10, x11, (x12)
 amoswap.w x10, x11, (x12)
 amomin.w x10, x11, (x12)
 sb x11, 0(x12)
 sb x11, 3(x12)
";

/// Two local instructions and a halt, at 0x10000, 0x10004 and 0x10008.
const THREE: &str = "addi x1, x0, 1\naddi x2, x0, 2\necall";

/// The most steps that a `cont` enters.
const BUDGET: u32 = 1000;

/// The log of four processors that will add 1, 2, 4 and 8 to word 0, which is 10.
fn adders(alloc: Global) -> Result<Logged, Fail> {
    adders_log(alloc, ROW, size(2), 10, &FOUR_ADDENDS)
}

/// How a session that reads from this link ends, and what it writes.
fn talk<R: LinkRead>(
    rt: &(impl Wait + AllocGlobal),
    log: &mut Logged,
    reader: &mut R,
) -> (SessionEnd, Vec<u8>)
    requires { R.has_failed reader.old ≡ false }
{
    let mut writer = Meter::new(Sink::new(Vec::new(rt.alloc()), 0));
    let end = serve(rt, reader, &mut writer, log, &mut Sweep, BUDGET);
    (end, writer.device.bytes)
}

/// Checks the replies to these lines, how their session ends, and that no reference is open then.
fn replies_are(
    rt: &(impl Wait + Abort + AllocGlobal),
    log: &mut Logged,
    input: &[u8],
    output: &[u8],
    ends: SessionEnd,
) {
    let (end, text) = talk(rt, log, &mut Meter::new(input));
    assert_same!(rt; text.as_slice(), output);
    assert_same!(rt; end, ends);
    assert!(rt; log.machine().is_idle());
}
