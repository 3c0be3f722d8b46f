//! A log that is almost full.

use super::{THREE, replies_are};
use debug_session::SessionEnd;
use std::test::Fail;
use test_support::{assert_same, lend, log_of, poke_often, size};

/// Commands to a log that has room for two steps.
const INPUT: &[u8] = b"step 0
cont
write 0 20000 010203
set 0 0 1
set 0 1 1
write 0 20000 0102
set 0 1 2
set 0 1 3
reg 0 1
mem 0 20000 2
";

/// A command without room for its steps has an error and changes nothing; one that takes no step has no error. With one
/// processor a session begins if there is room for two steps, and an instruction asks for three.
#[test]
fn asks_for_room(rt: HostRuntime) -> Result<(), Fail> {
    lend(log_of(rt.alloc(), THREE, size(0))?, |log| {
        poke_often(log, 4_194_302)?;
        let output = b"E05\nE05\nE05\nok\nok\nE05\nok\nE05\n00000002\n0000\n";
        replies_are(&rt, log, INPUT, output, SessionEnd::EndOfInput);
        assert_same!(rt; log.steps().len(), 4_194_304);
        // Without room for a drain there is no session.
        replies_are(&rt, log, b"state 0\n", b"", SessionEnd::TraceFull);
        Ok(())
    })
}
