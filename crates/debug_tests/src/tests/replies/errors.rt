//! The errors of commands: of several, the one with the smallest number.

use super::two;
use debug_lines::Command;
use debug_replies::{Error, error_of};
use std::test::Fail;
use test_support::{assert_same, lend};

/// Lines, each with its error on a machine of two processors with two shared words.
const ERRORS: &str = "\
stat 0: E01
: E01
mem 0 20000 0: E01
mem 9 0 201: E01
write 9 0 5: E01
write 9 0 : E01
mem 9 0 4: E02
mem 9 ffff 1: E02
mem 0 1ffff 200: ok
mem 0 10000 200: ok
mem 0 2fffe 2: ok
mem 0 2fffe 3: E02
mem 0 30000 1: E02
mem 0 7fffffff 1: E02
mem 0 7fffffff 2: E02
mem 0 80000000 8: ok
mem 0 80000000 9: E02
mem 0 80000007 1: ok
mem 0 80000008 1: E02
mem 0 ffffffff 1: E02
mem 0 ffffffff 2: E02
write 0 10000 00: E02
write 0 1ffff 0000: E02
write 0 20000 00: ok
write 0 2ffff 00: ok
write 0 2ffff 0000: E02
write 0 80000006 0000: ok
write 0 80000007 0000: E02
write 9 80000007 0000: E02
write 2 80000000 00: E03
mem 2 80000000 1: E03
set 9 20 2: E02
set 0 20 2: E02
set 0 20 10004: ok
set 0 20 0: ok
set 9 20 4: E03
set 9 21 2: E03
set 0 21 2: E04
set 0 0 1: ok
set 0 1f 3: ok
set ffffffff 1 1: E03
reg 2 21: E03
reg 0 21: E04
reg 0 20: ok
reg 1 0: ok
reg 0 ffffffff: E04
state 1: ok
state 2: E03
state 100: E03
regs 1: ok
regs 2: E03
step 1: ok
step 2: E03
break 10000: ok
break 1fffc: ok
break 10002: E02
break fffc: E02
break 20000: E02
clear 10000: ok
clear 1: E02
cont: ok
quit: ok
";

#[test]
fn errors(rt: HostRuntime) -> Result<(), Fail> {
    lend(two(rt.alloc())?, |machine| {
        for row in ERRORS.lines() {
            let (line, expected) = row.rsplit_once(": ").ok_or("a row")?;
            let error = error_of(machine, &Command::read(line.as_bytes()));
            assert_same!(rt; error.map_or("ok", Error::text), expected, line);
        }
        Ok(())
    })
}

/// The errors that depend not on the machine, but on room in its log and on memory.
#[test]
fn texts(rt: HostRuntime) {
    assert_same!(rt; Error::Room.text(), "E05");
    assert_same!(rt; Error::Memory.text(), "E06");
}
