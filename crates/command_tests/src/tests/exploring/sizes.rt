//! Every size of a machine, with a line for each that is worked out by hand.

use super::{config_of, each, explore_sizes, up_to_exchanges};
use flat_machine::Config;
use std::alloc::{AllocError, Global};
use std::fmt::Write;
use std::test::Fail;
use test_support::{assert_same, image_of};

/// Each processor adds 1 to the first word. A state is which processors have added or, up to exchanges, how many.
const SUM: &str = "
 lui x1, 0x80000
 addi x4, x0, 1
 amoadd.w x0, x4, (x1)
 ecall
";

const SUMS: &str = "\
k 0: 1 processor, 1 result, 2 states, every schedule ends, halt 00
k 1: 2 processors, 1 result, 3 states, every schedule ends, halt 00
k 2: 4 processors, 1 result, 5 states, every schedule ends, halt 00
k 3: 8 processors, 1 result, 9 states, every schedule ends, halt 00
k 4: 16 processors, 1 result, 17 states, every schedule ends, halt 00
k 5: 32 processors, 1 result, 33 states, every schedule ends, halt 00
k 6: 64 processors, 1 result, 65 states, every schedule ends, halt 00
";

/// On 32 processors there are as many states as the limit, which is too many.
const SUMS_UP_TO_33: &str = "\
k 0: 1 processor, 1 result, 2 states, every schedule ends, halt 00
k 1: 2 processors, 1 result, 3 states, every schedule ends, halt 00
k 2: 4 processors, 1 result, 5 states, every schedule ends, halt 00
k 3: 8 processors, 1 result, 9 states, every schedule ends, halt 00
k 4: 16 processors, 1 result, 17 states, every schedule ends, halt 00
k 5: 32 processors, not explored: states
k 6: 64 processors, not explored: states
";

const SUMS_OF_EACH: &str = "\
k 0: 1 processor, 1 result, 2 states, every schedule ends, halt 00
k 1: 2 processors, 1 result, 4 states, every schedule ends, halt 00
k 2: 4 processors, 1 result, 16 states, every schedule ends, halt 00
k 3: 8 processors, 1 result, 256 states, every schedule ends, halt 00
k 4: 16 processors, not explored: states
k 5: 32 processors, not explored: states
k 6: 64 processors, not explored: states
";

/// Each processor draws a number and halts with it. The one that draws 7 stops by a fault.
const DRAWN: &str = "
 lui x1, 0x80000
 addi x4, x0, 1
 amoadd.w a0, x4, (x1)
 addi x6, x0, 7
 beq a0, x6, bad
 ecall
bad: ebreak
";

const DRAWS: &str = "\
k 0: 1 processor, 1 result, 2 states, every schedule ends, halt 00
k 1: 2 processors, 1 result, 3 states, every schedule ends, halt 01
k 2: 4 processors, 1 result, 5 states, every schedule ends, halt 03
k 3: 8 processors, 1 result, 9 states, every schedule ends, fault 8
k 4: 16 processors, 1 result, 17 states, every schedule ends, fault 8
k 5: 32 processors, 1 result, 33 states, every schedule ends, fault 8
k 6: 64 processors, 1 result, 65 states, every schedule ends, fault 8
";

/// Too many states decide the exit status, even if a smaller size has a fault.
const DRAWS_UP_TO_10: &str = "\
k 0: 1 processor, 1 result, 2 states, every schedule ends, halt 00
k 1: 2 processors, 1 result, 3 states, every schedule ends, halt 01
k 2: 4 processors, 1 result, 5 states, every schedule ends, halt 03
k 3: 8 processors, 1 result, 9 states, every schedule ends, fault 8
k 4: 16 processors, not explored: states
k 5: 32 processors, not explored: states
k 6: 64 processors, not explored: states
";

/// Each processor adds 1 by a load and a store, and then waits until the sum is 2.
const NEEDED: &str = "
 lui x1, 0x80000
 addi x5, x0, 2
 lw x2, 0(x1)
 addi x2, x2, 1
 sw x2, 0(x1)
wait: lw x2, 0(x1)
 bne x2, x5, wait
 ecall
";

/// One processor alone is stuck from the start. Two are stuck after both have loaded 0: up to exchanges, neither, one
/// or both have stored then. The other states come before that, or after one has loaded what the other stored.
const NEEDS: &str = "\
k 0: 1 processor, 0 results, 3 states, from 3 states no end can be reached, -
k 1: 2 processors, 1 result, 10 states, from 3 states no end can be reached, halt 00
k 2: 4 processors, not explored: states
k 3: 8 processors, not explored: states
k 4: 16 processors, not explored: states
k 5: 32 processors, not explored: states
k 6: 64 processors, not explored: states
";

/// Processor 0 writes a word. The others wait until it is written, and processor 0 reads it too.
const LEADER: &str = "
 addi a7, x0, 2
 ecall
 lui x1, 0x80000
 bne a0, x0, wait
 addi x4, x0, 1
 sw x4, 0(x1)
wait: lw x2, 0(x1)
 beq x2, x0, wait
 addi a7, x0, 0
 addi a0, x0, 255
 ecall
";

/// There is one state before the write. After it, 0 to n - 1 of the others have stopped, and processor 0 has or has
/// not.
const LED: &str = "\
k 0: 1 processor, 1 result, 3 states, every schedule ends, halt ff
k 1: 2 processors, 1 result, 5 states, some schedule never ends; an end can always be reached, halt ff
k 2: 4 processors, 1 result, 9 states, some schedule never ends; an end can always be reached, halt ff
k 3: 8 processors, 1 result, 17 states, some schedule never ends; an end can always be reached, halt ff
k 4: 16 processors, 1 result, 33 states, some schedule never ends; an end can always be reached, halt ff
k 5: 32 processors, 1 result, 65 states, some schedule never ends; an end can always be reached, halt ff
k 6: 64 processors, 1 result, 129 states, some schedule never ends; an end can always be reached, halt ff
";

/// Counts for ever, so that its states never repeat.
const COUNT: &str = "loop: addi x3, x3, 1\njal x0, loop";

const COUNTS: &str = "\
k 0: 1 processor, not explored: alone
k 1: 2 processors, not explored: alone
k 2: 4 processors, not explored: alone
k 3: 8 processors, not explored: alone
k 4: 16 processors, not explored: alone
k 5: 32 processors, not explored: alone
k 6: 64 processors, not explored: alone
";

/// Each processor adds 1 to the first word, and spins. After one spins, no end can be reached, whatever the
/// others do.
const DONE: &str = "lui x1, 0x80000\naddi x4, x0, 1\namoadd.w x5, x4, (x1)\ndone: jal x0, done";

const NEVER_DONE: &str = "\
k 0: 1 processor, 0 results, 2 states, from 2 states no end can be reached, -
k 1: 2 processors, 0 results, 2 states, from 2 states no end can be reached, -
k 2: 4 processors, 0 results, 2 states, from 2 states no end can be reached, -
k 3: 8 processors, 0 results, 2 states, from 2 states no end can be reached, -
k 4: 16 processors, 0 results, 2 states, from 2 states no end can be reached, -
k 5: 32 processors, 0 results, 2 states, from 2 states no end can be reached, -
k 6: 64 processors, 0 results, 2 states, from 2 states no end can be reached, -
";

/// The fault of each size that is not explored is reported too. The `k` of the configuration is ignored.
#[test]
fn sizes_are_printed(rt: HostRuntime) -> Result<(), Fail> {
    let alloc = rt.alloc();
    for (text, k, asked, out, (fault, times), status) in [
        (SUM, 0, up_to_exchanges(66), SUMS, ("", 0), 0),
        (SUM, 3, up_to_exchanges(33), SUMS_UP_TO_33, ("states", 2), 4),
        (SUM, 200, each(300), SUMS_OF_EACH, ("states", 3), 4),
        (DRAWN, 0, up_to_exchanges(66), DRAWS, ("", 0), 1),
        (
            DRAWN,
            6,
            up_to_exchanges(10),
            DRAWS_UP_TO_10,
            ("states", 3),
            4,
        ),
        (NEEDED, 0, up_to_exchanges(11), NEEDS, ("states", 5), 4),
        (LEADER, 0, up_to_exchanges(130), LED, ("", 0), 0),
        (COUNT, 0, up_to_exchanges(10), COUNTS, ("alone", 7), 4),
        (DONE, 0, up_to_exchanges(10), NEVER_DONE, ("", 0), 1),
    ] {
        let image = image_of(alloc, text)?;
        let ran = explore_sizes(alloc, image.as_slice(), config_of(k), asked);
        assert_same!(rt; str::from_utf8(ran.out.as_slice())?, out);
        assert_same!(rt; str::from_utf8(ran.err.as_slice())?, reported(alloc, fault, times)?.as_str());
        assert_same!(rt; ran.status, status);
    }
    Ok(())
}

/// The report of a fault, this many times.
fn reported(alloc: Global, fault: &str, times: u8) -> Result<String, AllocError> {
    let mut text = String::new(alloc);
    for _ in 0..times {
        writeln!(text, "ultra: {fault}")?;
    }
    Ok(text)
}

/// A size that no machine has is not explored, whatever its `k`.
#[test]
fn sizes_that_are_refused(rt: HostRuntime) -> Result<(), Fail> {
    let alloc = rt.alloc();
    let image = image_of(alloc, SUM)?;
    let config = Config {
        c: 1,
        ..config_of(0)
    };
    let ran = explore_sizes(alloc, image.as_slice(), config, each(100));
    let wanted = "k 0: 1 processor, not explored: K1\nk 1: 2 processors, not explored: K1\n";
    assert_same!(rt; str::from_utf8(ran.out.as_slice())?.get(..wanted.len()), Some(wanted));
    assert_same!(rt; str::from_utf8(ran.err.as_slice())?, reported(alloc, "K1", 7)?.as_str());
    assert_same!(rt; ran.status, 2);
    Ok(())
}
