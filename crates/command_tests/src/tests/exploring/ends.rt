//! What is reported if no lines are printed.

use super::{config_of, each, explore, explore_sizes, up_to_exchanges};
use explore_command::Asked;
use flat_machine::Config;
use observed_results::ObservedWords;
use std::test::Fail;
use test_support::{EBREAK, assert_same, image_of};

/// A size whose queues are too short.
fn narrow(k: u8) -> Config {
    Config {
        c: 1,
        ..config_of(k)
    }
}

/// Counts for ever, so that its states never repeat.
const COUNT: &str = "loop: addi x3, x3, 1\njal x0, loop";

/// Adds 1 to the first word, and stops. Two processors have four states: neither, one, the other or both have added. Up to
/// exchanges, they have three.
const SUM: &str = "
 lui x1, 0x80000
 addi x4, x0, 1
 amoadd.w x0, x4, (x1)
 ecall
";

/// A search that finds as many states as its limit is given up. The results found so far are printed and said to be
/// incomplete, and then the fault is reported. The end is the last state.
#[test]
fn incomplete_results(rt: HostRuntime) -> Result<(), Fail> {
    let alloc = rt.alloc();
    let sum = image_of(alloc, SUM)?;
    let words = ObservedWords::of_list(alloc, "1", 16)?.ok_or("no list")?;
    let observed = Asked {
        observed: Some(&words),
        ..each(4)
    };
    for (asked, printed) in [
        (
            each(3),
            "0 results, 3 states\nincomplete: there may be more results\n",
        ),
        (
            each(4),
            "result 1\nprocessor 0 pc 0001000c halt 00 console -\nprocessor 1 pc 0001000c halt 00 console -\n\
            word 0 00000002\n1 result, 4 states\nincomplete: there may be more results\n",
        ),
        (
            observed,
            "result 1\nprocessor 0 pc 0001000c halt 00 console -\nprocessor 1 pc 0001000c halt 00 console -\n\
            1 result, 4 states\nincomplete: there may be more results\n",
        ),
        (
            up_to_exchanges(3),
            "result 1\nprocessor 0 pc 0001000c halt 00 console -\nprocessor 1 pc 0001000c halt 00 console -\n\
            word 0 00000002\nprocessors 0 to 1 can be exchanged\n1 result, 3 states\n\
            incomplete: there may be more results\n",
        ),
    ] {
        let ran = explore(alloc, sum.as_slice(), config_of(1), asked);
        assert_same!(rt; str::from_utf8(ran.out.as_slice())?, printed);
        assert_same!(rt; str::from_utf8(ran.err.as_slice())?, "ultra: states\n");
        assert_same!(rt; ran.status, 4);
    }
    Ok(())
}

/// Each fault is reported with its status, and nothing is printed.
#[test]
fn refusals(rt: HostRuntime) -> Result<(), Fail> {
    let alloc = rt.alloc();
    let count = image_of(alloc, COUNT)?;
    for (file, config, asked, reported, status) in [
        (&EBREAK[..51], config_of(0), each(10), "ultra: I1\n", 2),
        (EBREAK.as_slice(), config_of(7), each(10), "ultra: K1\n", 2),
        (EBREAK.as_slice(), narrow(0), each(10), "ultra: K1\n", 2),
        (
            count.as_slice(),
            config_of(0),
            each(10),
            "ultra: alone\n",
            4,
        ),
        (
            count.as_slice(),
            config_of(1),
            up_to_exchanges(10),
            "ultra: alone\n",
            4,
        ),
    ] {
        let ran = explore(alloc, file, config, asked);
        assert_same!(rt; str::from_utf8(ran.err.as_slice())?, reported);
        assert_same!(rt; ran.out.len(), 0);
        assert_same!(rt; ran.status, status);
    }
    Ok(())
}

/// If the image is refused, no line of any size is printed.
#[test]
fn refused_image(rt: HostRuntime) -> Result<(), Fail> {
    let ran = explore_sizes(rt.alloc(), &EBREAK[..51], config_of(0), each(10));
    assert_same!(rt; str::from_utf8(ran.err.as_slice())?, "ultra: I1\n");
    assert_same!(rt; ran.out.len(), 0);
    assert_same!(rt; ran.status, 2);
    Ok(())
}
