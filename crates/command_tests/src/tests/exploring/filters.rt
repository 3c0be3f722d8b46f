//! The command `explore` with a condition that results have to satisfy. Lines are worked out by hand.

use super::{config_of, each, explore, up_to_exchanges};
use explore_command::Asked;
use observed_results::ObservedWords;
use state_conditions::Condition;
use std::test::Fail;
use test_support::{assert_same, image_of};

/// Each processor adds 1 by a load and a store. Two have the sums 1 and 2.
const LOST: &str = "lui x1, 0x80000\nlw x2, 0(x1)\naddi x2, x2, 1\nsw x2, 0(x1)\necall";

/// The lines of both processors.
const BOTH: &str =
    "processor 0 pc 00010010 halt 00 console -\nprocessor 1 pc 00010010 halt 00 console -\n";

/// A result keeps its number: up to exchanges the sum of 1 is found first, and else that of 2. If words are observed
/// that do not differ, there is one result, which is printed if either sum satisfies the condition.
#[test]
fn results_that_satisfy_are_printed(rt: HostRuntime) -> Result<(), Fail> {
    let alloc = rt.alloc();
    let file = image_of(alloc, LOST)?;
    for (search, words, condition, before, after) in [
        (
            each(100),
            "0-15",
            "word 0 == 1",
            "result 2\n",
            "word 0 00000001\n1 of 2 results is printed\n2 results, 12 states\nevery schedule ends\n",
        ),
        (
            up_to_exchanges(100),
            "0",
            "word 0 == 2 & halted == 2",
            "result 2\n",
            "word 0 00000002\n1 of 2 results is printed\nprocessors 0 to 1 can be exchanged\n2 results, 8 states\n\
            every schedule ends\n",
        ),
        (
            up_to_exchanges(100),
            "3",
            "word 0 == 2",
            "result 1\n",
            "1 of 1 result is printed\nprocessors 0 to 1 can be exchanged\n1 result, 8 states\nevery schedule ends\n",
        ),
    ] {
        let words = ObservedWords::of_list(alloc, words, 16)?.ok_or("no list")?;
        let condition = Condition::of_text(alloc, condition, 16, &None)?.ok_or("no condition")?;
        let asked = Asked {
            observed: Some(&words),
            filter: Some(&condition),
            ..search
        };
        let ran = explore(alloc, file.as_slice(), config_of(1), asked);
        let lines = format!(in alloc; "{before}{BOTH}{after}")?;
        assert_same!(rt; str::from_utf8(ran.out.as_slice())?, lines.as_str());
        assert_same!(rt; ran.status, 0);
        assert_same!(rt; ran.err.len(), 0);
    }
    Ok(())
}

/// If no result satisfies the condition, a line says so. The exit status is that of all results.
#[test]
fn no_result_satisfies(rt: HostRuntime) -> Result<(), Fail> {
    let alloc = rt.alloc();
    let file = image_of(alloc, LOST)?;
    let words = ObservedWords::of_list(alloc, "0-15", 16)?.ok_or("no list")?;
    let condition = Condition::of_text(alloc, "any fault", 16, &None)?.ok_or("no condition")?;
    let asked = Asked {
        observed: Some(&words),
        filter: Some(&condition),
        ..each(100)
    };
    let ran = explore(alloc, file.as_slice(), config_of(1), asked);
    assert_same!(rt; str::from_utf8(ran.out.as_slice())?,
        "0 of 2 results are printed\n2 results, 12 states\nevery schedule ends\n");
    assert_same!(rt; ran.status, 0);
    Ok(())
}
