//! Runs of small networks.

ghost use Rattle.std.specs.Prelude.{◌<◌, ◌^◌};

use super::{down_of, phi_of, request, up_of};
use messages::Reply;
use omega_network::Network;
use std::process::Abort;
use std::test::Fail;
use test_support::{Words, asked_and_wanted, assert_same, low, read_words};

/// A run of a network of this many stages, with queues of this many places, this many records and this many
/// combinations for an entry.
struct Run {
    name: &'static str,
    sizes: (u8, u8, u8, u8),
    /// The word of each module before the run. All requests at a module act on it.
    before: u32,
    /// Lines of calls. After a colon comes the result that each call of the line must have.
    ///
    /// - `add P W A`, `swap P W A` and `minimum P W A`: processor P puts a request for word W into its slot, which is
    /// `put`.
    /// - `up S W` and `down S W` are `moved`, `combined FIRST SECOND`, `answered P`, `answered_two P P`,
    /// `answered_three P P P` or `stalled`.
    /// - `serve M`: the request that module M serves, as `add LEADER A`.
    /// - `take P`: `is` the value that the processor takes.
    steps: &'static [&'static str],
    /// The word of module 0 after the run.
    after: u32,
}

/// Four processors add to one word.
const FOUR_ADDS: &str = "
    add 0 0 1, add 1 0 2, add 2 0 4, add 3 0 8: put";

/// Four processors add, and the requests of 0 and 2 meet at the second stage.
const TWO_MEET: &str = "
    add 0 0 1, add 1 0 2, add 2 0 4, add 3 0 8: put
    up 0 0, up 1 0, up 0 2: moved
    up 1 0: combined 0 2";

/// The same, and the request of 1 meets them there.
const THREE_MEET: &str = "
    add 0 0 1, add 1 0 2, add 2 0 4, add 3 0 8: put
    up 0 0, up 1 0, up 0 2: moved
    up 1 0: combined 0 2
    up 0 1: moved
    up 1 2: combined 0 1";

/// What each processor finds if the order is 0, 2, 1, 3.
const SUMS: &str = "
    take 0: is 0
    take 1: is 5
    take 2: is 1
    take 3: is 7";

static RUNS: [Run; 14] = [
    Run {
        name: "two adds combine at each stage",
        sizes: (2, 4, 4, 1),
        before: 10,
        steps: &[
            FOUR_ADDS,
            "
            up 0 0: moved
            up 0 2: combined 0 2
            up 0 1: moved
            up 0 3: combined 1 3
            up 1 0: moved
            up 1 2: combined 0 1
            serve 0: add 0 15
            down 1 0: answered 1
            down 0 0: answered 2
            down 0 2: answered 3
            take 0: is 10
            take 1: is 15
            take 2: is 11
            take 3: is 17",
        ],
        after: 25,
    },
    Run {
        name: "an add of 5 comes before a swap with 100",
        sizes: (2, 4, 4, 1),
        before: 7,
        steps: &[
            "
            add 0 0 5, swap 2 0 100: put
            up 0 0: moved
            up 0 2: combined 0 2
            up 1 0: moved
            serve 0: swap 0 100
            down 1 0: moved
            down 0 0: answered 2
            take 0: is 7
            take 2: is 12",
        ],
        after: 100,
    },
    Run {
        name: "a swap with 100 comes before an add of 5",
        sizes: (2, 4, 4, 1),
        before: 7,
        steps: &[
            "
            add 0 0 5, swap 2 0 100: put
            up 0 2: moved
            up 0 0: combined 2 0
            up 1 0: moved
            serve 0: swap 2 105
            down 1 0: moved
            down 0 0: answered 0
            take 2: is 7
            take 0: is 100",
        ],
        after: 105,
    },
    Run {
        name: "a minimum with 3 and an add are not composed, also where both stand at one output",
        sizes: (2, 4, 4, 1),
        before: 5,
        steps: &[
            "
            minimum 0 0 3, add 2 0 1: put
            up 0 0, up 0 2, up 1 0, up 1 0: moved
            serve 0: minimum 0 3
            down 1 0: moved
            serve 0: add 2 1
            down 1 0, down 0 0, down 0 0: moved
            take 0: is 5
            take 2: is 3",
        ],
        after: 4,
    },
    Run {
        name: "no record is free for a second pair where there is one",
        sizes: (2, 4, 1, 1),
        before: 0,
        steps: &[
            TWO_MEET,
            "
            up 0 1, up 1 2, up 0 3, up 1 2: moved",
        ],
        after: 0,
    },
    Run {
        name: "a second pair combines where there are two records",
        sizes: (2, 4, 2, 1),
        before: 0,
        steps: &[
            TWO_MEET,
            "
            up 0 1, up 1 2, up 0 3: moved
            up 1 2: combined 1 3",
        ],
        after: 0,
    },
    Run {
        name: "both replies of a pair are for a queue of two that has one place left",
        sizes: (3, 2, 1, 1),
        before: 0,
        steps: &[
            "
            add 0 0 1, add 2 0 2, add 4 1 4: put
            up 0 4, up 1 0, up 2 0: moved
            serve 1: add 4 4
            down 2 1, up 0 0, up 1 0, up 2 0, up 0 2, up 1 4: moved
            up 2 0: combined 0 2
            serve 0: add 0 3
            down 2 0, down 2 0: stalled
            down 1 0: moved
            down 2 0: answered 2
            down 1 0, down 1 0, down 0 0, down 0 0, down 0 4: moved
            take 4, take 0: is 0
            take 2: is 1",
        ],
        after: 3,
    },
    Run {
        name: "full queues of two stall where nothing combines",
        sizes: (2, 2, 0, 1),
        before: 0,
        steps: &[
            FOUR_ADDS,
            "
            up 0 0, up 0 1, up 0 2, up 0 3, up 1 0, up 1 2: moved
            up 1 0, up 1 0: stalled
            serve 0: add 0 1
            up 1 0: moved",
        ],
        after: 1,
    },
    Run {
        name: "a minimum and an add do not compose, words differ, and an entry is combined once, with the first that fits",
        sizes: (3, 4, 4, 1),
        before: 100,
        steps: &[
            "
            minimum 0 0 3: put
            up 0 0, up 1 0, up 2 0: moved
            add 1 0 1: put
            up 0 1, up 1 2, up 2 4: moved
            add 2 8 1: put
            up 0 2, up 1 4, up 2 0: moved
            add 3 0 2: put
            up 0 3, up 1 6: moved
            up 2 4: combined 1 3
            add 4 0 4: put
            up 0 4, up 1 0, up 2 0: moved
            add 5 0 8: put
            up 0 5, up 1 2: moved
            up 2 4: combined 4 5
            minimum 6 0 1: put
            up 0 6, up 1 4: moved
            up 2 0: combined 0 6
            add 7 0 16: put
            up 0 7, up 1 6: moved
            up 2 4: stalled
            serve 0: minimum 0 1
            down 2 0: answered 6
            serve 0: add 1 3
            down 2 0: answered 3
            serve 0: add 2 1
            down 2 0: moved
            serve 0: add 4 12",
        ],
        after: 17,
    },
    Run {
        name: "a record is free again when its reply has come",
        sizes: (3, 2, 1, 1),
        before: 0,
        steps: &[
            "
            add 0 0 1, add 2 0 4: put
            up 0 0, up 0 2, up 1 0: moved
            up 1 4: combined 0 2
            up 2 0: moved
            add 4 0 2, add 6 0 8: put
            up 0 4, up 1 0, up 0 6, up 1 4: moved
            serve 0: add 0 5
            down 2 0: moved
            down 1 0: answered 2
            down 0 0: moved
            take 0: is 0
            add 0 0 16: put
            up 0 0: moved
            up 1 0: combined 4 0",
        ],
        after: 5,
    },
    Run {
        name: "an entry is combined three times, and its reply is split in four, in the order of the combinations",
        sizes: (2, 4, 4, 3),
        before: 0,
        steps: &[
            THREE_MEET,
            "
            up 0 3: moved
            up 1 2: combined 0 3
            serve 0: add 0 15
            down 1 0: answered_three 2 1 3
            down 0 0, down 0 0, down 0 2, down 0 2: moved",
            SUMS,
        ],
        after: 15,
    },
    Run {
        name: "an entry that was combined twice is not combined a third time, where two are the most",
        sizes: (2, 4, 4, 2),
        before: 0,
        steps: &[
            THREE_MEET,
            "
            up 0 3, up 1 2: moved
            serve 0: add 0 7
            down 1 0: answered_two 2 1
            serve 0: add 3 8
            down 1 0, down 0 0, down 0 0, down 0 2, down 0 2: moved",
            SUMS,
        ],
        after: 15,
    },
    Run {
        name: "four replies, of which three are for a queue of three that has two places left",
        sizes: (3, 3, 4, 3),
        before: 0,
        steps: &[
            "
            add 4 1 1: put
            up 0 4, up 1 0, up 2 0: moved
            serve 1: add 4 1
            down 2 1: moved
            add 0 0 1, add 2 0 2, add 6 0 4, add 1 0 8: put
            up 0 0, up 1 0, up 2 0, up 0 2, up 1 4: moved
            up 2 0: combined 0 2
            up 0 6, up 1 4: moved
            up 2 0: combined 0 6
            up 0 1, up 1 2: moved
            up 2 4: combined 0 1
            serve 0: add 0 15
            down 2 0: stalled
            down 1 0: moved
            down 2 0: answered_three 2 6 1",
        ],
        after: 15,
    },
    Run {
        name: "with no stage the processor's slot is the module's",
        sizes: (0, 2, 0, 1),
        before: 5,
        steps: &[
            "
            add 0 7 1: put
            serve 0: add 0 1
            take 0: is 5",
        ],
        after: 6,
    },
];

/// Takes a call, and returns whether the network gave the wanted result.
fn answers(network: &mut Network, words: &mut [u32; 8], asked: Words, wanted: Words) -> bool {
    let [a, b, c, _] = asked.numbers;
    let (place, wire) = (low(a), low(b));
    let wires = network.wires();
    let stages = network.stages();
    match asked.verb {
        "" => true,
        "up" => { place < stages && wire < wires && Some(network.up(place, wire)) == up_of(wanted) }
        "down" => {
            place < stages && wire < wires && Some(network.down(place, wire)) == down_of(wanted)
        }
        "serve" => {
            place < wires
                && place < 8
                && serves(network, &mut words[usize::from(place)], place, wanted)
        }
        "take" => {
            let reply = Reply {
                leader: place,
                value: wanted.numbers[0],
            };
            place < wires && network.port_take(place) == Some(reply)
        }
        function => puts(network, place, b, function, c),
    }
}

/// Puts a request into a processor's slot, and returns whether that was possible.
fn puts(network: &mut Network, p: u8, word: u32, function: &str, operand: u32) -> bool {
    let Some(phi) = phi_of(function, operand) else {
        return false;
    };
    let fits = p < network.wires() && network.slot_is_free(p) && !network.names(p);
    if fits {
        network.inject(p, request(p, word, phi));
    }
    fits
}

/// Serves the request at a module, and returns whether it was the wanted one.
fn serves(network: &mut Network, word: &mut u32, m: u8, wanted: Words) -> bool
    requires { m < 2 ^ network.old.k }
{
    let Some(request) = network.module_front(m) else {
        return false;
    };
    if !network.module_is_free(m) {
        return false;
    }
    network.module_take(m);
    let reply = Reply {
        leader: request.leader,
        value: *word,
    };
    if !network.module_is_free(m)
        || reply.leader >= network.wires()
        || !network.may_reply(reply.leader)
    {
        return false;
    }
    network.module_reply(m, reply);
    *word = request.phi.apply(*word);
    let [leader, operand, _, _] = wanted.numbers;
    request.leader == low(leader) && Some(request.phi) == phi_of(wanted.verb, operand)
}

fn take_lines(
    rt: &impl Abort,
    network: &mut Network,
    words: &mut [u32; 8],
    lines: &str,
) -> Result<(), Fail> {
    for line in lines.lines() {
        take_line(rt, network, words, line)?;
    }
    Ok(())
}

/// Takes the calls of a line.
fn take_line(
    rt: &impl Abort,
    network: &mut Network,
    words: &mut [u32; 8],
    line: &str,
) -> Result<(), Fail> {
    let (asked, wanted) = asked_and_wanted(line);
    let wanted = read_words(wanted)?;
    for call in asked.split(',') {
        assert!(rt;
            answers(network, words, read_words(call)?, wanted),
            "{call}: {wanted:?}"
        );
    }
    Ok(())
}

#[test]
fn runs(rt: HostRuntime) -> Result<(), Fail> {
    for run in &RUNS {
        let (k, c, b, r) = run.sizes;
        assert!(rt; k <= 3 && 2 <= c && c <= 16 && b <= 16 && 1 <= r && r <= 3);
        let mut network = Network::new(rt.alloc(), k, c, b, r)?;
        let mut words = [run.before; 8];
        for lines in run.steps.iter() {
            take_lines(&rt, &mut network, &mut words, lines)?;
        }
        assert_same!(rt; words[0], run.after, run.name);
    }
    Ok(())
}
