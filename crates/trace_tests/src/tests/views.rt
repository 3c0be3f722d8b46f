//! Views of machines. The place of each message is worked out by hand from the wires of the network, and the group of
//! a request has to be the one that the steps reported.

use flat_machine::{Config, Poke, Status};
use machine_steps::Machine;
use machine_views::{MachineView, ProcessorView, SharedWord, view_of};
use messages::{Record, Reply, Request};
use std::alloc::Global;
use std::fmt::Write;
use std::process::Abort;
use std::test::Fail;
use steps::{Groups, Step};
use test_support::{COMBINED_ADDS, FOUR_ADDENDS, adders, assert_same, lend};

/// An add, a swap and a minimum of `a1` and the word at `a2`. Each processor starts at one of them.
const REFERENCES: &str = "
 amoadd.w x10, x11, (x12)
 amoswap.w x10, x11, (x12)
 amomin.w x10, x11, (x12)
";

/// Some steps, and what the network holds after them.
type Stand = (&'static str, &'static str);

/// Processors that refer to shared words.
struct Meeting {
    size: (u8, u8, u8),
    /// The value of word 0.
    word: u8,
    /// The processors, each with the value of its `a1`.
    addends: &'static [(u8, u32)],
    /// Another register that is poked: its processor, its number and its value.
    register: Option<(u8, u8, u32)>,
    stands: &'static [Stand],
}

/// Each text begins with a depth and a wire. A request (`>`) has its leader, its word (`w`), what its function makes of
/// 7 (`f`), its marks (`m`) and its group; a record (`+`) its leader, what the kept function makes of 7 (`f`), and the
/// second; a reply (`<`) its leader, its value (`v`) and its group.
static MEETINGS: [Meeting; 6] = [
    // Two adds combine at each stage, and the reply is split on its way back.
    Meeting {
        size: (2, 4, 4),
        word: 10,
        addends: &[(0, 1), (1, 2), (2, 4), (3, 8)],
        register: None,
        stands: &[
            ("", ""),
            (
                "t0 t1 t2 t3",
                "00>0w0f8m0[0] 01>1w0f9m0[1] 02>2w0f11m0[2] 03>3w0f15m0[3]",
            ),
            (
                "u00 u02",
                "01>1w0f9m0[1] 03>3w0f15m0[3] 10>0w0f12m1[0 2] 10+0f8,2",
            ),
            (
                "u01 u03",
                "10>0w0f12m1[0 2] 10+0f8,2 12>1w0f17m1[1 3] 12+1f9,3",
            ),
            (
                "u10 u12",
                "10+0f8,2 12+1f9,3 20>0w0f22m1[0 2 1 3] 20+0f12,1",
            ),
            ("s0", "10+0f8,2 12+1f9,3 20+0f12,1 20<0v10[0 2 1 3]"),
            ("d10", "10+0f8,2 10<0v10[0 2] 12+1f9,3 12<1v15[1 3]"),
            ("d00", "00<0v10[0] 02<2v11[2] 12+1f9,3 12<1v15[1 3]"),
            ("d02", "00<0v10[0] 01<1v15[1] 02<2v11[2] 03<3v17[3]"),
            ("t0", "01<1v15[1] 02<2v11[2] 03<3v17[3]"),
        ],
    },
    // An add, and a swap that is combined into it;
    Meeting {
        size: (2, 4, 4),
        word: 7,
        addends: &[(0, 5), (2, 100)],
        register: Some((2, 32, 0x0001_0004)),
        stands: &[("t0 t2 u00 u02", "10>0w0f100m1[0 2] 10+0f12,2")],
    },
    // and the other way round.
    Meeting {
        size: (2, 4, 4),
        word: 7,
        addends: &[(0, 5), (2, 100)],
        register: Some((2, 32, 0x0001_0004)),
        stands: &[("t0 t2 u02 u00", "10>2w0f105m1[2 0] 10+2f100,0")],
    },
    // A minimum and an add do not combine: one queues behind the other.
    Meeting {
        size: (2, 4, 4),
        word: 5,
        addends: &[(0, 3), (2, 1)],
        register: Some((0, 32, 0x0001_0008)),
        stands: &[
            ("t0 t2 u00 u02", "10>0w0f3m0[0] 10>2w0f8m0[2]"),
            ("u10 u10", "20>0w0f3m0[0] 20>2w0f8m0[2]"),
            ("s0", "20>2w0f8m0[2] 20<0v5[0]"),
            ("d10 s0", "10<0v5[0] 20<2v3[2]"),
        ],
    },
    // A wait buffer of one record is full after one combination: later requests go on by themselves.
    Meeting {
        size: (2, 4, 1),
        word: 0,
        addends: &[(0, 1), (1, 2), (2, 4), (3, 8)],
        register: None,
        stands: &[
            (
                "t0 t1 t2 t3 u00 u10 u02 u10",
                "01>1w0f9m0[1] 03>3w0f15m0[3] 20>0w0f12m1[0 2] 20+0f8,2",
            ),
            (
                "u01 u12 u03 u12",
                "20>0w0f12m1[0 2] 20>1w0f9m0[1] 20>3w0f15m0[3] 20+0f8,2",
            ),
        ],
    },
    // The reply to 0 and 2 needs two places in a queue, and waits while the reply to 4 takes one of them.
    Meeting {
        size: (3, 2, 1),
        word: 0,
        addends: &[(0, 1), (2, 2), (4, 4)],
        register: Some((4, 12, 0x8000_0004)),
        stands: &[
            (
                "t0 t2 t4 u04 u10 u20",
                "00>0w0f8m0[0] 02>2w0f9m0[2] 31>4w1f11m0[4]",
            ),
            ("s1 d21", "00>0w0f8m0[0] 02>2w0f9m0[2] 20<4v0[4]"),
            (
                "u00 u10 u20 u02 u14 u20 s0 d20",
                "20<4v0[4] 30+0f8,2 30<0v0[0 2]",
            ),
            ("d10 d20", "10<4v0[4] 20<0v0[0] 20<2v1[2]"),
        ],
    },
];

/// The value of a digit.
fn number(digit: u8) -> u8 {
    digit.saturating_sub(b'0')
}

/// The step that a word names: `tP`, `uSW`, `sM` or `dSW`, with a digit for a processor, a stage, a wire or a module.
fn step_of(word: &str) -> Option<Step> {
    match word.as_bytes() {
        [b't', p] => Some(Step::Turn(number(*p))),
        [b'u', stage, wire] => Some(Step::Up {
            stage: number(*stage),
            wire: number(*wire),
        }),
        [b's', m] => Some(Step::Serve(number(*m))),
        [b'd', stage, wire] => Some(Step::Down {
            stage: number(*stage),
            wire: number(*wire),
        }),
        _ => None,
    }
}

/// Appends the group of a message.
fn push_group(text: &mut String, group: &[u8]) -> Result<(), Fail> {
    text.push('[')?;
    for (place, member) in group.iter().enumerate() {
        if place > 0 {
            text.push(' ')?;
        }
        write!(text, "{member}")?;
    }
    text.push(']')?;
    Ok(())
}

/// What the network of a view holds, by depth and wire.
fn text_of(alloc: Global, view: &MachineView) -> Result<String, Fail> {
    let mut text = String::new(alloc);
    for (depth, places) in view.places.as_slice().iter().enumerate() {
        for (wire, place) in places.as_slice().iter().enumerate() {
            for shown in place.requests.as_slice() {
                let Request {
                    leader,
                    word,
                    phi,
                    marks,
                } = shown.request;
                let made = phi.apply(7);
                write!(text, " {depth}{wire}>{leader}w{word}f{made}m{marks}")?;
                push_group(&mut text, shown.group.as_slice())?;
            }
            for record in place.records.as_slice() {
                let Record {
                    leader,
                    phi,
                    second,
                } = *record;
                let made = phi.apply(7);
                write!(text, " {depth}{wire}+{leader}f{made},{second}")?;
            }
            for shown in place.replies.as_slice() {
                let Reply { leader, value } = shown.reply;
                write!(text, " {depth}{wire}<{leader}v{value}")?;
                push_group(&mut text, shown.group.as_slice())?;
            }
        }
    }
    Ok(text)
}

/// Checks that each request of a view has the group that the steps reported.
fn expect_groups(rt: &impl Abort, view: &MachineView, groups: &Groups) {
    for places in view.places.as_slice() {
        for place in places.as_slice() {
            for shown in place.requests.as_slice() {
                let leader = shown.request.leader;
                assert_same!(rt; shown.group.as_slice(), groups.of(leader), leader);
            }
        }
    }
}

/// Takes the steps of a meeting, and checks the views after them.
fn expect_stands(
    rt: &impl Abort,
    alloc: Global,
    machine: &mut Machine,
    stands: &[Stand],
) -> Result<(), Fail> {
    let mut groups = Groups::new(alloc)?;
    let mut taken = 0_usize;
    for (steps, wanted) in stands {
        for step in steps.split(' ').filter_map(step_of) {
            let outcome = machine.apply(step);
            groups.observe(alloc, &step, &outcome)?;
            taken = taken.saturating_add(1);
        }
        let view = view_of(alloc, machine, taken)?;
        expect_groups(rt, &view, &groups);
        let text = text_of(alloc, &view)?;
        assert_same!(rt; text.as_str().trim_start(), *wanted, steps);
    }
    Ok(())
}

#[test]
fn places(rt: HostRuntime) -> Result<(), Fail> {
    let alloc = rt.alloc();
    for meeting in &MEETINGS {
        let (k, c, b) = meeting.size;
        let size = Config {
            k,
            c,
            b,
            r: 1,
            shared_words: 1024,
        };
        let mut machine = adders(alloc, REFERENCES, size, meeting.word, meeting.addends)?;
        if let Some((processor, register, value)) = meeting.register {
            machine.apply(Step::Poke(Poke::Register {
                processor,
                register,
                value,
            }));
        }
        expect_stands(&rt, alloc, &mut machine, meeting.stands)?;
    }
    Ok(())
}

/// A processor at its first instruction, with an open reference to word 0, which has this value, or without one.
fn at_first(word: Option<u32>) -> ProcessorView {
    ProcessorView {
        pc: 0x0001_0000,
        status: Status::Running,
        is_open: word.is_some(),
        word: word.map(|value| SharedWord { number: 0, value }),
    }
}

/// Four adds to word 0, which is 10 before their service and 25 after it. Then processor 0 retires its add and halts.
#[test]
fn processors(rt: HostRuntime) -> Result<(), Fail> {
    let alloc = rt.alloc();
    let size = test_support::size(2);
    let machine = adders(alloc, test_support::ADD_AT_X12, size, 10, &FOUR_ADDENDS)?;
    lend(machine, |machine| {
        for (place, step) in COMBINED_ADDS.iter().enumerate().take(15) {
            let view = view_of(alloc, machine, place)?;
            let word = match place {
                0 => None,
                4..=10 => Some(10),
                11.. => Some(25),
                _ => {
                    machine.apply(*step);
                    continue;
                }
            };
            assert_same!(rt; view.steps, place);
            assert_same!(rt; view.config, size);
            assert_same!(rt; view.processors.as_slice(), [at_first(word); 4].as_slice(), place);
            machine.apply(*step);
        }
        machine.apply(Step::Turn(0));
        let view = view_of(alloc, machine, 16)?;
        let done = ProcessorView {
            pc: 0x0001_0004,
            status: Status::Halted(10),
            is_open: false,
            word: None,
        };
        assert_same!(rt; view.processors.as_slice().first(), Some(&done));
        Ok(())
    })
}
