//! Small networks and their parts, with each result worked out by hand.

ghost use Rattle.std.specs.Prelude.{◌≡◌};

mod both;
mod buffers;
mod cells;
mod indexed;
mod memory;
mod plain;
mod random;
mod runs;
mod switches;
mod wires;

use messages::{DownMove, Request, Seconds, UpMove};
use phi_algebra::{Phi, SignedRange};
use std::fmt::Debug;
use std::process::Abort;
use test_support::{Words, low};

/// Fails the test if the two values differ, and prints both and their case ([`assert_same!`]).
fn same<T: PartialEq + Debug, A: Debug>(rt: &impl Abort, found: &T, wanted: &T, at: &A) {
    assert_eq!(rt; found, wanted, "{at:?}");
}

/// The function of an AMO of this name with this operand.
fn phi_of(function: &str, operand: u32) -> Option<Phi> {
    match function {
        "add" => Some(Phi::Add(operand)),
        "swap" => Some(Phi::constant(operand)),
        "minimum" => {
            let range = SignedRange::new(i32::MIN, operand.cast_signed());
            Some(Phi::Clamp(range))
        }
        _ => None,
    }
}

/// The expected result of a request's move.
fn up_of(words: Words) -> Option<UpMove> {
    let [first, second, _, _] = words.numbers;
    match words.verb {
        "moved" => Some(UpMove::Moved),
        "combined" => Some(UpMove::Combined {
            first: low(first),
            second: low(second),
        }),
        "stalled" => Some(UpMove::Stalled),
        _ => None,
    }
}

/// The expected result of a reply's move.
fn down_of(words: Words) -> Option<DownMove> {
    match words.verb {
        "moved" => Some(DownMove::Moved),
        "stalled" => Some(DownMove::Stalled),
        _ => seconds_of(words).map(|to| DownMove::Answered { to }),
    }
}

/// The processors that get replies besides the leader.
fn seconds_of(words: Words) -> Option<Seconds> {
    let [a, b, c, _] = words.numbers;
    match words.verb {
        "answered" => Some(Seconds::One(low(a))),
        "answered_two" => Some(Seconds::Two(low(a), low(b))),
        "answered_three" => Some(Seconds::Three(low(a), low(b), low(c))),
        _ => None,
    }
}

/// A request as it comes from a processor.
fn request(leader: u8, word: u32, phi: Phi) -> Request
    ensures { result.leader ≡ leader }
{
    Request {
        leader,
        word,
        phi,
        marks: 0,
    }
}
