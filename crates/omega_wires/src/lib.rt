//! The wiring of an omega network of 2-by-2 switches.
//!
//! A network of `k` stages, 0 to 6, has `2^k` wires before and after each stage, `2^k` processors and as many modules.
//! Before each stage the wires go through a shuffle, which rotates the `k` bits of a wire's number to the left by one:
//! two wires that then differ only in the lowest bit go into one switch. The switch of stage `s` sends a message for
//! module `m` out at the port that is bit `k - 1 - s` of `m`, so that after the last stage the wire's number is the
//! module's. On the way back the port is that bit of the processor's number, and the shuffle is undone.
//!
//! `specs/Wires.antt` has the definitions, and `specs/Laws.antt` the laws of every path: where it ends, that a reply
//! goes back over the same wires, and that two paths to one module stay together once they meet. A [`WireSet`] is a set
//! of wires of one stage. No call here allocates memory.
//!
//! Source: the perfect shuffle and the omega network are those of Lawrie, "Access and Alignment of Data in an Array
//! Processor", IEEE Transactions on Computers C-24(12), 1975. This project chose which bit each stage uses, and that
//! replies undo the shuffle.
#![tactic(auto)]

pub mod laws;
mod set_laws;
mod wire_set;
mod wires;

pub use wire_set::WireSet;
pub use wires::{
    bit, input_port, module_of, path, rotate_left, rotate_right, switch_of, wire_after, wire_before,
};
