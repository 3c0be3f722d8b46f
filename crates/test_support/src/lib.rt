//! What tests are made of.
//!
//! Devices that take or give one byte a call, fail at one call, or have no end or no room ([`Sink`], [`Source`]). With
//! them, what a command does on such devices ([`Ran`]), what a layout places as a text, images, traces, and how tests
//! compare and lend.
//!
//! Programs of words ([`Program`]), a machine whose steps are watched, and cases, each of which says what a machine is
//! asked and what it has to answer. [`check`] and what it calls are proved safe once, however many cases there are.
//!
//! Machines and logs that open on texts of the assembler, their sizes, and adds that combine in them.
#![tactic(auto)]

mod adds;
mod assert_same;
mod case_programs;
mod case_words;
mod cases;
mod image;
mod layout;
mod lending;
mod openings;
mod programs;
mod ran;
mod sink;
mod sizes;
mod source;
mod trace;
mod watched;
mod words;

pub use adds::{
    COMBINED_ADDS, FOUR_ADDENDS, add_pokes, add_that_found, adders, adders_log, combined_add,
    enter_adds, poke_often,
};
pub use case_programs::Program;
pub use cases::{Case, check, check_orders};
pub use image::{EBREAK, with_bytes};
pub use layout::layout_text;
pub use lending::{lend, prepared};
pub use link::{Link, Meter};
pub use openings::{image_of, log_of, machine_of};
pub use programs::{ADD_AT_X12, HUNDRED_ADDS, report_of_hundred_adds};
pub use ran::Ran;
pub use sink::{Deaf, Full, Sink, Taken};
pub use sizes::{size, tight_size};
pub use source::{Broken, Endless, Source, metered};
pub use trace::{FOUR_ADDS, ONE_TURN, trace_of};
pub use watched::{Shown, Watched};
pub use words::{Words, asked_and_wanted, low, read_words, said};
