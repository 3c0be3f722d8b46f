//! What the commands of `ultra` share.
//!
//! Here are the faults and their exit statuses, the image that a command reads and the machine that opens on it,
//! digits, the printing of a text, and a writer that opens its device at the first write. `specs/Links.antt` says what
//! a command reads and writes, `specs/Printing.antt` what it leaves on its output, and `specs/Files.antt` what a fault
//! says about a file.
//!
//! A [`Tally`] counts what steps show: for each processor, the instructions that retired and the bytes written to the
//! console. A report has a line for each processor and one for each shared word that is not zero. This crate makes
//! single lines, and `specs/Lines.antt` defines them.
#![tactic(auto)]

mod digits;
mod exit;
mod fault;
mod fault_text;
mod input;
mod lines;
mod on_first_write;
mod printing;
mod shown;
mod tally;

pub use digits::{push_bytes, push_status, push_word};
pub use exit::{DONE, LINK_FAILED, REFUSED, SPENT, STOPPED_BY_FAULT};
pub use fault::{Fault, report_fault, report_outcome};
pub use input::{image_of, machine_of, machine_of_copy};
pub use lines::{push_console, push_processor, push_shared_word};
pub use on_first_write::{CreateAt, OnFirstWrite, Open};
pub use printing::{print, write_error, write_error_parts};
pub use shown::Shown;
pub use tally::Tally;
