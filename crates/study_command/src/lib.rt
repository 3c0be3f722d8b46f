//! `ultra study`: runs of one image on machines of several sizes, a row for each.
//!
//! [`size_list`] reads a list of numbers of the command line. For each size, [`study_command`] runs the image by the
//! sweep, and two more machines take the steps of the run: their counts and latencies make the figures of the row. When
//! all rows are there, `study_rows` gives their text, which is printed.
//!
//! `specs/Rows.antt` says what a row is, and `specs/Studies.antt` what is printed.
#![tactic(auto)]

mod command;
mod figures;
mod lists;
mod running;

pub use command::{StudyFormat, study_command};
pub use lists::size_list;
