//! `ultra words FILE`: a program of hex words on one processor.
#![tactic(auto)]

mod command;
mod load;
mod print;
mod read;
mod report;
mod run;

pub use command::words_command;
pub use print::{PrintError, words_print};
pub use read::{MAX_WORDS, WordsError, words_read};
pub use run::{BUDGET, WordsEnd, words_run};
