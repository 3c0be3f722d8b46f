//! Counts of what the steps of a run did: by kind, by stage, by module and by processor; and latencies of references.
//!
//! `specs/Keys.antt` says which count each step increases, `specs/Counting.antt` what a count is (`times`), and
//! `specs/Lines.antt` which lines are printed. [`Counts`] observes each step, and [`counts_text`] makes the lines.
//!
//! `specs/Latencies.antt` says how many rounds a reference takes, and `specs/LatencyLines.antt` which lines are
//! printed. [`Latencies`] observes each step, and [`latencies_text`] makes the lines.
//!
//! `specs/QueueLengths.antt` says which lines are printed of [`StageLengths`]: of what waits at a stage when a round
//! ends.
#![tactic(auto)]

mod counters;
mod counts;
mod keys;
mod latencies;
mod latency_lines;
pub mod laws;
mod lines;
mod longest;
mod queue_lengths;
mod rounds;
mod sample;
mod samples;

pub use counts::Counts;
pub use latencies::Latencies;
pub use latency_lines::{latencies_text, mean_of};
pub use lines::counts_text;
pub use longest::{Held, Longest};
pub use queue_lengths::{LengthsFormat, StageLengths, lengths_text};
pub use rounds::{Begun, rounds_after, rounds_of};
