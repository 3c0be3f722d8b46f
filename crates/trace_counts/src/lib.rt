//! `ultra stats`: counts of what the steps of a trace did.
//!
//! [`Stats`], [`LatencyStats`], [`QueueStats`] and a [`QueueTable`] are each a
//! [`TraceReport`](trace_commands::TraceReport): they make a text from the steps of a trace and those of a drain. For
//! [`Stats`], a second machine takes all steps again, and their outcomes are counted ([`count_steps`]). For latencies,
//! a third one takes them, and tells on which words they act ([`find_latencies`]); for lengths of queues, it shows its
//! network at the end of each round ([`find_queue_lengths`]).
#![tactic(auto)]

mod counting;
mod latencies;
mod latency_stats;
mod longest;
mod queue_lengths;
mod queue_stats;
mod stats;

pub use counting::count_steps;
pub use latencies::find_latencies;
pub use latency_stats::LatencyStats;
pub use queue_lengths::find_queue_lengths;
pub use queue_stats::{QueueStats, QueueTable};
pub use stats::Stats;
