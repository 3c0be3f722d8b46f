//! What instructions compute from their operands, as the flat machine defines it.
#![tactic(auto)]

mod alu;
mod memory;
mod products;
mod words;

pub use alu::{immediate_result, is_branch_taken, register_result, shift_result};
pub use memory::{amo_result, is_aligned, load_result, load_size, store_size};
pub use words::{branch_offset, immediate_word, jump_offset, part, sum};
