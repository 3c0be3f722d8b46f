//! What the scripts of `bench/` measure: moves of messages, steps of machines, and the assembler.
//!
//! `bench moves`, `bench steps` and `bench assemble` do one of these. Without arguments, a little of each is done.
#![tactic(auto)]

mod machines;
mod moves;
mod texts;

use anyhow::bail;
use std::env;

fn main(rt: HostRuntime) -> anyhow::Result<()> {
    let arguments = env::args(&rt)?.skip(1).collect::<Vec<String>>(rt.alloc())?;
    match arguments.as_slice() {
        [] => {
            moves::run(&rt, &[])?;
            machines::run(&rt, &[])?;
            texts::run(&rt)
        }
        [what, rest @ ..] => match what.as_str() {
            "moves" => moves::run(&rt, rest),
            "steps" => machines::run(&rt, rest),
            "assemble" => texts::run(&rt),
            _ => bail!("usage: bench [moves|steps|assemble ..]"),
        },
    }
}
