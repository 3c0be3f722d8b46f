//! Assembles the text on standard input, and prints its entry and how many bytes each section has.
use assembler::assemble;
use std::io;

/// Assembles the text on standard input.
pub fn run(rt: &HostRuntime) -> anyhow::Result<()> {
    let text = io::read_to_string(rt.alloc(), rt.stdin())?;
    let program = assemble(rt.alloc(), text.as_str())?;
    let layout = program.layout();
    println!(rt;
        "entry {:08x} code {} local {} shared {}",
        layout.entry,
        layout.code.len(),
        layout.local.len(),
        layout.shared.len()
    )?;
    Ok(())
}
