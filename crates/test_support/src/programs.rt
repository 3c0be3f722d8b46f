//! Programs as texts of the assembler, and the report of one.

use std::alloc::Global;
use std::fmt::Write;
use std::test::Fail;

/// Each processor adds 1 to one shared word a hundred times, writes `A` to the console and halts. It stops by EBREAK
/// if the word is less than the number of its own adds.
pub const HUNDRED_ADDS: &str = "start: lui x5, 0x80000
 addi x6, x0, 100
 addi x7, x0, 1
loop: amoadd.w x8, x7, (x5)
 addi x6, x6, -1
 bne x6, x0, loop
 lw x9, 0(x5)
 addi x11, x0, 100
 bltu x9, x11, bad
 addi x17, x0, 1
 addi x10, x0, 65
 ecall
 addi x17, x0, 0
 addi x10, x0, 0
 ecall
bad: ebreak
";

/// The report of [`HUNDRED_ADDS`] on this many processors, whose adds give this sum. Each processor retires 311
/// instructions: three at the beginning, three for each of the hundred adds, and eight before the `ecall` at
/// 0x00010038, which halts.
///
/// # Errors
///
/// If there is no memory for it.
pub fn report_of_hundred_adds(alloc: Global, processors: u8, sum: &str) -> Result<String, Fail> {
    let mut report = String::new(alloc);
    for p in 0..processors {
        write!(
            report,
            "processor {p} pc 00010038 halt 00 retired 311 console 41\n"
        )?;
    }
    write!(report, "word 0 {sum}\n")?;
    Ok(report)
}

/// Adds `x11` to the word at `x12`, and halts.
pub const ADD_AT_X12: &str = "
 amoadd.w x10, x11, (x12)
 ecall
";
