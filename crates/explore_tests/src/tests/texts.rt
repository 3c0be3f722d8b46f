//! The programs, as texts of the assembler.

// ---- one word

/// Each adds 1 to the first word by a fetch-and-add.
pub const SUM: &str = "lui x1, 0x80000\naddi x4, x0, 1\namoadd.w x0, x4, (x1)\necall";

/// The same by a load and a store: an addition may be lost.
pub const LOST_SUM: &str = "lui x1, 0x80000\nlw x2, 0(x1)\naddi x2, x2, 1\nsw x2, 0(x1)\necall";

/// Each of two does the same, and waits until the sum is 2.
pub const NEEDED_SUM: &str =
    "lui x1, 0x80000\naddi x5, x0, 2\nlw x2, 0(x1)\naddi x2, x2, 1\nsw x2, 0(x1)\nwait: lw x2, 0(x1)\n\
    bne x2, x5, wait\necall";

/// Each adds 1 to the first word three times, and never reads what it finds.
pub const COUNTER: &str =
    "lui x1, 0x80000\naddi x4, x0, 1\namoadd.w x5, x4, (x1)\namoadd.w x31, x4, (x1)\namoadd.w x5, x4, (x1)\necall";

/// Three instructions, a loop of two that is taken 499,998 times, and then a load.
pub const LONG_STRETCH: &str =
    "lui x1, 0x80000\nlui x3, 122\naddi x3, x3, 286\nloop: addi x3, x3, -1\nbne x3, x0, loop\nlw x2, 0(x1)\necall";

/// The same with one more instruction.
pub const TOO_LONG_STRETCH: &str =
    "lui x1, 0x80000\naddi x0, x0, 0\nlui x3, 122\naddi x3, x3, 286\nloop: addi x3, x3, -1\nbne x3, x0, loop\n\
    lw x2, 0(x1)\necall";

/// Each adds 1 to the first word, and halts with the sum that it then reads.
pub const SEEN: &str =
    "lui x1, 0x80000\naddi x4, x0, 1\namoadd.w x5, x4, (x1)\nlw a0, 0(x1)\necall";

/// Each takes a ticket lock twice, and adds 1 inside it by a load and a store.
pub const TICKETS: &str =
    "lui x1, 0x80000\naddi x2, x0, 1\naddi x3, x0, 2\nagain: amoadd.w x4, x2, (x1)\nwait: lw x5, 4(x1)\n\
    bne x5, x4, wait\nlw x6, 8(x1)\naddi x6, x6, 1\nsw x6, 8(x1)\naddi x5, x5, 1\nsw x5, 4(x1)\naddi x3, x3, -1\n\
    bne x3, x0, again\necall";

/// Each calls a function that adds 1 to the first word, and returns to the address in its link register.
pub const CALL: &str =
    "lui x1, 0x80000\naddi x4, x0, 1\njal x6, add\naddi a7, x0, 0\necall\nadd: amoadd.w x5, x4, (x1)\njalr x0, 0(x6)";

/// Waits for a word that nobody writes.
pub const DEADLOCK: &str = "lui x1, 0x80000\nwait: lw x2, 0(x1)\nbeq x2, x0, wait\necall";

/// Prints a byte, and faults.
pub const PRINTED: &str = "addi a7, x0, 1\naddi a0, x0, 65\necall\nebreak";

// ---- processors that know their numbers

/// Each of two stores 1 into its own word, and halts with the other's: at least one of them sees a 1.
pub const NEIGHBOURS: &str =
    "addi a7, x0, 2\necall\nlui x1, 0x80000\nslli x2, a0, 2\nadd x3, x1, x2\naddi x4, x0, 1\nsw x4, 0(x3)\n\
    xori x2, x2, 4\nadd x3, x1, x2\nlw a0, 0(x3)\naddi a7, x0, 0\necall";

/// Processor 0 writes a word for which the others wait. Each halts with its number.
pub const SIGNAL: &str =
    "addi a7, x0, 2\necall\nlui x1, 0x80000\nbne a0, x0, wait\naddi x4, x0, 1\nsw x4, 0(x1)\nwait: lw x2, 0(x1)\n\
    beq x2, x0, wait\naddi a7, x0, 0\necall";

/// The same, but all halt with 0, so that the others forget their numbers.
pub const LEADER: &str =
    "addi a7, x0, 2\necall\nlui x1, 0x80000\nbne a0, x0, wait\naddi x4, x0, 1\nsw x4, 0(x1)\nwait: lw x2, 0(x1)\n\
    beq x2, x0, wait\naddi a7, x0, 0\naddi a0, x0, 0\necall";

/// Each waits for a word that only the other writes, and only after its own wait.
pub const DEADLY_EMBRACE: &str =
    "addi a7, x0, 2\necall\nlui x1, 0x80000\nslli x2, a0, 2\nadd x3, x1, x2\nxori x2, x2, 4\nadd x4, x1, x2\n\
    wait: lw x5, 0(x3)\nbeq x5, x0, wait\naddi x6, x0, 1\nsw x6, 0(x4)\necall";

/// Each of two raises its flag, and ends if the other's is down. Otherwise it lowers its own, and tries again.
pub const POLITE: &str =
    "addi a7, x0, 2\necall\nlui x1, 0x80000\nslli x2, a0, 2\nadd x3, x1, x2\nxori x2, x2, 4\nadd x4, x1, x2\n\
    addi x5, x0, 1\nagain: sw x5, 0(x3)\nlw x6, 0(x4)\nbeq x6, x0, enter\nsw x0, 0(x3)\njal x0, again\n\
    enter: sw x0, 0(x3)\naddi a7, x0, 0\necall";

/// Each adds 1 to the first word again and again.
pub const ADDS_ON: &str = "lui x1, 0x80000\nagain: amoadd.w x0, x0, (x1)\njal x0, again";

/// Each takes a lock by a swap, adds 1 inside it by a load and a store, and opens it.
pub const SWAP_LOCK: &str =
    "lui x1, 0x80000\naddi x2, x0, 1\nwait: amoswap.w x3, x2, (x1)\nbne x3, x0, wait\nlw x4, 4(x1)\n\
    addi x4, x4, 1\nsw x4, 4(x1)\nsw x0, 0(x1)\necall";

/// Processor 1 writes 1, and then 0 again, while the other waits for the 1, and may look too late.
pub const MISSED: &str =
    "addi a7, x0, 2\necall\nlui x1, 0x80000\nbeq a0, x0, wait\naddi x4, x0, 1\nsw x4, 0(x1)\nsw x0, 0(x1)\n\
    jal x0, done\nwait: lw x2, 0(x1)\nbeq x2, x0, wait\ndone: addi a7, x0, 0\necall";

/// Processors 62 and 63 add 1 to the first word by a load and a store. All others halt at once.
pub const LAST_TWO: &str =
    "addi a7, x0, 2\necall\naddi x5, x0, 62\nbltu a0, x5, done\nlui x1, 0x80000\nlw x2, 0(x1)\naddi x2, x2, 1\n\
    sw x2, 0(x1)\ndone: addi a7, x0, 0\naddi a0, x0, 0\necall";

/// Each keeps its number in its local memory, adds 1 to the first word, and halts with its number.
pub const KEPT: &str =
    "addi a7, x0, 2\necall\nlui x2, 0x20\nsw a0, 0(x2)\nlui x1, 0x80000\naddi x4, x0, 1\namoadd.w x5, x4, (x1)\n\
    lw a0, 0(x2)\naddi a7, x0, 0\necall";

/// Each halts at once, with the last bit of its number.
pub const SIDE: &str = "addi a7, x0, 2\necall\nandi a0, a0, 1\naddi a7, x0, 0\necall";

/// Each adds 1 to the first word, and only then asks for its number, with which it halts.
pub const ASKS_LATE: &str =
    "lui x1, 0x80000\naddi x4, x0, 1\namoadd.w x5, x4, (x1)\naddi a7, x0, 2\necall\naddi a7, x0, 0\necall";

/// The same, but only the second to add asks.
pub const SECOND_ASKS: &str =
    "lui x1, 0x80000\naddi x4, x0, 1\namoadd.w x5, x4, (x1)\nbne x5, x4, done\naddi a7, x0, 2\necall\n\
    done: addi a7, x0, 0\necall";

/// The same, but each asks how many processors there are, and all get the same answer.
pub const ASKS_HOW_MANY: &str =
    "lui x1, 0x80000\naddi x4, x0, 1\namoadd.w x5, x4, (x1)\naddi a7, x0, 3\necall\naddi a7, x0, 0\necall";

// ---- processors that draw numbers: the lowest three bits of a halt's byte have one, and the next three another

/// Each draws a number, and halts with it.
pub const DRAWS: &str =
    "lui x1, 0x80000\naddi x4, x0, 1\namoadd.w x5, x4, (x1)\nslli x6, x5, 3\nor a0, x5, x6\necall";

/// The same, but the greater the number, the smaller the byte.
pub const DRAWS_BACK: &str =
    "lui x1, 0x80000\naddi x4, x0, 1\namoadd.w x5, x4, (x1)\nslli x6, x5, 3\nor a0, x5, x6\nxori a0, a0, 63\necall";

/// Each draws two numbers.
pub const TWICE: &str =
    "lui x1, 0x80000\naddi x4, x0, 1\namoadd.w x5, x4, (x1)\namoadd.w x6, x4, (x1)\nslli x5, x5, 3\nor a0, x5, x6\n\
    ecall";

/// The same, but the greater the numbers, the smaller the byte.
pub const TWICE_BACK: &str =
    "lui x1, 0x80000\naddi x4, x0, 1\namoadd.w x5, x4, (x1)\namoadd.w x6, x4, (x1)\nslli x5, x5, 3\nor a0, x5, x6\n\
    xori a0, a0, 63\necall";

/// Each draws two numbers, and halts with the second. It reads the first only after it has the second, and then forgets
/// it.
pub const SECOND: &str =
    "lui x1, 0x80000\naddi x4, x0, 1\namoadd.w x5, x4, (x1)\namoadd.w x6, x4, (x1)\nand x5, x5, x0\n\
    or a0, x5, x6\necall";

/// Each draws a number, and halts with it and the last bit of its own number.
pub const SIDES: &str =
    "addi a7, x0, 2\necall\nandi x7, a0, 1\nslli x7, x7, 6\nlui x1, 0x80000\naddi x4, x0, 1\namoadd.w x5, x4, (x1)\n\
    slli x6, x5, 3\nor x6, x6, x5\nor a0, x6, x7\naddi a7, x0, 0\necall";

/// The same with the bit above that.
pub const HALVES: &str =
    "addi a7, x0, 2\necall\nsrli x7, a0, 1\nslli x7, x7, 6\nlui x1, 0x80000\naddi x4, x0, 1\namoadd.w x5, x4, (x1)\n\
    slli x6, x5, 3\nor x6, x6, x5\nor a0, x6, x7\naddi a7, x0, 0\necall";

// ---- what processors do with the number that they draw

/// The processor that draws 1 makes an unknown call at the address at which the others halt.
pub const UNKNOWN_CALL: &str =
    "lui x1, 0x80000\naddi x4, x0, 1\namoadd.w x5, x4, (x1)\nbne x5, x4, end\naddi a7, x0, 9\nend: ecall";

/// The processor that draws 1 stops by EBREAK, after the address at which the others halt.
pub const BREAK_BEHIND: &str =
    "lui x1, 0x80000\naddi x4, x0, 1\namoadd.w x5, x4, (x1)\nbeq x5, x4, bad\necall\nbad: ebreak";

/// The processor that draws 1 stops by EBREAK, before the address at which the others halt.
pub const BREAK_BEFORE: &str =
    "lui x1, 0x80000\naddi x4, x0, 1\namoadd.w x5, x4, (x1)\nbne x5, x4, fine\nebreak\nfine: ecall";

/// Each loads from an address in no region. Only that of the processor that draws 0 is aligned.
pub const NO_ADDRESS: &str =
    "lui x1, 0x80000\naddi x4, x0, 1\namoadd.w x5, x4, (x1)\nlw x6, 4(x5)\necall";

/// Each prints 128 minus the number that it draws.
pub const PRINTS: &str =
    "lui x1, 0x80000\naddi x4, x0, 1\namoadd.w x5, x4, (x1)\naddi x6, x0, 128\nsub a0, x6, x5\naddi a7, x0, 1\n\
    ecall\naddi a7, x0, 0\naddi a0, x0, 0\necall";

/// Each prints 3 minus the number that it draws, and halts with the number.
pub const PRINTS_AND_HALTS: &str =
    "lui x1, 0x80000\naddi x4, x0, 1\namoadd.w x5, x4, (x1)\naddi x6, x0, 3\nsub a0, x6, x5\naddi a7, x0, 1\necall\n\
    addi a7, x0, 0\naddi a0, x5, 0\necall";

/// Each prints a byte n times, where n is 3 minus the number that it draws.
pub const PRINTS_OFTEN: &str =
    "lui x1, 0x80000\naddi x4, x0, 1\namoadd.w x5, x4, (x1)\naddi x6, x0, 3\nsub x6, x6, x5\naddi a0, x0, 65\n\
    addi a7, x0, 1\nmore: beq x6, x0, end\necall\naddi x6, x6, -1\njal x0, more\nend: addi a7, x0, 0\n\
    addi a0, x0, 0\necall";

// ---- processors that spin: they take turns for ever without a reference

/// Jumps to itself.
pub const SPIN: &str = "spin: jal x0, spin";

/// Flips a bit of a register, and so returns to its state after four instructions.
pub const TURNS_OVER: &str = "loop: xori x3, x3, 1\njal x0, loop";

/// The same with a word of local memory.
pub const TURNS_OVER_LOCALLY: &str =
    "lui x2, 0x20\nloop: lw x3, 0(x2)\nxori x3, x3, 1\nsw x3, 0(x2)\njal x0, loop";

/// Takes 4,001 instructions before it spins.
pub const SPINS_LATE: &str =
    "addi x3, x0, 2000\nloop: addi x3, x3, -1\nbne x3, x0, loop\nspin: jal x0, spin";

/// Returns to its state only after 4,002 instructions.
pub const SPINS_WIDELY: &str =
    "again: addi x3, x0, 2000\nloop: addi x3, x3, -1\nbne x3, x0, loop\njal x0, again";

/// Counts for ever in a register, and does not return to any of its states within a million instructions.
pub const COUNTS_ON: &str = "loop: addi x3, x3, 1\njal x0, loop";

/// The same in local memory.
pub const COUNTS_ON_LOCALLY: &str =
    "lui x2, 0x20\nloop: lw x3, 0(x2)\naddi x3, x3, 1\nsw x3, 0(x2)\njal x0, loop";

/// Prints for ever.
pub const PRINTS_ON: &str = "addi a7, x0, 1\naddi a0, x0, 65\nagain: ecall\njal x0, again";

/// Counts down from 50,000 before it adds 1 to the first word: a little over 100,000 instructions.
pub const LOOPS: &str =
    "lui x1, 0x80000\naddi x4, x0, 1\nlui x3, 12\naddi x3, x3, 848\nloop: addi x3, x3, -1\nbne x3, x0, loop\n\
    amoadd.w x5, x4, (x1)\necall";

/// Each adds 1 to the first word, and then spins.
pub const DONE: &str = "lui x1, 0x80000\naddi x4, x0, 1\namoadd.w x5, x4, (x1)\ndone: jal x0, done";

/// Each adds 1 to the first word by a load and a store, and spins unless it has loaded 0.
pub const SPINS_IF_NOT_FIRST: &str =
    "lui x1, 0x80000\nlw x2, 0(x1)\naddi x3, x2, 1\nsw x3, 0(x1)\nspin: bne x2, x0, spin\necall";

/// Processor 0 writes 1, and then 0 again. The others look once, and spin if they see the 1.
pub const GLIMPSE: &str =
    "addi a7, x0, 2\necall\nlui x1, 0x80000\nbne a0, x0, look\naddi x4, x0, 1\nsw x4, 0(x1)\nsw x0, 0(x1)\n\
    jal x0, done\nlook: lw x2, 0(x1)\nspin: bne x2, x0, spin\ndone: addi a7, x0, 0\naddi a0, x0, 0\necall";

/// Processor 0 spins, and the others add 1 to the first word.
pub const FIRST_SPINS: &str =
    "addi a7, x0, 2\necall\nspin: beq a0, x0, spin\nlui x1, 0x80000\naddi x4, x0, 1\namoadd.w x5, x4, (x1)\n\
    addi a7, x0, 0\naddi a0, x0, 0\necall";

/// Asks for its number for ever.
pub const ASKS_ON: &str = "addi a7, x0, 2\nagain: ecall\njal x0, again";

/// The same after a reference.
pub const ASKS_ON_LATE: &str =
    "lui x1, 0x80000\naddi x4, x0, 1\namoadd.w x5, x4, (x1)\naddi a7, x0, 2\nagain: ecall\njal x0, again";
