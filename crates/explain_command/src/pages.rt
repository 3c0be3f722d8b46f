//! Pages of help.

use crate::topic::Topic;

/// What a program can ask for, and what it observes.
pub(crate) const PAGES: &[Topic] = &[
    Topic {
        name: "calls",
        meaning: "the environment calls of a program, with their registers",
        advice: "\
An `ecall` does what register a7 (x17) says. It takes or gives its value in a0 (x10), and changes no
other register.

    a7   what it does                                        a0
    0    halts the processor, which the report shows as      its low byte is taken
         `halt HH`
    1    sends a byte to the processor's console, which      its low byte is taken
         the report shows after `console`
    2    gives the processor's own number, from 0            becomes the number
    3    gives how many processors the machine has, 2^k      becomes the number

Any other number stops the processor by fault 7.

    addi a7, x0, 2          # which processor is this?
    ecall
    addi a7, x0, 0          # halt with that number
    ecall
",
    },
    Topic {
        name: "memory-map",
        meaning: "the regions of memory, with their addresses",
        advice: "\
What a processor sees:

    0x00010000 to 0x0001ffff   code: all processors share it, and none can store to it
    0x00020000 to 0x0002ffff   local memory: each processor has its own
    0x80000000 and on          shared memory: by default 1,024 words of four bytes, up to 0x80000fff;
                               with `--words` up to 262,144, up to 0x800fffff

Any other address stops the processor by fault 5, and a store to code by fault 6. An assembler text
places bytes by `.code`, `.local` and `.shared`. At the start each processor has the same bytes in its
local memory, and what the image does not place is 0. All registers are 0, and pc is at the image's
entry.
",
    },
];
