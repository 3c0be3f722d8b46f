//! The numbers of the faults that stop a processor.

use crate::topic::Topic;

/// The faults by their numbers, as in `fault 4` of a report. The exit status of such a run is 1.
pub(crate) const FAULTS: &[Topic] = &[
    Topic {
        name: "1",
        meaning: "the word at pc is no instruction",
        advice: "\
The processor stops at that word, and changes nothing else.

Usual causes: a program that runs past its end, into words that are 0; a jump into data; an
instruction of a missing extension, such as a compressed one; `lr.w` or `sc.w`.

This machine has no `lr.w` and no `sc.w`. Its switches combine references that each do one thing to
one word, as `amoadd.w` does. A reservation needs two, with nothing between them, and cannot be
combined. Write one of these instead, of which each is one step:

    amoadd.w rd, rs2, (rs1)     # fetch-and-add: a ticket, a counter, an index that nobody else gets
    amoswap.w rd, rs2, (rs1)    # swap: a lock is free if the old word is 0; the head of a list
    amoand.w, amoor.w, amoxor.w # clear, set and turn bits
    amomin.w, amomax.w, amominu.w, amomaxu.w

In C: compilers make `lr.w` and `sc.w` of compare-and-swap (`__atomic_compare_exchange`, C11's
`atomic_compare_exchange_strong`), of `__atomic_fetch_nand` and of atomic operations on bytes and
halfwords (`atomic_flag`). Use `fetch_and_add`, `fetch_and_store` and the others of
examples/c/ultra.h, or `__atomic_fetch_add`, `_sub`, `_and`, `_or`, `_xor` and `__atomic_exchange_n`
on an int. No `-mno-` option leaves out `lr.w` and `sc.w` alone. With `-march=rv32im` the compiler
calls functions such as `__atomic_fetch_add_4`, which no library here has. `__builtin_trap` is fault 1
too if clang compiles it.

What to do: end each path through the program with environment call 0, and look at the word at pc.
With `--comments` a word that is `lr.w` or `sc.w` has its name after it:

    ultra dis --comments program.elf
",
    },
    Topic {
        name: "2",
        meaning: "pc is outside code",
        advice: "\
Code is from 0x00010000 to 0x0001ffff. The processor stops before it takes its next instruction, so pc
is where it went.

Usual causes: `jalr` by a register that was never set, or that a function did not save, such as `ra`;
a jump to a label of `.local` or `.shared`; the end of code without environment call 0.

In C: a call by a function pointer that is null (pc is then 0) or was overwritten; a return after an
array on the stack was written past its end, over the return address.

What to do: find what led to that pc, and save `ra` in each function that calls another.
",
    },
    Topic {
        name: "3",
        meaning: "a jump or a taken branch goes to an address that is not divisible by 4",
        advice: "\
The processor stops at the jump, and writes no return address.

Usual causes: a number as a target, such as `jal x0, 2`; `jalr` by a wrong address.

In C: a call by a function pointer that does not hold the address of a function, or a return to an
address that was overwritten.

What to do: name targets by labels, and multiply an index into code by 4.
",
    },
    Topic {
        name: "4",
        meaning: "a load, a store or a fetch-and-phi at an address that its size does not divide",
        advice: "\
The processor stops at the instruction, and changes nothing else. A word is at an address divisible
by 4, half a word at an even one.

Usual causes: an index into an array without the factor 4; a word after bytes; a pointer in `.byte`s.

In C: a pointer to chars that is cast to a pointer to ints, as `*(int *)(buffer + 1)`; a pointer to a
member of a packed struct. `memcpy` copies from and to any address.

What to do: multiply the index by 4, and pad bytes with `.zero`.

    slli t0, t0, 2          # from the index of a word to its distance
",
    },
    Topic {
        name: "5",
        meaning: "an address is in no region",
        advice: "\
The processor stops at the instruction, and changes nothing else.

Usual causes: an index past the shared words, of which there are 1,024 by default (`--words`); `%lo`
without `%hi`; a base register that was never set, so that the address is near 0.

In C: a null pointer, also to a member of a struct; a pointer that was never set; an index far past
the end of an array. Nothing is at address 0.

What to do: give the machine more words, or check the base. `ultra explain memory-map` shows the
regions.

    ultra run --words 4096 program.elf
",
    },
    Topic {
        name: "6",
        meaning: "a store or a fetch-and-phi to code",
        advice: "\
The processor stops at the instruction, and changes nothing else. Code can be read, and no program
changes it.

Usual causes: a variable after the instructions, without a section of its own.

In C: a stack that overflows, by deep recursion or a large local array: the stack is first in local
memory, just above the code, and grows down. Give it more, as in `make program.elf STACK_SIZE=8192`.
Or a write to a constant, such as a string literal, by a pointer from which a cast took `const`.

What to do: put `.local` before the data of each processor, and `.shared` before what all share.

    .shared
    sum: .word 0
",
    },
    Topic {
        name: "7",
        meaning: "an environment call that does not exist",
        advice: "\
The processor stops at the `ecall`, and changes nothing else.

Usual causes: a call of another system in a7; an a7 that was set for one call, and overwritten since.

In C: `environment_call` of examples/c/ultra.h with another number than 0 to 3, or a C library that
was built for an operating system.

What to do: set a7 right before each `ecall`. `ultra explain calls` lists the calls.

    addi a7, x0, 0          # halt
    ecall
",
    },
    Topic {
        name: "8",
        meaning: "the program reached an ebreak",
        advice: "\
The processor stops there, and changes nothing else.

Usual causes: a failed check of the program itself, if it goes to an `ebreak` as the examples do.

In C: `fail` of examples/c/ultra.h; `__builtin_trap` if GCC compiles it. A division by 0 is no fault:
its quotient is -1 or 2^32 - 1, and its remainder is the dividend.

What to do: find the check by the report's pc:

    ultra dis program.elf
",
    },
];
