//! The errors with which `ultra debug` answers a debugger's lines.

use crate::topic::Topic;

/// The replies of `ultra debug` to a line that it refuses. Each leaves the machine as it was.
pub(crate) const REPLIES: &[Topic] = &[
    Topic {
        name: "E01",
        meaning: "a line is no command, or has more than 1,024 bytes",
        advice: "\
`ultra debug` answers a line with it, and changes nothing.

Usual causes: two spaces between words, or one at an end; a carriage return before the line feed;
`0x` before a number, or more than eight digits; a length of `mem` that is 0 or over 200; an odd
number of digits for `write`.

What to do: write one space between words, and numbers in hex without `0x`. `ultra help debug` lists
the commands.
",
    },
    Topic {
        name: "E02",
        meaning: "an address is in no region, or may not be written, or is not in code",
        advice: "\
`ultra debug` answers a line with it, and changes nothing.

Usual causes: an address past the shared words, of which there are 1,024 by default (`--words`);
`write` to code; a `pc` or a break that is not divisible by 4, or a break outside code.

What to do: look at the regions:

    ultra explain memory-map
",
    },
    Topic {
        name: "E03",
        meaning: "no processor has this number",
        advice: "\
`ultra debug` answers a line with it, and changes nothing.

Usual causes: a decimal number: numbers are hex, and processor 10 is `a`; a machine of fewer
processors than expected, which are 2^k.

What to do: ask for a larger machine, or write the number in hex.

    ultra debug --k 4 program.elf
",
    },
    Topic {
        name: "E04",
        meaning: "no register has this number",
        advice: "\
`ultra debug` answers `reg` and `set` with it, and changes nothing.

Usual causes: a decimal number: numbers are hex, x31 is `1f`, and `20` is pc.

What to do: write registers as `0` to `1f`, and pc as `20`.
",
    },
    Topic {
        name: "E05",
        meaning: "the log has no room for the steps of a command",
        advice: "\
`ultra debug` answers `set`, `write`, `step` and `cont` with it, and changes nothing. A log holds
4,194,304 steps, and a command first asks for room for all of its steps: `cont` for the `--budget` and
the steps of a drain.

Usual causes: many long runs in one session.

What to do: begin a new session, or one with a smaller `--budget`.
",
    },
    Topic {
        name: "E06",
        meaning: "out of memory for the steps of a command",
        advice: "\
`ultra debug` answers `set`, `write`, `step` and `cont` with it, and changes nothing.

Usual causes: a limit on the process, such as `ulimit -v`.

What to do: raise the limit, or give a smaller `--budget`.
",
    },
];
