//! `order TRACE FILE` and its options, and `story`, which takes the same, but `--network` and `--rounds` in place of
//! `--abi`.

/// Ways to ask for `order` and `story`.
pub const TAKEN: &str = "\
$ ultra order a.trace a.elf
Order(Order { lines: Lines { replay: Replay { trace: \"a.trace\", file: \"a.elf\", words: 1024 }, \
    processor: None, word: None, from: None, to: None, style: LineStyle { symbols: None, decimal: false, json: false } }, abi: false })
$ ultra order --processor 0 a.trace a.elf
Order(Order { lines: Lines { replay: Replay { trace: \"a.trace\", file: \"a.elf\", words: 1024 }, \
    processor: Some(0), word: None, from: None, to: None, style: LineStyle { symbols: None, decimal: false, json: false } }, abi: false })
$ ultra order a.trace --processor=63 a.elf
Order(Order { lines: Lines { replay: Replay { trace: \"a.trace\", file: \"a.elf\", words: 1024 }, \
    processor: Some(63), word: None, from: None, to: None, style: LineStyle { symbols: None, decimal: false, json: false } }, abi: false })
$ ultra order a.trace a.elf --word 0
Order(Order { lines: Lines { replay: Replay { trace: \"a.trace\", file: \"a.elf\", words: 1024 }, \
    processor: None, word: Some(0), from: None, to: None, style: LineStyle { symbols: None, decimal: false, json: false } }, abi: false })
$ ultra order a.trace a.elf --word=262143 --words 7 --processor +5
Order(Order { lines: Lines { replay: Replay { trace: \"a.trace\", file: \"a.elf\", words: 7 }, \
    processor: Some(5), word: Some(262143), from: None, to: None, style: LineStyle { symbols: None, decimal: false, json: false } }, abi: false })
$ ultra order --processor=-0 a.trace a.elf --json
Order(Order { lines: Lines { replay: Replay { trace: \"a.trace\", file: \"a.elf\", words: 1024 }, \
    processor: Some(0), word: None, from: None, to: None, style: LineStyle { symbols: None, decimal: false, json: true } }, abi: false })
$ ultra order a.trace a.elf --from 3 --to=4294967295
Order(Order { lines: Lines { replay: Replay { trace: \"a.trace\", file: \"a.elf\", words: 1024 }, \
    processor: None, word: None, from: Some(3), to: Some(4294967295), style: LineStyle { symbols: None, decimal: false, json: false } }, abi: false })
$ ultra order --abi a.trace a.elf --symbols a.elf
Order(Order { lines: Lines { replay: Replay { trace: \"a.trace\", file: \"a.elf\", words: 1024 }, \
    processor: None, word: None, from: None, to: None, style: LineStyle { symbols: Some(\"a.elf\"), decimal: false, json: false } }, abi: true })
$ ultra story a.trace a.elf
Story(Story { lines: Lines { replay: Replay { trace: \"a.trace\", file: \"a.elf\", words: 1024 }, \
    processor: None, word: None, from: None, to: None, style: LineStyle { symbols: None, decimal: false, json: false } }, \
    network: false, rounds: false })
$ ultra story --symbols=names.txt a.trace a.elf
Story(Story { lines: Lines { replay: Replay { trace: \"a.trace\", file: \"a.elf\", words: 1024 }, \
    processor: None, word: None, from: None, to: None, style: LineStyle { symbols: Some(\"names.txt\"), decimal: false, json: false } }, \
    network: false, rounds: false })
$ ultra story --processor 1 --word 2 --from 0 a.trace a.elf --to 5 --words 7 --json
Story(Story { lines: Lines { replay: Replay { trace: \"a.trace\", file: \"a.elf\", words: 7 }, \
    processor: Some(1), word: Some(2), from: Some(0), to: Some(5), style: LineStyle { symbols: None, decimal: false, json: true } }, \
    network: false, rounds: false })
$ ultra story a.trace --rounds a.elf
Story(Story { lines: Lines { replay: Replay { trace: \"a.trace\", file: \"a.elf\", words: 1024 }, \
    processor: None, word: None, from: None, to: None, style: LineStyle { symbols: None, decimal: false, json: false } }, \
    network: false, rounds: true })
$ ultra story --network a.trace a.elf
Story(Story { lines: Lines { replay: Replay { trace: \"a.trace\", file: \"a.elf\", words: 1024 }, \
    processor: None, word: None, from: None, to: None, style: LineStyle { symbols: None, decimal: false, json: false } }, \
    network: true, rounds: false })
$ ultra story --decimal a.trace a.elf
Story(Story { lines: Lines { replay: Replay { trace: \"a.trace\", file: \"a.elf\", words: 1024 }, \
    processor: None, word: None, from: None, to: None, style: LineStyle { symbols: None, decimal: true, json: false } }, \
    network: false, rounds: false })
";

/// Parts of the help.
pub const HELP: &str = "\
$ ultra order --help
DisplayHelp
Usage: ultra order [OPTIONS] <TRACE> <FILE>
$ ultra help order
DisplayHelp
Print the serial order of whole instructions that explains the run of a trace
$ ultra order --help
DisplayHelp
--processor <NUMBER>  Print the lines of this processor alone, 0 to 63
$ ultra order --help
DisplayHelp
--word <NUMBER>       Print the lines about this shared word alone, 0 to 262143
$ ultra order --help
DisplayHelp
--abi                 Write registers by their ABI names, and the target of a jump or branch as an address;\
$ ultra order --help
DisplayHelp
--decimal             Print values in decimal, in two's complement; not with --json
$ ultra story --help
DisplayHelp
--from <NUMBER>       Print no line before the line of this number, 0 to 4294967295
$ ultra story --help
DisplayHelp
--network             Print only what the network does: moves of messages, and services
$ ultra story --help
DisplayHelp
--rounds              Print `round N` before the first printed step of each round of the sweep
$ ultra story --help
DisplayHelp
--to <NUMBER>         Print no line after the line of this number, 0 to 4294967295
$ ultra order --help
DisplayHelp
Exit status: 0 done, 1 a fault stopped a processor, 2 a refused trace, image or command line, 3 a\
";
