//! `replay TRACE FILE`, `stats TRACE FILE` and their options.

/// Ways to ask for `replay` and `stats`.
pub const TAKEN: &str = r#"$ ultra replay a.trace a.elf
Replay(Report { replay: Replay { trace: "a.trace", file: "a.elf", words: 1024 }, style: LineStyle { symbols: None, decimal: false, json: false } })
$ ultra replay --words 1 a.trace a.elf
Replay(Report { replay: Replay { trace: "a.trace", file: "a.elf", words: 1 }, style: LineStyle { symbols: None, decimal: false, json: false } })
$ ultra replay a.trace --words=262144 a.elf
Replay(Report { replay: Replay { trace: "a.trace", file: "a.elf", words: 262144 }, style: LineStyle { symbols: None, decimal: false, json: false } })
$ ultra replay a.trace a.elf --words 64
Replay(Report { replay: Replay { trace: "a.trace", file: "a.elf", words: 64 }, style: LineStyle { symbols: None, decimal: false, json: false } })
$ ultra replay a.elf a.trace
Replay(Report { replay: Replay { trace: "a.elf", file: "a.trace", words: 1024 }, style: LineStyle { symbols: None, decimal: false, json: false } })
$ ultra replay -- --words 1
Replay(Report { replay: Replay { trace: "--words", file: "1", words: 1024 }, style: LineStyle { symbols: None, decimal: false, json: false } })
$ ultra replay --symbols names.txt a.trace a.elf
Replay(Report { replay: Replay { trace: "a.trace", file: "a.elf", words: 1024 }, style: LineStyle { symbols: Some("names.txt"), decimal: false, json: false } })
$ ultra stats a.trace a.elf
Stats(Counts { replay: Replay { trace: "a.trace", file: "a.elf", words: 1024 }, latency: false, queues: false, csv: false, json: false })
$ ultra stats --words=8 a.trace --json a.elf
Stats(Counts { replay: Replay { trace: "a.trace", file: "a.elf", words: 8 }, latency: false, queues: false, csv: false, json: true })
$ ultra stats a.trace a.elf --csv
Stats(Counts { replay: Replay { trace: "a.trace", file: "a.elf", words: 1024 }, latency: false, queues: false, csv: true, json: false })
$ ultra stats --latency a.trace a.elf --csv
Stats(Counts { replay: Replay { trace: "a.trace", file: "a.elf", words: 1024 }, latency: true, queues: false, csv: true, json: false })
$ ultra stats a.trace --queues a.elf
Stats(Counts { replay: Replay { trace: "a.trace", file: "a.elf", words: 1024 }, latency: false, queues: true, csv: false, json: false })
"#;

/// Parts of the help.
pub const HELP: &str = "\
$ ultra replay --help
DisplayHelp
Usage: ultra replay [OPTIONS] <TRACE> <FILE>
$ ultra help replay
DisplayHelp
<TRACE>  A trace, as `ultra run --trace` writes it
$ ultra replay --help
DisplayHelp
--words <NUMBER>  Shared words of four bytes that the machine has, 1 to 262144 [default: 1024]
$ ultra stats --help
DisplayHelp
--csv             Print the counts as CSV, a row for each number;\
$ ultra stats --help
DisplayHelp
--latency         Print how many rounds of the sweep references took:\
$ ultra stats --help
DisplayHelp
--queues          Print how much waits at each stage at the end of each round\
$ ultra replay --help
DisplayHelp
`ultra: X1` TRACE is cut short\
$ ultra replay --help
DisplayHelp
Exit status: 0 done, 1 a fault stopped a processor, 2 a refused trace, image or command line,\
";
