//! `page TRACE FILE` and its options.

/// Ways to ask for `page`.
pub const TAKEN: &str = r#"$ ultra page a.trace a.elf
Page(Page { replay: Replay { trace: "a.trace", file: "a.elf", words: 1024 }, from: None, steps: None, symbols: None })
$ ultra page --words=7 a.trace -
Page(Page { replay: Replay { trace: "a.trace", file: "-", words: 7 }, from: None, steps: None, symbols: None })
$ ultra page --from 0 --steps=500000 a.trace a.elf
Page(Page { replay: Replay { trace: "a.trace", file: "a.elf", words: 1024 }, from: Some(0), steps: Some(500000), symbols: None })
$ ultra page --steps 1 a.trace a.elf --from=4294967295 --symbols a.map
Page(Page { replay: Replay { trace: "a.trace", file: "a.elf", words: 1024 }, from: Some(4294967295), steps: Some(1), symbols: Some("a.map") })
"#;

/// Wrong command lines with their errors, and parts of the help.
pub const HELP: &str = "\
$ ultra page a.trace a.elf --steps 0
ValueValidation
error: invalid value '0' for '--steps <NUMBER>'\
$ ultra page a.trace a.elf --steps 500001
ValueValidation
error: invalid value '500001' for '--steps <NUMBER>'\
$ ultra page a.trace a.elf --from 4294967296
ValueValidation
error: invalid value '4294967296' for '--from <NUMBER>'\
$ ultra page --help
DisplayHelp
Usage: ultra page [OPTIONS] <TRACE> <FILE>
$ ultra help page
DisplayHelp
Write a page for a browser that plays the steps of a trace
$ ultra page --help
DisplayHelp
`FILE.html#step=43` opens at step 43.
$ ultra page --help
DisplayHelp
--from <NUMBER>   Begin with the step of this number, 0 to 4294967295 [default: 0]
";
