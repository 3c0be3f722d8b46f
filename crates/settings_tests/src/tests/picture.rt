//! `picture TRACE FILE` and its options.

/// Ways to ask for `picture`.
pub const TAKEN: &str = r#"$ ultra picture a.trace a.elf
Picture(Picture { replay: Replay { trace: "a.trace", file: "a.elf", words: 1024 }, step: None, symbols: None })
$ ultra picture a.trace a.elf --step 0
Picture(Picture { replay: Replay { trace: "a.trace", file: "a.elf", words: 1024 }, step: Some(0), symbols: None })
$ ultra picture --step=4294967295 a.trace --words 7 a.elf
Picture(Picture { replay: Replay { trace: "a.trace", file: "a.elf", words: 7 }, step: Some(4294967295), symbols: None })
$ ultra picture a.trace --symbols=names.txt a.elf
Picture(Picture { replay: Replay { trace: "a.trace", file: "a.elf", words: 1024 }, step: None, symbols: Some("names.txt") })
"#;

/// Wrong command lines with their errors, and parts of the help.
pub const REFUSED: &str = "\
$ ultra picture a.trace a.elf --step 4294967296
ValueValidation
error: invalid value '4294967296' for '--step <NUMBER>'\
$ ultra picture --help
DisplayHelp
Usage: ultra picture [OPTIONS] <TRACE> <FILE>
$ ultra help picture
DisplayHelp
Draw the machine after some steps of a trace, as an SVG
$ ultra picture --help
DisplayHelp
--step <NUMBER>   Draw the machine after this many steps, 0 to 4294967295 [default: after all]
$ ultra picture --help
DisplayHelp
--symbols <FILE>  Draw names in place of addresses and words, from the symbol table of an ELF file or from what `nm` prints
$ ultra picture --help
DisplayHelp
Exit status: 0 done, 1 a fault has stopped a processor of the machine drawn,\
";
