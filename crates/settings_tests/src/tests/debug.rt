//! `debug FILE` and its options.

/// Ways to ask for `debug`.
pub const TAKEN: &str = r#"$ ultra debug a.elf
Debug(Session { file: "a.elf", trace: None, stdio: false, sizes: Sizes { k: 2, c: 4, b: 4, r: 1, words: 1024 }, budget: 100000, port: 3333 })
$ ultra debug --port 1 a.elf --trace late.trace --budget 4000000
Debug(Session { file: "a.elf", trace: Some("late.trace"), stdio: false, sizes: Sizes { k: 2, c: 4, b: 4, r: 1, words: 1024 }, budget: 4000000, port: 1 })
$ ultra debug --stdio a.elf --port 0
Debug(Session { file: "a.elf", trace: None, stdio: true, sizes: Sizes { k: 2, c: 4, b: 4, r: 1, words: 1024 }, budget: 100000, port: 0 })
$ ultra debug a.elf --port=65535 --k 0 --c 16 --b 0 --r 2 --words 262144 --budget 1
Debug(Session { file: "a.elf", trace: None, stdio: false, sizes: Sizes { k: 0, c: 16, b: 0, r: 2, words: 262144 }, budget: 1, port: 65535 })
"#;

/// Parts of the help.
pub const HELP: &str = "\
$ ultra debug --help
DisplayHelp
Usage: ultra debug [OPTIONS] <FILE>
$ ultra help debug
DisplayHelp
--port <NUMBER>    Port of 127.0.0.1 for the debugger, 0 to 65535; with 0 the host chooses a free one [default: 3333]
$ ultra debug --help
DisplayHelp
--trace <OUT>      Where to write the steps of the session, for `ultra replay`; opened after the session is over
$ ultra debug --help
DisplayHelp
--budget <NUMBER>  Steps that one `cont` may take, 1 to 4000000 [default: 100000]
$ ultra debug --help
DisplayHelp
Exit status: 0 done, 1 a fault had stopped a processor at the end, 2 a refused image or command line,\
";
