//! `run FILE` and its options.

/// The settings of `run` without options.
pub const PLAIN: &str =
    "Run(Run { file: \"a.elf\", trace: None, sweep: false, no_log: false, unfinished: false, quiet: false, \
    style: LineStyle { symbols: None, decimal: false, json: false }, \
    sizes: Sizes { k: 2, c: 4, b: 4, r: 1, words: 1024 }, budget: 10000000, start: 1 })";

/// Command lines that change one setting: the part of `PLAIN` that changes, and what replaces it.
pub static CHANGED: [(&str, &str, &str); 30] = [
    ("run --k 0 a.elf", "k: 2", "k: 0"),
    ("run a.elf --k 6", "k: 2", "k: 6"),
    ("run --k=3 a.elf", "k: 2", "k: 3"),
    ("run a.elf --k=+5", "k: 2", "k: 5"),
    ("run a.elf --k=-0", "k: 2", "k: 0"),
    ("run --c 2 a.elf", "c: 4", "c: 2"),
    ("run a.elf --c=16", "c: 4", "c: 16"),
    ("run --b 0 a.elf", "b: 4", "b: 0"),
    ("run a.elf --b 0016", "b: 4", "b: 16"),
    ("run --words 1 a.elf", "words: 1024", "words: 1"),
    ("run a.elf --words 262144", "words: 1024", "words: 262144"),
    ("run --budget 1 a.elf", "budget: 10000000", "budget: 1"),
    (
        "run a.elf --budget=4294967295",
        "budget: 10000000",
        "budget: 4294967295",
    ),
    ("run --start 0 a.elf", "start: 1", "start: 0"),
    (
        "run a.elf --start 4294967295",
        "start: 1",
        "start: 4294967295",
    ),
    ("run --sweep a.elf", "sweep: false", "sweep: true"),
    ("run a.elf --sweep", "sweep: false", "sweep: true"),
    ("run --no-log a.elf", "no_log: false", "no_log: true"),
    (
        "run --unfinished a.elf",
        "unfinished: false",
        "unfinished: true",
    ),
    ("run --quiet a.elf", "quiet: false", "quiet: true"),
    ("run --json a.elf", "json: false", "json: true"),
    ("run a.elf --decimal", "decimal: false", "decimal: true"),
    (
        "run --symbols a.elf a.elf",
        "symbols: None",
        r#"symbols: Some("a.elf")"#,
    ),
    (
        "run a.elf --symbols=names.txt",
        "symbols: None",
        r#"symbols: Some("names.txt")"#,
    ),
    (
        "run --symbols - a.elf",
        "symbols: None",
        r#"symbols: Some("-")"#,
    ),
    ("run --trace t a.elf", "trace: None", r#"trace: Some("t")"#),
    ("run a.elf --trace=t", "trace: None", r#"trace: Some("t")"#),
    (
        "run a.elf --trace=--t",
        "trace: None",
        r#"trace: Some("--t")"#,
    ),
    (
        "run --trace sweep a.elf",
        "trace: None",
        r#"trace: Some("sweep")"#,
    ),
    ("run -- --sweep", r#"file: "a.elf""#, r#"file: "--sweep""#),
];

/// Further ways to ask for `run`.
pub const TAKEN: &str = "\
$ ultra run a.elf
Run(Run { file: \"a.elf\", trace: None, sweep: false, no_log: false, unfinished: false, quiet: false, \
    style: LineStyle { symbols: None, decimal: false, json: false }, \
sizes: Sizes { k: 2, c: 4, b: 4, r: 1, words: 1024 }, budget: 10000000, start: 1 })
$ ultra run --r 1 a.elf
Run(Run { file: \"a.elf\", trace: None, sweep: false, no_log: false, unfinished: false, quiet: false, \
    style: LineStyle { symbols: None, decimal: false, json: false }, \
sizes: Sizes { k: 2, c: 4, b: 4, r: 1, words: 1024 }, budget: 10000000, start: 1 })
$ ultra run a.elf --r=3 --c 3
Run(Run { file: \"a.elf\", trace: None, sweep: false, no_log: false, unfinished: false, quiet: false, \
    style: LineStyle { symbols: None, decimal: false, json: false }, \
sizes: Sizes { k: 2, c: 3, b: 4, r: 3, words: 1024 }, budget: 10000000, start: 1 })
$ ultra run a.elf --quiet --sweep
Run(Run { file: \"a.elf\", trace: None, sweep: true, no_log: false, unfinished: false, quiet: true, \
    style: LineStyle { symbols: None, decimal: false, json: false }, \
sizes: Sizes { k: 2, c: 4, b: 4, r: 1, words: 1024 }, budget: 10000000, start: 1 })
$ ultra run --no-log --sweep a.elf
Run(Run { file: \"a.elf\", trace: None, sweep: true, no_log: true, unfinished: false, quiet: false, \
    style: LineStyle { symbols: None, decimal: false, json: false }, \
sizes: Sizes { k: 2, c: 4, b: 4, r: 1, words: 1024 }, budget: 10000000, start: 1 })
$ ultra run --k 3 -- --a
Run(Run { file: \"--a\", trace: None, sweep: false, no_log: false, unfinished: false, quiet: false, \
    style: LineStyle { symbols: None, decimal: false, json: false }, \
sizes: Sizes { k: 3, c: 4, b: 4, r: 1, words: 1024 }, budget: 10000000, start: 1 })
$ ultra run --k 1 --c 2 --b 3 --r 2 a.elf --words 4 --budget 5 --start 6 --sweep --trace 7
Run(Run { file: \"a.elf\", trace: Some(\"7\"), sweep: true, no_log: false, unfinished: false, quiet: false, \
    style: LineStyle { symbols: None, decimal: false, json: false }, \
sizes: Sizes { k: 1, c: 2, b: 3, r: 2, words: 4 }, budget: 5, start: 6 })
$ ultra run --trace 7 --start 6 --budget 5 --words 4 --r 2 --b 3 --c 2 --k 1 --sweep a.elf
Run(Run { file: \"a.elf\", trace: Some(\"7\"), sweep: true, no_log: false, unfinished: false, quiet: false, \
    style: LineStyle { symbols: None, decimal: false, json: false }, \
sizes: Sizes { k: 1, c: 2, b: 3, r: 2, words: 4 }, budget: 5, start: 6 })
";

/// Wrong command lines, with their errors.
pub const REFUSED: &str = "\
$ ultra run --start 99999999999999999999 a.elf
ValueValidation
error: invalid value '99999999999999999999' for '--start <NUMBER>': number too large to fit in target type
$ ultra run --k= a.elf
ValueValidation
for '--k <NUMBER>': cannot parse integer from empty string
$ ultra run a.elf --sweep --nolog
UnknownArgument
error: unexpected argument '--nolog' found
$ ultra run a.elf --sweep=true
TooManyValues
error: unexpected value 'true' for '--sweep' found; no more were expected
$ ultra run --sweep
MissingRequiredArgument
error: the following required arguments were not provided:
  <FILE>
";

/// Parts of the help.
pub const HELP: &str = "\
$ ultra run --help
DisplayHelp
Usage: ultra run [OPTIONS] <FILE>
$ ultra help run
DisplayHelp
Run an image on a machine of up to 64 processors and print its report
$ ultra run --help
DisplayHelp
--trace <OUT>      Where to write the steps of the run, for `ultra replay`;\
$ ultra run --help
DisplayHelp
--symbols <FILE>   Print names beside addresses and words, from the symbol table of an ELF file or from what `nm` prints;\
$ ultra run --help
DisplayHelp
--k <NUMBER>       Stages of the network, 0 to 6; the machine has 2^k processors and 2^k memory modules [default: 2]
$ ultra run --help
DisplayHelp
--c <NUMBER>       Messages that a queue of a switch holds, 2 to 16 [default: 4]
$ ultra run --help
DisplayHelp
, 0 to 16; with 0 nothing is combined [default: 4]
$ ultra run --help
DisplayHelp
, 1 to 3, and fewer than --c [default: 1]
$ ultra run --help
DisplayHelp
--words <NUMBER>   Shared words of four bytes that the machine has, 1 to 262144 [default: 1024]
$ ultra run --help
DisplayHelp
Rounds that each thread may go through, or steps that the sweep may take,\
$ ultra run --help
DisplayHelp
, 0 to 4294967295; the sweep makes none [default: 1]
$ ultra run --help
DisplayHelp
Each processor runs on a thread of its own until it stops.\
$ ultra run --help
DisplayHelp
`processor P pc VVVVVVVV STATUS retired N console HEX`\
$ ultra run --help
DisplayHelp
Exit status: 0 done, 1 a fault stopped a processor, 2 a refused image or command line,\
$ ultra run --help --k 9
DisplayHelp
Usage: ultra run [OPTIONS] <FILE>
";
