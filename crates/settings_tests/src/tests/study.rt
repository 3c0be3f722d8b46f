//! `study FILE` and its options.

/// Ways to ask for `study`.
pub const TAKEN: &str = "\
$ ultra study a.elf
Study(Study { file: \"a.elf\", ks: None, bs: None, rs: None, plot: None, csv: false, json: false, \
    c: 4, words: 1024, budget: 4000000 })
$ ultra study a.elf --k 0..6 --b=0,4 --r 1 --csv
Study(Study { file: \"a.elf\", ks: Some(\"0..6\"), bs: Some(\"0,4\"), rs: Some(\"1\"), plot: None, csv: true, json: false, \
    c: 4, words: 1024, budget: 4000000 })
$ ultra study --plot steps a.elf --c 16 --words 7 --budget 1
Study(Study { file: \"a.elf\", ks: None, bs: None, rs: None, plot: Some(\"steps\"), csv: false, json: false, \
    c: 16, words: 7, budget: 1 })
$ ultra study --k none --json a.elf
Study(Study { file: \"a.elf\", ks: Some(\"none\"), bs: None, rs: None, plot: None, csv: false, json: true, \
    c: 4, words: 1024, budget: 4000000 })
";

/// Parts of the help, and a wrong number.
pub const HELP: &str = "\
$ ultra study --help
DisplayHelp
Usage: ultra study [OPTIONS] <FILE>
$ ultra help study
DisplayHelp
--k <LIST>         Stages of the networks, numbers and ranges from 0 to 6 that ascend, as `0..3,6` [default: 0..6]
$ ultra study --help
DisplayHelp
--plot <COLUMN>    Draw the numbers of this column by processors,\
$ ultra study --help
DisplayHelp
--budget <NUMBER>  Steps that the sweep may take in each run, 1 to 4000000 [default: 4000000]
$ ultra study --help
DisplayHelp
Exit status: the greatest of all runs, 0 over, 1 a fault stopped a processor, 4 the budget is used up; or\
$ ultra study a.elf --budget 4000001
ValueValidation
error: invalid value '4000001' for '--budget <NUMBER>':\
";
