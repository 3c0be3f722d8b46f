//! `hunt FILE` and its options.

/// Ways to ask for `hunt`.
pub const TAKEN: &str = "\
$ ultra hunt a.elf
Hunt(Hunt { file: \"a.elf\", trace: None, page: None, observe: None, schedule: None, overwrite: false, expect_one: false, quiet: false, \
    style: LineStyle { symbols: None, decimal: false, json: false }, \
    sizes: Sizes { k: 2, c: 4, b: 4, r: 1, words: 1024 }, budget: 100000, runs: 1000, start: 1, jobs: None, depth: None })
$ ultra hunt --runs 1 a.elf --start 0
Hunt(Hunt { file: \"a.elf\", trace: None, page: None, observe: None, schedule: None, overwrite: false, expect_one: false, quiet: false, \
    style: LineStyle { symbols: None, decimal: false, json: false }, \
    sizes: Sizes { k: 2, c: 4, b: 4, r: 1, words: 1024 }, budget: 100000, runs: 1, start: 0, jobs: None, depth: None })
$ ultra hunt a.elf --overwrite --observe 0-3,8 --expect-one --trace late- --page shown/ --budget 4000000
Hunt(Hunt { file: \"a.elf\", trace: Some(\"late-\"), page: Some(\"shown/\"), observe: Some(\"0-3,8\"), \
    schedule: None, overwrite: true, expect_one: true, quiet: false, \
    style: LineStyle { symbols: None, decimal: false, json: false }, \
    sizes: Sizes { k: 2, c: 4, b: 4, r: 1, words: 1024 }, budget: 4000000, runs: 1000, start: 1, jobs: None, depth: None })
$ ultra hunt a.elf --jobs 1
Hunt(Hunt { file: \"a.elf\", trace: None, page: None, observe: None, schedule: None, overwrite: false, expect_one: false, quiet: false, \
    style: LineStyle { symbols: None, decimal: false, json: false }, \
    sizes: Sizes { k: 2, c: 4, b: 4, r: 1, words: 1024 }, budget: 100000, runs: 1000, start: 1, jobs: Some(1), depth: None })
$ ultra hunt --jobs=64 a.elf --runs 7
Hunt(Hunt { file: \"a.elf\", trace: None, page: None, observe: None, schedule: None, overwrite: false, expect_one: false, quiet: false, \
    style: LineStyle { symbols: None, decimal: false, json: false }, \
    sizes: Sizes { k: 2, c: 4, b: 4, r: 1, words: 1024 }, budget: 100000, runs: 7, start: 1, jobs: Some(64), depth: None })
$ ultra hunt a.elf --schedule pct --depth 16
Hunt(Hunt { file: \"a.elf\", trace: None, page: None, observe: None, schedule: Some(\"pct\"), overwrite: false, expect_one: false, quiet: false, \
    style: LineStyle { symbols: None, decimal: false, json: false }, \
    sizes: Sizes { k: 2, c: 4, b: 4, r: 1, words: 1024 }, budget: 100000, runs: 1000, start: 1, jobs: None, depth: Some(16) })
$ ultra hunt a.elf --symbols=a.elf
Hunt(Hunt { file: \"a.elf\", trace: None, page: None, observe: None, schedule: None, overwrite: false, expect_one: false, quiet: false, \
    style: LineStyle { symbols: Some(\"a.elf\"), decimal: false, json: false }, \
    sizes: Sizes { k: 2, c: 4, b: 4, r: 1, words: 1024 }, budget: 100000, runs: 1000, start: 1, jobs: None, depth: None })
$ ultra hunt a.elf --runs=1000000 --start=4294967295 --k 1 --c 2 --b 0 --words 7 --budget 1 --quiet --json
Hunt(Hunt { file: \"a.elf\", trace: None, page: None, observe: None, schedule: None, overwrite: false, expect_one: false, quiet: true, \
    style: LineStyle { symbols: None, decimal: false, json: true }, \
    sizes: Sizes { k: 1, c: 2, b: 0, r: 1, words: 7 }, budget: 1, runs: 1000000, start: 4294967295, jobs: None, depth: None })
";

/// Parts of the help.
pub const HELP: &str = "\
$ ultra hunt --help
DisplayHelp
Usage: ultra hunt [OPTIONS] <FILE>
$ ultra help hunt
DisplayHelp
--runs <NUMBER>    Runs to take, 1 to 1000000 [default: 1000]
$ ultra hunt --help
DisplayHelp
--jobs <NUMBER>    Threads that take the runs, 1 to 64;\
$ ultra hunt --help
DisplayHelp
--schedule <NAME>  How a run picks the processor of each turn: random, pct or sweep-like [default: random]
$ ultra hunt --help
DisplayHelp
--depth <NUMBER>   Depth of the bugs that --schedule pct looks for, 1 to 16:\
$ ultra hunt --help
DisplayHelp
--trace <PREFIX>   Write a trace for each result,\
$ ultra hunt --help
DisplayHelp
--page <PREFIX>    Write a page for each result, which plays its first run,\
$ ultra hunt --help
DisplayHelp
--overwrite        Overwrite traces and pages that exist;\
$ ultra hunt --help
DisplayHelp
--observe <LIST>   Words by which runs differ,\
$ ultra hunt --help
DisplayHelp
--expect-one       Expect all runs to come to one result;\
$ ultra hunt --help
DisplayHelp
Exit status: 0 done, 1 a fault stopped a processor in a run, 2 a refused image or command line, 3 a\
";
