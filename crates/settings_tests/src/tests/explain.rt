//! `explain [CODE]`.

/// Ways to ask for `explain`.
pub const TAKEN: &str = r#"$ ultra explain
Explain(Explain { words: [] })
$ ultra explain A3
Explain(Explain { words: ["A3"] })
$ ultra explain memory-map
Explain(Explain { words: ["memory-map"] })
$ ultra explain explain
Explain(Explain { words: ["explain"] })
$ ultra explain fault 4
Explain(Explain { words: ["fault", "4"] })
$ ultra explain A3 line 2
Explain(Explain { words: ["A3", "line", "2"] })
$ ultra explain ultra: X7 step 1
Explain(Explain { words: ["ultra:", "X7", "step", "1"] })
$ ultra explain -- --words
Explain(Explain { words: ["--words"] })
$ ultra explain A3 -- line -- 2
Explain(Explain { words: ["A3", "line", "--", "2"] })
"#;

/// Words that are refused.
pub const REFUSED: &str = "\
$ ultra explain A3 line 2 column 4
TooManyValues
error: unexpected value '4' for '[CODE]...' found; no more were expected

Usage: ultra explain [CODE]...
$ ultra explain A3 --line 2
UnknownArgument
error: unexpected argument '--line' found
";

/// Parts of the help.
pub const HELP: &str = "\
$ ultra explain --help
DisplayHelp
Usage: ultra explain [CODE]...
$ ultra help explain
DisplayHelp
Explain what a code that ultra prints means, what usually causes it and what to do

Usage: ultra explain [CODE]...
$ ultra explain --help
DisplayHelp
[CODE]...  What is printed, as `A3 line 2` or `fault 4`, its code alone, or a page; without it, all are listed
$ ultra explain --help
DisplayHelp
Exit status: 0 done, 2 nothing has that name, or a refused command line, 3 standard output cannot be\
$ ultra --help
DisplayHelp
  explain  Explain what a code that ultra prints means, what usually causes it and what to do
";
