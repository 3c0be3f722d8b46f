//! `check FILE`.

/// Ways to ask for `check`.
pub const TAKEN: &str = r#"$ ultra check a.s
Check(Check { file: "a.s", course: false, json: false })
$ ultra check -- --a
Check(Check { file: "--a", course: false, json: false })
$ ultra check --json a.s
Check(Check { file: "a.s", course: false, json: true })
$ ultra check a.s --course
Check(Check { file: "a.s", course: true, json: false })
"#;

/// Parts of the help.
pub const HELP: &str = "\
$ ultra check --help
DisplayHelp
Usage: ultra check [OPTIONS] <FILE>
$ ultra help check
DisplayHelp
List every mistake of a text, each with its line, column, word and what would be right
$ ultra check --help
DisplayHelp
Exit status: 0 the text has no mistake, 1 it has mistakes, 2 a refused command line,\
";
