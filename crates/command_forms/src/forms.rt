//! The commands of the program, each with its arguments and its help.

ghost use Rattle.std.specs.Prelude.{◌≡◌};
ghost use Rattle.command_forms.specs.Forms.{app_of_form, with_forms};
ghost use Rattle.command_forms.specs.Commands.{asm_command, check_command, debug_command, dis_command};
ghost use Rattle.command_forms.specs.Commands.{explain_command, explore_command, hunt_command, order_command};
ghost use Rattle.command_forms.specs.Commands.{page_command, picture_command, program, replay_command, run_command};
ghost use Rattle.command_forms.specs.Commands.{stats_command};
ghost use Rattle.command_forms.specs.Commands.{steps_command, story_command, study_command, trace_command};
ghost use Rattle.command_forms.specs.Commands.{ultra_command, words_command};

use crate::help::{
    ASM_ENDS, CHECK_ENDS, DEBUG_ENDS, DIS_ENDS, EXPLAIN_ENDS, EXPLORE_ENDS, HUNT_ENDS, ORDER_ENDS,
    PAGE_ENDS, PICTURE_ENDS, REPLAY_ENDS, RUN_ENDS, STATS_ENDS, STEPS_ENDS, STORY_ENDS, STUDY_ENDS,
    TRACE_ENDS, WORDS_ENDS,
};
use crate::ranges::{
    BUDGET, COMBINATIONS, ChoiceOption, DEPTH, FIRST_LINE, FIRST_START, FIRST_STEP, JOBS,
    LAST_LINE, NumberOption, PORT, PROCESSOR, QUEUE, RECORDS, RUN_STEPS, RUNS, SECONDS,
    SHARED_WORD, SHARED_WORDS, STAGES, START, STATES, STEP, STEP_COUNT, STEPS, SWEEP_STEPS,
    WITNESS,
};

/// A command of the program.
#[derive(Clone, Copy, Drop)]
pub(crate) struct CommandForm {
    pub(crate) name: &'static str,
    /// The first line of its help.
    pub(crate) about: &'static str,
    pub(crate) arguments: &'static [Argument],
    /// The end of its help.
    pub(crate) ends: &'static str,
}

/// An argument of a command.
#[derive(Clone, Copy, Drop)]
pub(crate) enum Argument {
    /// A file, which is required.
    Path {
        id: &'static str,
        help: &'static str,
    },
    /// Up to four words.
    Words {
        id: &'static str,
        help: &'static str,
    },
    /// `--NAME TEXT`.
    Text {
        name: &'static str,
        value: &'static str,
        help: &'static str,
    },
    /// `--NAME`.
    Flag {
        name: &'static str,
        help: &'static str,
    },
    /// `--NAME NUMBER`, with a default.
    Number(NumberOption),
    /// `--NAME NUMBER`, with no default.
    Choice(ChoiceOption),
}

/// An image to read.
const IMAGE: Argument = Argument::Path {
    id: "FILE",
    help: "An image, as `ultra asm` writes it",
};

/// A text to read.
const TEXT: Argument = Argument::Path {
    id: "FILE",
    help: "Assembler text in UTF-8, one statement a line, as `amoadd.w a0, a1, (a2)`",
};

/// A trace to read.
const TRACE: Argument = Argument::Path {
    id: "TRACE",
    help: "A trace, as `ultra run --trace` writes it",
};

/// The image of a trace's run.
const TRACED_IMAGE: Argument = Argument::Path {
    id: "FILE",
    help: "The image of that run, as `ultra asm` writes it",
};

/// Whether progress is left out.
const QUIET: Argument = Argument::Flag {
    name: "quiet",
    help: "Show no progress line on a terminal",
};

/// The names that are printed beside addresses and words.
const SYMBOLS: Argument = Argument::Text {
    name: "symbols",
    value: "FILE",
    help: "Print names beside addresses and words, from the symbol table of an ELF file or from what `nm` prints; not with --json",
};

/// Whether values are printed in decimal.
const DECIMAL: Argument = Argument::Flag {
    name: "decimal",
    help: "Print values in decimal, in two's complement; not with --json",
};

/// Whether lines are printed as JSON.
const JSON: Argument = Argument::Flag {
    name: "json",
    help: "Print each line as a JSON object",
};

/// Whether a text is a course text.
const COURSE: Argument = Argument::Flag {
    name: "course",
    help: "Take the pseudo-instructions, forms and directives of RISC-V textbooks, as `li a0, 5`",
};

const WORDS: CommandForm = CommandForm {
    name: "words",
    about: "Run a program of hex words on one processor and print its registers",
    arguments: &[Argument::Path {
        id: "FILE",
        help: "Lines of eight hex digits, one instruction word a line, the first at address 0x00010000",
    }],
    ends: WORDS_ENDS,
};

const CHECK: CommandForm = CommandForm {
    name: "check",
    about: "List every mistake of a text, each with its line, column, word and what would be right",
    arguments: &[TEXT, COURSE, JSON],
    ends: CHECK_ENDS,
};

const ASM: CommandForm = CommandForm {
    name: "asm",
    about: "Assemble a text to an image, which holds the memory of a machine that starts",
    arguments: &[
        TEXT,
        Argument::Path {
            id: "OUT",
            help: "Where to write the image, an ELF32 file; opened after the whole text is assembled",
        },
        COURSE,
        Argument::Text {
            name: "symbols",
            value: "MAP",
            help: "Write the addresses of the labels to MAP, as `nm` prints them, for --symbols of other commands",
        },
    ],
    ends: ASM_ENDS,
};

const DIS: CommandForm = CommandForm {
    name: "dis",
    about: "Print the code of an image, a line for each word up to the last that is not zero",
    arguments: &[
        IMAGE,
        Argument::Flag {
            name: "comments",
            help: "Write the name of an instruction that the machine does not have after its word, as `# lr.w`",
        },
        Argument::Text {
            name: "symbols",
            value: "FILE",
            help: "Print names beside addresses, from the symbol table of an ELF file or from what `nm` prints",
        },
        Argument::Flag {
            name: "abi",
            help: "Write registers by their ABI names, and the target of a jump or branch as an address",
        },
        Argument::Number(SHARED_WORDS),
    ],
    ends: DIS_ENDS,
};

const RUN: CommandForm = CommandForm {
    name: "run",
    about: "Run an image on a machine of up to 64 processors and print its report",
    arguments: &[
        IMAGE,
        Argument::Text {
            name: "trace",
            value: "OUT",
            help: "Where to write the steps of the run, for `ultra replay`; opened after the run is over",
        },
        Argument::Flag {
            name: "sweep",
            help: "Run by the sweep, on one thread: every run gives the same result",
        },
        Argument::Flag {
            name: "no-log",
            help: "With --sweep, keep no log of the steps, so that --budget may be up to 4000000000 of them; not with --trace",
        },
        Argument::Flag {
            name: "unfinished",
            help: "Print the report, and write the trace, even if the budget ends the run",
        },
        QUIET,
        SYMBOLS,
        DECIMAL,
        JSON,
        Argument::Number(STAGES),
        Argument::Number(QUEUE),
        Argument::Number(RECORDS),
        Argument::Number(COMBINATIONS),
        Argument::Number(SHARED_WORDS),
        Argument::Number(BUDGET),
        Argument::Number(START),
    ],
    ends: RUN_ENDS,
};

const HUNT: CommandForm = CommandForm {
    name: "hunt",
    about: "Run an image many times by random schedules, and print each different result once",
    arguments: &[
        IMAGE,
        Argument::Text {
            name: "trace",
            value: "PREFIX",
            help: "Write a trace for each result, for `ultra replay`, to PREFIX followed by the run's number and `.trace`",
        },
        Argument::Text {
            name: "page",
            value: "PREFIX",
            help: "Write a page for each result, which plays its first run, to PREFIX followed by the run's number and `.html`",
        },
        Argument::Text {
            name: "observe",
            value: "LIST",
            help: "Words by which runs differ, as `0-3,8`; results have no others [default: all]",
        },
        Argument::Text {
            name: "schedule",
            value: "NAME",
            help: "How a run picks the processor of each turn: random, pct or sweep-like [default: random]",
        },
        Argument::Flag {
            name: "overwrite",
            help: "Overwrite traces and pages that exist; without it the hunt is refused if one does",
        },
        Argument::Flag {
            name: "expect-one",
            help: "Expect all runs to come to one result; if they do not, the exit status says so",
        },
        QUIET,
        SYMBOLS,
        DECIMAL,
        JSON,
        Argument::Number(STAGES),
        Argument::Number(QUEUE),
        Argument::Number(RECORDS),
        Argument::Number(COMBINATIONS),
        Argument::Number(SHARED_WORDS),
        Argument::Number(RUN_STEPS),
        Argument::Number(RUNS),
        Argument::Number(FIRST_START),
        Argument::Choice(JOBS),
        Argument::Choice(DEPTH),
    ],
    ends: HUNT_ENDS,
};

const EXPLORE: CommandForm = CommandForm {
    name: "explore",
    about: "Print every final result that a program can have on 1 to 64 processors, over all schedules",
    arguments: &[
        IMAGE,
        Argument::Text {
            name: "trace",
            value: "OUT",
            help: "Where to write the steps to the result of --witness, those of a lasso, or those that break a property, for `ultra replay`; opened then",
        },
        Argument::Text {
            name: "page",
            value: "OUT",
            help: "Where to write a page for a browser that plays the same steps, as `ultra page` makes it",
        },
        Argument::Text {
            name: "observe",
            value: "LIST",
            help: "Words by which results differ, as `0-3,8`; they are printed without others [default: all]",
        },
        Argument::Text {
            name: "filter",
            value: "CONDITION",
            help: "Print only the results that satisfy the condition, as `word 0 == 1`; not with --every or --against",
        },
        Argument::Text {
            name: "against",
            value: "SPEC",
            help: "Print only the results that the image SPEC does not have; not with --every or --witness",
        },
        Argument::Text {
            name: "never",
            value: "CONDITION",
            help: "Print instead whether no state between references satisfies the condition, as `at 0x10010-0x10020 > 1`",
        },
        Argument::Text {
            name: "always",
            value: "CONDITION",
            help: "Print instead whether each state does",
        },
        Argument::Text {
            name: "finally",
            value: "CONDITION",
            help: "Print instead whether each state does in which no processor runs",
        },
        Argument::Flag {
            name: "each",
            help: "Print every result by itself; alike processors are not exchanged",
        },
        Argument::Flag {
            name: "fair",
            help: "Also tell whether every fair schedule ends, and show one that never does; alike processors are not exchanged",
        },
        Argument::Flag {
            name: "every",
            help: "Explore every k from 0 to 6, and print a line for each; not with --witness",
        },
        QUIET,
        SYMBOLS,
        DECIMAL,
        JSON,
        Argument::Number(STAGES),
        Argument::Number(QUEUE),
        Argument::Number(RECORDS),
        Argument::Number(COMBINATIONS),
        Argument::Number(SHARED_WORDS),
        Argument::Number(STATES),
        Argument::Choice(SECONDS),
        Argument::Choice(WITNESS),
    ],
    ends: EXPLORE_ENDS,
};

const REPLAY: CommandForm = CommandForm {
    name: "replay",
    about: "Take the steps of a trace on a machine that opens on an image, and print its report",
    arguments: &[
        TRACE,
        TRACED_IMAGE,
        Argument::Number(SHARED_WORDS),
        SYMBOLS,
        DECIMAL,
        JSON,
    ],
    ends: REPLAY_ENDS,
};

const ORDER: CommandForm = CommandForm {
    name: "order",
    about: "Print the serial order of whole instructions that explains the run of a trace",
    arguments: &[
        TRACE,
        TRACED_IMAGE,
        Argument::Number(SHARED_WORDS),
        Argument::Choice(PROCESSOR),
        Argument::Choice(SHARED_WORD),
        Argument::Choice(FIRST_LINE),
        Argument::Choice(LAST_LINE),
        SYMBOLS,
        Argument::Flag {
            name: "abi",
            help: "Write registers by their ABI names, and the target of a jump or branch as an address; not with --json",
        },
        DECIMAL,
        JSON,
    ],
    ends: ORDER_ENDS,
};

const STORY: CommandForm = CommandForm {
    name: "story",
    about: "Print what the machine did in each step of a trace",
    arguments: &[
        TRACE,
        TRACED_IMAGE,
        Argument::Number(SHARED_WORDS),
        Argument::Choice(PROCESSOR),
        Argument::Choice(SHARED_WORD),
        Argument::Choice(FIRST_LINE),
        Argument::Choice(LAST_LINE),
        SYMBOLS,
        Argument::Flag {
            name: "network",
            help: "Print only what the network does: moves of messages, and services",
        },
        Argument::Flag {
            name: "rounds",
            help: "Print `round N` before the first printed step of each round of the sweep",
        },
        DECIMAL,
        JSON,
    ],
    ends: STORY_ENDS,
};

const STATS: CommandForm = CommandForm {
    name: "stats",
    about: "Count what the switches, the modules and the processors did in the steps of a trace",
    arguments: &[
        TRACE,
        TRACED_IMAGE,
        Argument::Number(SHARED_WORDS),
        Argument::Flag {
            name: "latency",
            help: "Print how many rounds of the sweep references took: all, each processor's, and those to each word",
        },
        Argument::Flag {
            name: "queues",
            help: "Print how much waits at each stage at the end of each round of the sweep; not with --latency",
        },
        Argument::Flag {
            name: "csv",
            help: "Print the counts as CSV, a row for each number; not with --json",
        },
        JSON,
    ],
    ends: STATS_ENDS,
};

const PICTURE: CommandForm = CommandForm {
    name: "picture",
    about: "Draw the machine after some steps of a trace, as an SVG",
    arguments: &[
        TRACE,
        TRACED_IMAGE,
        Argument::Number(SHARED_WORDS),
        Argument::Choice(STEP),
        Argument::Text {
            name: "symbols",
            value: "FILE",
            help: "Draw names in place of addresses and words, from the symbol table of an ELF file or from what `nm` prints",
        },
    ],
    ends: PICTURE_ENDS,
};

const PAGE: CommandForm = CommandForm {
    name: "page",
    about: "Write a page for a browser that plays the steps of a trace",
    arguments: &[
        TRACE,
        TRACED_IMAGE,
        Argument::Number(SHARED_WORDS),
        Argument::Choice(FIRST_STEP),
        Argument::Choice(STEP_COUNT),
        Argument::Text {
            name: "symbols",
            value: "FILE",
            help: "Show names of words and program counters, from the symbol table of an ELF file or from what `nm` prints",
        },
    ],
    ends: PAGE_ENDS,
};

const STUDY: CommandForm = CommandForm {
    name: "study",
    about: "Run an image by the sweep on machines of several sizes, and print a row of figures for each",
    arguments: &[
        IMAGE,
        Argument::Text {
            name: "k",
            value: "LIST",
            help: "Stages of the networks, numbers and ranges from 0 to 6 that ascend, as `0..3,6` [default: 0..6]",
        },
        Argument::Text {
            name: "b",
            value: "LIST",
            help: "Records that an output of a switch holds, 0 to 16, as `0,4`; with 0 nothing is combined [default: 4]",
        },
        Argument::Text {
            name: "r",
            value: "LIST",
            help: "Times that a request in a queue of a switch is combined, 1 to 3, and fewer than --c [default: 1]",
        },
        Argument::Text {
            name: "plot",
            value: "COLUMN",
            help: "Draw the numbers of this column by processors, as an SVG; not with --csv or --json",
        },
        Argument::Flag {
            name: "csv",
            help: "Print the rows as CSV; not with --json",
        },
        JSON,
        Argument::Number(QUEUE),
        Argument::Number(SHARED_WORDS),
        Argument::Number(SWEEP_STEPS),
    ],
    ends: STUDY_ENDS,
};

const TRACE_TEXT: CommandForm = CommandForm {
    name: "trace",
    about: "Print a trace as a text, which can be edited and made a trace again by `ultra steps`",
    arguments: &[TRACE],
    ends: TRACE_ENDS,
};

const STEPS_TEXT: CommandForm = CommandForm {
    name: "steps",
    about: "Make a trace of a text of steps, which may be written by hand",
    arguments: &[
        Argument::Path {
            id: "FILE",
            help: "A text, as `ultra trace` prints it: `machine k 1 c 4 b 4 r 1`, and then a step a line, as `turn 0`",
        },
        Argument::Path {
            id: "OUT",
            help: "Where to write the trace, for `ultra replay`; opened after the whole text is read",
        },
    ],
    ends: STEPS_ENDS,
};

const DEBUG: CommandForm = CommandForm {
    name: "debug",
    about: "Wait for a debugger on 127.0.0.1, and serve its commands on a machine that opens on an image",
    arguments: &[
        IMAGE,
        Argument::Text {
            name: "trace",
            value: "OUT",
            help: "Where to write the steps of the session, for `ultra replay`; opened after the session is over",
        },
        Argument::Flag {
            name: "stdio",
            help: "Serve the session over standard input and output; no port is opened",
        },
        Argument::Number(STAGES),
        Argument::Number(QUEUE),
        Argument::Number(RECORDS),
        Argument::Number(COMBINATIONS),
        Argument::Number(SHARED_WORDS),
        Argument::Number(STEPS),
        Argument::Number(PORT),
    ],
    ends: DEBUG_ENDS,
};

const EXPLAIN: CommandForm = CommandForm {
    name: "explain",
    about: "Explain what a code that ultra prints means, what usually causes it and what to do",
    arguments: &[Argument::Words {
        id: "CODE",
        help: "What is printed, as `A3 line 2` or `fault 4`, its code alone, or a page; without it, all are listed",
    }],
    ends: EXPLAIN_ENDS,
};

// Each command has a function, so that only that function's proof has the command's texts.

#[tactic(auto, unfolding(crate::specs::Commands::words_command))]
fn words() -> CommandForm
    ensures { app_of_form result ≡ words_command }
{
    WORDS
}

#[tactic(auto, unfolding(crate::specs::Commands::check_command))]
fn check() -> CommandForm
    ensures { app_of_form result ≡ check_command }
{
    CHECK
}

#[tactic(auto, unfolding(crate::specs::Commands::asm_command))]
fn asm() -> CommandForm
    ensures { app_of_form result ≡ asm_command }
{
    ASM
}

#[tactic(auto, unfolding(crate::specs::Commands::dis_command))]
fn dis() -> CommandForm
    ensures { app_of_form result ≡ dis_command }
{
    DIS
}

#[tactic(auto, unfolding(crate::specs::Commands::run_command))]
fn run() -> CommandForm
    ensures { app_of_form result ≡ run_command }
{
    RUN
}

#[tactic(auto, unfolding(crate::specs::Commands::hunt_command))]
fn hunt() -> CommandForm
    ensures { app_of_form result ≡ hunt_command }
{
    HUNT
}

#[tactic(auto, unfolding(crate::specs::Commands::explore_command))]
fn explore() -> CommandForm
    ensures { app_of_form result ≡ explore_command }
{
    EXPLORE
}

#[tactic(auto, unfolding(crate::specs::Commands::replay_command))]
fn replay() -> CommandForm
    ensures { app_of_form result ≡ replay_command }
{
    REPLAY
}

#[tactic(auto, unfolding(crate::specs::Commands::order_command))]
fn order() -> CommandForm
    ensures { app_of_form result ≡ order_command }
{
    ORDER
}

#[tactic(auto, unfolding(crate::specs::Commands::story_command))]
fn story() -> CommandForm
    ensures { app_of_form result ≡ story_command }
{
    STORY
}

#[tactic(auto, unfolding(crate::specs::Commands::stats_command))]
fn stats() -> CommandForm
    ensures { app_of_form result ≡ stats_command }
{
    STATS
}

#[tactic(auto, unfolding(crate::specs::Commands::picture_command))]
fn picture() -> CommandForm
    ensures { app_of_form result ≡ picture_command }
{
    PICTURE
}

#[tactic(auto, unfolding(crate::specs::Commands::page_command))]
fn page() -> CommandForm
    ensures { app_of_form result ≡ page_command }
{
    PAGE
}

#[tactic(auto, unfolding(crate::specs::Commands::study_command))]
fn study() -> CommandForm
    ensures { app_of_form result ≡ study_command }
{
    STUDY
}

#[tactic(auto, unfolding(crate::specs::Commands::trace_command))]
fn trace_text() -> CommandForm
    ensures { app_of_form result ≡ trace_command }
{
    TRACE_TEXT
}

#[tactic(auto, unfolding(crate::specs::Commands::steps_command))]
fn steps_text() -> CommandForm
    ensures { app_of_form result ≡ steps_command }
{
    STEPS_TEXT
}

#[tactic(auto, unfolding(crate::specs::Commands::debug_command))]
fn debug() -> CommandForm
    ensures { app_of_form result ≡ debug_command }
{
    DEBUG
}

#[tactic(auto, unfolding(crate::specs::Commands::explain_command))]
fn explain() -> CommandForm
    ensures { app_of_form result ≡ explain_command }
{
    EXPLAIN
}

/// All commands, in the order in which the help lists them.
#[tactic(auto, unfolding(crate::specs::Commands::ultra_command))]
pub(crate) fn commands() -> [CommandForm; 18]
    ensures { with_forms result program ≡ ultra_command }
{
    [
        words(),
        check(),
        asm(),
        dis(),
        run(),
        hunt(),
        explore(),
        replay(),
        order(),
        story(),
        stats(),
        picture(),
        page(),
        study(),
        trace_text(),
        steps_text(),
        debug(),
        explain(),
    ]
}
