//! What the program is asked to do.

ghost use Rattle.std.specs.Prelude.{◌≡◌};

use flat_machine::Config;

/// A command, with its files and numbers.
#[derive(Debug, PartialEq, Eq, Drop)]
pub enum Settings<'a> {
    Words(Words<'a>),
    Check(Check<'a>),
    Asm(Asm<'a>),
    Dis(Dis<'a>),
    Run(Run<'a>),
    Hunt(Hunt<'a>),
    Explore(Explore<'a>),
    Replay(Report<'a>),
    Order(Order<'a>),
    Story(Story<'a>),
    Stats(Counts<'a>),
    Picture(Picture<'a>),
    Page(Page<'a>),
    Study(Study<'a>),
    Trace(Trace<'a>),
    Steps(Schedule<'a>),
    Debug(Session<'a>),
    Explain(Explain<'a>),
}

/// The sizes of a machine.
#[derive(Clone, Copy, Debug, PartialEq, Eq, Drop)]
pub struct Sizes {
    /// The number of stages of switches, from 0 to 6. There are 2^`k` processors and as many modules.
    pub k: u8,
    /// How many messages a switch's queue holds, from 2 to 16.
    pub c: u8,
    /// How many records a switch's wait buffer holds, from 0 to 16.
    pub b: u8,
    /// How often an entry of a queue may be combined, from 1 to 3.
    pub r: u8,
    /// How many shared words the machine has, from 1 to 262,144.
    pub words: u32,
}

impl Sizes {
    /// The size of the machine.
    pub fn config(&self) -> Config
        ensures network { (result.k ≡ self.now.k) × (result.c ≡ self.now.c) × (result.b ≡ self.now.b)
            × (result.r ≡ self.now.r) }
        ensures words { result.shared_words ≡ self.now.words }
    {
        Config {
            k: self.k,
            c: self.c,
            b: self.b,
            r: self.r,
            shared_words: self.words,
        }
    }
}

/// How the lines of a report, of results or of a trace's steps are printed.
#[derive(Debug, PartialEq, Eq, Drop)]
pub struct LineStyle<'a> {
    /// The file with the names that are printed beside addresses and words, if given.
    pub symbols: Option<&'a str>,
    /// Whether values are printed in decimal.
    pub decimal: bool,
    /// Whether lines are printed as JSON.
    pub json: bool,
}

/// `words FILE`.
#[derive(Debug, PartialEq, Eq, Drop)]
pub struct Words<'a> {
    pub file: &'a str,
}

/// `check FILE`.
#[derive(Debug, PartialEq, Eq, Drop)]
pub struct Check<'a> {
    /// The text.
    pub file: &'a str,
    /// Whether it is a course text.
    pub course: bool,
    /// Whether lines are printed as JSON.
    pub json: bool,
}

/// `asm FILE OUT`.
#[derive(Debug, PartialEq, Eq, Drop)]
pub struct Asm<'a> {
    /// The text.
    pub file: &'a str,
    /// Where the image is written.
    pub out: &'a str,
    /// Whether the text is a course text.
    pub course: bool,
    /// Where the addresses of labels are written, if anywhere.
    pub symbols: Option<&'a str>,
}

/// `dis FILE`.
#[derive(Debug, PartialEq, Eq, Drop)]
pub struct Dis<'a> {
    /// The image.
    pub file: &'a str,
    /// Whether to write the names of missing instructions as comments.
    pub comments: bool,
    /// The file with the names that are printed beside addresses, if given.
    pub symbols: Option<&'a str>,
    /// Whether to write registers by their ABI names, and the target of a jump or branch as an address.
    pub abi: bool,
    /// How many shared words the machine has for which the image is read, from 1 to 262,144.
    pub words: u32,
}

/// `run FILE`.
#[derive(Debug, PartialEq, Eq, Drop)]
pub struct Run<'a> {
    /// The image.
    pub file: &'a str,
    /// Where to write the trace of the run, if anywhere.
    pub trace: Option<&'a str>,
    /// Whether the schedule is the sweep. If not, each processor runs on a thread of its own.
    pub sweep: bool,
    /// Whether the run keeps no log of its steps.
    pub no_log: bool,
    /// Whether a run that its budget ends is reported, too.
    pub unfinished: bool,
    /// Whether to leave out reports of the run's progress.
    pub quiet: bool,
    /// How lines are printed.
    pub style: LineStyle<'a>,
    /// The sizes of the machine.
    pub sizes: Sizes,
    /// How long the run may take, from 1: in rounds of each thread, or in steps of the sweep.
    pub budget: u32,
    /// The number with which the threads' choices begin: any number. The sweep makes no choices.
    pub start: u32,
}

/// A trace and the image of its run.
#[derive(Debug, PartialEq, Eq, Drop)]
pub struct Replay<'a> {
    /// The trace. It has the other sizes of the machine.
    pub trace: &'a str,
    /// The image.
    pub file: &'a str,
    /// How many shared words the machine has, from 1 to 262,144.
    pub words: u32,
}

/// `replay TRACE FILE`.
#[derive(Debug, PartialEq, Eq, Drop)]
pub struct Report<'a> {
    /// The trace and its machine.
    pub replay: Replay<'a>,
    /// How lines are printed.
    pub style: LineStyle<'a>,
}

/// `stats TRACE FILE`.
#[derive(Debug, PartialEq, Eq, Drop)]
pub struct Counts<'a> {
    /// The trace and its machine.
    pub replay: Replay<'a>,
    /// Whether latencies are printed, too.
    pub latency: bool,
    /// Whether the lengths of queues are printed, too.
    pub queues: bool,
    /// Whether counts are printed as CSV.
    pub csv: bool,
    /// Whether lines are printed as JSON.
    pub json: bool,
}

/// `explain [CODE]..`.
#[derive(Debug, PartialEq, Eq, Drop)]
pub struct Explain<'a> {
    /// The words that say what to explain, at most four. If there are none, all topics are listed.
    pub words: Vec<&'a str>,
}

/// `order TRACE FILE`.
#[derive(Debug, PartialEq, Eq, Drop)]
pub struct Order<'a> {
    /// The lines that it prints.
    pub lines: Lines<'a>,
    /// Whether to write registers by their ABI names, and the target of a jump or branch as an address.
    pub abi: bool,
}

/// `story TRACE FILE`.
#[derive(Debug, PartialEq, Eq, Drop)]
pub struct Story<'a> {
    /// The lines that it prints.
    pub lines: Lines<'a>,
    /// Whether only moves and services are printed.
    pub network: bool,
    /// Whether the rounds of the sweep are marked.
    pub rounds: bool,
}

/// The lines of `order TRACE FILE` or `story TRACE FILE`.
#[derive(Debug, PartialEq, Eq, Drop)]
pub struct Lines<'a> {
    /// The trace and its machine.
    pub replay: Replay<'a>,
    /// The processor whose lines are printed, at most 63; None for all processors.
    pub processor: Option<u8>,
    /// The number, at most 262,143, of the shared word about which lines are printed; None for all lines.
    pub word: Option<u32>,
    /// The number of the first line that is printed; None for 0.
    pub from: Option<u32>,
    /// The number of the last line that is printed; None for the last there is.
    pub to: Option<u32>,
    /// How lines are printed.
    pub style: LineStyle<'a>,
}

/// `picture TRACE FILE`, and the step after which the machine is drawn.
#[derive(Debug, PartialEq, Eq, Drop)]
pub struct Picture<'a> {
    /// The trace and its machine.
    pub replay: Replay<'a>,
    /// How many steps the machine takes before it is drawn; None for all.
    pub step: Option<u32>,
    /// The file with the names that are drawn in place of addresses and words, if given.
    pub symbols: Option<&'a str>,
}

/// `page TRACE FILE`, and the part of the run that the page plays.
#[derive(Debug, PartialEq, Eq, Drop)]
pub struct Page<'a> {
    /// The trace and its machine.
    pub replay: Replay<'a>,
    /// The number of the first step; None for 0.
    pub from: Option<u32>,
    /// How many steps there are at most, from 1 to 500,000; None for all from the first on.
    pub steps: Option<u32>,
    /// The file with the names of words and program counters, if given.
    pub symbols: Option<&'a str>,
}

/// `study FILE`.
#[derive(Debug, PartialEq, Eq, Drop)]
pub struct Study<'a> {
    /// The image.
    pub file: &'a str,
    /// The list of the numbers of stages, if given. It may be no list; neither may the next two.
    pub ks: Option<&'a str>,
    /// The list of the numbers of records that a switch's wait buffer holds, if given.
    pub bs: Option<&'a str>,
    /// The list that says how often an entry of a queue may be combined, if given.
    pub rs: Option<&'a str>,
    /// The column that is drawn, if given. It may be no column.
    pub plot: Option<&'a str>,
    /// Whether the rows are printed as CSV.
    pub csv: bool,
    /// Whether the rows are printed as JSON.
    pub json: bool,
    /// How many messages a switch's queue holds, from 2 to 16.
    pub c: u8,
    /// How many shared words the machines have, from 1 to 262,144.
    pub words: u32,
    /// How many steps the sweep may take in each run, from 1 to 4,000,000.
    pub budget: u32,
}

/// `trace TRACE`.
#[derive(Debug, PartialEq, Eq, Drop)]
pub struct Trace<'a> {
    /// The trace.
    pub trace: &'a str,
}

/// `steps FILE OUT`.
#[derive(Debug, PartialEq, Eq, Drop)]
pub struct Schedule<'a> {
    /// The text.
    pub file: &'a str,
    /// Where the trace is written.
    pub out: &'a str,
}

/// `debug FILE`.
#[derive(Debug, PartialEq, Eq, Drop)]
pub struct Session<'a> {
    /// The image.
    pub file: &'a str,
    /// Where to write the trace of the session, if anywhere.
    pub trace: Option<&'a str>,
    /// Whether the session is served over standard input and output. If not, it is served at a port.
    pub stdio: bool,
    /// The sizes of the machine.
    pub sizes: Sizes,
    /// How many steps one command of the debugger may take, from 1 to 4,000,000.
    pub budget: u32,
    /// The port on which to wait for the debugger; with 0 the host chooses a free one.
    pub port: u16,
}

/// `explore FILE`.
#[derive(Debug, PartialEq, Eq, Drop)]
pub struct Explore<'a> {
    /// The image.
    pub file: &'a str,
    /// Where to write the trace of a witness or a lasso, if anywhere.
    pub trace: Option<&'a str>,
    /// Where to write a page of the same steps, if anywhere.
    pub page: Option<&'a str>,
    /// The list of the words by which results are observed, if given. It may be no list.
    pub observe: Option<&'a str>,
    /// The image of the specification with whose results those of the image are compared, if any.
    pub against: Option<&'a str>,
    /// Whether to list every result. If not, one result stands for all that exchanges of alike processors make of it.
    pub each: bool,
    /// Whether to tell if every fair schedule ends. Processors are not exchanged then.
    pub fair: bool,
    /// Whether to explore every `k` from 0 to 6, and print a line for each. If not, only `sizes.k` is explored.
    pub every: bool,
    /// Whether to leave out reports of the search's progress.
    pub quiet: bool,
    /// How lines are printed.
    pub style: LineStyle<'a>,
    /// The sizes of the machine.
    pub sizes: Sizes,
    /// The number of states at which the search gives up, from 1.
    pub states: u32,
    /// The number of seconds after which a search gives up, from 1, if one is given.
    pub seconds: Option<u32>,
    /// If a witness is asked for, the number of the result in which it ends, or 0 for a state from which no end can be
    /// reached.
    pub witness: Option<u32>,
    /// The condition that no state is to satisfy, if given. It may be no condition; neither may the next three.
    pub never: Option<&'a str>,
    /// The condition that each state is to satisfy, if given.
    pub always: Option<&'a str>,
    /// The condition that each state in which no processor runs is to satisfy, if given.
    pub finally: Option<&'a str>,
    /// The condition that a result has to satisfy to be printed, if given.
    pub filter: Option<&'a str>,
}

/// `hunt FILE`.
#[derive(Debug, PartialEq, Eq, Drop)]
pub struct Hunt<'a> {
    /// The image.
    pub file: &'a str,
    /// The beginning of the names of the traces to write, if any.
    pub trace: Option<&'a str>,
    /// The beginning of the names of the pages to write, if any.
    pub page: Option<&'a str>,
    /// The list of the words by which results are observed, if given. It may be no list.
    pub observe: Option<&'a str>,
    /// The name of the strategy of the schedules, if given. It may be the name of none.
    pub schedule: Option<&'a str>,
    /// Whether the traces and the pages may overwrite existing files.
    pub overwrite: bool,
    /// Whether all runs are expected to come to one result.
    pub expect_one: bool,
    /// Whether to leave out reports of the hunt's progress.
    pub quiet: bool,
    /// How lines are printed.
    pub style: LineStyle<'a>,
    /// The sizes of the machine.
    pub sizes: Sizes,
    /// How many steps a run may take, from 1 to 4,000,000.
    pub budget: u32,
    /// The number of runs, from 1 to 1,000,000.
    pub runs: u32,
    /// The number with which the first run's choices begin: any number. Each later run begins with the next number.
    pub start: u32,
    /// The number of threads that take the runs, from 1 to 64; None for as many as the host has processors.
    pub jobs: Option<u8>,
    /// The depth of the bugs that a hunt by priorities looks for, from 1 to 16, if given.
    pub depth: Option<u8>,
}
