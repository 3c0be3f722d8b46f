//! From the matches of a subcommand to its settings.
ghost use Rattle.std.specs.Prelude.{◌≡◌, ◌≤◌, ◌<◌, ◌^◌, codes, unwrap_or, [], IfOk};
ghost use Rattle.clap.specs.Words.{all_of, found_of, rows_of, subcommand_rows_of};
ghost use Rattle.settings.specs.Lines.{AreSizes, GivesAsm, GivesCheck, GivesCounts, GivesDis, GivesExplain};
ghost use Rattle.settings.specs.Lines.{GivesExplore, GivesHunt, GivesLines, GivesOrder, GivesPage, GivesPicture};
ghost use Rattle.settings.specs.Lines.{GivesReplay};
ghost use Rattle.settings.specs.Lines.{GivesReport, GivesRun, GivesSchedule, GivesSession, GivesStory, GivesStudy};
ghost use Rattle.settings.specs.Lines.{GivesStyle, GivesTrace, GivesWords, IsChoice, IsChosen, IsFlag, IsNumber};
ghost use Rattle.settings.specs.Lines.{IsOption, IsPath};
ghost use Rattle.settings.specs.Plain.{texts_of};
ghost use Rattle.settings.specs.Given.{HasAsm, HasDebug, HasDis, HasExplore, HasHunt, HasLines, HasNumber};
ghost use Rattle.settings.specs.Given.{HasPage, HasPath, HasPicture, HasReplay, HasRun, HasSizes, HasStudy};
ghost use Rattle.settings.specs.Given.{IsComplete};
ghost use Rattle.command_forms.specs.Forms.{bounded, bounds_as, ranged, ranged_as};

use crate::choice::{
    Asm, Check, Counts, Dis, Explain, Explore, Hunt, LineStyle, Lines, Order, Page, Picture,
    Replay, Report, Run, Schedule, Session, Settings, Sizes, Story, Study, Trace, Words,
};
use clap::ArgMatches;
use command_forms::{
    BUDGET, COMBINATIONS, ChoiceOption, DEPTH, FIRST_LINE, FIRST_START, FIRST_STEP, JOBS,
    LAST_LINE, NumberOption, PORT, PROCESSOR, QUEUE, RECORDS, RUN_STEPS, RUNS, SECONDS,
    SHARED_WORD, SHARED_WORDS, STAGES, START, STATES, STEP, STEP_COUNT, STEPS, SWEEP_STEPS,
    WITNESS,
};
use std::alloc::{AllocError, Global};

/// The text of a required argument.
fn path<'a>(matches: &ArgMatches<'a>, id: &str) -> &'a str
    requires { HasPath id.now (rows_of (found_of matches.now)) }
    ensures { IsPath id.now (rows_of (found_of matches.now)) result.now }
{
    matches.get_str(id).unwrap()
}

/// The text of an optional argument.
fn option<'a>(matches: &ArgMatches<'a>, id: &str) -> Option<&'a str>
    ensures { IsOption id.now (rows_of (found_of matches.now)) result }
{
    matches.get_str(id)
}

/// Returns whether a flag is given.
fn flag(matches: &ArgMatches<'_>, id: &str) -> bool
    ensures { IsFlag id.now (rows_of (found_of matches.now)) result }
{
    match matches.get_str(id) {
        Some(text) => text == "true",
        None => false,
    }
}

/// The number of the option with this name, if it is given.
fn choice_of(matches: &ArgMatches<'_>, id: &str, low: u32, high: u32) -> Option<u32>
    requires { HasNumber (bounds_as id.now low high) (rows_of (found_of matches.now)) }
    ensures { IsChoice (bounds_as id.now low high) (rows_of (found_of matches.now)) result }
{
    matches.get_one::<u32>(id)
}

/// The number of an option, if it is given.
fn choice(matches: &ArgMatches<'_>, option: ChoiceOption) -> Option<u32>
    requires { HasNumber (bounded option) (rows_of (found_of matches.now)) }
    ensures { IsChoice (bounded option) (rows_of (found_of matches.now)) result }
{
    choice_of(matches, option.name, option.low, option.high)
}

/// The number of an option, as a byte, if it is given.
fn byte_choice(matches: &ArgMatches<'_>, option: ChoiceOption) -> Option<u8>
    requires text { HasNumber (bounded option) (rows_of (found_of matches.now)) }
    requires byte { option.high < 2 ^ 8 }
    ensures { IsChoice (bounded option) (rows_of (found_of matches.now)) result }
{
    match choice(matches, option) {
        Some(number) => Some(number as u8),
        None => None,
    }
}

/// The number of the option with this name, or its default.
fn number_of(matches: &ArgMatches<'_>, id: &str, default: u32, low: u32, high: u32) -> u32
    requires text { HasNumber (bounds_as id.now low high) (rows_of (found_of matches.now)) }
    requires least { low ≤ default }
    requires most { default ≤ high }
    ensures { IsNumber (ranged_as id.now default low high) (rows_of (found_of matches.now)) result }
{
    choice_of(matches, id, low, high).unwrap_or(default)
}

/// The number of an option, or its default.
fn number(matches: &ArgMatches<'_>, option: NumberOption) -> u32
    requires text { HasNumber (ranged option).bounds (rows_of (found_of matches.now)) }
    requires least { option.low ≤ option.default }
    requires most { option.default ≤ option.high }
    ensures { IsNumber (ranged option) (rows_of (found_of matches.now)) result }
{
    number_of(
        matches,
        option.name,
        option.default,
        option.low,
        option.high,
    )
}

/// The number of an option, or its default, as a byte.
fn byte(matches: &ArgMatches<'_>, option: NumberOption) -> u8
    requires text { HasNumber (ranged option).bounds (rows_of (found_of matches.now)) }
    requires least { option.low ≤ option.default }
    requires most { option.default ≤ option.high }
    requires byte { option.high < 2 ^ 8 }
    ensures { IsNumber (ranged option) (rows_of (found_of matches.now)) result }
{
    number(matches, option) as u8
}

/// The number of an option, or its default, as a port's number.
fn short(matches: &ArgMatches<'_>, option: NumberOption) -> u16
    requires text { HasNumber (ranged option).bounds (rows_of (found_of matches.now)) }
    requires least { option.low ≤ option.default }
    requires most { option.default ≤ option.high }
    requires short { option.high < 2 ^ 16 }
    ensures { IsNumber (ranged option) (rows_of (found_of matches.now)) result }
{
    number(matches, option) as u16
}

fn words<'a>(matches: &ArgMatches<'a>) -> Words<'a>
    requires { HasPath (codes "FILE") (rows_of (found_of matches.now)) }
    ensures { GivesWords (rows_of (found_of matches.now)) result }
{
    Words {
        file: path(matches, "FILE"),
    }
}

fn check<'a>(matches: &ArgMatches<'a>) -> Check<'a>
    requires { HasPath (codes "FILE") (rows_of (found_of matches.now)) }
    ensures { GivesCheck (rows_of (found_of matches.now)) result }
{
    Check {
        file: path(matches, "FILE"),
        course: flag(matches, "course"),
        json: flag(matches, "json"),
    }
}

fn asm<'a>(matches: &ArgMatches<'a>) -> Asm<'a>
    requires { HasAsm (rows_of (found_of matches.now)) }
    ensures { GivesAsm (rows_of (found_of matches.now)) result }
{
    Asm {
        file: path(matches, "FILE"),
        out: path(matches, "OUT"),
        course: flag(matches, "course"),
        symbols: option(matches, "symbols"),
    }
}

fn dis<'a>(matches: &ArgMatches<'a>) -> Dis<'a>
    requires { HasDis (rows_of (found_of matches.now)) }
    ensures { GivesDis (rows_of (found_of matches.now)) result }
{
    Dis {
        file: path(matches, "FILE"),
        comments: flag(matches, "comments"),
        symbols: option(matches, "symbols"),
        abi: flag(matches, "abi"),
        words: number(matches, SHARED_WORDS),
    }
}

/// The sizes of a machine.
fn sizes(matches: &ArgMatches<'_>) -> Sizes
    requires { HasSizes (rows_of (found_of matches.now)) }
    ensures { AreSizes (rows_of (found_of matches.now)) result }
{
    Sizes {
        k: byte(matches, STAGES),
        c: byte(matches, QUEUE),
        b: byte(matches, RECORDS),
        r: byte(matches, COMBINATIONS),
        words: number(matches, SHARED_WORDS),
    }
}

/// How lines are printed.
fn style<'a>(matches: &ArgMatches<'a>) -> LineStyle<'a>
    ensures { GivesStyle (rows_of (found_of matches.now)) result }
{
    LineStyle {
        symbols: option(matches, "symbols"),
        decimal: flag(matches, "decimal"),
        json: flag(matches, "json"),
    }
}

fn run<'a>(matches: &ArgMatches<'a>) -> Run<'a>
    requires { HasRun (rows_of (found_of matches.now)) }
    ensures { GivesRun (rows_of (found_of matches.now)) result }
{
    Run {
        file: path(matches, "FILE"),
        trace: option(matches, "trace"),
        sweep: flag(matches, "sweep"),
        no_log: flag(matches, "no-log"),
        unfinished: flag(matches, "unfinished"),
        quiet: flag(matches, "quiet"),
        style: style(matches),
        sizes: sizes(matches),
        budget: number(matches, BUDGET),
        start: number(matches, START),
    }
}

fn replay<'a>(matches: &ArgMatches<'a>) -> Replay<'a>
    requires { HasReplay (rows_of (found_of matches.now)) }
    ensures { GivesReplay (rows_of (found_of matches.now)) result }
{
    Replay {
        trace: path(matches, "TRACE"),
        file: path(matches, "FILE"),
        words: number(matches, SHARED_WORDS),
    }
}

fn report<'a>(matches: &ArgMatches<'a>) -> Report<'a>
    requires { HasReplay (rows_of (found_of matches.now)) }
    ensures { GivesReport (rows_of (found_of matches.now)) result }
{
    Report {
        replay: replay(matches),
        style: style(matches),
    }
}

fn counts<'a>(matches: &ArgMatches<'a>) -> Counts<'a>
    requires { HasReplay (rows_of (found_of matches.now)) }
    ensures { GivesCounts (rows_of (found_of matches.now)) result }
{
    Counts {
        replay: replay(matches),
        latency: flag(matches, "latency"),
        queues: flag(matches, "queues"),
        csv: flag(matches, "csv"),
        json: flag(matches, "json"),
    }
}

/// The words of an optional argument, none if it is not given.
fn words_of<'a>(
    alloc: Global,
    matches: &ArgMatches<'a>,
    id: &str,
) -> Result<Vec<&'a str>, AllocError>
    ensures { IfOk result (λ words. texts_of words.items
        ≡ unwrap_or (all_of id.now (rows_of (found_of matches.now))) []) }
{
    match matches.get_raw(id) {
        Some(words) => copy_of(alloc, words),
        None => Ok(Vec::new(alloc)),
    }
}

/// A copy of a list of words.
fn copy_of<'a>(alloc: Global, words: &[&'a str]) -> Result<Vec<&'a str>, AllocError>
    ensures { IfOk result (λ copy. copy.items ≡ words.now) }
{
    let mut copy = Vec::new(alloc);
    copy.extend_from_slice(words)?;
    Ok(copy)
}

fn explain<'a>(alloc: Global, matches: &ArgMatches<'a>) -> Result<Explain<'a>, AllocError>
    ensures { IfOk result (GivesExplain (rows_of (found_of matches.now))) }
{
    Ok(Explain {
        words: words_of(alloc, matches, "CODE")?,
    })
}

fn lines<'a>(matches: &ArgMatches<'a>) -> Lines<'a>
    requires { HasLines (rows_of (found_of matches.now)) }
    ensures { GivesLines (rows_of (found_of matches.now)) result }
{
    Lines {
        replay: replay(matches),
        processor: byte_choice(matches, PROCESSOR),
        word: choice(matches, SHARED_WORD),
        from: choice(matches, FIRST_LINE),
        to: choice(matches, LAST_LINE),
        style: style(matches),
    }
}

fn order<'a>(matches: &ArgMatches<'a>) -> Order<'a>
    requires { HasLines (rows_of (found_of matches.now)) }
    ensures { GivesOrder (rows_of (found_of matches.now)) result }
{
    Order {
        lines: lines(matches),
        abi: flag(matches, "abi"),
    }
}

fn story<'a>(matches: &ArgMatches<'a>) -> Story<'a>
    requires { HasLines (rows_of (found_of matches.now)) }
    ensures { GivesStory (rows_of (found_of matches.now)) result }
{
    Story {
        lines: lines(matches),
        network: flag(matches, "network"),
        rounds: flag(matches, "rounds"),
    }
}

fn picture<'a>(matches: &ArgMatches<'a>) -> Picture<'a>
    requires { HasPicture (rows_of (found_of matches.now)) }
    ensures { GivesPicture (rows_of (found_of matches.now)) result }
{
    Picture {
        replay: replay(matches),
        step: choice(matches, STEP),
        symbols: option(matches, "symbols"),
    }
}

fn page<'a>(matches: &ArgMatches<'a>) -> Page<'a>
    requires { HasPage (rows_of (found_of matches.now)) }
    ensures { GivesPage (rows_of (found_of matches.now)) result }
{
    Page {
        replay: replay(matches),
        from: choice(matches, FIRST_STEP),
        steps: choice(matches, STEP_COUNT),
        symbols: option(matches, "symbols"),
    }
}

fn study<'a>(matches: &ArgMatches<'a>) -> Study<'a>
    requires { HasStudy (rows_of (found_of matches.now)) }
    ensures { GivesStudy (rows_of (found_of matches.now)) result }
{
    Study {
        file: path(matches, "FILE"),
        ks: option(matches, "k"),
        bs: option(matches, "b"),
        rs: option(matches, "r"),
        plot: option(matches, "plot"),
        csv: flag(matches, "csv"),
        json: flag(matches, "json"),
        c: byte(matches, QUEUE),
        words: number(matches, SHARED_WORDS),
        budget: number(matches, SWEEP_STEPS),
    }
}

fn trace<'a>(matches: &ArgMatches<'a>) -> Trace<'a>
    requires { HasPath (codes "TRACE") (rows_of (found_of matches.now)) }
    ensures { GivesTrace (rows_of (found_of matches.now)) result }
{
    Trace {
        trace: path(matches, "TRACE"),
    }
}

fn schedule<'a>(matches: &ArgMatches<'a>) -> Schedule<'a>
    requires { HasAsm (rows_of (found_of matches.now)) }
    ensures { GivesSchedule (rows_of (found_of matches.now)) result }
{
    Schedule {
        file: path(matches, "FILE"),
        out: path(matches, "OUT"),
    }
}

fn session<'a>(matches: &ArgMatches<'a>) -> Session<'a>
    requires { HasDebug (rows_of (found_of matches.now)) }
    ensures { GivesSession (rows_of (found_of matches.now)) result }
{
    Session {
        file: path(matches, "FILE"),
        trace: option(matches, "trace"),
        stdio: flag(matches, "stdio"),
        sizes: sizes(matches),
        budget: number(matches, STEPS),
        port: short(matches, PORT),
    }
}

fn explore<'a>(matches: &ArgMatches<'a>) -> Explore<'a>
    requires { HasExplore (rows_of (found_of matches.now)) }
    ensures { GivesExplore (rows_of (found_of matches.now)) result }
{
    Explore {
        file: path(matches, "FILE"),
        trace: option(matches, "trace"),
        page: option(matches, "page"),
        observe: option(matches, "observe"),
        against: option(matches, "against"),
        each: flag(matches, "each"),
        fair: flag(matches, "fair"),
        every: flag(matches, "every"),
        quiet: flag(matches, "quiet"),
        style: style(matches),
        sizes: sizes(matches),
        states: number(matches, STATES),
        seconds: choice(matches, SECONDS),
        witness: choice(matches, WITNESS),
        never: option(matches, "never"),
        always: option(matches, "always"),
        finally: option(matches, "finally"),
        filter: option(matches, "filter"),
    }
}

fn hunt<'a>(matches: &ArgMatches<'a>) -> Hunt<'a>
    requires { HasHunt (rows_of (found_of matches.now)) }
    ensures { GivesHunt (rows_of (found_of matches.now)) result }
{
    Hunt {
        file: path(matches, "FILE"),
        trace: option(matches, "trace"),
        page: option(matches, "page"),
        observe: option(matches, "observe"),
        schedule: option(matches, "schedule"),
        overwrite: flag(matches, "overwrite"),
        expect_one: flag(matches, "expect-one"),
        quiet: flag(matches, "quiet"),
        style: style(matches),
        sizes: sizes(matches),
        budget: number(matches, RUN_STEPS),
        runs: number(matches, RUNS),
        start: number(matches, FIRST_START),
        jobs: byte_choice(matches, JOBS),
        depth: byte_choice(matches, DEPTH),
    }
}

/// The settings of the subcommand in the matches. The words that `explain` is given take memory.
pub(crate) fn subcommand_settings<'a>(
    alloc: Global,
    matches: &ArgMatches<'a>,
) -> Result<Settings<'a>, AllocError>
    requires { IsComplete (subcommand_rows_of matches.now) }
    ensures { IfOk result (IsChosen (subcommand_rows_of matches.now)) }
{
    let (name, inner) = matches.subcommand().unwrap();
    match name {
        "words" => Ok(Settings::Words(words(inner))),
        "check" => Ok(Settings::Check(check(inner))),
        "asm" => Ok(Settings::Asm(asm(inner))),
        "dis" => Ok(Settings::Dis(dis(inner))),
        "run" => Ok(Settings::Run(run(inner))),
        "hunt" => Ok(Settings::Hunt(hunt(inner))),
        "explore" => Ok(Settings::Explore(explore(inner))),
        "replay" => Ok(Settings::Replay(report(inner))),
        "order" => Ok(Settings::Order(order(inner))),
        "story" => Ok(Settings::Story(story(inner))),
        "stats" => Ok(Settings::Stats(counts(inner))),
        "picture" => Ok(Settings::Picture(picture(inner))),
        "page" => Ok(Settings::Page(page(inner))),
        "study" => Ok(Settings::Study(study(inner))),
        "trace" => Ok(Settings::Trace(trace(inner))),
        "steps" => Ok(Settings::Steps(schedule(inner))),
        "debug" => Ok(Settings::Debug(session(inner))),
        "explain" => Ok(Settings::Explain(explain(alloc, inner)?)),
        _ => unreachable!(),
    }
}
