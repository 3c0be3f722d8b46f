//! `ultra`: simulates the NYU Ultracomputer.
#![tactic(auto)]

ghost use Rattle.std.specs.Prelude.{◌≡◌, false};
ghost use Rattle.trace_commands.specs.run_reports.RunReports.{IsWorking};

mod assembling;
mod loopback_port;
mod output;
mod page;
mod refusal;
mod reports;
mod standard_streams;
mod symbols;

use crate::assembling::asm_file;
use crate::loopback_port::LoopbackPort;
use crate::output::{Output, format_of};
use crate::page::page;
use crate::refusal::Refusal;
use crate::reports::{Reports, place_of};
use crate::standard_streams::StandardStreams;
use crate::symbols::symbol_bytes;
use asm_commands::{check_command, course_check_command, dis_command};
use clap::Error;
use command_io::{DONE, Fault, LINK_FAILED, REFUSED, SPENT, report_fault};
use debug_session::{Connect, debug_command};
use explain_command::{all_topics, explain_command};
use host_files::{
    Explained, FileRefusal, Place, Reason, STANDARD, open, open_beside, open_beside_trace,
    open_image, read_once, refuse, report_place, text_or_place, trace_to, writer_to,
};
use link::{Link, LinkRead, LinkWrite, Meter};
use machine_picture::Svg;
use page_command::Window;
use processor_threads::{Gate, Open};
use run_command::{Progress, run_command, threaded_run_command, unlogged_run_command};
use search_files::{asks_for_property, explore_file, hunt_file, study_file};
use settings::{
    Counts, Lines, Page, Replay, Run, Schedule, Session, Settings, settings, status_of,
};
use std::alloc::{AllocError, Global};
use std::env;
use std::io::{self, ErrorKind, Input, IsTerminal, Read, Write};
use std::net::Net;
use std::process::ExitCode;
use std::rt::{Env, Files};
use std::sync::Wait;
use std::thread::Threads;
use std::time::Clock;
use symbol_table::SymbolTable;
use trace_commands::{
    Order, Picture, Report, Selection, Story, TraceReport, lines_command, trace_command,
};
use trace_counts::{LatencyStats, QueueStats, QueueTable, Stats};
use trace_lines::Choice;
use trace_text::{steps_command, text_command};
use words_command::words_command;

/// All steps of a run.
const WHOLE: Window = Window {
    first: 0,
    last: None,
};

fn main(rt: HostRuntime) -> ExitCode {
    let (stdout, stderr) = (rt.stdout(), rt.stderr());
    let reason = Reason::new(None);
    let status = carry_out(
        &rt,
        stderr.is_terminal(),
        &reason,
        io::writer(&stdout),
        &mut io::writer(&stderr),
    );
    ExitCode::from(status)
}

/// Does what the command line asks for, and returns the exit status. `terminal` says whether standard error is a
/// terminal. A call that fails leaves its error in `reason`.
fn carry_out<
    R: Env + Files + Input + Net + Threads + Wait + Clock + Eprint + Print + Sync + AllocGlobal,
    W: Write + Drop,
    E: Write,
>(rt: &R, terminal: bool, reason: &Reason, stdout: W, err: &mut E) -> u8 {
    let arguments = match env::args(rt) {
        Ok(arguments) => arguments,
        Err(error) => return refuse_arguments(error.kind(), err),
    };
    let alloc = rt.alloc();
    let Ok(arguments) = arguments.collect::<Vec<String>>(alloc) else {
        return report_fault(Fault::Memory, err);
    };
    carry_out_words(rt, arguments.as_slice(), terminal, reason, stdout, err)
}

/// Does what the words of a command line ask for.
fn carry_out_words<
    R: Files + Input + Net + Threads + Wait + Clock + Eprint + Print + Sync + AllocGlobal,
    W: Write + Drop,
    E: Write,
>(rt: &R, arguments: &[String], terminal: bool, reason: &Reason, stdout: W, err: &mut E) -> u8 {
    let Ok(words) = texts(rt.alloc(), arguments) else {
        return report_fault(Fault::Memory, err);
    };
    match settings(rt.alloc(), words.as_slice()) {
        Ok(settings) => execute_in_format(rt, &settings, terminal, reason, stdout, err),
        Err(error) => refuse_words(words.as_slice(), &error, reason, stdout, err),
    }
}

/// Does what settings ask for, and prints its lines in the format that they ask for.
fn execute_in_format<
    R: Files + Input + Net + Threads + Wait + Clock + Eprint + Print + Sync + AllocGlobal,
    W: Write + Drop,
    E: Write,
>(rt: &R, settings: &Settings<'_>, terminal: bool, reason: &Reason, stdout: W, err: &mut E) -> u8 {
    let bytes = match symbol_bytes(rt, settings, reason) {
        Ok(bytes) => bytes,
        Err(refusal) => return refusal.report_fault(err),
    };
    if uses_names(settings) {
        execute_with_names(rt, settings, &bytes, terminal, reason, stdout, err)
    } else {
        execute_in_lines(rt, settings, &bytes, terminal, reason, stdout, err)
    }
}

/// Does what settings ask for, and prints its lines in their format, with the names that a file has if there is one.
fn execute_in_lines<
    R: Files + Input + Net + Threads + Wait + Clock + Eprint + Print + Sync + AllocGlobal,
    W: Write + Drop,
    E: Write,
>(
    rt: &R,
    settings: &Settings<'_>,
    file: &Option<Vec<u8>>,
    terminal: bool,
    reason: &Reason,
    stdout: W,
    err: &mut E,
) -> u8 {
    let Ok(symbols) = symbols_in(rt.alloc(), file) else {
        return report_fault(Fault::Memory, err);
    };
    let format = format_of(settings, symbols);
    let mut out = Meter::new(Explained {
        device: Output::new(rt.alloc(), format, stdout),
        reason,
    });
    execute_with_file(rt, settings, file, terminal, reason, &mut out, err)
}

/// Does what settings ask for, with the names that a file has if there is one.
fn execute_with_file<
    R: Files + Input + Net + Threads + Wait + Clock + Eprint + Print + Sync + AllocGlobal,
    W: LinkWrite,
    E: Write,
>(
    rt: &R,
    settings: &Settings<'_>,
    file: &Option<Vec<u8>>,
    terminal: bool,
    reason: &Reason,
    out: &mut W,
    err: &mut E,
) -> u8
    requires works { W.has_failed out.old ≡ false }
{
    match symbols_in(rt.alloc(), file) {
        Ok(names) => execute_and_report(rt, settings, &names, terminal, reason, out, err),
        Err(_) => report_fault(Fault::Memory, err),
    }
}

/// Whether a command uses names itself: to draw a picture, to write a page, or to read a condition.
fn uses_names(settings: &Settings<'_>) -> bool {
    match settings {
        Settings::Picture(_) | Settings::Page(_) => true,
        Settings::Explore(explore) => asks_for_property(explore),
        _ => false,
    }
}

/// Does what settings ask for, with the names that a file has if there is one, and prints its lines as they are.
fn execute_with_names<
    R: Files + Input + Net + Threads + Wait + Clock + Eprint + Print + Sync + AllocGlobal,
    W: Write + Drop,
    E: Write,
>(
    rt: &R,
    settings: &Settings<'_>,
    file: &Option<Vec<u8>>,
    terminal: bool,
    reason: &Reason,
    stdout: W,
    err: &mut E,
) -> u8 {
    let mut out = Meter::new(Explained {
        device: stdout,
        reason,
    });
    execute_with_file(rt, settings, file, terminal, reason, &mut out, err)
}

/// The symbols of a file, if there is one.
fn symbols_in(
    alloc: Global,
    file: &Option<Vec<u8>>,
) -> Result<Option<SymbolTable<'_>>, AllocError> {
    match file {
        Some(bytes) => Ok(Some(SymbolTable::of_file(alloc, bytes.as_slice())?)),
        None => Ok(None),
    }
}

/// Does what settings ask for, with these names if it uses them itself, and reports in a second line which file is at
/// fault.
fn execute_and_report<
    R: Files + Input + Net + Threads + Wait + Clock + Eprint + Print + Sync + AllocGlobal,
    W: LinkWrite,
    E: Write,
>(
    rt: &R,
    settings: &Settings<'_>,
    names: &Option<SymbolTable<'_>>,
    terminal: bool,
    reason: &Reason,
    out: &mut W,
    err: &mut E,
) -> u8
    requires works { W.has_failed out.old ≡ false }
{
    let mut reports = Reports { err, letter: None };
    let done = execute(rt, settings, names, terminal, reason, out, &mut reports);
    let Reports { err, letter } = reports;
    let status = match done {
        Ok(status) => status,
        Err(refusal) => return refusal.report_fault(err),
    };
    let place = match letter {
        None => None,
        Some(_) if out.failed() => Some(Place::StandardOutput),
        Some(b'I') if status == REFUSED => place_of(settings, b'I').map(text_or_place),
        Some(letter) => place_of(settings, letter),
    };
    if let Some(place) = place {
        let reason = if status == LINK_FAILED {
            reason.get()
        } else {
            None
        };
        report_place(place, reason, err);
    }
    status
}

/// Does what settings ask for, with these names if it uses them itself.
fn execute<
    'a,
    R: Files + Input + Net + Threads + Wait + Clock + Eprint + Print + Sync + AllocGlobal,
    W: LinkWrite,
    E: Write,
>(
    rt: &R,
    settings: &Settings<'a>,
    names: &Option<SymbolTable<'_>>,
    terminal: bool,
    reason: &Reason,
    out: &mut W,
    err: &mut E,
) -> Result<u8, Refusal<'a>>
    requires works { W.has_failed out.old ≡ false }
{
    let alloc = rt.alloc();
    match settings {
        Settings::Words(words) => {
            let file = open(rt, words.file, reason)?;
            Ok(words_command(alloc, file, out, err))
        }
        Settings::Check(check) => {
            let mut file = Meter::new(open(rt, check.file, reason)?);
            if check.course {
                return Ok(course_check_command(alloc, &mut file, out, err));
            }
            Ok(check_command(alloc, &mut file, out, err))
        }
        Settings::Asm(asm) => asm_file(rt, asm, reason, out, err),
        Settings::Dis(dis) => {
            let mut file = Meter::new(open(rt, dis.file, reason)?);
            Ok(dis_command(alloc, &mut file, dis.words, dis.comments, out, err))
        }
        Settings::Run(run) => run_file(rt, run, terminal, reason, out, err),
        Settings::Hunt(hunt) => {
            let page = page(WHOLE, names.as_ref());
            Ok(hunt_file(rt, hunt, page, terminal, reason, out, err)?)
        }
        Settings::Explore(explore) => {
            let page = page(WHOLE, names.as_ref());
            Ok(explore_file(rt, explore, names, page, terminal, reason, out, err)?)
        }
        Settings::Replay(report) => tell_steps(rt, &report.replay, &Report, reason, out, err),
        Settings::Order(order) => {
            let choice = choice_of(&order.lines, false);
            let report = Order { choice };
            tell_part(rt, &order.lines.replay, &choice, &report, reason, out, err)
        }
        Settings::Story(story) => {
            let choice = choice_of(&story.lines, story.network);
            let rounds = story.rounds;
            let report = Story { choice, rounds };
            tell_part(rt, &story.lines.replay, &choice, &report, reason, out, err)
        }
        Settings::Stats(counts) if counts.queues => tell_queues(rt, counts, reason, out, err),
        Settings::Stats(counts) if counts.latency => {
            tell_steps(rt, &counts.replay, &LatencyStats, reason, out, err)
        }
        Settings::Stats(counts) => tell_steps(rt, &counts.replay, &Stats, reason, out, err),
        Settings::Picture(asked) => {
            let picture = Picture {
                step: asked.step,
                drawing: Svg {
                    names: names.as_ref(),
                },
            };
            tell_steps(rt, &asked.replay, &picture, reason, out, err)
        }
        Settings::Page(asked) => {
            let window = window_of(asked);
            let page = page(window, names.as_ref());
            tell_part(rt, &asked.replay, &window, &page, reason, out, err)
        }
        Settings::Study(study) => Ok(study_file(rt, study, reason, out, err)?),
        Settings::Trace(asked) => {
            let mut trace = Meter::new(open(rt, asked.trace, reason)?);
            Ok(text_command(alloc, &mut trace, out, err))
        }
        Settings::Steps(schedule) => write_steps(rt, schedule, reason, out, err),
        Settings::Debug(session) => debug_file(rt, session, reason, out, err),
        Settings::Explain(explain) => {
            let topics = all_topics();
            let words = explain.words.as_slice();
            Ok(explain_command(alloc, &topics, words, out, err))
        }
    }
}

/// Makes a trace of a text of steps. The first write to OUT opens it.
fn write_steps<'a, R: Files + Input + AllocGlobal, W: LinkWrite, E: Write>(
    rt: &R,
    schedule: &Schedule<'a>,
    reason: &Reason,
    out: &mut W,
    err: &mut E,
) -> Result<u8, Refusal<'a>>
    requires works { W.has_failed out.old ≡ false }
{
    if schedule.out == STANDARD {
        let mut file = Meter::new(open(rt, schedule.file, reason)?);
        return Ok(steps_command(rt.alloc(), &mut file, out, err));
    }
    let mut file = Meter::new(open_beside(rt, schedule.file, Some(schedule.out), reason)?);
    let mut trace = writer_to(rt, schedule.out, reason);
    Ok(steps_command(rt.alloc(), &mut file, &mut trace, err))
}

/// Opens a trace, and then the image of its run, and reports on its steps. If the image cannot be opened, the command
/// reports it after what is wrong with the trace.
fn tell_steps<'a, A: TraceReport, R: Files + Input + AllocGlobal, W: LinkWrite, E: Write>(
    rt: &R,
    replay: &Replay<'a>,
    trace_report: &A,
    reason: &Reason,
    out: &mut W,
    err: &mut E,
) -> Result<u8, Refusal<'a>>
    requires works { W.has_failed out.old ≡ false }
{
    read_once(replay.trace, replay.file)?;
    let mut trace = Meter::new(open(rt, replay.trace, reason)?);
    let mut file = open_image(rt, replay.file, reason);
    let words = replay.words;
    Ok(trace_command(
        rt.alloc(),
        &mut trace,
        &mut file,
        words,
        trace_report,
        out,
        err,
    ))
}

/// Does what `stats --queues TRACE FILE` asks for.
fn tell_queues<'a, R: Files + Input + AllocGlobal, W: LinkWrite, E: Write>(
    rt: &R,
    counts: &Counts<'a>,
    reason: &Reason,
    out: &mut W,
    err: &mut E,
) -> Result<u8, Refusal<'a>>
    requires works { W.has_failed out.old ≡ false }
{
    if counts.latency {
        return Err(Refusal::Queues);
    }
    if counts.csv {
        tell_steps(rt, &counts.replay, &QueueTable, reason, out, err)
    } else {
        tell_steps(rt, &counts.replay, &QueueStats, reason, out, err)
    }
}

/// The choice of lines that a command is asked for, of all steps or of the network's alone.
fn choice_of(lines: &Lines<'_>, network: bool) -> Choice
    ensures { result ≡ record {
      processor = lines.now.processor;
      word = lines.now.word;
      from = lines.now.from;
      to = lines.now.to;
      network = network;
    } }
{
    Choice {
        processor: lines.processor,
        word: lines.word,
        from: lines.from,
        to: lines.to,
        network,
    }
}

/// The steps that a page is asked for.
fn window_of(page: &Page<'_>) -> Window {
    let first = page.from.unwrap_or(0);
    let last = match page.steps {
        Some(steps) => Some(first.saturating_add(steps.saturating_sub(1))),
        None => None,
    };
    Window { first, last }
}

/// Opens a trace, and then the image of its run, and prints what is selected of its steps, as [`tell_steps`] prints a
/// report.
fn tell_part<
    'a,
    S: Selection,
    A: TraceReport,
    R: Files + Input + AllocGlobal,
    W: LinkWrite,
    E: Write,
>(
    rt: &R,
    replay: &Replay<'a>,
    selection: &S,
    trace_report: &A,
    reason: &Reason,
    out: &mut W,
    err: &mut E,
) -> Result<u8, Refusal<'a>>
    requires works { W.has_failed out.old ≡ false }
{
    read_once(replay.trace, replay.file)?;
    let mut trace = Meter::new(open(rt, replay.trace, reason)?);
    let mut file = open_image(rt, replay.file, reason);
    Ok(lines_command(
        rt.alloc(),
        &mut trace,
        &mut file,
        replay.words,
        selection,
        trace_report,
        out,
        err,
    ))
}

/// Does what `run FILE` asks for. The first write to OUT opens it.
fn run_file<
    'a,
    R: Files + Input + Threads + Wait + Clock + Eprint + Sync + AllocGlobal,
    W: LinkWrite,
    E: Write,
>(
    rt: &R,
    run: &Run<'a>,
    terminal: bool,
    reason: &Reason,
    out: &mut W,
    err: &mut E,
) -> Result<u8, Refusal<'a>>
    requires works { W.has_failed out.old ≡ false }
{
    if run.no_log && (!run.sweep || run.trace.is_some()) {
        return Err(Refusal::NoLog);
    }
    let mut file = Meter::new(open_beside_trace(rt, run.file, run.trace, reason)?);
    let mut trace = trace_to(rt, run.trace, reason);
    Ok(run_image(rt, &mut file, run, terminal, &mut trace, out, err))
}

/// Runs an image, on threads or by the sweep, with or without a log. The progress of threads is reported on a terminal.
fn run_image<
    F: LinkRead,
    T: LinkWrite,
    R: Threads + Wait + Clock + Eprint + Sync + AllocGlobal,
    W: LinkWrite,
    E: Write,
>(
    rt: &R,
    file: &mut F,
    run: &Run<'_>,
    terminal: bool,
    trace: &mut Option<T>,
    out: &mut W,
    err: &mut E,
) -> u8
    requires reads { F.has_failed file.old ≡ false }
    requires saves { IsWorking T.has_failed trace.old }
    requires works { W.has_failed out.old ≡ false }
{
    let alloc = rt.alloc();
    let config = run.sizes.config();
    if run.no_log {
        unlogged_run_command(alloc, file, config, run.budget, run.unfinished, out, err)
    } else if run.sweep {
        run_command(
            alloc,
            file,
            config,
            run.budget,
            run.unfinished,
            trace,
            out,
            err,
        )
    } else if terminal && !run.quiet {
        run_on_threads(rt, file, run, &Progress::new(rt, rt), trace, out, err)
    } else {
        run_on_threads(rt, file, run, &Open, trace, out, err)
    }
}

/// Runs an image on threads, which pass the gate.
fn run_on_threads<
    F: LinkRead,
    T: LinkWrite,
    G: Gate + Sync,
    R: Threads + Wait + Sync + AllocGlobal,
    W: LinkWrite,
    E: Write,
>(
    rt: &R,
    file: &mut F,
    run: &Run<'_>,
    gate: &G,
    trace: &mut Option<T>,
    out: &mut W,
    err: &mut E,
) -> u8
    requires reads { F.has_failed file.old ≡ false }
    requires saves { IsWorking T.has_failed trace.old }
    requires works { W.has_failed out.old ≡ false }
{
    threaded_run_command(
        rt,
        rt.alloc(),
        file,
        run.sizes.config(),
        run.start,
        gate,
        run.budget,
        run.unfinished,
        trace,
        out,
        err,
    )
}

/// Does what `debug FILE` asks for, over standard input and output or at a port.
fn debug_file<'a, R: Files + Input + Print + Net + Wait + AllocGlobal, W: Write, E: Write>(
    rt: &R,
    session: &Session<'a>,
    reason: &Reason,
    out: &mut W,
    err: &mut E,
) -> Result<u8, Refusal<'a>> {
    if session.stdio {
        if session.file == STANDARD {
            return Err(Refusal::File(FileRefusal::InputTwice));
        }
        let mut streams = StandardStreams { rt, reason };
        return debug_over(rt, session, &mut streams, reason, err);
    }
    let mut loopback_port = LoopbackPort {
        net: rt,
        port: session.port,
        reason,
        out,
    };
    debug_over(rt, session, &mut loopback_port, reason, err)
}

/// Serves the session over the link that `door` gives. The first write to OUT opens it.
fn debug_over<'a, C: Connect, R: Files + Input + Wait + AllocGlobal, E: Write>(
    rt: &R,
    session: &Session<'a>,
    door: &mut C,
    reason: &Reason,
    err: &mut E,
) -> Result<u8, Refusal<'a>> {
    let mut file = Meter::new(open_beside_trace(rt, session.file, session.trace, reason)?);
    let config = session.sizes.config();
    let mut trace = trace_to(rt, session.trace, reason);
    let budget = session.budget;
    Ok(debug_command(
        rt,
        rt.alloc(),
        &mut file,
        config,
        budget,
        door,
        &mut trace,
        err,
    ))
}

/// The arguments as texts.
fn texts<'a>(alloc: Global, arguments: &'a [String]) -> Result<Vec<&'a str>, AllocError> {
    let mut texts = Vec::new(alloc);
    for argument in arguments {
        texts.push(argument.as_str())?;
    }
    Ok(texts)
}

/// Reports that the arguments could not be read: one of them is not UTF-8, or there is no memory.
fn refuse_arguments<E: Write>(kind: ErrorKind, err: &mut E) -> u8 {
    if kind == ErrorKind::OutOfMemory {
        return report_fault(Fault::Memory, err);
    }
    refuse("an argument is not UTF-8", err)
}

/// Reports why the command line is refused, in the words of its parser. Help and the version that were asked for go to
/// standard output.
fn refuse_words<W: Write + Drop, E: Write>(
    words: &[&str],
    error: &Error,
    reason: &Reason,
    stdout: W,
    err: &mut E,
) -> u8 {
    let status = status_of(words, error);
    if status == SPENT {
        return report_fault(Fault::Memory, err);
    }
    if error.use_stderr() {
        let _ = write!(err, "{error}");
        return status;
    }
    let mut out = Meter::new(Explained {
        device: stdout,
        reason,
    });
    match write!(out, "{error}") {
        // The command line is the first fault, whether its text can be printed or not. The command `help` is none.
        Err(_) if status == DONE => refuse_help(reason, &out, err),
        _ => status,
    }
}

/// Reports that help cannot be printed: standard output has failed, or there is no memory for the text.
fn refuse_help<W: LinkWrite, E: Write>(reason: &Reason, out: &W, err: &mut E) -> u8 {
    if !out.failed() {
        return report_fault(Fault::Memory, err);
    }
    let status = report_fault(Fault::Link, err);
    report_place(Place::StandardOutput, reason.get(), err);
    status
}
