//! The results for every size of a machine, one line each.

ghost use Rattle.std.specs.Prelude.{◌≡◌, ◌↔◌, ◌++◌, ◌≤◌, true, false, max, Option, IfOk, IfErr, IsErrOf, OnErr, OnOk};
ghost use Rattle.std.specs.Prelude.{option_map, string_bytes};
ghost use Rattle.flat_machine.specs.Limits.{IsWithinLimits};
ghost use Rattle.command_io.specs.ErrorOutputs.{errors_to};
ghost use Rattle.command_io.specs.Links.{input, output};
ghost use Rattle.explore_command.specs.Explorations.{IsFound, exploration_of, problem_of, search_result};
ghost use Rattle.explore_command.specs.Sizes.{FailsBefore, FailsSize, FailsSizes, IsGreatestStatus, IsSizeLine};
ghost use Rattle.explore_command.specs.Sizes.{IsSizeRefused, PrintsEverySize, PrintsFirst, PrintsSize};
ghost use Rattle.explore_command.specs.Sizes.{ReportsEverySize, greatest_text, refusal_text, refused_line};
ghost use Rattle.explore_command.specs.Sizes.{size_line, size_text, sizes};
ghost use Rattle.observed_results.specs.Parts.{count_of};

use crate::command::Asked;
use crate::greatest::greatest_status;
use crate::report::fault_of_search;
use crate::searching::{find_results, search_of};
use crate::status::exit_status;
use command_io::{Fault, image_of, machine_of_copy, print, push_status, report_fault};
use elf_image::{Image, ImageError};
use exploration::{Explored, SearchObserver};
use flat_machine::{Config, Status};
use link::{LinkRead, LinkWrite, laws};
use observed_results::{ObservedWords, count_of, push_count, push_schedules};
use std::alloc::{AllocError, Global};
use std::fmt::Write as Format;
use std::io::Write;

/// How many sizes there are: a machine has 0 to 6 stages of switches.
const SIZES: u8 = 7;

/// Reads an image, explores its program on machines of every size, one after another, and prints a line for each: the
/// numbers of results and states, how schedules end, and the greatest status of a processor; or why the size is not
/// explored. The observer sees the progress of each search. The `k` of `config` is ignored.
///
/// Returns the greatest exit status of all sizes, each as [`explore_command`](crate::explore_command) returns it. If
/// the image is refused, a line cannot be printed, or there is no memory for it, returns that of the fault reported on
/// standard error.
pub fn explore_every_size<R: LinkRead, G: SearchObserver, W: LinkWrite, E: Write>(
    alloc: Global,
    file: &mut R,
    config: Config,
    asked: Asked<'_>,
    observer: &mut G,
    out: &mut W,
    err: &mut E,
) -> u8
    requires reads { R.has_failed file.old ≡ false }
    requires prints { W.has_failed out.old ≡ false }
    ensures fault { ReportsEverySize
        (exploration_of config asked.entry (input R.remaining R.has_failed file.old file.new))
        (output W.contents W.has_failed out.old out.new) (errors_to E.contents err.old err.new) result }
{
    match print_every_size(alloc, file, config, asked, observer, out, err) {
        Ok(status) => status,
        Err(fault) => report_fault(fault, err),
    }
}

/// Prints the lines, and returns the greatest of their exit statuses.
fn print_every_size<R: LinkRead, G: SearchObserver, W: LinkWrite, E: Write>(
    alloc: Global,
    file: &mut R,
    config: Config,
    asked: Asked<'_>,
    observer: &mut G,
    out: &mut W,
    err: &mut E,
) -> Result<u8, Fault>
    requires reads { R.has_failed file.old ≡ false }
    requires prints { W.has_failed out.old ≡ false }
    ensures printed { IfOk result
        (PrintsEverySize (exploration_of config asked.entry (input R.remaining R.has_failed file.old file.new))
        (output W.contents W.has_failed out.old out.new) (errors_to E.contents err.old err.new)) }
    ensures refused { IfErr result
        (FailsBefore (exploration_of config asked.entry (input R.remaining R.has_failed file.old file.new))
        (output W.contents W.has_failed out.old out.new) (errors_to E.contents err.old err.new)) }
    ensures unwritten { IsErrOf result Fault.Link ↔ (W.has_failed out.new ≡ true) }
    ensures unread { IsErrOf result (Fault.Image ImageError.Link) ↔ (R.has_failed file.new ≡ true) }
{
    let image = image_of(alloc, file, &config)?;
    print_sizes(alloc, &image, config, asked, observer, out, err)
}

/// Prints the lines of every size for an image.
// A law about texts written in parts says what is printed if a line is not written whole.
fn print_sizes<G: SearchObserver, W: LinkWrite, E: Write>(
    alloc: Global,
    image: &Image,
    config: Config,
    asked: Asked<'_>,
    observer: &mut G,
    out: &mut W,
    err: &mut E,
) -> Result<u8, Fault>
    requires words { image.now.shared_words ≡ config.shared_words }
    requires prints { W.has_failed out.old ≡ false }
    ensures printed { IfOk result (PrintsFirst (problem_of config image.now asked.entry) sizes
        (output W.contents W.has_failed out.old out.new) (errors_to E.contents err.old err.new)) }
    ensures refused { IfErr result (FailsSizes (problem_of config image.now asked.entry)
        (output W.contents W.has_failed out.old out.new) (errors_to E.contents err.old err.new)) }
    ensures unwritten { IsErrOf result Fault.Link ↔ (W.has_failed out.new ≡ true) }
{
    laws::parts_make_a_beginning();
    let mut status = 0;
    for k in 0..SIZES {
        let size = Config { k, ..config };
        let exit = print_size(alloc, image, size, asked, observer, out, err)?;
        status = greater(status, exit);
    }
    Ok(status)
}

/// The greater of two exit statuses.
fn greater(one: u8, other: u8) -> u8
    ensures { result ≡ max one other }
{
    if one < other { other } else { one }
}

/// Prints the line of a size, and returns its exit status.
fn print_size<G: SearchObserver, W: LinkWrite, E: Write>(
    alloc: Global,
    image: &Image,
    config: Config,
    asked: Asked<'_>,
    observer: &mut G,
    out: &mut W,
    err: &mut E,
) -> Result<u8, Fault>
    requires words { image.now.shared_words ≡ config.shared_words }
    requires few { config.k ≤ 6 }
    requires prints { W.has_failed out.old ≡ false }
    ensures printed { IfOk result (PrintsSize (problem_of config image.now asked.entry)
        (output W.contents W.has_failed out.old out.new) (errors_to E.contents err.old err.new)) }
    ensures works { OnOk result (W.has_failed out.new ≡ false) }
    ensures refused { IfErr result (FailsSize (problem_of config image.now asked.entry)
        (output W.contents W.has_failed out.old out.new) (errors_to E.contents err.old err.new)) }
    ensures unwritten { IsErrOf result Fault.Link ↔ (W.has_failed out.new ≡ true) }
{
    let (line, status) = line_of(alloc, image, config, asked, observer, err)?;
    print(out, line.as_str())?;
    Ok(status)
}

/// The line of a size, and its exit status. If the size is not explored, standard error also reports the fault.
fn line_of<G: SearchObserver, E: Write>(
    alloc: Global,
    image: &Image,
    config: Config,
    asked: Asked<'_>,
    observer: &mut G,
    err: &mut E,
) -> Result<(String, u8), AllocError>
    requires words { image.now.shared_words ≡ config.shared_words }
    requires few { config.k ≤ 6 }
    ensures line { IfOk result (λ done. IsSizeLine (problem_of config image.now asked.entry)
        (errors_to E.contents err.old err.new) (string_bytes done.0) done.1) }
    ensures quiet { OnErr result (err.new ≡ err.old) }
{
    match explore_size(alloc, image, config, asked, observer) {
        Ok(explored) => Ok((
            line_of_explored(alloc, config.k, &explored, asked.observed)?,
            exit_status(explored.results.as_slice(), explored.termination),
        )),
        Err(fault) => {
            let line = line_of_refused(alloc, config.k, fault)?;
            Ok((line, report_fault(fault, err)))
        }
    }
}

/// Explores a size.
fn explore_size<G: SearchObserver>(
    alloc: Global,
    image: &Image,
    config: Config,
    asked: Asked<'_>,
    observer: &mut G,
) -> Result<Explored, Fault>
    requires words { image.now.shared_words ≡ config.shared_words }
    ensures found { IfOk result (λ found. IsFound (problem_of config image.now asked.entry)
        (search_result found.classes.items found.results.items found.termination found.fairness found.states)) }
    ensures refused { IfErr result (IsSizeRefused (problem_of config image.now asked.entry)) }
    ensures size { (IsWithinLimits config → ⊥) → IsErrOf result Fault.Size }
{
    let machine = machine_of_copy(alloc, image, config)?;
    match find_results(alloc, &machine, search_of(asked, false), observer) {
        Ok(found) => Ok(found),
        Err(given_up) => Err(fault_of_search(given_up.why())),
    }
}

/// The line of a size that is explored.
fn line_of_explored(
    alloc: Global,
    k: u8,
    found: &Explored,
    observed: Option<&ObservedWords>,
) -> Result<String, AllocError>
    requires { k ≤ 6 }
    ensures { IfOk result (λ line. (greatest : Option Status) × IsGreatestStatus found.now.results.items greatest
        × (string_bytes line
        ≡ size_line k (count_of (option_map (λ words. words.now) observed.entry) found.now.results.items)
        found.now.states found.now.termination greatest)) }
{
    let count = count_of(alloc, found.results.as_slice(), observed)?;
    let mut text = String::new(alloc);
    push_size(&mut text, k)?;
    push_count(&mut text, count, "result")?;
    text.push_str(", ")?;
    push_count(&mut text, found.states, "state")?;
    text.push_str(", ")?;
    push_schedules(&mut text, found.termination)?;
    text.push_str(", ")?;
    push_greatest(alloc, &mut text, greatest_status(found.results.as_slice()))?;
    text.push('\n')?;
    Ok(text)
}

/// The line of a size that is not explored.
fn line_of_refused(alloc: Global, k: u8, fault: Fault) -> Result<String, AllocError>
    requires { k ≤ 6 }
    ensures { IfOk result (λ line. string_bytes line ≡ refused_line k fault) }
{
    let mut text = String::new(alloc);
    push_size(&mut text, k)?;
    text.push_str("not explored: ")?;
    text.push_str(refusal_text(fault))?;
    text.push('\n')?;
    Ok(text)
}

/// Appends a size: its `k` and its number of processors.
fn push_size(text: &mut String, k: u8) -> Result<(), AllocError>
    requires { k ≤ 6 }
    ensures { OnOk result (string_bytes text.new ≡ string_bytes text.old ++ size_text k) }
{
    write!(text, "k {k}: ")?;
    push_count(text, 1usize << k, "processor")?;
    text.push_str(", ")
}

/// Appends the greatest status, or `-` if there is none.
fn push_greatest(
    alloc: Global,
    text: &mut String,
    greatest: Option<Status>,
) -> Result<(), AllocError>
    ensures { OnOk result (string_bytes text.new ≡ string_bytes text.old ++ greatest_text greatest) }
{
    match greatest {
        Some(status) => push_status(alloc, text, status),
        None => text.push('-'),
    }
}

/// The word for why a size is not explored.
fn refusal_text(fault: Fault) -> &'static str
    ensures { result.now ≡ refusal_text fault }
{
    match fault {
        Fault::Size => "K1",
        Fault::States => "states",
        Fault::Budget => "budget",
        Fault::Alone => "alone",
        _ => "memory",
    }
}
