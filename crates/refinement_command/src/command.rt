//! The command `ultra explore FILE --against SPEC`.

ghost use Rattle.std.specs.Prelude.{◌≡◌, ◌≤◌, ◌↔◌, true, false, Ok, Err, IfOk, IfErr, IsErrOf, OnErr};
ghost use Rattle.command_io.specs.FaultTexts.{IsReported};
ghost use Rattle.command_io.specs.Links.{input, output};
ghost use Rattle.command_io.specs.Printing.{Prints, ReportsCause};
ghost use Rattle.refinement_command.specs.Comparisons.{AreCompared, IsNotCompared, IsNotPrinted, PrintsComparison};
ghost use Rattle.refinement_command.specs.Comparisons.{comparison_of};
ghost use Rattle.refinement_command.specs.Refinements.{IsNotFound};

use crate::searching::results_of;
use command_io::{DONE, Fault, STOPPED_BY_FAULT, print, report_fault};
use elf_image::ImageError;
use exploration::{FinalResult, SearchObserver};
use flat_machine::Config;
use link::{LinkRead, LinkWrite};
use observed_results::{ObservedWords, comparison_text};
use std::alloc::Global;
use std::io::Write;

/// Reads the images of a program and of its specification, finds every final result that each can have on a machine of
/// this size, and prints the observed parts of those results of the program whose outcomes no result of the
/// specification has. The outcome of a result is its observed part without the pc of each processor. The parts are
/// numbered as in the list of all observed parts of the program. The last line says how many they are. The observer
/// sees the progress of both searches, each of which gives up at `limit` states.
///
/// Returns the exit status: 0 if the lines are printed and no part is missing, so that the program refines its
/// specification; 1 if the lines are printed and a part is missing; else that of the fault reported on standard error.
///
/// # Errors
///
/// Why the results of the specification are not found. Then nothing is printed or reported.
///
/// Faults are checked in this order: of the program's image, of the machine's size, of the search of the program; of
/// the specification's image and its search; of standard output.
pub fn refinement_command<R: LinkRead, S: LinkRead, G: SearchObserver, W: LinkWrite, E: Write>(
    alloc: Global,
    program: &mut R,
    specification: &mut S,
    config: Config,
    limit: u32,
    words: &ObservedWords,
    observer: &mut G,
    out: &mut W,
    err: &mut E,
) -> Result<u8, Fault>
    requires reads { R.has_failed program.old ≡ false }
    requires also_reads { S.has_failed specification.old ≡ false }
    requires prints { W.has_failed out.old ≡ false }
    ensures printed { IfOk result (λ status. status ≤ 1 → Prints (PrintsComparison (comparison_of config limit words.now
        (input R.remaining R.has_failed program.old program.new)
        (input S.remaining S.has_failed specification.old specification.new)) status)
        (W.contents out.old) (W.contents out.new)) }
    ensures fault { IfOk result (λ status. 2 ≤ status → ReportsCause (IsNotPrinted (comparison_of config limit words.now
        (input R.remaining R.has_failed program.old program.new)
        (input S.remaining S.has_failed specification.old specification.new))
        (output W.contents W.has_failed out.old out.new))
        (IsReported (E.contents err.old) (E.contents err.new)) status) }
    ensures refused { IfErr result (IsNotFound config limit (S.remaining specification.old)) }
    ensures failed { W.has_failed out.new ≡ true → result ≡ Ok 3 }
    ensures unread { R.has_failed program.new ≡ true → result ≡ Ok 3 }
    ensures also_unread { S.has_failed specification.new ≡ true → result ≡ Err (Fault.Image ImageError.Link) }
    ensures silent { IfOk result (λ status. 2 ≤ status → W.has_failed out.new ≡ false → out.new ≡ out.old) }
    ensures quiet { IfOk result (λ status. status ≤ 1 → err.new ≡ err.old) }
    ensures unchanged { OnErr result ((out.new ≡ out.old) × (err.new ≡ err.old)) }
{
    observed_results::laws::no_part_is_missing_if_each_result_is_matched();
    let results = match results_of(alloc, program, config, limit, observer) {
        Ok(results) => results,
        Err(fault) => return Ok(report_fault(fault, err)),
    };
    let others = results_of(alloc, specification, config, limit, observer)?;
    match print_comparison(alloc, results.as_slice(), others.as_slice(), words, out) {
        Ok(status) => Ok(status),
        Err(fault) => Ok(report_fault(fault, err)),
    }
}

/// Prints the lines for results that are compared with others, and returns the exit status.
fn print_comparison<W: LinkWrite>(
    alloc: Global,
    results: &[FinalResult],
    others: &[FinalResult],
    words: &ObservedWords,
    out: &mut W,
) -> Result<u8, Fault>
    requires prints { W.has_failed out.old ≡ false }
    ensures printed { IfOk result (λ status. Prints (AreCompared words.now others.now results.now status)
        (W.contents out.old) (W.contents out.new)) }
    ensures low { IfOk result (λ status. status ≤ 1) }
    ensures refused { IfErr result (IsNotCompared words.now others.now results.now
        (output W.contents W.has_failed out.old out.new)) }
    ensures failed { IsErrOf result Fault.Link ↔ (W.has_failed out.new ≡ true) }
    ensures silent { OnErr result (W.has_failed out.new ≡ false → out.new ≡ out.old) }
{
    let (text, missing) = comparison_text(alloc, results, others, words)?;
    print(out, text.as_str())?;
    Ok(status_of(missing))
}

/// The exit status, if so many parts are missing.
fn status_of(missing: usize) -> u8
    ensures none { missing ≡ 0 → result ≡ 0 }
    ensures some { (missing ≡ 0 → ⊥) → result ≡ 1 }
    ensures low { result ≤ 1 }
{
    if missing == 0 { DONE } else { STOPPED_BY_FAULT }
}
