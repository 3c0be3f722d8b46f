//! The command `ultra study`.

ghost use Rattle.std.specs.Prelude.{◌≡◌, ◌≤◌, ◌↔◌, ◌⊎◌, ℕ, true, false, IfErr, IfOk, IsErrOf, OnErr, string_bytes};
ghost use Rattle.command_io.specs.FaultTexts.{IsReported};
ghost use Rattle.command_io.specs.Links.{input, output};
ghost use Rattle.command_io.specs.Printing.{Prints, ReportsCause};
ghost use Rattle.study_command.specs.Studies.{IsNoRow, IsNoStudy, IsTextOfSizes, PrintsStudy, StudyFails, asked_study};
ghost use Rattle.study_command.specs.Studies.{text_of};
ghost use Rattle.trace_counts.specs.trace_commands.Causes.{ReportItselfFails};

use crate::running::{rows_of, status_of};
use command_io::{Fault, image_of, print, report_fault};
use elf_image::{Image, ImageError};
use flat_machine::Config;
use link::{LinkRead, LinkWrite};
use std::alloc::{AllocError, Global};
use std::io::Write;
use study_rows::{Column, Layout, Row, Size, plot_text, rows_text};

/// How the rows of a study are printed.
#[derive(Clone, Copy, Debug, PartialEq, Eq, Drop)]
pub enum StudyFormat {
    /// As lines.
    Rows(Layout),
    /// As a plot of a column by processors, an SVG.
    Plot(Column),
}

/// Reads an image, runs it by the sweep on a machine of each of these sizes, one after another, and prints the rows.
/// The `k`, `b` and `r` of `config` are ignored. A run has at most as many steps as the budget, and those of its drain.
///
/// Returns the greatest exit status of the rows: 0 for a run that is over, 1 for one that a fault has stopped, 4 for
/// one that has used up its budget. If the rows are not printed, returns that of the fault reported on standard error.
/// Faults are checked in this order: of the image, of the sizes, before any run, and of standard output.
pub fn study_command<R: LinkRead, W: LinkWrite, E: Write>(
    alloc: Global,
    file: &mut R,
    config: Config,
    sizes: &[Size],
    budget: u32,
    format: StudyFormat,
    out: &mut W,
    err: &mut E,
) -> u8
    requires reads { R.has_failed file.old ≡ false }
    requires prints { W.has_failed out.old ≡ false }
    ensures ended { (PrintsStudy
        (asked_study config sizes.now budget format (input R.remaining R.has_failed file.old file.new))
        (output W.contents W.has_failed out.old out.new) result × (err.new ≡ err.old)) ⊎ ReportsCause (StudyFails
        (asked_study config sizes.now budget format (input R.remaining R.has_failed file.old file.new))
        (output W.contents W.has_failed out.old out.new))
        (IsReported (E.contents err.old) (E.contents err.new)) result }
    ensures unread { R.has_failed file.new ≡ true → result ≡ 3 }
    ensures failed { W.has_failed out.new ≡ true → result ≡ 3 }
    ensures silent { W.has_failed out.new ≡ false → (out.new ≡ out.old) ⊎ PrintsStudy
        (asked_study config sizes.now budget format (input R.remaining R.has_failed file.old file.new))
        (output W.contents W.has_failed out.old out.new) result }
    ensures quiet { result ≤ 1 → err.new ≡ err.old }
{
    match execute(alloc, file, config, sizes, budget, format, out) {
        Ok(status) => status,
        Err(fault) => report_fault(fault, err),
    }
}

/// Executes the command.
fn execute<R: LinkRead, W: LinkWrite>(
    alloc: Global,
    file: &mut R,
    config: Config,
    sizes: &[Size],
    budget: u32,
    format: StudyFormat,
    out: &mut W,
) -> Result<u8, Fault>
    requires reads { R.has_failed file.old ≡ false }
    requires prints { W.has_failed out.old ≡ false }
    ensures printed { IfOk result (PrintsStudy
        (asked_study config sizes.now budget format (input R.remaining R.has_failed file.old file.new))
        (output W.contents W.has_failed out.old out.new)) }
    ensures fault { IfErr result (IsNoStudy
        (asked_study config sizes.now budget format (input R.remaining R.has_failed file.old file.new))
        (output W.contents W.has_failed out.old out.new)) }
    ensures unread { IsErrOf result (Fault.Image ImageError.Link) ↔ (R.has_failed file.new ≡ true) }
    ensures failed { IsErrOf result Fault.Link ↔ (W.has_failed out.new ≡ true) }
    ensures silent { OnErr result (W.has_failed out.new ≡ false → out.new ≡ out.old) }
{
    let image = image_of(alloc, file, &config)?;
    print_rows(alloc, &image, config, sizes, budget, format, out)
}

/// Prints the rows of the sizes.
fn print_rows<W: LinkWrite>(
    alloc: Global,
    image: &Image,
    config: Config,
    sizes: &[Size],
    budget: u32,
    format: StudyFormat,
    out: &mut W,
) -> Result<u8, Fault>
    requires words { image.now.shared_words ≡ config.shared_words }
    requires prints { W.has_failed out.old ≡ false }
    ensures printed { IfOk result (λ status. Prints
        (IsTextOfSizes budget image.now config sizes.now format status) (W.contents out.old) (W.contents out.new)) }
    ensures fault { IfErr result (ReportItselfFails
        (λ text. (status : ℕ) × IsTextOfSizes budget image.now config sizes.now format status text)
        (IsNoRow config sizes.now) (output W.contents W.has_failed out.old out.new)) }
    ensures failed { IsErrOf result Fault.Link ↔ (W.has_failed out.new ≡ true) }
    ensures silent { OnErr result (W.has_failed out.new ≡ false → out.new ≡ out.old) }
{
    let (text, status) = text_with_status(alloc, image, config, sizes, budget, format)?;
    print(out, text.as_str())?;
    Ok(status)
}

/// The text of the rows of the sizes, and the greatest of their exit statuses.
fn text_with_status(
    alloc: Global,
    image: &Image,
    config: Config,
    sizes: &[Size],
    budget: u32,
    format: StudyFormat,
) -> Result<(String, u8), Fault>
    requires words { image.now.shared_words ≡ config.shared_words }
    ensures text { IfOk result (λ done. IsTextOfSizes budget image.now config sizes.now format done.1
        (string_bytes done.0)) }
    ensures refused { IfErr result (IsNoRow config sizes.now) }
{
    let rows = rows_of(alloc, image, config, sizes, budget)?;
    let text = text_of(alloc, format, rows.as_slice())?;
    Ok((text, status_of(rows.as_slice())))
}

/// The text of rows.
fn text_of(alloc: Global, format: StudyFormat, rows: &[Row]) -> Result<String, AllocError>
    ensures { IfOk result (λ text. string_bytes text ≡ text_of format rows.now) }
{
    match format {
        StudyFormat::Rows(layout) => rows_text(alloc, layout, rows),
        StudyFormat::Plot(column) => plot_text(alloc, column, rows),
    }
}
