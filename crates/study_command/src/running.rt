//! The rows of a study.

ghost use Rattle.std.specs.Prelude.{◌≡◌, ◌++◌, ◌∷◌, [], ℕ, IfErr, IfOk, OnOk};
ghost use Rattle.command_io.specs.Files.{IsFaultOfSize};
ghost use Rattle.schedules.specs.Sweeps.{IsWholeRun, most_of};
ghost use Rattle.study_command.specs.Rows.{AreRows, IsRow, IsRowOf, end_of, exit_of, greatest_exit};
ghost use Rattle.study_rows.specs.Sizes.{with_size};
ghost use Rattle.study_command.specs.Studies.{HasWrongSize, IsNoRow};

use crate::figures::figures_of;
use command_io::{DONE, Fault, SPENT, STOPPED_BY_FAULT, machine_of_copy};
use elf_image::Image;
use flat_machine::Config;
use machine_log::Logged;
use run_reports::exit_status;
use schedules::{SweepEnd, follow_sweep};
use std::alloc::{AllocError, Global};
use study_rows::{Row, RunEnd, Size, with_size};

/// The rows of these sizes, in their order. The image was read for the number of shared words of `config`.
///
/// # Errors
///
/// [`Fault::Size`] if a size is out of limits, else [`Fault::Memory`].
pub(crate) fn rows_of(
    alloc: Global,
    image: &Image,
    config: Config,
    sizes: &[Size],
    budget: u32,
) -> Result<Vec<Row>, Fault>
    requires words { image.now.shared_words ≡ config.shared_words }
    ensures rows { IfOk result (λ rows. AreRows budget image.now config sizes.now rows.items) }
    ensures refused { IfErr result (IsNoRow config sizes.now) }
{
    check_sizes(config, sizes)?;
    let mut rows = Vec::new(alloc);
    for size in sizes {
        let row = row_of(alloc, image, config, *size, budget)?;
        push_row(&mut rows, row)?;
    }
    Ok(rows)
}

/// Appends a row.
fn push_row(rows: &mut Vec<Row>, row: Row) -> Result<(), AllocError>
    ensures { OnOk result (rows.new.items ≡ rows.old.items ++ row ∷ []) }
{
    rows.push(row)?;
    Ok(())
}

/// Looks whether each size is within limits.
///
/// # Errors
///
/// [`Fault::Size`] exactly if one is not.
fn check_sizes(config: Config, sizes: &[Size]) -> Result<(), Fault>
    ensures right { OnOk result (HasWrongSize config sizes.now → ⊥) }
    ensures wrong { IfErr result (λ fault. (fault ≡ Fault.Size) × HasWrongSize config sizes.now) }
{
    for size in sizes {
        if !with_size(config, *size).is_within_limits() {
            return Err(Fault::Size);
        }
    }
    Ok(())
}

/// The row of a size.
fn row_of(
    alloc: Global,
    image: &Image,
    config: Config,
    size: Size,
    budget: u32,
) -> Result<Row, Fault>
    requires words { image.now.shared_words ≡ config.shared_words }
    ensures row { IfOk result (IsRow budget image.now config size) }
    ensures refused { IfErr result (IsFaultOfSize (with_size config size)) }
{
    let machine = with_size(config, size);
    let (log, end) = run_of(alloc, image, machine, budget)?;
    row_of_log(alloc, image, machine, size, &log, end)
}

/// The log of a run of the image by the sweep, and how the sweep ended.
fn run_of(
    alloc: Global,
    image: &Image,
    config: Config,
    budget: u32,
) -> Result<(Logged, SweepEnd), Fault>
    requires words { image.now.shared_words ≡ config.shared_words }
    ensures run { IfOk result (λ done. IsWholeRun config image.now (most_of budget) done.1 done.0) }
    ensures refused { IfErr result (IsFaultOfSize config) }
{
    let mut log = Logged::new(alloc, machine_of_copy(alloc, image, config)?);
    let ended = follow_sweep(&mut log, budget);
    machine_log::laws::log_is_well_formed(&log);
    match ended {
        Ok(end) => Ok((log, end)),
        // A new log has room for the longest run, so it refuses only if out of memory.
        Err(_) => Err(Fault::Memory),
    }
}

/// The row of a run, from its log and from how its sweep ended.
// A separate function, so that neither has many values to drop at each return.
fn row_of_log(
    alloc: Global,
    image: &Image,
    config: Config,
    size: Size,
    log: &Logged,
    end: SweepEnd,
) -> Result<Row, Fault>
    requires words { image.now.shared_words ≡ config.shared_words }
    ensures size { IfOk result (λ row. row.size ≡ size) }
    ensures row { IfOk result (λ row. (budget : ℕ) → IsWholeRun config image.now (most_of budget) end log.now →
        IsRowOf budget image.now config row) }
    ensures refused { IfErr result (IsFaultOfSize config) }
{
    let machine = log.machine();
    machine_steps::laws::machine_is_well_formed(machine);
    let processors = machine.config().processors();
    let status = exit_status(machine);
    let figures = figures_of(alloc, image, config, log.steps())?;
    Ok(Row {
        size,
        processors,
        end: end_of(end, status),
        figures,
    })
}

/// The greatest exit status of the rows, or 0 if there are none.
#[tactic(auto, unfolding(crate::specs::Rows::greatest_exit))]
pub(crate) fn status_of(rows: &[Row]) -> u8
    ensures { result ≡ greatest_exit rows.now }
{
    let mut status: u8 = 0;
    for row in rows {
        status = status.max(exit_of(row.end));
    }
    status
}

/// How a run ended, from how its sweep ended and the exit status for how the processors stopped.
fn end_of(end: SweepEnd, status: u8) -> RunEnd
    ensures { result ≡ end_of end status }
{
    match end {
        SweepEnd::Budget => RunEnd::Budget,
        SweepEnd::Over if status == 0 => RunEnd::Over,
        SweepEnd::Over => RunEnd::Fault,
    }
}

/// The exit status for a run that ended so.
fn exit_of(end: RunEnd) -> u8
    ensures { result ≡ exit_of end }
{
    match end {
        RunEnd::Over => DONE,
        RunEnd::Fault => STOPPED_BY_FAULT,
        RunEnd::Budget => SPENT,
    }
}
