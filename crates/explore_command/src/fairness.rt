//! The lines on fair schedules.

ghost use Rattle.std.specs.Prelude.{◌≡◌, ◌++◌, OnOk, codes, string_bytes};
ghost use Rattle.std.specs.Fmt.{decimal};
ghost use Rattle.explore_command.specs.Lassos.{cycle_line, fairness_text, lasso_lines, movers_text};
ghost use Rattle.explore_command.specs.Lassos.{stem_line};

use exploration::Fairness;
use std::alloc::AllocError;
use std::fmt::Write;

/// Appends whether every fair schedule ends, if this is asked, and the lasso of one that does not.
pub(crate) fn push_fairness(
    text: &mut String,
    asked: bool,
    fairness: &Fairness,
) -> Result<(), AllocError>
    ensures { OnOk result (string_bytes text.new ≡ string_bytes text.old ++ fairness_text asked fairness.now) }
{
    if !asked {
        return Ok(());
    }
    match fairness {
        Fairness::Ends => text.push_str("every fair schedule ends\n"),
        Fairness::Endless(lasso) => {
            push_lasso(text, lasso.stem.as_slice(), lasso.cycle.as_slice())
        }
        Fairness::Unknown => text.push_str("some fair schedule may never end\n"),
    }
}

/// Appends that some fair schedule never ends, and the lines of its lasso: the processors whose references follow one
/// another in its stem and in its cycle.
fn push_lasso(text: &mut String, stem: &[u8], cycle: &[u8]) -> Result<(), AllocError>
    ensures { OnOk result (string_bytes text.new ≡ string_bytes text.old ++ lasso_lines stem.now cycle.now) }
{
    text.push_str("some fair schedule never ends\n")?;
    push_stem(text, stem)?;
    push_cycle(text, cycle)
}

/// Appends the line of a stem.
fn push_stem(text: &mut String, movers: &[u8]) -> Result<(), AllocError>
    ensures { OnOk result (string_bytes text.new ≡ string_bytes text.old ++ stem_line movers.now) }
{
    text.push_str("stem")?;
    push_movers(text, movers)?;
    text.push('\n')
}

/// Appends the line of a cycle.
fn push_cycle(text: &mut String, movers: &[u8]) -> Result<(), AllocError>
    ensures { OnOk result (string_bytes text.new ≡ string_bytes text.old ++ cycle_line movers.now) }
{
    text.push_str("cycle")?;
    push_movers(text, movers)?;
    text.push('\n')
}

/// Appends each processor, after a blank.
fn push_movers(text: &mut String, movers: &[u8]) -> Result<(), AllocError>
    ensures { OnOk result (string_bytes text.new ≡ string_bytes text.old ++ movers_text movers.now) }
{
    for k in movers.iter() {
        push_mover(text, *k)?;
    }
    Ok(())
}

/// Appends a processor after a blank.
fn push_mover(text: &mut String, k: u8) -> Result<(), AllocError>
    ensures { OnOk result (string_bytes text.new ≡ string_bytes text.old ++ codes " " ++ decimal k) }
{
    write!(text, " {k}")
}
