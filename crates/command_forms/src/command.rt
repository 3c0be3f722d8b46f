//! The command that `clap` parses.
ghost use Rattle.std.specs.Prelude.{◌≡◌, false, IfOk};
ghost use Rattle.clap.specs.Words.{app_of, with_subcommand};
ghost use Rattle.clap.specs.declared.builder.command.Command.TheViews.{out-Command};
ghost use Rattle.command_forms.specs.Forms.{app_of_form};
ghost use Rattle.command_forms.specs.Commands.{program, ultra_command};

use crate::args::arg_of;
use crate::forms::{CommandForm, commands};
use clap::Command;
use std::alloc::{AllocError, Global};

/// The program, with all its commands.
pub(crate) fn ultra_shape<'a>(alloc: Global) -> Result<Command<'a>, AllocError>
    ensures { IfOk result (λ c. app_of c ≡ ultra_command) }
{
    let mut command = program_shape(alloc);
    for form in &commands() {
        command = above(command, shape_of(alloc, form)?)?;
    }
    Ok(command)
}

/// The program with one more command.
fn above<'a>(program: Command<'a>, command: Command<'a>) -> Result<Command<'a>, AllocError>
    requires program { (out-Command program).has_globals ≡ false }
    requires command { (out-Command command).has_globals ≡ false }
    ensures shape { IfOk result (λ c. app_of c ≡ with_subcommand (app_of program.entry) (app_of command.entry).top) }
    ensures globals { IfOk result (λ c. (out-Command c).has_globals ≡ false) }
{
    program.subcommand(command)
}

/// The program, without commands so far.
fn program_shape<'a>(alloc: Global) -> Command<'a>
    ensures shape { app_of result ≡ program }
    ensures globals { (out-Command result).has_globals ≡ false }
{
    Command::new(alloc, "ultra")
        .version("0.1.0")
        .about(
            "Simulates the NYU Ultracomputer: RISC-V processors, a combining omega network, fetch-and-phi memory",
        )
        .subcommand_required(true)
}

/// The command of a form.
fn shape_of<'a>(alloc: Global, form: &CommandForm) -> Result<Command<'a>, AllocError>
    ensures shape { IfOk result (λ c. app_of c ≡ app_of_form form.now) }
    ensures globals { IfOk result (λ c. (out-Command c).has_globals ≡ false) }
{
    let mut command = Command::new(alloc, form.name)
        .about(form.about)
        .after_help(form.ends);
    for argument in form.arguments {
        command = command.arg(arg_of(alloc, *argument))?;
    }
    Ok(command)
}
