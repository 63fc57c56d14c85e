ghost use Rattle.std.specs.Prelude.{◌≡◌, IfOk};
ghost use Rattle.clap.specs.Simple.{app_of, with_rule};
ghost use Rattle.clap.specs.declared.builder.command.Command.TheViews.{out-Command as fields_of};
ghost use Rattle.leafd_words.specs.Commands.{leafd_app, leafd_top, value_rule};

use clap::{Arg, ArgAction, Command};
use std::alloc::{AllocError, Global};

/// The commands as `clap` reads them: no help, no version, and one of them has to be there.
pub(crate) fn leafd_command<'a>(alloc: Global) -> Result<Command<'a>, AllocError>
    ensures { IfOk result (λ command. app_of command ≡ leafd_app) }
{
    let drill = Command::new(alloc, "drill");
    let check = with_value(alloc, Command::new(alloc, "check"), "CONF")?;
    let inspect = with_value(alloc, Command::new(alloc, "inspect"), "DIR")?;
    let src = with_value(alloc, Command::new(alloc, "map"), "SRC")?;
    let dest = with_value(alloc, src, "DEST")?;
    let map = with_value(alloc, dest, "SUBJECT")?;
    top(alloc)
        .subcommand(drill)?
        .subcommand(check)?
        .subcommand(inspect)?
        .subcommand(map)
}

/// The program, with no command yet.
fn top<'a>(alloc: Global) -> Command<'a>
    ensures { app_of result ≡ leafd_top }
{
    Command::new(alloc, "leafd")
        .no_binary_name(true)
        .disable_help_flag(true)
        .disable_help_subcommand(true)
        .disable_version_flag(true)
        .subcommand_required(true)
}

/// The command with one more value, which has to be there, once.
fn with_value<'a>(
    alloc: Global,
    command: Command<'a>,
    id: &'a str,
) -> Result<Command<'a>, AllocError>
    ensures app { IfOk result (λ c. app_of c ≡ with_rule (app_of command.entry) (value_rule id.entry.now)) }
    ensures globals { IfOk result (λ c. (fields_of c).has_globals ≡ (fields_of command.entry).has_globals) }
{
    let value = Arg::new(alloc, id).required(true).action(ArgAction::Set);
    command.arg(value)
}
