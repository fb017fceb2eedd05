//! Makes the program's command line, a `Command` of the crate `clap`, from the entries in `table.rt`. The clauses `app` and `rule` state what clap
//! accepts. The clauses `local` state that it accepts an option only where the option is declared (before the commands, or for one command).

ghost use Rattle.std.specs.Prelude.{◌≡◌, IfOk, OnOk, [], false, map};
ghost use Rattle.clap.specs.Words.{App, app_of, rule_of, with_subcommand};
ghost use Rattle.clap.specs.declared.builder.command.Command.TheViews.{out-Command as fields_of};
ghost use Rattle.reg_desk_cli.specs.Desk.{may, bare_app, app_without_commands, desk_app, other_command_apps, first_command_apps, with_commands, with_rules};
ghost use Rattle.reg_desk_cli.specs.Table.{AreLocal, app_of_entry, rule_of_part, with_made};

use crate::table::{CommandEntry, FIRST_COMMANDS, OPTIONS_BEFORE_COMMAND, OTHER_COMMANDS, Part};
use clap::{Arg, ArgAction, Command};
use std::alloc::{AllocError, Global};

/// The program's version, as `--version` prints it.
pub const VERSION: &str = "0.2.0";

pub(crate) fn desk<'a>(alloc: Global) -> Result<Command<'a>, AllocError>
    ensures { IfOk result (λ made. app_of made ≡ desk_app) }
{
    let mut commands = Vec::new(alloc);
    add_commands(alloc, &mut commands, first_commands())?;
    add_commands(alloc, &mut commands, other_commands())?;
    without_commands(alloc)?.subcommands(commands)
}

/// The prover needs more time for each step of a function that uses this long constant. So only this small function uses it.
fn first_commands() -> &'static [CommandEntry]
    ensures { map app_of_entry result.now ≡ first_command_apps }
{
    FIRST_COMMANDS
}

fn other_commands() -> &'static [CommandEntry]
    ensures { map app_of_entry result.now ≡ other_command_apps }
{
    OTHER_COMMANDS
}

fn add_commands<'a>(
    alloc: Global,
    commands: &mut Vec<Command<'a>>,
    entries: &[CommandEntry],
) -> Result<(), AllocError>
    ensures app { OnOk result ((app : App)
        → with_made app commands.new.items
        ≡ with_commands (with_made app commands.old.items) (map app_of_entry entries.now)) }
    ensures local { OnOk result (AreLocal commands.old.items → AreLocal commands.new.items) }
{
    for entry in entries {
        add_command(alloc, commands, entry)?;
    }
    Ok(())
}

fn add_command<'a>(
    alloc: Global,
    commands: &mut Vec<Command<'a>>,
    entry: &CommandEntry,
) -> Result<(), AllocError>
    ensures app { OnOk result ((app : App)
        → with_made app commands.new.items
        ≡ with_subcommand (with_made app commands.old.items) (app_of_entry entry.now).top) }
    ensures local { OnOk result (AreLocal commands.old.items → AreLocal commands.new.items) }
{
    commands.push(command(alloc, entry)?)?;
    Ok(())
}

/// The command line with the options that come before a command (`--why`), and without commands. [`bare`] has neither.
fn without_commands<'a>(alloc: Global) -> Result<Command<'a>, AllocError>
    ensures app { IfOk result (λ made. app_of made ≡ app_without_commands) }
    ensures local { IfOk result (λ made. (fields_of made).has_globals ≡ false) }
{
    with_parts(alloc, bare(alloc), OPTIONS_BEFORE_COMMAND)
}

fn bare<'a>(alloc: Global) -> Command<'a>
    ensures app { app_of result ≡ bare_app }
    ensures local { (fields_of result).has_globals ≡ false }
{
    Command::new(alloc, "desk")
        .version(VERSION)
        .about("The register and status service of one certification authority.")
        .after_help(
            "A first day, over a register in memory:\n  desk script < examples/first-day.txt\n\n`desk COMMAND --help` explains one command.",
        )
        .subcommand_required(true)
        .disable_help_subcommand(true)
}

fn command<'a>(alloc: Global, entry: &CommandEntry) -> Result<Command<'a>, AllocError>
    ensures app { IfOk result (λ made. app_of made ≡ app_of_entry entry.now) }
    ensures local { IfOk result (λ made. (fields_of made).has_globals ≡ false) }
{
    let command = Command::new(alloc, entry.name)
        .about(entry.about)
        .after_help(entry.example);
    with_parts(alloc, command, entry.parts)
}

fn with_parts<'a>(
    alloc: Global,
    command: Command<'a>,
    parts: &[Part],
) -> Result<Command<'a>, AllocError>
    requires { (fields_of command).has_globals ≡ false }
    ensures app { IfOk result (λ made.
        app_of made ≡ with_rules (app_of command.entry) (map rule_of_part parts.now)) }
    ensures local { IfOk result (λ made. (fields_of made).has_globals ≡ false) }
{
    let mut command = command;
    for part in parts {
        command = command.arg(arg(alloc, part)?)?;
    }
    Ok(command)
}

/// clap's argument for a part of the table. `id` is clap's id, and the long name of an option; `name` or `names` stands for its value in help.
fn arg<'a>(alloc: Global, part: &Part) -> Result<Arg<'a>, AllocError>
    ensures rule { IfOk result (λ arg. rule_of arg ≡ rule_of_part part.now) }
    ensures local { IfOk result (λ arg. arg.global ≡ false) }
{
    match *part {
        Part::RequiredArgument(id, name, help) => Ok(one_value(alloc, id, name, help).required(
            true,
        )),
        Part::OptionalArgument(id, name, help) => Ok(one_value(alloc, id, name, help)),
        Part::Rest(id, name, help) => {
            Ok(
                one_value(alloc, id, name, help)
                    .required(true)
                    .num_args(1..),
            )
        }
        Part::RequiredOption(id, name, help) => Ok(
            one_value(alloc, id, name, help).long(id).required(true),
        ),
        Part::Renamed(id, older, name, help) => {
            one_value(alloc, id, name, help)
                .long(id)
                .required(true)
                .alias(older)
        }
        Part::OptionalOption(id, name, help) => Ok(one_value(alloc, id, name, help).long(id)),
        Part::Several(id, names, help) => Ok(
            Arg::new(alloc, id).long(id).value_names(names).help(help),
        ),
        Part::Flag(id, help) => Ok(
            Arg::new(alloc, id)
                .long(id)
                .action(ArgAction::SetTrue)
                .help(help),
        ),
    }
}

/// A positional argument that may be left out and takes one value; the caller's `long` makes it an option.
fn one_value<'a>(alloc: Global, id: &'a str, name: &'a str, help: &'a str) -> Arg<'a>
    ensures rule { rule_of result ≡ may id.entry.now }
    ensures local { result.global ≡ false }
    ensures alone { result.aliases.items ≡ [] }
{
    Arg::new(alloc, id).value_name(name).help(help)
}
