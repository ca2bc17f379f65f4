//! The commands of the table, as `clap` builds them.

ghost use Rattle.std.specs.Prelude.{◌≡◌, IfOk, false, map};
ghost use Rattle.clap.specs.Words.{app_of, rule_of};
ghost use Rattle.clap.specs.declared.builder.command.Command.TheViews.{out-Command};
ghost use Rattle.cli_arguments.specs.Commands.{command_for, rule_for, symarch_command, with_commands, with_rules};
ghost use Rattle.cli_arguments.specs.TableView.{argument_in, signature_in};

use crate::commands::{Argument, Count, Signature, VERSION, table};
use clap::{Arg, ArgAction, Command};
use std::alloc::{AllocError, Global};

/// An argument, as `clap` builds it.
fn arg<'a>(alloc: Global, argument: Argument) -> Arg<'a>
    ensures rule { rule_of result ≡ rule_for (argument_in argument) }
    ensures local { result.global ≡ false }
{
    let arg = Arg::new(alloc, argument.name).help(argument.help);
    match argument.count {
        Count::Once => arg.required(true),
        Count::Several => arg.required(true).action(ArgAction::Append),
        Count::Perhaps(option) => arg.long(option),
        Count::Often(option) => arg.long(option).action(ArgAction::Append),
        Count::Flag(option) => arg.long(option).action(ArgAction::SetTrue),
    }
}

/// Adds arguments, in this order.
fn with_arguments<'a>(
    alloc: Global,
    mut command: Command<'a>,
    arguments: &[Argument],
) -> Result<Command<'a>, AllocError>
    ensures app { IfOk result (λ c. app_of c
        ≡ with_rules (app_of command.entry) (map rule_for (map argument_in arguments.now))) }
    ensures local { (out-Command command.entry).has_globals ≡ false
        → IfOk result (λ c. (out-Command c).has_globals ≡ false) }
{
    'arguments: for argument in arguments {
        command = command.arg(arg(alloc, *argument))?;
    }
    Ok(command)
}

/// Adds the text after the help, if there is one.
fn with_more<'a>(command: Command<'a>, more: Option<&'static str>) -> Command<'a>
    ensures app { app_of result ≡ app_of command.entry }
    ensures local { (out-Command result).has_globals ≡ (out-Command command.entry).has_globals }
{
    match more {
        Some(text) => command.after_help(text),
        None => command,
    }
}

/// The command of a row of the table.
fn command_in<'a>(alloc: Global, row: Signature) -> Result<Command<'a>, AllocError>
    ensures app { IfOk result (λ c. app_of c ≡ command_for (signature_in row)) }
    ensures local { IfOk result (λ c. (out-Command c).has_globals ≡ false) }
{
    let command = with_more(Command::new(alloc, row.name).about(row.about), row.more);
    with_arguments(alloc, command, row.arguments)
}

/// Adds the commands of a table, in its order.
fn with_table<'a>(
    alloc: Global,
    mut command: Command<'a>,
    table: &[Signature],
) -> Result<Command<'a>, AllocError>
    ensures app { IfOk result (λ c. app_of c
        ≡ with_commands (app_of command.entry) (map command_for (map signature_in table.now))) }
    ensures local { (out-Command command.entry).has_globals ≡ false
        → IfOk result (λ c. (out-Command c).has_globals ≡ false) }
{
    'table: for row in table {
        command = command.subcommand(command_in(alloc, *row)?)?;
    }
    Ok(command)
}

/// The program's command with its subcommands, one of which is required, and its version.
#[tactic(auto, unfolding(crate::specs::Commands::symarch_command))]
pub fn symarch_command<'a>(alloc: Global) -> Result<Command<'a>, AllocError>
    ensures app { IfOk result (λ c. app_of c ≡ symarch_command) }
    ensures local { IfOk result (λ c. (out-Command c).has_globals ≡ false) }
{
    let about = "Keep Mach-O images and dSYMs in archives, and name the functions of a crash";
    let command = Command::new(alloc, "symarch").about(about);
    let command = with_table(alloc, command, table())?;
    Ok(command.version(VERSION).subcommand_required(true))
}
