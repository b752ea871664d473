//! The grammar of the command line.

ghost use Rattle.std.specs.Prelude.{IfOk};
ghost use Rattle.clap.specs.Words.{new_app};
ghost use Rattle.cli.specs.CommandGrammar.{HasBelow, IsArg, IsCommand, word_rule, option_rule, format_app, copy_app, journal_app, run_app, serve_app, check_app, describe_app, explain_app, flag_rule, bare_app, program_app, repeated_rule};

use crate::dump_words::{dump_command, restore_command};
use crate::password_words::password_command;
use crate::texts::{USAGE, VERSION_NUMBER};
use clap::{Arg, ArgAction, Command};
use std::alloc::{AllocError, Global};

/// The grammar of the command line.
pub(crate) fn program_command<'a>(alloc: Global) -> Result<Command<'a>, AllocError>
    ensures { IfOk result (IsCommand program_app) }
{
    let command = with_below(bare_command(alloc), format_command(alloc))?;
    let command = with_below(command, run_command(alloc))?;
    let command = with_below(command, serve_command(alloc))?;
    let command = with_below(command, check_command(alloc))?;
    let command = with_below(command, describe_command(alloc))?;
    let command = with_below(command, copy_command(alloc))?;
    let command = with_below(command, journal_command(alloc))?;
    let command = with_below(command, dump_command(alloc))?;
    let command = with_below(command, restore_command(alloc))?;
    let command = with_below(command, password_command(alloc))?;
    with_below(command, explain_command(alloc))
}

/// The command with this one below it, where that was made.
fn with_below<'a>(
    command: Command<'a>,
    below: Result<Command<'a>, AllocError>,
) -> Result<Command<'a>, AllocError>
    ensures { IfOk result (HasBelow command.entry below.entry) }
{
    command.subcommand(below?)
}

/// The flags for help and the version, and the need for a command.
fn bare_command<'a>(alloc: Global) -> Command<'a>
    ensures { IsCommand bare_app result }
{
    command(alloc, "guarddb")
        .version(VERSION_NUMBER)
        .no_binary_name(true)
        .disable_help_subcommand(true)
        .subcommand_required(true)
}

/// `format FILE --pages N --admin NAME [--journal]`.
fn format_command<'a>(alloc: Global) -> Result<Command<'a>, AllocError>
    ensures { IfOk result (IsCommand format_app) }
{
    command(alloc, "format")
        .arg(word(alloc, "file", "FILE", true))?
        .arg(option(alloc, "pages", "N", true))?
        .arg(option(alloc, "admin", "NAME", true))?
        .arg(flag(alloc, "journal"))
}

/// `run FILE SCRIPT` and `run --memory NAME SCRIPT`, each with `--stop`, `--explain` or neither: the words
/// are counted after they were read.
fn run_command<'a>(alloc: Global) -> Result<Command<'a>, AllocError>
    ensures { IfOk result (IsCommand run_app) }
{
    command(alloc, "run")
        .arg(option(alloc, "memory", "NAME", false))?
        .arg(word(alloc, "first", "FILE", false))?
        .arg(word(alloc, "second", "SCRIPT", false))?
        .arg(flag(alloc, "stop"))?
        .arg(flag(alloc, "explain"))
}

/// `serve FILE --port P --connections K` and `serve FILE --socket PATH --connections K`, with `--idle
/// SECONDS` or without; and both with `--clients N`, and `--wait SECONDS` and `--block SECONDS` or
/// without; and, in place of a port or a socket, `--at PLACE`, once or more often. Which of these it is,
/// and what is missing, is decided once the words are read.
fn serve_command<'a>(alloc: Global) -> Result<Command<'a>, AllocError>
    ensures { IfOk result (IsCommand serve_app) }
{
    command(alloc, "serve")
        .arg(word(alloc, "file", "FILE", false))?
        .arg(option(alloc, "port", "P", false))?
        .arg(option(alloc, "socket", "PATH", false))?
        .arg(option(alloc, "connections", "K", false))?
        .arg(option(alloc, "idle", "SECONDS", false))?
        .arg(option(alloc, "clients", "N", false))?
        .arg(option(alloc, "wait", "SECONDS", false))?
        .arg(option(alloc, "block", "SECONDS", false))?
        .arg(repeated(alloc, "at", "PLACE"))
}

/// `check FILE`.
fn check_command<'a>(alloc: Global) -> Result<Command<'a>, AllocError>
    ensures { IfOk result (IsCommand check_app) }
{
    command(alloc, "check").arg(word(alloc, "file", "FILE", true))
}

/// `describe FILE [ROLE] [--json]`, and in place of ROLE `--table T`, `--since OLD` or `--powers`: which of
/// these it is, is decided once the words are read.
fn describe_command<'a>(alloc: Global) -> Result<Command<'a>, AllocError>
    ensures { IfOk result (IsCommand describe_app) }
{
    command(alloc, "describe")
        .arg(word(alloc, "file", "FILE", true))?
        .arg(word(alloc, "role", "ROLE", false))?
        .arg(option(alloc, "table", "T", false))?
        .arg(option(alloc, "since", "OLD", false))?
        .arg(flag(alloc, "powers"))?
        .arg(flag(alloc, "json"))
}

/// `copy FILE NEW --pages N [--journal]`.
fn copy_command<'a>(alloc: Global) -> Result<Command<'a>, AllocError>
    ensures { IfOk result (IsCommand copy_app) }
{
    command(alloc, "copy")
        .arg(word(alloc, "file", "FILE", true))?
        .arg(word(alloc, "new", "NEW", true))?
        .arg(option(alloc, "pages", "N", true))?
        .arg(flag(alloc, "journal"))
}

/// `journal FILE on` and `journal FILE off`: which of the two it is, is decided once the words are
/// read.
fn journal_command<'a>(alloc: Global) -> Result<Command<'a>, AllocError>
    ensures { IfOk result (IsCommand journal_app) }
{
    command(alloc, "journal")
        .arg(word(alloc, "file", "FILE", true))?
        .arg(word(alloc, "state", "on|off", true))
}

/// `explain FILE ROLE STATEMENT [--session LOGIN] [--json]`.
fn explain_command<'a>(alloc: Global) -> Result<Command<'a>, AllocError>
    ensures { IfOk result (IsCommand explain_app) }
{
    command(alloc, "explain")
        .arg(word(alloc, "file", "FILE", true))?
        .arg(word(alloc, "role", "ROLE", true))?
        .arg(word(alloc, "statement", "STATEMENT", true))?
        .arg(option(alloc, "session", "LOGIN", false))?
        .arg(flag(alloc, "json"))
}

/// A command of this name, without words.
pub(crate) fn command<'a>(alloc: Global, name: &'a str) -> Command<'a>
    ensures { IsCommand (new_app name.entry.now) result }
{
    Command::new(alloc, name).override_usage(usage())
}

/// A word that belongs to no option, which messages call `value`.
pub(crate) fn word<'a>(alloc: Global, id: &'a str, value: &'a str, required: bool) -> Arg<'a>
    ensures { IsArg (word_rule id.entry.now required) result }
{
    Arg::new(alloc, id)
        .value_name(value)
        .required(required)
        .action(ArgAction::Set)
}

/// The option `--ID`, which takes one word, which messages call `value`.
pub(crate) fn option<'a>(alloc: Global, id: &'a str, value: &'a str, required: bool) -> Arg<'a>
    ensures { IsArg (option_rule id.entry.now required) result }
{
    Arg::new(alloc, id)
        .long(id)
        .value_name(value)
        .required(required)
        .action(ArgAction::Set)
}

/// The option `--ID`, which may be given more than once, each time with one word, which messages call
/// `value`.
fn repeated<'a>(alloc: Global, id: &'a str, value: &'a str) -> Arg<'a>
    ensures { IsArg (repeated_rule id.entry.now) result }
{
    Arg::new(alloc, id)
        .long(id)
        .value_name(value)
        .action(ArgAction::Append)
}

/// The flag `--ID`, which takes no word.
pub(crate) fn flag<'a>(alloc: Global, id: &'a str) -> Arg<'a>
    ensures { IsArg (flag_rule id.entry.now) result }
{
    Arg::new(alloc, id).long(id).action(ArgAction::SetTrue)
}

/// The text that messages of a mistake show. No contract speaks of it, so no goal has to hold it.
fn usage() -> &'static str {
    USAGE
}
