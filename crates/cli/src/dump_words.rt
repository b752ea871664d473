//! The words after `dump` and `restore`.

ghost use Rattle.std.specs.Prelude.{IfOk, IfErr, codes};
ghost use Rattle.clap.specs.Words.{found_of, rows_of};
ghost use Rattle.cli.specs.CommandGrammar.{IsCommand, dump_app, restore_app};
ghost use Rattle.cli.specs.CommandLine.{GivesAs, IsOrdered, IsUnfit};

use crate::command::{Invocation, UsageFault, read_number};
use crate::grammar::{command, flag, option, word};
use crate::number::NumberOption;
use clap::{ArgMatches, Command};
use std::alloc::{AllocError, Global};

/// `dump FILE OUT`.
pub(crate) fn dump_command<'a>(alloc: Global) -> Result<Command<'a>, AllocError>
    ensures { IfOk result (IsCommand dump_app) }
{
    command(alloc, "dump")
        .arg(word(alloc, "file", "FILE", true))?
        .arg(word(alloc, "out", "OUT", true))
}

/// `restore DUMP NEW --pages N [--journal]`.
pub(crate) fn restore_command<'a>(alloc: Global) -> Result<Command<'a>, AllocError>
    ensures { IfOk result (IsCommand restore_app) }
{
    command(alloc, "restore")
        .arg(word(alloc, "dump", "DUMP", true))?
        .arg(word(alloc, "new", "NEW", true))?
        .arg(option(alloc, "pages", "N", true))?
        .arg(flag(alloc, "journal"))
}

/// The order that the words after `dump` give.
pub(crate) fn read_dump<'a>(given: &ArgMatches<'a>) -> Result<Invocation<'a>, UsageFault<'a>>
    ensures asked { IfOk result (IsOrdered (GivesAs (codes "dump") (rows_of (found_of given.now)))) }
    ensures refused { IfErr result (IsUnfit (GivesAs (codes "dump") (rows_of (found_of given.now)))) }
{
    let Some(file) = given.get_str("file") else {
        return Err(UsageFault::Form);
    };
    let Some(out) = given.get_str("out") else {
        return Err(UsageFault::Form);
    };
    Ok(Invocation::Dump { file, out })
}

/// The order that the words after `restore` give.
pub(crate) fn read_restore<'a>(given: &ArgMatches<'a>) -> Result<Invocation<'a>, UsageFault<'a>>
    ensures asked { IfOk result (IsOrdered (GivesAs (codes "restore") (rows_of (found_of given.now)))) }
    ensures refused { IfErr result (IsUnfit (GivesAs (codes "restore") (rows_of (found_of given.now)))) }
{
    let Some(dump) = given.get_str("dump") else {
        return Err(UsageFault::Form);
    };
    let Some(new) = given.get_str("new") else {
        return Err(UsageFault::Form);
    };
    let Some(word) = given.get_str("pages") else {
        return Err(UsageFault::Form);
    };
    let journal = given.get_flag("journal");
    let pages = read_number(NumberOption::Pages, word)?;
    Ok(Invocation::Restore {
        dump,
        new,
        pages,
        journal,
    })
}
