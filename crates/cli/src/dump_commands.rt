//! What the program does for `dump` and `restore`.

ghost use Rattle.std.specs.Prelude.{◌≡◌, IfOk, Ok, string_bytes};
ghost use Rattle.cli.specs.DumpCommands.{Dumps, IsDumpAnswered, IsRestoreAnswered, Restores, roles_text, without_roles};

use crate::copy_command::{fault_of, give_journal, subject_of_copy};
use crate::copy_fault::CopyRefusal;
use crate::ending::{Ending, Exit, exit_with};
use crate::fault::CommandFault;
use crate::file_dumps::dump_file;
use crate::file_restores::restore_file;
use crate::printing::print_text;
use database_dumps::RestoredRoles;
use sector_device::Device;
use std::alloc::{AllocError, Global};
use std::io::Write;
use systems::System;
use wire::sink::Sink;
use wire::text_sink::TakesText;

/// What `dump` prints where it has made a dump.
const DUMPED: &str = "ok DUMP\n";

/// Writes a dump of the database in a file to a new file, and says so, or tells why not.
pub(crate) fn dump<Y: System, K: TakesText, E: Write>(
    system: &mut Y,
    alloc: Global,
    file: &str,
    new: &str,
    out: &mut K,
    err: &mut E,
) -> Exit
    ensures { Dumps Y.Device.Device Y.state (Y.state system.old) file.entry new.entry result
        (Y.state system.new) (K.held out.old) (K.held out.new) (E.contents err.old)
        (E.contents err.new) }
{
    let dumped = dump_file(system, alloc, file, new);
    let ending = end_of_dump(dumped, out);
    exit_with(ending, subject_of_copy(dumped, file, new), err)
}

// How a dump ended: where it was made, that is printed.
fn end_of_dump<K: TakesText>(dumped: Result<(), CopyRefusal>, out: &mut K) -> Ending
    ensures { IsDumpAnswered dumped (K.held out.old) result (K.held out.new) }
{
    match dumped {
        Ok(()) => print_text(DUMPED, out),
        Err(refusal) => Ending::Fault(fault_of(refusal)),
    }
}

/// Makes a database of the dump in a file, in a new file of so many pages, gives it a journal where one is asked for, and says so,
/// with how many superusers and how many roles that may log in it has; or tells why not. The journal comes once the database is
/// whole and has its name: where there is no room for it, the database stays without one.
pub(crate) fn restore<Y: System, K: TakesText, E: Write>(
    system: &mut Y,
    alloc: Global,
    file: &str,
    new: &str,
    pages: u32,
    journal: bool,
    out: &mut K,
    err: &mut E,
) -> Exit
    ensures { Restores Y.Device.Device Y.state (Y.state system.old) file.entry new.entry pages journal
        result (Y.state system.new) (K.held out.old) (K.held out.new) (E.contents err.old)
        (E.contents err.new) }
{
    let restored = restore_file(system, alloc, file, new, pages);
    let made = without_roles(restored);
    let given = give_journal(system, alloc, new, journal, made);
    let ending = end_of_restore(alloc, restored, given, out);
    exit_with(ending, subject_of_copy(made, file, new), err)
}

// Whether a database was made, or why not.
fn without_roles(restored: Result<RestoredRoles, CopyRefusal>) -> Result<(), CopyRefusal>
    ensures { result ≡ without_roles restored }
{
    match restored {
        Ok(_roles) => Ok(()),
        Err(refusal) => Err(refusal),
    }
}

// How a restore ended: where the database was made, and given a journal that was asked for, that is printed, with its roles.
fn end_of_restore<K: TakesText>(
    alloc: Global,
    restored: Result<RestoredRoles, CopyRefusal>,
    given: Result<(), CommandFault>,
    out: &mut K,
) -> Ending
    ensures { IsRestoreAnswered restored given (K.held out.old) result (K.held out.new) }
{
    match restored {
        Ok(roles) => match given {
            Ok(()) => print_roles(alloc, roles, out),
            Err(fault) => Ending::Fault(fault),
        },
        Err(refusal) => Ending::Fault(fault_of(refusal)),
    }
}

// Says that a database was made, and of how many roles that may do everything or log in.
fn print_roles<K: TakesText>(alloc: Global, roles: RestoredRoles, out: &mut K) -> Ending
    ensures { IsRestoreAnswered (Ok roles) (Ok tt) (K.held out.old) result (K.held out.new) }
{
    match roles_text(alloc, roles) {
        Ok(text) => print_text(text.as_str(), out),
        Err(_) => Ending::Fault(CommandFault::Memory),
    }
}

fn roles_text(alloc: Global, roles: RestoredRoles) -> Result<String, AllocError>
    ensures { IfOk result (λ text. string_bytes text ≡ roles_text roles) }
{
    let RestoredRoles { superusers, logins } = roles;
    format!(in alloc; "ok RESTORE superusers: {superusers}, logins: {logins}\n")
}
