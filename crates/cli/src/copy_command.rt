//! What the program does for `copy`.

ghost use Rattle.std.specs.Prelude.{◌≡◌};
ghost use Rattle.cli.specs.CopyFaults.{fault_in};
ghost use Rattle.cli.specs.CopyCommand.{Copies, GivesJournal, IsCopyAnswered, copy_subject};

use crate::copy_fault::CopyRefusal;
use crate::ending::{Ending, Exit, Subject, exit_with};
use crate::fault::CommandFault;
use crate::file_copies::copy_file;
use crate::printing::print_text;
use crate::switching::switch_journal;
use sector_device::Device;
use std::alloc::Global;
use std::io::Write;
use systems::System;
use wire::sink::Sink;
use wire::text_sink::TakesText;

/// What `copy` prints where it has copied a database.
const COPIED: &str = "ok COPY\n";

/// Copies the database in a file to a new file of so many pages, gives it a journal where one is asked
/// for, and says so, or tells why not. The journal comes once the copy is whole and has its name: where
/// there is no room for it, the copy stays without one.
pub(crate) fn copy<Y: System, K: TakesText, E: Write>(
    system: &mut Y,
    alloc: Global,
    file: &str,
    new: &str,
    pages: u32,
    journal: bool,
    out: &mut K,
    err: &mut E,
) -> Exit
    ensures { Copies Y.Device.Device Y.state (Y.state system.old) file.entry new.entry pages journal
        result (Y.state system.new) (K.held out.old) (K.held out.new) (E.contents err.old)
        (E.contents err.new) }
{
    let copied = copy_file(system, alloc, file, new, pages);
    let given = give_journal(system, alloc, new, journal, copied);
    let ending = end_of_copy(copied, given, out);
    exit_with(ending, subject_of_copy(copied, file, new), err)
}

// Gives a copy that was made a journal, where one is asked for.
pub(crate) fn give_journal<Y: System>(
    system: &mut Y,
    alloc: Global,
    new: &str,
    journal: bool,
    copied: Result<(), CopyRefusal>,
) -> Result<(), CommandFault>
    ensures { GivesJournal Y.Device.Device Y.state journal copied system.old new.now result
        system.new }
{
    if !journal {
        return Ok(());
    }
    match copied {
        Ok(()) => switch_journal(system, alloc, new, true),
        Err(_) => Ok(()),
    }
}

// How a copy ended: where it was made, and given a journal that was asked for, that is printed.
fn end_of_copy<K: TakesText>(
    copied: Result<(), CopyRefusal>,
    given: Result<(), CommandFault>,
    out: &mut K,
) -> Ending
    ensures { IsCopyAnswered copied given (K.held out.old) result (K.held out.new) }
{
    match copied {
        Ok(()) => match given {
            Ok(()) => print_text(COPIED, out),
            Err(fault) => Ending::Fault(fault),
        },
        Err(refusal) => Ending::Fault(fault_of(refusal)),
    }
}

// Why a copy was refused, whichever file it was refused for.
pub(crate) fn fault_of(refusal: CopyRefusal) -> CommandFault
    ensures { result ≡ fault_in refusal }
{
    match refusal {
        CopyRefusal::File(fault) | CopyRefusal::New(fault) => fault,
    }
}

// What the end of a copy is about: the file, where that was refused; else the new one.
pub(crate) fn subject_of_copy<'a>(
    copied: Result<(), CopyRefusal>,
    file: &'a str,
    new: &'a str,
) -> Subject<'a>
    ensures { result ≡ copy_subject file.entry new.entry copied }
{
    match copied {
        Err(CopyRefusal::File(_)) => Subject::Named(file),
        Err(CopyRefusal::New(CommandFault::Partial)) => Subject::Partial(new),
        Ok(()) | Err(CopyRefusal::New(_)) => Subject::Named(new),
    }
}
