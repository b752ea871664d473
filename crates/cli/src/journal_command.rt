//! What the program does for `journal`.

ghost use Rattle.cli.specs.JournalCommand.{IsSwitchAnswered, Switches};

use crate::ending::{Ending, Exit, Subject, exit_with};
use crate::fault::CommandFault;
use crate::printing::print_text;
use crate::switching::switch_journal;
use sector_device::Device;
use std::alloc::Global;
use std::io::Write;
use systems::System;
use wire::sink::Sink;
use wire::text_sink::TakesText;

/// What `journal` prints where it has turned a journal on or off, or found it so.
const SWITCHED: &str = "ok JOURNAL\n";

/// Gives the database in a file a journal, or takes its journal away, and says so, or tells why not.
pub(crate) fn switch<Y: System, K: TakesText, E: Write>(
    system: &mut Y,
    alloc: Global,
    file: &str,
    on: bool,
    out: &mut K,
    err: &mut E,
) -> Exit
    ensures { Switches Y.Device.Device (Y.state system.old) file.entry on result
        (Y.state system.new) (K.held out.old) (K.held out.new) (E.contents err.old)
        (E.contents err.new) }
{
    let switched = switch_journal(system, alloc, file, on);
    let ending = end_of_switch(switched, out);
    exit_with(ending, Subject::Named(file), err)
}

// How that ended: where it was done, that is printed.
fn end_of_switch<K: TakesText>(switched: Result<(), CommandFault>, out: &mut K) -> Ending
    ensures { IsSwitchAnswered switched (K.held out.old) result (K.held out.new) }
{
    match switched {
        Ok(()) => print_text(SWITCHED, out),
        Err(fault) => Ending::Fault(fault),
    }
}
