//! What the program writes to its standard output, and what it tells where that fails.

ghost use Rattle.std.specs.Prelude.{◌≡◌, OnOk};
ghost use Rattle.std.specs.Io.KnownBytes.{Appends};
ghost use Rattle.std.specs.IoError.{error_kind};
ghost use Rattle.cli.specs.Printing.{ending_of_output, IsPrinted, IsTextShown, Prints};

use crate::ending::{Ending, Exit, Subject, exit_with};
use crate::fault::CommandFault;
use std::io;
use std::io::Write;
use wire::sink::Sink;
use wire::text_sink::TakesText;

/// Writes a text that is read to `out`, and tells where it is not taken.
pub(crate) fn print_for<K: TakesText, E: Write>(text: &str, out: &mut K, err: &mut E) -> Exit
    ensures { Prints text.now result (K.held out.old) (K.held out.new)
        (E.contents err.old) (E.contents err.new) }
{
    let about = Subject::Named("standard output");
    exit_with(show_text(text, out), about, err)
}

/// Writes a text to `out`.
pub(crate) fn print_text<K: TakesText>(text: &str, out: &mut K) -> Ending
    ensures { IsPrinted text.now (K.held out.old) result (K.held out.new) }
{
    match write_text(text, out) {
        Ok(()) => Ending::Done,
        Err(_) => Ending::Fault(CommandFault::Output),
    }
}

/// Writes a text that is read to `out`. Whoever reads it may leave before its end, as `head` does.
pub(crate) fn show_text<K: TakesText>(text: &str, out: &mut K) -> Ending
    ensures { IsTextShown text.now (K.held out.old) result (K.held out.new) }
{
    match write_text(text, out) {
        Ok(()) => Ending::Done,
        Err(error) => end_of_output(&error),
    }
}

// How the showing of a text ends that is not taken, for this error.
fn end_of_output(error: &io::Error) -> Ending
    ensures { result ≡ ending_of_output (error_kind error.now) }
{
    match error.kind() {
        io::ErrorKind::BrokenPipe => Ending::ReaderLeft,
        _ => Ending::Fault(CommandFault::Output),
    }
}

fn write_text<K: TakesText>(text: &str, out: &mut K) -> io::Result<()>
    ensures { OnOk result (Appends (K.held out.old) (K.held out.new) text.now) }
{
    out.print(text)?;
    out.finish()
}
