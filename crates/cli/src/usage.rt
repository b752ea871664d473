//! What the program tells where its words give no order, or where it cannot begin.

ghost use Rattle.std.specs.Prelude.{◌≡◌, ◌≢◌, OnOk, IfSome};
ghost use Rattle.std.specs.Io.KnownBytes.{Appends};
ghost use Rattle.std.specs.IoError.{error_kind};
ghost use Rattle.std.specs.declared.io.ErrorKind.TheVariants.{OutOfMemory};
ghost use Rattle.sector_device.specs.SystemCause.{cause_of};
ghost use Rattle.cli.specs.Usage.{fault_told, mistake_told, usage_reason};
ghost use Rattle.cli.specs.Ending.{Exits, HasTold};
ghost use Rattle.cli.specs.CommandNames.{usage_for};
ghost use Rattle.cli.specs.Program.{usage_message, usage_status, usage_text};

use crate::command::UsageFault;
use crate::command_name::{CommandName, usage_of};
use crate::ending::{Ending, Exit, Subject, exit_with};
use crate::fault::CommandFault;
use clap::error::Error;
use sector_device::SystemCause;
use std::io;
use std::io::Write;

/// The fault that an error of reading the program's words is: `Memory` where memory was refused,
/// else `Encoding`.
pub fn words_fault(error: &io::Error) -> UsageFault<'static>
    ensures memory { error_kind error.now ≡ OutOfMemory → result ≡ UsageFault.Memory }
    ensures other { error_kind error.now ≢ OutOfMemory → result ≡ UsageFault.Encoding }
{
    match error.kind() {
        io::ErrorKind::OutOfMemory => UsageFault::Memory,
        _ => UsageFault::Encoding,
    }
}

/// Tells on `err` that the system refused what `about` names, before a database was opened: the
/// fault is `Device`, and the exit status 1.
pub fn report_fault<E: Write>(error: &io::Error, about: Subject<'_>, err: &mut E) -> Exit
    ensures { Exits about.entry (Ending.Fault (CommandFault.Device (cause_of (error_kind error.now))))
        result (E.contents err.old) (E.contents err.new) }
{
    let fault = CommandFault::Device(SystemCause::of(error));
    exit_with(Ending::Fault(fault), about, err)
}

/// Tells on `err` what is wrong with the words and how the command is called that they begin with, or the
/// program where they begin with none; the exit status is 2. Of words after `password` none is told, since a
/// password may be among them. Where memory was refused that is told in its place; the status is 1.
pub fn report_usage<E: Write>(
    fault: UsageFault<'_>,
    command: Option<CommandName>,
    err: &mut E,
) -> Exit
    ensures status { result.status ≡ usage_status fault.entry }
    ensures told { IfSome (usage_text command fault.entry) (λ text.
        HasTold result text (E.contents err.old) (E.contents err.new)) }
{
    if let UsageFault::Memory = fault {
        let about = Subject::Named("the command line");
        return exit_with(Ending::Fault(CommandFault::Memory), about, err);
    }
    let told = fault_told(command, fault);
    Exit {
        status: 2,
        told: write_usage(&told, usage_of(command), err).is_ok(),
    }
}

// The fault that is told.
fn fault_told(command: Option<CommandName>, fault: UsageFault<'_>) -> UsageFault<'_>
    ensures { result ≡ fault_told command fault.entry }
{
    match fault {
        UsageFault::Grammar(error) => mistake_told(command, error),
        fault => fault,
    }
}

// The fault that is told where words do not fit the grammar.
fn mistake_told<'a>(command: Option<CommandName>, error: Error) -> UsageFault<'a>
    ensures { result ≡ mistake_told command error }
{
    match command {
        Some(CommandName::Password) => UsageFault::Making,
        _ => UsageFault::Grammar(error),
    }
}

// Writes why the words are refused, how the program or its command is called, and where its help is.
fn write_usage<E: Write>(fault: &UsageFault<'_>, usage: &str, err: &mut E) -> io::Result<()>
    ensures { OnOk result (IfSome (usage_reason fault.now) (λ reason.
        Appends (E.contents err.old) (E.contents err.new) (usage_message usage.now reason))) }
{
    write!(
        err,
        "error: {fault}\n\nUsage: {usage}\n\nFor more information, try '--help'.\n"
    )
}
