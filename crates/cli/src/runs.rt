//! The runs of scripts that a command asks for, over the database in a file or a new one in memory.

ghost use Rattle.std.specs.Prelude.{◌≡◌};
ghost use Rattle.cli.specs.Program.{ending_of_run, RunsBytes, RunsBytesOver, RunsFor, RunsInMemory, RunsOver, RunsOverFile, RunsSource, RunsText};
ghost use Rattle.cli.specs.Script.{source_of};

use crate::command::{UsageFault, is_name};
use crate::command_name::CommandName;
use crate::ending::{Ending, Exit, Subject, exit_after, exit_with};
use crate::fault::CommandFault;
use crate::opened::CommandEnd;
use crate::run::run_file;
use crate::running::run_in_memory;
use crate::script::{not_utf8, read_by, read_script};
use crate::script_note::note_after;
use crate::usage::report_usage;
use sector_device::Device;
use server::decide::EventHandler;
use sql_types::name::Name;
use std::alloc::Global;
use std::io;
use std::io::Write;
use std::str::from_utf8;
use systems::System;
use wire::script_run::ScriptEnd;
use wire::sink::Sink;
use wire::text_sink::TakesText;

/// Reads a script and runs it over the database in a file.
pub(crate) fn run_over_file<Y: System, X: EventHandler + Drop, K: TakesText, E: Write>(
    system: &mut Y,
    alloc: Global,
    handler: X,
    file: &str,
    script: &str,
    out: &mut K,
    err: &mut E,
) -> Exit
    ensures { RunsOver X Y.Device.Device K.Sink X.Reads (Y.state system.old)
        (Subject.Named file.entry) file.now (Subject.Named script.entry) script.now result
        (Y.state system.new) out.old out.new (E.contents err.old) (E.contents err.new) }
{
    match read_script(system, alloc, script) {
        Ok(read) => {
            run_bytes_over_file(
                system,
                alloc,
                handler,
                file,
                script,
                read.as_slice(),
                out,
                err,
            )
        }
        Err(fault) => exit_with(Ending::Fault(fault), Subject::Named(script), err),
    }
}

// Runs what was read of a script over the database in a file, where it is UTF-8.
fn run_bytes_over_file<Y: System, X: EventHandler + Drop, K: TakesText, E: Write>(
    system: &mut Y,
    alloc: Global,
    handler: X,
    file: &str,
    script: &str,
    read: &[u8],
    out: &mut K,
    err: &mut E,
) -> Exit
    ensures { RunsBytesOver X Y.Device.Device K.Sink X.Reads (Y.state system.old)
        (Subject.Named file.entry) file.now (Subject.Named script.entry) read.now result
        (Y.state system.new) out.old out.new (E.contents err.old) (E.contents err.new) }
{
    match from_utf8(read) {
        Ok(text) => run_text_over_file(system, alloc, handler, file, script, text, out, err),
        Err(error) => {
            let fault = not_utf8(read, error.valid_up_to());
            exit_with(Ending::Fault(fault), Subject::Named(script), err)
        }
    }
}

// Runs the text of a script over the database in a file, or tells why that is not opened.
fn run_text_over_file<Y: System, X: EventHandler + Drop, K: TakesText, E: Write>(
    system: &mut Y,
    alloc: Global,
    handler: X,
    file: &str,
    script: &str,
    text: &str,
    out: &mut K,
    err: &mut E,
) -> Exit
    ensures { RunsOverFile X Y.Device.Device K.Sink X.Reads (Y.state system.old)
        (Subject.Named file.entry) file.now (Subject.Named script.entry) text.now result
        (Y.state system.new) out.old out.new (E.contents err.old) (E.contents err.new) }
{
    let CommandEnd { outcome, told } = run_file(system, alloc, handler, file, text, out, err);
    let ending = end_of_run(outcome);
    let exit = exit_after(told, ending, Subject::Named(file), err);
    note_after(exit, alloc, text, Subject::Named(script), ending, err)
}

// How the run of a script over a file ended.
fn end_of_run(outcome: Result<ScriptEnd, CommandFault>) -> Ending
    ensures { result ≡ ending_of_run outcome }
{
    match outcome {
        Ok(end) => Ending::from(end),
        Err(fault) => Ending::Fault(fault),
    }
}

/// Reads a script and runs it over a new database in memory.
pub(crate) fn run_read_in_memory<Y: System, X: EventHandler + Drop, K: TakesText, E: Write>(
    system: &mut Y,
    alloc: Global,
    handler: X,
    admin: &str,
    script: &str,
    out: &mut K,
    err: &mut E,
) -> Exit
    ensures { RunsInMemory X K.Sink X.Reads (Y.state system.old) (Subject.Named script.entry)
        admin.now script.now result (Y.state system.new) out.old out.new (E.contents err.old)
        (E.contents err.new) }
{
    let read = read_script(system, alloc, script);
    run_read_for(
        alloc,
        handler,
        admin,
        read,
        Subject::Named(script),
        out,
        err,
    )
}

/// Runs a script that was read over a new database in memory whose one role is the superuser
/// `admin`, and answers the exit status as `perform` does. Faults are told about `about`, which
/// names the script. A name that no role can have is a fault of usage: the status is 2, and nothing
/// is printed.
pub fn run_for<X: EventHandler + Drop, K: TakesText, E: Write>(
    alloc: Global,
    handler: X,
    admin: &str,
    script: io::Result<Vec<u8>>,
    about: Subject<'_>,
    out: &mut K,
    err: &mut E,
) -> Exit
    ensures { RunsFor about.entry X X.Reads K.Sink admin.now (source_of script) result out.old
        out.new (E.contents err.old) (E.contents err.new) }
{
    run_read_for(alloc, handler, admin, read_by(script), about, out, err)
}

// Runs a script that was read, or tells the fault of its reading.
fn run_read_for<X: EventHandler + Drop, K: TakesText, E: Write>(
    alloc: Global,
    handler: X,
    admin: &str,
    script: Result<Vec<u8>, CommandFault>,
    about: Subject<'_>,
    out: &mut K,
    err: &mut E,
) -> Exit
    ensures { RunsFor about.entry X X.Reads K.Sink admin.now script result out.old out.new
        (E.contents err.old) (E.contents err.new) }
{
    if !is_name(admin) {
        return report_usage(UsageFault::Name(admin), Some(CommandName::Run), err);
    }
    let Ok(Some(name)) = Name::from_str(alloc, admin) else {
        return exit_with(Ending::Fault(CommandFault::Memory), about, err);
    };
    run_source(alloc, handler, &name, script, about, out, err)
}

// Runs a script that was read for an administrator, or tells the fault of its reading.
fn run_source<X: EventHandler + Drop, K: TakesText, E: Write>(
    alloc: Global,
    handler: X,
    admin: &Name,
    script: Result<Vec<u8>, CommandFault>,
    about: Subject<'_>,
    out: &mut K,
    err: &mut E,
) -> Exit
    ensures { RunsSource about.entry X X.Reads K.Sink admin.now script result out.old out.new
        (E.contents err.old) (E.contents err.new) }
{
    match script {
        Ok(read) => run_bytes(alloc, handler, admin, read.as_slice(), about, out, err),
        Err(fault) => exit_with(Ending::Fault(fault), about, err),
    }
}

// Runs what was read of a script, where it is UTF-8.
fn run_bytes<X: EventHandler + Drop, K: TakesText, E: Write>(
    alloc: Global,
    handler: X,
    admin: &Name,
    read: &[u8],
    about: Subject<'_>,
    out: &mut K,
    err: &mut E,
) -> Exit
    ensures { RunsBytes about.entry X X.Reads K.Sink admin.now read.now result out.old out.new
        (E.contents err.old) (E.contents err.new) }
{
    match from_utf8(read) {
        Ok(text) => run_text(alloc, handler, admin, text, about, out, err),
        Err(error) => {
            let fault = not_utf8(read, error.valid_up_to());
            exit_with(Ending::Fault(fault), about, err)
        }
    }
}

// Runs the text of a script, and tells how that ended.
fn run_text<X: EventHandler + Drop, K: TakesText, E: Write>(
    alloc: Global,
    handler: X,
    admin: &Name,
    text: &str,
    about: Subject<'_>,
    out: &mut K,
    err: &mut E,
) -> Exit
    ensures { RunsText about.entry X X.Reads K.Sink admin.now text.now result out.old out.new
        (E.contents err.old) (E.contents err.new) }
{
    let ending = run_in_memory(alloc, handler, admin, text, out);
    let exit = exit_with(ending, about, err);
    note_after(exit, alloc, text, about, ending, err)
}
