//! Runs of scripts whose refusals are told of.

ghost use Rattle.std.specs.Prelude.{◌≡◌};
ghost use Rattle.wire.specs.ScriptRun.{lines_of};
ghost use Rattle.wire.specs.SessionNames.{texts_of};
ghost use Rattle.cli.specs.ExplainedRuns.{explained_ending, EndsExplained, ExplainsBytes, ExplainsFile, ExplainsInMemory, ExplainsNew, ExplainsRun, ExplainsText, IsFaultTold, IsFresh};

use crate::command::{UsageFault, is_name};
use crate::command_name::CommandName;
use crate::ending::{Ending, Performed, Subject, exit_after, exit_with};
use crate::explainer::Explainer;
use crate::fault::CommandFault;
use crate::opened::{open_database_in, tell_migration};
use crate::refusals::{ExplainedRun, RunOver};
use crate::running::run_in_memory;
use crate::script::{not_utf8, read_script};
use crate::script_note::{note_after, split_lines};
use crate::usage::report_usage;
use databases::run_script_on;
use sector_device::Device;
use server::decide::EventHandler;
use sql_types::name::Name;
use std::alloc::Global;
use std::io::Write;
use std::str::from_utf8;
use systems::System;
use wire::sink::Sink;
use wire::text_sink::TakesText;

/// Runs a script as `perform` does, and after each answer tells on `err` what there is to say of its event:
/// of a refusal the line and what its code means, of a statement with wrong syntax where that is, and of
/// another the first word that is taken for an alias. If the script is to end at the first refusal, the
/// exit status is 3 where it does.
pub(crate) fn explain<Y: System, X: EventHandler + Drop, K: TakesText + Drop, E: Write + Drop>(
    system: &mut Y,
    alloc: Global,
    handler: X,
    run: ExplainedRun<'_>,
    out: K,
    err: E,
) -> Performed<K, E>
    ensures { ExplainsRun X Y.Device.Device K.Sink E.contents X.Reads (Y.state system.old) run.entry
        out err (Y.state system.new) result }
{
    match read_script(system, alloc, run.script) {
        Ok(read) => explain_bytes(system, alloc, handler, run, read.as_slice(), out, err),
        Err(fault) => tell_fault(fault, Subject::Named(run.script), out, err),
    }
}

// Tells a fault before anything was run.
fn tell_fault<K: TakesText + Drop, E: Write + Drop>(
    fault: CommandFault,
    about: Subject<'_>,
    out: K,
    err: E,
) -> Performed<K, E>
    ensures { IsFaultTold E.contents about.entry fault out err result }
{
    let mut err = err;
    let exit = exit_with(Ending::Fault(fault), about, &mut err);
    Performed { exit, out, err }
}

// Runs what was read of a script, where it is UTF-8.
fn explain_bytes<Y: System, X: EventHandler + Drop, K: TakesText + Drop, E: Write + Drop>(
    system: &mut Y,
    alloc: Global,
    handler: X,
    run: ExplainedRun<'_>,
    read: &[u8],
    out: K,
    err: E,
) -> Performed<K, E>
    ensures { ExplainsBytes X Y.Device.Device K.Sink E.contents X.Reads (Y.state system.old) run.entry
        read.now out err (Y.state system.new) result }
{
    match from_utf8(read) {
        Ok(text) => explain_text(system, alloc, handler, run, text, out, err),
        Err(error) => {
            let fault = not_utf8(read, error.valid_up_to());
            tell_fault(fault, Subject::Named(run.script), out, err)
        }
    }
}

// Runs the text of a script, unless memory for its lines is refused.
fn explain_text<Y: System, X: EventHandler + Drop, K: TakesText + Drop, E: Write + Drop>(
    system: &mut Y,
    alloc: Global,
    handler: X,
    run: ExplainedRun<'_>,
    text: &str,
    out: K,
    err: E,
) -> Performed<K, E>
    ensures { ExplainsText X Y.Device.Device K.Sink E.contents X.Reads (Y.state system.old) run.entry
        text.now out err (Y.state system.new) result }
{
    let Ok(lines) = split_lines(alloc, text) else {
        return tell_fault(CommandFault::Memory, Subject::Named(run.script), out, err);
    };
    let lines = lines.as_slice();
    match run.over {
        RunOver::File(file) => {
            explain_file(system, alloc, handler, file, run, text, lines, out, err)
        }
        RunOver::Memory(admin) => {
            explain_in_memory(alloc, handler, admin, run, text, lines, out, err)
        }
    }
}

// Runs a script over the database in a file, or tells why that is not opened.
fn explain_file<Y: System, X: EventHandler + Drop, K: TakesText + Drop, E: Write + Drop>(
    system: &mut Y,
    alloc: Global,
    handler: X,
    file: &str,
    run: ExplainedRun<'_>,
    text: &str,
    lines: &[&str],
    out: K,
    err: E,
) -> Performed<K, E>
    requires { texts_of lines.now ≡ lines_of text.now }
    ensures { ExplainsFile X Y.Device.Device K.Sink E.contents X.Reads (Y.state system.old)
        file.entry run.entry text.now out err (Y.state system.new) result }
{
    let opened = match open_database_in(system, alloc, handler, file) {
        Ok(opened) => opened,
        Err(fault) => return tell_fault(fault, Subject::Named(file), out, err),
    };
    let mut err = err;
    let told = tell_migration(opened.was_migrated, file, &mut err);
    let mut sink = explainer(alloc, run, lines, told, out, err);
    let (left, end) = run_script_on(alloc, opened.server, text, &mut sink);
    system.close(file, left);
    end_explained(alloc, text, Subject::Named(file), Ending::from(end), sink)
}

// Runs a script over a new database in memory, for a name that a role can have.
fn explain_in_memory<X: EventHandler + Drop, K: TakesText + Drop, E: Write + Drop>(
    alloc: Global,
    handler: X,
    admin: &str,
    run: ExplainedRun<'_>,
    text: &str,
    lines: &[&str],
    out: K,
    err: E,
) -> Performed<K, E>
    requires { texts_of lines.now ≡ lines_of text.now }
    ensures { ExplainsInMemory X K.Sink E.contents X.Reads admin.now run.entry text.now out
        err result }
{
    if !is_name(admin) {
        let mut err = err;
        let exit = report_usage(UsageFault::Name(admin), Some(CommandName::Run), &mut err);
        return Performed { exit, out, err };
    }
    let Ok(Some(name)) = Name::from_str(alloc, admin) else {
        return tell_fault(CommandFault::Memory, Subject::Named(run.script), out, err);
    };
    explain_new(alloc, handler, &name, run, text, lines, out, err)
}

// Runs a script over a new database in memory of this administrator.
fn explain_new<X: EventHandler + Drop, K: TakesText + Drop, E: Write + Drop>(
    alloc: Global,
    handler: X,
    admin: &Name,
    run: ExplainedRun<'_>,
    text: &str,
    lines: &[&str],
    out: K,
    err: E,
) -> Performed<K, E>
    requires { texts_of lines.now ≡ lines_of text.now }
    ensures { ExplainsNew X K.Sink E.contents X.Reads admin.now run.entry text.now out
        err result }
{
    let about = Subject::Named(run.script);
    let mut sink = explainer(alloc, run, lines, true, out, err);
    let ending = run_in_memory(alloc, handler, admin, text, &mut sink);
    end_explained(alloc, text, about, ending, sink)
}

// A sink of a script of which no line was read yet.
fn explainer<'a, K: TakesText + Drop, E: Write + Drop>(
    alloc: Global,
    run: ExplainedRun<'a>,
    lines: &'a [&'a str],
    told: bool,
    out: K,
    err: E,
) -> Explainer<'a, K, E>
    ensures { IsFresh run.entry (texts_of lines.now) told out err result }
{
    Explainer {
        out,
        err,
        script: run.script,
        lines,
        stops: run.stops,
        alloc,
        read: 0,
        told,
        refused: false,
        failures: 0,
    }
}

// Tells how a script ended, and then its notes.
fn end_explained<K: TakesText + Drop, E: Write + Drop>(
    alloc: Global,
    text: &str,
    about: Subject<'_>,
    ending: Ending,
    sink: Explainer<'_, K, E>,
) -> Performed<K, E>
    ensures { EndsExplained E.contents about.entry text.now ending sink.entry result }
{
    let ending = explained_ending(ending, sink.refused);
    let Explainer {
        out,
        mut err,
        script,
        lines: _,
        stops: _,
        alloc: _,
        read: _,
        told,
        refused: _,
        failures: _,
    } = sink;
    let exit = exit_after(told, ending, about, &mut err);
    let exit = note_after(exit, alloc, text, Subject::Named(script), ending, &mut err);
    Performed { exit, out, err }
}

// How a script ended whose sink takes no answer after the refusal at which it is to end.
fn explained_ending(ending: Ending, refused: bool) -> Ending
    ensures { result ≡ explained_ending ending refused }
{
    match (ending, refused) {
        (Ending::Fault(CommandFault::Output), true) => Ending::Refused,
        _ => ending,
    }
}
