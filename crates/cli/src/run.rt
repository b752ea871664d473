//! Checks of a database in a file, and runs of scripts over it.

ghost use Rattle.cli.specs.Commands.{ChecksFile, RunsFile};

use crate::opened::{CommandEnd, open_database_in, open_to_check_in, tell_migration};
use databases::run_script_on;
use server::decide::EventHandler;
use std::alloc::Global;
use std::io::Write;
use systems::System;
use wire::script_run::ScriptEnd;
use wire::text_sink::TakesText;

/// Checks the database in the file at `path`, with all of its definitions and all of its rows. No
/// event is decided, and nothing is written of a file of format 2. The file is closed then.
///
/// A file of format 1 is migrated as it is opened, by each command over a file: then it is of format
/// 2, and `err` is told so, as `guarddb: PATH was of format 1 and is of format 2 now`. That `err`
/// does not take the line is no fault, but the answer's `told` says so.
///
/// The faults are those of `System::open`; `WrongSize`, `NotADatabase`, `NewerFormat` and `Damaged`,
/// which name the first fault that stands in the file; and `Full` and `Number`, where a file of
/// format 1 has no room for its records in format 2, or no commit number. Nothing is told on `err`
/// then, and the file is there as opening it has left it.
pub fn check_file<Y: System, X: EventHandler + Drop, E: Write>(
    system: &mut Y,
    alloc: Global,
    handler: X,
    path: &str,
    err: &mut E,
) -> CommandEnd<()>
    ensures { ChecksFile X Y.Device.Device (Y.state system.old) path.now (E.contents err.old) result
        (Y.state system.new) (E.contents err.new) }
{
    let opened = match open_to_check_in(system, alloc, handler, path) {
        Ok(opened) => opened,
        Err(fault) => return CommandEnd::unopened(fault),
    };
    let told = tell_migration(opened.was_migrated, path, err);
    system.close(path, opened.server.into_store().into_device());
    CommandEnd {
        outcome: Ok(()),
        told,
    }
}

/// Runs a script over the database in the file at `path`, whose events `handler` decides: each
/// answer is told to `out` once its event is carried out, before the next line is read. However the
/// script ends, the sessions that are still open are then closed, unless the server has stopped, and
/// so is the file. Before the first line a stop leaves each sector of the file as it was read, and
/// `err` is told that the file was migrated, where it was, as at `check_file`.
///
/// The faults are those of `check_file`: then no line is run and nothing is told to `out`.
pub fn run_file<Y: System, X: EventHandler + Drop, K: TakesText, E: Write>(
    system: &mut Y,
    alloc: Global,
    handler: X,
    path: &str,
    script: &str,
    out: &mut K,
    err: &mut E,
) -> CommandEnd<ScriptEnd>
    ensures { RunsFile X Y.Device.Device K.Sink X.Reads (Y.state system.old) path.now script.now
        out.old (E.contents err.old) result (Y.state system.new) out.new (E.contents err.new) }
{
    let opened = match open_database_in(system, alloc, handler, path) {
        Ok(opened) => opened,
        Err(fault) => return CommandEnd::unopened(fault),
    };
    let told = tell_migration(opened.was_migrated, path, err);
    let (left, end) = run_script_on(alloc, opened.server, script, out);
    system.close(path, left);
    CommandEnd {
        outcome: Ok(end),
        told,
    }
}
