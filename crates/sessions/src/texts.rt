//! The text of a statement in a session.

ghost use Rattle.std.specs.Prelude.{Option, Ok};
ghost use Rattle.store.specs.Records.{Records};
ghost use Rattle.store.specs.Readers.{HasRead};
ghost use Rattle.stored_database.specs.Records.{Shows};
ghost use Rattle.abstract_database.specs.Database.{Database};
ghost use Rattle.abstract_database.specs.Descriptions.{IsDescription};
ghost use Rattle.abstract_database.specs.Machine.{Holder, executes};
ghost use Rattle.abstract_database.specs.Runs.{TheText};
ghost use Rattle.server.specs.Standing.{HolderShows, HoldsInBlock};
ghost use Rattle.server.specs.Decisions.{DecidesAt, machine_at};
ghost use Rattle.server.specs.LockedOut.{TellsLockedOut, TellsAsking};
ghost use Rattle.sessions.specs.Readings.{ReadsText};

use crate::answers::refuse;
use crate::laws::one_reading;
use crate::readings::TextReader;
use crate::seeing::other_holds_lock;
use crate::statements::OpenSession;
use server::decide::Context;
use server::decision::{Decision, SessionChange};
use server::execute::Execute;
use sql_ast::description::StatementDescription;
use sql_ast::statement::Statement;
use sql_types::answer::Answer;
use sql_types::state::SqlState;
use std::alloc::{AllocError, Global};
use store::{Fault, Map};

/// What a text asks in the session of this number. `ConnectionDoesNotExist` where no session of the
/// number is open; a text that is no statement is refused like a statement, with the code with which
/// it is read.
///
/// Device: the device of the map failed. Damaged: a record is one that no database has, which never
/// comes over a map that shows a database.
pub(crate) fn decide_text<M: Map, X: Execute>(
    executor: &X,
    reader: TextReader<'_>,
    map: &mut M,
    context: Context<'_>,
    number: u64,
    text: &str,
) -> Result<Decision, Fault>
    ensures preserved { M.preserved map.old map.new }
    ensures read { HasRead result (M.state map.old) (M.state map.new) }
    ensures decides { (M.state map.old).sound → (db : Database) (holder : Option Holder)
        → Shows (M.state map.old).map context.entry.catalogue.now db
        → HolderShows (M.state map.old).map context.entry.catalogue.now context.entry.writer.now holder
        → HoldsInBlock holder context.entry.sessions.now.entries
        → DecidesAt ReadsText (M.state map.old).map context.entry.catalogue.now context.entry.writer.now
        db holder context.entry.sessions.now.entries (executes number text.now) result }
{
    let Some(session) = context.sessions.get(&number) else {
        return Ok(Decision::Answer(
            Answer::Refused(SqlState::ConnectionDoesNotExist),
            SessionChange::Keep,
        ));
    };
    match reader.read(text) {
        Ok(Ok(statement)) => {
            let open = OpenSession {
                number,
                session,
                catalogue: context.catalogue,
                writer: context.writer,
            };
            let decided = open.decide(executor, reader.alloc, map, &statement);
            reader.keep(text, statement);
            decided
        }
        Ok(Err(code)) => Ok(refuse(number, session, code)),
        Err(_) => Err(Fault::Memory),
    }
}

/// What a statement asks in the session of this number: what each text asks that reads as it.
pub(crate) fn decide_read<M: Map, X: Execute>(
    executor: &X,
    alloc: Global,
    map: &mut M,
    context: Context<'_>,
    number: u64,
    statement: &Statement,
) -> Result<Decision, Fault>
    ensures preserved { M.preserved map.old map.new }
    ensures read { HasRead result (M.state map.old) (M.state map.new) }
    ensures decides { (text : TheText) → ReadsText text (Ok statement.now) → (M.state map.old).sound
        → (db : Database) (holder : Option Holder)
        → Shows (M.state map.old).map context.entry.catalogue.now db
        → HolderShows (M.state map.old).map context.entry.catalogue.now context.entry.writer.now holder
        → HoldsInBlock holder context.entry.sessions.now.entries
        → DecidesAt ReadsText (M.state map.old).map context.entry.catalogue.now context.entry.writer.now
        db holder context.entry.sessions.now.entries (executes number text) result }
{
    let Some(session) = context.sessions.get(&number) else {
        return Ok(Decision::Answer(
            Answer::Refused(SqlState::ConnectionDoesNotExist),
            SessionChange::Keep,
        ));
    };
    let open = OpenSession {
        number,
        session,
        catalogue: context.catalogue,
        writer: context.writer,
    };
    open.decide(executor, alloc, map, statement)
}

/// Whether a text is a statement that the session of this number may not execute since another session
/// holds the writer lock. The only error is that an allocation failed, and it comes only in an open
/// session, beside the holder of the writer lock, for a text of at most 65,536 bytes.
pub(crate) fn is_locked_out(
    reader: TextReader<'_>,
    context: Context<'_>,
    number: u64,
    text: &str,
) -> Result<bool, AllocError>
    ensures { (records : Records) (db : Database) (holder : Option Holder)
        → Shows records context.entry.catalogue.now db
        → HolderShows records context.entry.catalogue.now context.entry.writer.now holder
        → HoldsInBlock holder context.entry.sessions.now.entries
        → TellsLockedOut ReadsText (machine_at db holder context.entry.sessions.now.entries)
        (executes number text.now) result }
{
    // For the proof: a text has one reading.
    one_reading();
    let Some(session) = context.sessions.get(&number) else {
        return Ok(false);
    };
    if !other_holds_lock(context.writer, number) {
        return Ok(false);
    }
    match reader.read(text) {
        Ok(Ok(statement)) => {
            let open = OpenSession {
                number,
                session,
                catalogue: context.catalogue,
                writer: context.writer,
            };
            let told = open.is_locked_out(reader.alloc, &statement);
            reader.keep(text, statement);
            told
        }
        Ok(Err(_)) => Ok(false),
        Err(_) => Err(AllocError),
    }
}

/// Whether a text is a statement that changes the database and that the session of this number may
/// execute, while nobody holds the writer lock. The only error is that an allocation failed, and it
/// comes only in an open session, while nobody holds the writer lock, for a text of at most 65,536
/// bytes.
pub(crate) fn asks_for_lock(
    reader: TextReader<'_>,
    context: Context<'_>,
    number: u64,
    text: &str,
) -> Result<bool, AllocError>
    ensures { (records : Records) (db : Database) (holder : Option Holder)
        → Shows records context.entry.catalogue.now db
        → HolderShows records context.entry.catalogue.now context.entry.writer.now holder
        → HoldsInBlock holder context.entry.sessions.now.entries
        → TellsAsking ReadsText (machine_at db holder context.entry.sessions.now.entries)
        (executes number text.now) result }
{
    // For the proof: a text has one reading.
    one_reading();
    let Some(session) = context.sessions.get(&number) else {
        return Ok(false);
    };
    if context.writer.is_some() {
        return Ok(false);
    }
    match reader.read(text)? {
        Ok(statement) => {
            let open = OpenSession {
                number,
                session,
                catalogue: context.catalogue,
                writer: context.writer,
            };
            let told = open.asks_for_lock(reader.alloc, &statement);
            reader.keep(text, statement);
            told
        }
        Err(_) => Ok(false),
    }
}

/// What the statement of a text would answer in the session of this number, as far as that depends
/// on no row. `Refused(ConnectionDoesNotExist)` where no session of the number is open; a text that
/// is no statement is `Refused` with the code with which it is read, and each text with
/// `OutOfMemory` where an allocation failed.
pub(crate) fn describe<X: Execute>(
    executor: &X,
    reader: TextReader<'_>,
    context: Context<'_>,
    number: u64,
    text: &str,
) -> StatementDescription
    ensures { (records : Records) (db : Database) (holder : Option Holder)
        → Shows records context.entry.catalogue.now db
        → HolderShows records context.entry.catalogue.now context.entry.writer.now holder
        → HoldsInBlock holder context.entry.sessions.now.entries
        → IsDescription ReadsText (machine_at db holder context.entry.sessions.now.entries)
        number text.now result }
{
    let Some(session) = context.sessions.get(&number) else {
        return StatementDescription::Refused(SqlState::ConnectionDoesNotExist);
    };
    match reader.read(text) {
        Ok(Ok(statement)) => {
            let open = OpenSession {
                number,
                session,
                catalogue: context.catalogue,
                writer: context.writer,
            };
            let described = open.describe(executor, reader.alloc, &statement);
            reader.keep_for_run(text, statement);
            described
        }
        Ok(Err(code)) => StatementDescription::Refused(code),
        Err(_) => StatementDescription::Refused(SqlState::OutOfMemory),
    }
}
