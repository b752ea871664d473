//! How events are decided.

ghost use Rattle.std.specs.Prelude.{Option, Ok};
ghost use Rattle.store.specs.Records.{Records};
ghost use Rattle.store.specs.Readers.{HasRead};
ghost use Rattle.stored_database.specs.Records.{Shows};
ghost use Rattle.abstract_database.specs.Database.{Database};
ghost use Rattle.abstract_database.specs.Descriptions.{IsDescription};
ghost use Rattle.abstract_database.specs.Machine.{Holder, executes, number_in};
ghost use Rattle.abstract_database.specs.Runs.{TheText, ReadingRelation};
ghost use Rattle.server.specs.Standing.{HolderShows, HoldsInBlock, event_of};
ghost use Rattle.server.specs.Decisions.{DecidesAt, machine_at};
ghost use Rattle.server.specs.LockedOut.{TellsLockedOut, TellsAsking};
ghost use Rattle.server.specs.LookUps.{RefusesAText};

use crate::decision::Decision;
use crate::session::Session;
use crate::writer::Writer;
use catalogue::definitions::Catalogue;
use indexmap::IndexMap;
use sql_ast::description::StatementDescription;
use sql_ast::statement::Statement;
use sql_types::event::Event;
use std::alloc::{AllocError, Global};
use store::{Fault, Map};

/// What a server is beside its store: the definitions of the committed database, the writer lock where
/// a session holds it, and the open sessions by their numbers, in the order of their opening.
#[derive(Clone, Copy)]
pub struct Context<'a> {
    pub catalogue: &'a Catalogue,
    pub writer: &'a Option<Writer>,
    pub sessions: &'a IndexMap<u64, Session>,
}

/// What decides events, over any map.
pub trait EventHandler {
    /// What a text is read as.
    ghost Reads: { ReadingRelation };

    /// Not every text is a statement.
    ghost refuses_a_text: { RefusesAText Reads };

    /// What an event of a client asks of a server whose store is this map, which is only read. Device: the
    /// device of the map failed. Damaged: a record is one that no database has, which never comes
    /// over a map that stands for a database.
    fn decide<M: Map>(
        &self,
        alloc: Global,
        map: &mut M,
        context: Context<'_>,
        client: u32,
        event: &Event,
    ) -> Result<Decision, Fault>
        ensures preserved { M.preserved map.old map.new }
        ensures read { HasRead result (M.state map.old) (M.state map.new) }
        ensures decides { (M.state map.old).sound → (db : Database) (holder : Option Holder)
            → Shows (M.state map.old).map context.entry.catalogue.now db
            → HolderShows (M.state map.old).map context.entry.catalogue.now context.entry.writer.now holder
            → HoldsInBlock holder context.entry.sessions.now.entries
            → DecidesAt Reads (M.state map.old).map context.entry.catalogue.now context.entry.writer.now
            db holder context.entry.sessions.now.entries (event_of client event.now) result };

    /// What a statement asks in a client's session: what `decide` says of each text that reads as it.
    fn decide_read<M: Map>(
        &self,
        alloc: Global,
        map: &mut M,
        context: Context<'_>,
        client: u32,
        session: u32,
        statement: &Statement,
    ) -> Result<Decision, Fault>
        ensures preserved { M.preserved map.old map.new }
        ensures read { HasRead result (M.state map.old) (M.state map.new) }
        ensures decides { (text : TheText) → Reads text (Ok statement.now) → (M.state map.old).sound
            → (db : Database) (holder : Option Holder)
            → Shows (M.state map.old).map context.entry.catalogue.now db
            → HolderShows (M.state map.old).map context.entry.catalogue.now context.entry.writer.now holder
            → HoldsInBlock holder context.entry.sessions.now.entries
            → DecidesAt Reads (M.state map.old).map context.entry.catalogue.now context.entry.writer.now
            db holder context.entry.sessions.now.entries (executes (number_in client session) text) result };

    /// Whether an event of a client is a statement that the machine refuses since another session
    /// holds the writer lock. The only error is that an allocation failed, and it comes only for a
    /// statement in an open session while another session holds the writer lock.
    fn is_locked_out(
        &self,
        alloc: Global,
        context: Context<'_>,
        client: u32,
        event: &Event,
    ) -> Result<bool, AllocError>
        ensures tells { (records : Records) (db : Database) (holder : Option Holder)
            → Shows records context.entry.catalogue.now db
            → HolderShows records context.entry.catalogue.now context.entry.writer.now holder
            → HoldsInBlock holder context.entry.sessions.now.entries
            → TellsLockedOut Reads (machine_at db holder context.entry.sessions.now.entries)
            (event_of client event.now) result };

    /// Whether an event of a client is a statement that changes the database and that the machine lets
    /// its session execute, while nobody holds the writer lock. The only error is that an allocation
    /// failed, and it comes only for a statement in an open session while nobody holds the writer lock.
    fn asks_for_lock(
        &self,
        alloc: Global,
        context: Context<'_>,
        client: u32,
        event: &Event,
    ) -> Result<bool, AllocError>
        ensures tells { (records : Records) (db : Database) (holder : Option Holder)
            → Shows records context.entry.catalogue.now db
            → HolderShows records context.entry.catalogue.now context.entry.writer.now holder
            → HoldsInBlock holder context.entry.sessions.now.entries
            → TellsAsking Reads (machine_at db holder context.entry.sessions.now.entries)
            (event_of client event.now) result };

    /// What the statement of a text would answer in a client's session, as far as that depends on no
    /// row: over the definitions that the session sees, and by the roles that it has. It is
    /// `Refused(OutOfMemory)` where an allocation failed.
    fn describe(
        &self,
        alloc: Global,
        context: Context<'_>,
        client: u32,
        session: u32,
        text: &str,
    ) -> StatementDescription
        ensures tells { (records : Records) (db : Database) (holder : Option Holder)
            → Shows records context.entry.catalogue.now db
            → HolderShows records context.entry.catalogue.now context.entry.writer.now holder
            → HoldsInBlock holder context.entry.sessions.now.entries
            → IsDescription Reads (machine_at db holder context.entry.sessions.now.entries)
            (number_in client session) text.now result };
}
