//! A statement of an open session.

ghost use Rattle.std.specs.Prelude.{IsOk, IfOk, IfErr, Option, Err};
ghost use Rattle.sql_ast.specs.Statements.{IsRead};
ghost use Rattle.sql_parser.specs.Policies.{HasConditionsAsWritten};
ghost use Rattle.store.specs.Records.{Records};
ghost use Rattle.store.specs.Readers.{HasRead};
ghost use Rattle.store.specs.StatementError.{FailsForMemory, ReadsMap};
ghost use Rattle.stored_database.specs.Records.{Shows};
ghost use Rattle.transactions.specs.Views.{applied_all};
ghost use Rattle.catalogue.specs.Executed.{Executes};
ghost use Rattle.abstract_database.specs.Database.{Database};
ghost use Rattle.abstract_database.specs.Machine.{Holder, seen_by, users_of};
ghost use Rattle.abstract_database.specs.Statements.{exec};
ghost use Rattle.server.specs.Standing.{HolderShows};
ghost use Rattle.server.specs.Executed.{MayExecute};
ghost use Rattle.sessions.specs.Decisions.{Always};
ghost use Rattle.sessions.specs.Writers.{definitions_seen};
ghost use Rattle.sessions.specs.Visible.{records_seen};
ghost use Rattle.sessions.specs.Serving.{EndsBlock, IsAdmission, CarriesOut, ServesOver};
ghost use Rattle.sessions.specs.LockedOut.{IsForLock, TellsRefusal, TellsWriting};
ghost use Rattle.sessions.specs.Described.{DescribesThere};

use crate::admission::{admit, is_writing};
use crate::answers::refuse;
use crate::blocks::{begin, commit, roll_back};
use crate::decisions::decision_for;
use crate::roles::{reset_role, set_role};
use crate::seeing::{lists_seen, other_holds_lock, seen_catalogue};
use catalogue::definitions::Catalogue;
use catalogue::effect::Effect;
use server::decision::Decision;
use server::execute::Execute;
use server::session::Session;
use server::writer::Writer;
use sql_ast::description::StatementDescription;
use sql_ast::statement::{DatabaseStatement, SessionStatement, Statement};
use sql_types::state::SqlState;
use std::alloc::{AllocError, Global};
use store::{Batch, Fault, Map, StatementError};
use transactions::View;

/// An open session of a server: its number, what it is, the committed definitions, and the writer
/// lock.
#[derive(Clone, Copy)]
pub(crate) struct OpenSession<'a> {
    pub(crate) number: u64,
    pub(crate) session: &'a Session,
    pub(crate) catalogue: &'a Catalogue,
    pub(crate) writer: &'a Option<Writer>,
}

impl<'a> OpenSession<'a> {
    /// What a statement asks in the session, over a map that is only read. COMMIT and ROLLBACK are
    /// answered always, each other statement where the session may execute it. A refusal makes an
    /// open block failed.
    ///
    /// Device: the device of the map failed. Damaged: a record is one that no database has, which
    /// never comes over a map that shows a database. None of these comes of COMMIT and ROLLBACK.
    pub(crate) fn decide<M: Map, X: Execute>(
        &self,
        executor: &X,
        alloc: Global,
        map: &mut M,
        statement: &Statement,
    ) -> Result<Decision, Fault>
        ensures preserved { M.preserved map.old map.new }
        ensures read { HasRead result (M.state map.old) (M.state map.new) }
        ensures serves { (M.state map.old).sound → IsRead statement.now
            → HasConditionsAsWritten statement.now
            → ServesOver (M.state map.old).map self.now statement.now Always result }
        ensures ends { EndsBlock statement.now → IsOk result }
    {
        match self.carry_out(executor, alloc, map, statement) {
            Ok(decision) => Ok(decision),
            Err(StatementError::Refused(code)) => Ok(refuse(self.number, self.session, code)),
            Err(StatementError::Failed(fault)) => Err(fault),
        }
    }

    // What a statement asks, or why it is not carried out.
    fn carry_out<M: Map, X: Execute>(
        &self,
        executor: &X,
        alloc: Global,
        map: &mut M,
        statement: &Statement,
    ) -> Result<Decision, StatementError>
        ensures preserved { M.preserved map.old map.new }
        ensures read { ReadsMap result (M.state map.old) (M.state map.new) }
        ensures carries { (M.state map.old).sound → IsRead statement.now
            → HasConditionsAsWritten statement.now
            → CarriesOut (M.state map.old).map self.now statement.now result }
        ensures ends { EndsBlock statement.now → IsOk result }
    {
        match statement {
            Statement::OnDatabase(over) => {
                self.admit(alloc, statement)?;
                let effect = self.execute(executor, alloc, map, over)?;
                Ok(decision_for(self.number, self.session, over, effect))
            }
            Statement::OfSession(of_session) => match of_session {
                SessionStatement::Begin => {
                    self.admit(alloc, statement)?;
                    Ok(begin(alloc, self.number, self.session)?)
                }
                SessionStatement::Commit => Ok(commit(self.writer, self.number, self.session)),
                SessionStatement::Rollback => Ok(roll_back(self.writer, self.number, self.session)),
                SessionStatement::SetRole(set) => {
                    self.admit(alloc, statement)?;
                    let seen = seen_catalogue(self.writer, self.catalogue, self.number);
                    Ok(set_role(alloc, seen, self.number, self.session, set)?)
                }
                SessionStatement::ResetRole => {
                    self.admit(alloc, statement)?;
                    Ok(reset_role(alloc, self.number, self.session)?)
                }
            },
        }
    }

    // Whether the session may execute a statement: its refusal where it may not. It fails for memory
    // alone.
    fn admit(&self, alloc: Global, statement: &Statement) -> Result<(), StatementError>
        ensures memory { IfErr result FailsForMemory }
        ensures admission { (records : Records) → IsAdmission records self.now statement.now result }
    {
        let seen = seen_catalogue(self.writer, self.catalogue, self.number);
        let is_held = other_holds_lock(self.writer, self.number);
        match admit(alloc, seen, self.session, statement, is_held)? {
            None => Ok(()),
            Some(code) => Err(StatementError::Refused(code)),
        }
    }

    /// Whether the session may not execute a statement since another session holds the writer lock. The
    /// only error is that an allocation failed.
    pub(crate) fn is_locked_out(
        &self,
        alloc: Global,
        statement: &Statement,
    ) -> Result<bool, AllocError>
        ensures { IfOk result (TellsRefusal self.now statement.now) }
    {
        match self.admit(alloc, statement) {
            Ok(()) => Ok(false),
            Err(StatementError::Refused(code)) => Ok(is_for_lock(code)),
            Err(StatementError::Failed(_)) => Err(AllocError),
        }
    }

    /// Whether a statement changes the database, and the session may execute it. The only error is that
    /// an allocation failed.
    pub(crate) fn asks_for_lock(
        &self,
        alloc: Global,
        statement: &Statement,
    ) -> Result<bool, AllocError>
        ensures { IfOk result (TellsWriting self.now statement.now) }
    {
        if !is_writing(statement) {
            return Ok(false);
        }
        match self.admit(alloc, statement) {
            Ok(()) => Ok(true),
            Err(StatementError::Refused(_)) => Ok(false),
            Err(StatementError::Failed(_)) => Err(AllocError),
        }
    }

    /// What a statement would answer in the session, as far as that depends on no row: one over the
    /// database where the session may execute it, whoever holds the writer lock. It is
    /// `Refused(OutOfMemory)` where an allocation failed.
    pub(crate) fn describe<X: Execute>(
        &self,
        executor: &X,
        alloc: Global,
        statement: &Statement,
    ) -> StatementDescription
        ensures { IsRead statement.now → DescribesThere self.now statement.now result }
    {
        match statement {
            Statement::OnDatabase(over) => {
                let seen = seen_catalogue(self.writer, self.catalogue, self.number);
                match admit(alloc, seen, self.session, statement, false) {
                    Ok(None) => executor.describe(alloc, seen, self.session, over),
                    Ok(Some(code)) => StatementDescription::Refused(code),
                    Err(_) => StatementDescription::Refused(SqlState::OutOfMemory),
                }
            }
            Statement::OfSession(_) => StatementDescription::NoRows,
        }
    }

    // A statement over the database, carried out over what the session sees: the holder of the writer
    // lock sees the records and the definitions under its own changes, each other session the
    // committed ones.
    fn execute<M: Map, X: Execute>(
        &self,
        executor: &X,
        alloc: Global,
        map: &mut M,
        statement: &DatabaseStatement,
    ) -> Result<Effect, StatementError>
        ensures preserved { M.preserved map.old map.new }
        ensures read { ReadsMap result (M.state map.old) (M.state map.new) }
        ensures executes { (M.state map.old).sound → (db : Database) (holder : Option Holder)
            → Shows (M.state map.old).map self.now.catalogue.now db
            → HolderShows (M.state map.old).map self.now.catalogue.now self.now.writer.now holder
            → MayExecute (seen_by self.now.number holder db) (users_of self.now.session.now) statement.now
            → Executes (records_seen self.now.number self.now.writer.now (M.state map.old).map)
            (definitions_seen self.now.number self.now.writer.now self.now.catalogue.now) result
            (exec (seen_by self.now.number holder db) (users_of self.now.session.now) statement.now) }
    {
        let seen = seen_catalogue(self.writer, self.catalogue, self.number);
        match lists_seen(self.writer, self.number) {
            Some(lists) => self.execute_under(executor, alloc, map, lists, statement),
            None => executor.execute(alloc, map, seen, self.session, statement),
        }
    }

    // The same over a map under these lists of changes.
    fn execute_under<M: Map, X: Execute>(
        &self,
        executor: &X,
        alloc: Global,
        map: &mut M,
        lists: &[Batch],
        statement: &DatabaseStatement,
    ) -> Result<Effect, StatementError>
        ensures preserved { M.preserved map.old map.new }
        ensures read { ReadsMap result (M.state map.old) (M.state map.new) }
        ensures executes { (M.state map.old).sound → (db : Database)
            → Shows (applied_all lists.now (M.state map.old).map)
            (definitions_seen self.now.number self.now.writer.now self.now.catalogue.now) db
            → MayExecute db (users_of self.now.session.now) statement.now
            → Executes (applied_all lists.now (M.state map.old).map)
            (definitions_seen self.now.number self.now.writer.now self.now.catalogue.now) result
            (exec db (users_of self.now.session.now) statement.now) }
    {
        let seen = seen_catalogue(self.writer, self.catalogue, self.number);
        let mut view = View::new(alloc, map, lists);
        let result = executor.execute(alloc, &mut view, seen, self.session, statement);
        view.into_map();
        result
    }
}

// Whether a refusal is for the writer lock.
fn is_for_lock(code: SqlState) -> bool
    ensures { IsForLock result (Err code) }
{
    match code {
        SqlState::LockNotAvailable => true,
        _ => false,
    }
}
