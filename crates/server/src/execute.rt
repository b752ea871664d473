//! What carries out statements.

ghost use Rattle.std.specs.Prelude.{◌≡◌, ◌⊎◌};
ghost use Rattle.sql_types.specs.declared.state.SqlState.TheVariants.{OutOfMemory};
ghost use Rattle.sql_ast.specs.declared.description.StatementDescription.TheVariants.{Refused};
ghost use Rattle.sql_ast.specs.Statements.{IsReadOnDatabase};
ghost use Rattle.store.specs.Records.{Records};
ghost use Rattle.store.specs.StatementError.{ReadsMap};
ghost use Rattle.stored_database.specs.Records.{Shows};
ghost use Rattle.abstract_database.specs.Database.{Database};
ghost use Rattle.abstract_database.specs.Descriptions.{describe};
ghost use Rattle.abstract_database.specs.Machine.{users_of};
ghost use Rattle.abstract_database.specs.Statements.{exec};
ghost use Rattle.catalogue.specs.Executed.{Executes};
ghost use Rattle.server.specs.Executed.{MayExecute};

use crate::session::Session;
use catalogue::definitions::Catalogue;
use catalogue::effect::Effect;
use sql_ast::description::StatementDescription;
use sql_ast::statement::DatabaseStatement;
use std::alloc::Global;
use store::{Map, StatementError};

/// What carries out statements over the database, over any map of records.
pub trait Execute {
    /// A statement of a session, over a map whose definitions are those of the catalogue: what it
    /// answers, the changes that lead to the records after it, and the change of the definitions; or
    /// its refusal. Of the session only its roles count. The map is only read.
    ///
    /// It fails with Device: the device of the map failed. Damaged: a record is one that no database has, which
    /// never comes over a map that shows a database.
    fn execute<M: Map>(
        &self,
        alloc: Global,
        map: &mut M,
        catalogue: &Catalogue,
        session: &Session,
        statement: &DatabaseStatement,
    ) -> Result<Effect, StatementError>
        ensures preserved { M.preserved map.old map.new }
        ensures read { ReadsMap result (M.state map.old) (M.state map.new) }
        ensures executes { (M.state map.old).sound → (db : Database)
            → Shows (M.state map.old).map catalogue.now db
            → MayExecute db (users_of session.now) statement.now
            → Executes (M.state map.old).map catalogue.now result
            (exec db (users_of session.now) statement.now) };

    /// What a statement of a session would answer, as far as that depends on no row, over a map whose
    /// definitions are those of the catalogue. Of the session only its roles count. It is
    /// `Refused(OutOfMemory)` where an allocation failed.
    fn describe(
        &self,
        alloc: Global,
        catalogue: &Catalogue,
        session: &Session,
        statement: &DatabaseStatement,
    ) -> StatementDescription
        ensures describes { IsReadOnDatabase statement.now → (records : Records) (db : Database)
            → Shows records catalogue.now db
            → (result ≡ Refused OutOfMemory)
            ⊎ (result ≡ describe db (users_of session.now) statement.now) };
}
