//! DROP TABLE (SQL:2016 Foundation, 11.21; PostgreSQL manual, DROP TABLE).

ghost use Rattle.expressions.specs.Meaning.{UserNames};
ghost use Rattle.store.specs.StatementError.{ReadsMap};
ghost use Rattle.abstract_database.specs.Database.{Database};
ghost use Rattle.abstract_database.specs.Statements.{drop_table as drops_table};
ghost use Rattle.stored_database.specs.Records.{Shows};
ghost use Rattle.catalogue.specs.Executed.{Executes};
ghost use Rattle.catalogue_changes.specs.Carried.{IsCurrent};

use crate::owners::owned_table;
use catalogue::change::SchemaChange;
use catalogue::definitions::Catalogue;
use catalogue::effect::Effect;
use catalogue_changes::{defined, push_table_drop};
use sql_ast::statement::DropTable;
use sql_types::name::Name;
use sql_types::tag::Tag;
use sql_types::try_copy::TryCopy;
use std::alloc::Global;
use store::{Batch, Map, StatementError};

/// Carries out DROP TABLE for the current role: it drops the table with its privilege descriptors and
/// its policies, and with the rows whose records this map has.
///
/// It is refused with `UndefinedTable` where no table has the name; with `InsufficientPrivilege`
/// where the current role is neither a superuser nor in the owner. It fails with Device: the map
/// answered it. Damaged: a record has no size that a store takes, as no record of a database is.
pub fn drop_table<M: Map>(
    alloc: Global,
    map: &mut M,
    catalogue: &Catalogue,
    current: &Name,
    statement: &DropTable,
) -> Result<Effect, StatementError>
    ensures preserved { M.preserved map.old map.new }
    ensures read { ReadsMap result (M.state map.old) (M.state map.new) }
    ensures executes { (M.state map.old).sound → (db : Database) (users : UserNames)
        → Shows (M.state map.old).map catalogue.now db → IsCurrent current.now users
        → Executes (M.state map.old).map catalogue.now result
        (drops_table db users statement.now) }
{
    owned_table(alloc, catalogue, current, &statement.table)?;
    let change = SchemaChange::DropTable(statement.table.try_copy(alloc)?);
    let mut changes = Batch::new(alloc);
    push_table_drop(alloc, catalogue, &statement.table, map, &mut changes)?;
    Ok(defined(Tag::DropTable, None, changes, change))
}
