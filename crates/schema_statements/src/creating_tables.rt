//! CREATE TABLE (SQL:2016 Foundation, 11.3; PostgreSQL manual, CREATE TABLE).

ghost use Rattle.std.specs.Prelude.{◌≡◌, IfErr};
ghost use Rattle.store.specs.StatementError.{FailsForMemory};
ghost use Rattle.sql_ast.specs.Read.{IsReadCreateTable};
ghost use Rattle.abstract_database.specs.Statements.{create_table as creates_table};
ghost use Rattle.abstract_database.specs.Whole.{IsRoleOf};
ghost use Rattle.catalogue.specs.Executed.{Defines};
ghost use Rattle.catalogue_changes.specs.Carried.{IsCurrent};

use crate::new_columns::new_columns;
use crate::new_table::new_table;
use catalogue::change::SchemaChange;
use catalogue::definitions::Catalogue;
use catalogue::effect::Effect;
use catalogue::numbers::least_free_id;
use catalogue_changes::{defined, push_table_put};
use sql_ast::statement::CreateTable;
use sql_types::name::Name;
use sql_types::state::SqlState;
use sql_types::tag::Tag;
use std::alloc::Global;
use store::{Batch, StatementError};

/// Carries out CREATE TABLE, as the parser reads it, for the current role, which is a role of the
/// catalogue: it puts the new table, which the role owns and which has no row. The system grants the
/// owner each privilege with grant option.
///
/// It is refused with `DuplicateTable` where a table of this name is there; with `DuplicateColumn`
/// where a column is named twice, or twice in the key; with `UndefinedColumn` where the key names one
/// that is not there; with `ProgramLimitExceeded` where there are more than 16 columns, or 1,024
/// tables already. It fails for memory alone.
pub fn create_table(
    alloc: Global,
    catalogue: &Catalogue,
    current: &Name,
    statement: &CreateTable,
) -> Result<Effect, StatementError>
    ensures memory { IfErr result FailsForMemory }
    ensures executes { IsReadCreateTable statement.now → IsRoleOf catalogue.now.roles current.now
        → Defines (IsCurrent current.now)
        (λ db users. creates_table db users statement.now) catalogue.now result }
{
    if let Some(_) = catalogue.table(&statement.table) {
        return Err(StatementError::Refused(SqlState::DuplicateTable));
    }
    let tables = catalogue.tables();
    let columns = new_columns(alloc, statement.elements.as_slice(), tables.len())?;
    let Some(id) = least_free_id(tables) else {
        return Err(StatementError::Refused(SqlState::ProgramLimitExceeded));
    };
    let table = new_table(alloc, id, &statement.table, current, columns)?;
    let mut changes = Batch::new(alloc);
    push_table_put(alloc, catalogue, &table, &mut changes)?;
    let change = SchemaChange::PutTable(table);
    Ok(defined(Tag::CreateTable, None, changes, change))
}
