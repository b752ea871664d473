//! ALTER TABLE .. ROW LEVEL SECURITY (PostgreSQL manual, ALTER TABLE).

ghost use Rattle.std.specs.Prelude.{◌≡◌, IfOk, IfErr};
ghost use Rattle.store.specs.StatementError.{FailsForMemory};
ghost use Rattle.abstract_database.specs.Statements.{alter_table as alters_table};
ghost use Rattle.catalogue.specs.Executed.{Defines};
ghost use Rattle.catalogue_changes.specs.Carried.{IsCurrent};
ghost use Rattle.catalogue_changes.specs.StatementChanges.{with_flag as has_flag};

use crate::owners::owned_table;
use catalogue::change::SchemaChange;
use catalogue::definitions::Catalogue;
use catalogue::effect::Effect;
use catalogue::table::TableDefinition;
use catalogue_changes::{defined, push_table_put};
use sql_ast::statement::{AlterTable, RowSecurityChange};
use sql_types::name::Name;
use sql_types::tag::Tag;
use std::alloc::{AllocError, Global};
use store::{Batch, StatementError};

/// Carries out ALTER TABLE for the current role: it puts the table with its row security enabled,
/// disabled, forced or not forced.
///
/// It is refused with `UndefinedTable` where no table has the name; with `InsufficientPrivilege` where
/// the current role is neither a superuser nor in the owner. It fails for memory alone.
pub fn alter_table(
    alloc: Global,
    catalogue: &Catalogue,
    current: &Name,
    statement: &AlterTable,
) -> Result<Effect, StatementError>
    ensures memory { IfErr result FailsForMemory }
    ensures executes { Defines (IsCurrent current.now)
        (λ db users. alters_table db users statement.now) catalogue.now result }
{
    let old = owned_table(alloc, catalogue, current, &statement.table)?;
    let table = with_flag(alloc, old, statement.change)?;
    let mut changes = Batch::new(alloc);
    push_table_put(alloc, catalogue, &table, &mut changes)?;
    let change = SchemaChange::PutTable(table);
    Ok(defined(Tag::AlterTable, None, changes, change))
}

// The table with the flag that is set or cleared.
fn with_flag(
    alloc: Global,
    table: &TableDefinition,
    change: RowSecurityChange,
) -> Result<TableDefinition, AllocError>
    ensures { IfOk result (λ next. next ≡ has_flag change table.now) }
{
    let mut parts = table.copy_parts(alloc)?;
    match change {
        RowSecurityChange::Enable => parts.row_security = true,
        RowSecurityChange::Disable => parts.row_security = false,
        RowSecurityChange::Force => parts.forced = true,
        RowSecurityChange::NoForce => parts.forced = false,
    }
    table.with_parts(alloc, parts)
}
