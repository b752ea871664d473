//! DROP POLICY (PostgreSQL manual, DROP POLICY).

ghost use Rattle.std.specs.Prelude.{◌≡◌, IfErr};
ghost use Rattle.store.specs.StatementError.{FailsForMemory};
ghost use Rattle.abstract_database.specs.Statements.{drop_policy as drops_policy};
ghost use Rattle.catalogue.specs.Executed.{Defines};
ghost use Rattle.catalogue_changes.specs.Carried.{IsCurrent};

use crate::owners::acts_as_owner;
use crate::policy_tables::without_policy;
use catalogue::change::SchemaChange;
use catalogue::definitions::Catalogue;
use catalogue::effect::Effect;
use catalogue_changes::{defined, push_table_put};
use sql_ast::statement::DropPolicy;
use sql_types::name::Name;
use sql_types::state::SqlState;
use sql_types::tag::Tag;
use std::alloc::Global;
use store::{Batch, StatementError};

/// Carries out DROP POLICY for the current role: it puts the table without the policy of this name.
///
/// It is refused with `UndefinedTable` where no table has the name; with `UndefinedObject` where the
/// table has no policy of this name; with `InsufficientPrivilege` where the current role is neither a
/// superuser nor in the owner. It fails for memory alone.
pub fn drop_policy(
    alloc: Global,
    catalogue: &Catalogue,
    current: &Name,
    statement: &DropPolicy,
) -> Result<Effect, StatementError>
    ensures memory { IfErr result FailsForMemory }
    ensures executes { Defines (IsCurrent current.now)
        (λ db users. drops_policy db users statement.now) catalogue.now result }
{
    let Some(old) = catalogue.table(&statement.table) else {
        return Err(StatementError::Refused(SqlState::UndefinedTable));
    };
    if !old.has_policy(&statement.policy) {
        return Err(StatementError::Refused(SqlState::UndefinedObject));
    }
    if !acts_as_owner(alloc, catalogue, current, old.owner())? {
        return Err(StatementError::Refused(SqlState::InsufficientPrivilege));
    }
    let table = without_policy(alloc, old, &statement.policy)?;
    let mut changes = Batch::new(alloc);
    push_table_put(alloc, catalogue, &table, &mut changes)?;
    let change = SchemaChange::PutTable(table);
    Ok(defined(Tag::DropPolicy, None, changes, change))
}
