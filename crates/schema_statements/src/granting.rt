//! GRANT and REVOKE of privileges (SQL:2016 Foundation, 12.2 and 12.7; PostgreSQL manual, GRANT,
//! REVOKE).

ghost use Rattle.std.specs.Prelude.{IfErr};
ghost use Rattle.store.specs.StatementError.{FailsForMemory};
ghost use Rattle.catalogue.specs.Executed.{Defines};
ghost use Rattle.catalogue_changes.specs.Carried.{IsCurrent};
ghost use Rattle.schema_statements.specs.PrivilegeStatements.{run_of, IsRead};

use crate::alone::descriptors_changed;
use crate::privilege_statement::PrivilegeStatement;
use crate::schema_changes::schema_change;
use catalogue::definitions::Catalogue;
use catalogue::effect::Effect;
use catalogue_changes::{defined, push_descriptors_set};
use sql_types::name::Name;
use sql_types::state::SqlState;
use std::alloc::Global;
use store::{Batch, StatementError};

/// Carries out GRANT or REVOKE of privileges for the current role. GRANT grants each of the grantees the
/// privileges, each by the current role's acting grantor. REVOKE takes the privileges, or with GRANT
/// OPTION FOR their grant options, that the current role's acting grantors granted to the grantees; with
/// CASCADE also what nothing supports any more. What it names on the table takes what the same grantors
/// granted on its columns too. The warning is `PrivilegeNotGranted` or `PrivilegeNotRevoked`: an action
/// that is named, on the table or on a column, has no acting grantor, or with ALL none of them has one.
///
/// It is refused with `UndefinedTable` where no table has the name; with `UndefinedObject` where a
/// grantee is no role; with `UndefinedColumn` where the table has not a column that is named; with
/// `InsufficientPrivilege` where the current role has no privilege on the table or on a column of it;
/// a GRANT with `InvalidGrantOperation` where PUBLIC would have the grant option; a REVOKE with
/// `DependentPrivileges` where others depend on what it takes and it does not say CASCADE. It fails for
/// memory alone.
pub fn grant_or_revoke(
    alloc: Global,
    catalogue: &Catalogue,
    current: &Name,
    statement: PrivilegeStatement<'_>,
) -> Result<Effect, StatementError>
    ensures memory { IfErr result FailsForMemory }
    ensures executes { IsRead statement.entry
        → Defines (IsCurrent current.now) (run_of statement.entry) catalogue.now result }
{
    let Some(table) = catalogue.table(statement.table_name()) else {
        return Err(StatementError::Refused(SqlState::UndefinedTable));
    };
    let (change, warning) = descriptors_changed(alloc, catalogue, table, current, statement)?;
    let mut changes = Batch::new(alloc);
    push_descriptors_set(alloc, catalogue, table, &change, &mut changes)?;
    let change = schema_change(alloc, catalogue, table, change)?;
    Ok(defined(statement.tag(), warning, changes, change))
}
