//! GRANT and REVOKE over the privilege descriptors of a table alone.

ghost use Rattle.std.specs.Prelude.{◌≡◌, IfOk, IfErr};
ghost use Rattle.catalogue.specs.Descriptors.{descriptors_after};
ghost use Rattle.catalogue_changes.specs.DescriptorChanges.{IsChangeOf};
ghost use Rattle.catalogue_changes.specs.StatementChanges.{IsTableOf};
ghost use Rattle.schema_statements.specs.Alone.{LeavesAlone, IsRefusedAlone};
ghost use Rattle.schema_statements.specs.Asking.{IsRequester};
ghost use Rattle.schema_statements.specs.DescriptorChanges.{Fits, with_those, without_those};
ghost use Rattle.schema_statements.specs.PrivilegeStatements.{table_of, tag_of, run_of, Leaves, IsRefusedSo};

use crate::descriptor_changes::{RevokedDescriptors, change_of};
use crate::descriptors::{grant_privileges, revoke_privileges};
use crate::privilege_statement::PrivilegeStatement;
use crate::requester::Requester;
use catalogue::definitions::Catalogue;
use catalogue::descriptor_change::DescriptorChange;
use catalogue::table::TableDefinition;
use role_membership::closure;
use sql_types::name::Name;
use sql_types::state::Refusal;
use sql_types::warning::Warning;
use std::alloc::Global;

/// The descriptors that go and come by a statement, and the warning, if something was left out.
fn exchanged(
    alloc: Global,
    requester: Requester<'_, '_>,
    statement: PrivilegeStatement<'_>,
) -> Result<(RevokedDescriptors, Option<Warning>), Refusal>
    requires requester { IsRequester requester }
    requires table { table_of statement ≡ requester.table.now.definition.name }
    ensures left { IfOk result (λ r. Leaves requester.entry statement.entry r.1
        (with_those r.0.added.items (without_those r.0.removed.items requester.entry.table.now.descriptors))) }
    ensures fits { IfOk result (λ r. Fits (table_of statement.entry)
        r.0.removed.items r.0.added.items requester.entry.table.now.descriptors) }
    ensures refused { IfErr result (IsRefusedSo requester.entry statement.entry) }
{
    match statement {
        PrivilegeStatement::Grant(grant) => {
            let (added, warning) = grant_privileges(alloc, requester, grant)?;
            let removed = Vec::new(alloc);
            Ok((RevokedDescriptors { removed, added }, warning))
        }
        PrivilegeStatement::Revoke(revoke) => revoke_privileges(alloc, requester, revoke),
    }
}

/// The change that a GRANT or a REVOKE makes of the privilege descriptors of its table, and the warning, if something
/// was left out. `UndefinedObject` comes where a grantee is no role; `UndefinedColumn` where the table has not a column
/// that is named; `InsufficientPrivilege` where the current role has no privilege on the table or on a column of it;
/// `InvalidGrantOperation` where PUBLIC would have the grant option; `DependentPrivileges` where others depend on what
/// a REVOKE takes and it does not say CASCADE; `OutOfMemory` only where memory was refused.
pub(crate) fn descriptors_changed(
    alloc: Global,
    catalogue: &Catalogue,
    table: &TableDefinition,
    current: &Name,
    statement: PrivilegeStatement<'_>,
) -> Result<(DescriptorChange, Option<Warning>), Refusal>
    requires { IsTableOf catalogue.now (table_of statement) table.now }
    ensures change { IfOk result (λ r. IsChangeOf table.now r.0) }
    ensures left { IfOk result (λ r. LeavesAlone current.now (run_of statement.entry) catalogue.now table.now
        (tag_of statement.entry) r.1 (descriptors_after r.0 table.now.descriptors)) }
    ensures refused { IfErr result
        (IsRefusedAlone current.now (run_of statement.entry) catalogue.now table.now) }
{
    let memberships = catalogue.memberships();
    let roles = closure(alloc, memberships, current)?;
    let requester = Requester {
        catalogue,
        table,
        role: current,
        roles: &roles,
    };
    let (exchanged, warning) = exchanged(alloc, requester, statement)?;
    let change = change_of(alloc, table, exchanged)?;
    Ok((change, warning))
}
