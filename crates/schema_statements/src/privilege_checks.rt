//! Who may run a statement on the privileges of a table.
ghost use Rattle.std.specs.Prelude.{◌≡◌, Ok, Err, OnOk, IfErr};
ghost use Rattle.std.specs.List.{list_any};
ghost use Rattle.catalogue.specs.Grants.{is_for};
ghost use Rattle.abstract_database.specs.Privileges.{has_some_privilege};
ghost use Rattle.abstract_database.specs.Checks.{is_public as is_the_public};
ghost use Rattle.schema_statements.specs.Asking.{asked_by, IsRequester, reaches as reaches_of};
ghost use Rattle.schema_statements.specs.PrivilegeDescriptors.{checked};

use crate::privilege_units::names_columns;
use crate::requester::Requester;
use catalogue::definitions::Catalogue;
use catalogue::table::TableDefinition;
use sql_ast::privilege::Grantee;
use sql_ast::statement::Privileges;
use sql_types::name::Name;
use sql_types::state::{Refusal, SqlState};

/// The name under which a table is asked for what PUBLIC has.
const PUBLIC: &str = "";

/// Whether the grantee is PUBLIC.
fn is_public(grantee: &Grantee) -> bool
    ensures { result ≡ is_the_public grantee.now }
{
    match grantee {
        Grantee::Public => true,
        Grantee::Role(_) => false,
    }
}

/// Whether one of the grantees is PUBLIC.
pub(crate) fn has_public(grantees: &[Grantee]) -> bool
    ensures { result ≡ list_any is_the_public grantees.now }
{
    grantees.iter().any(|grantee| is_public(grantee))
}

/// Whether a privilege descriptor of the table is for one of these roles.
fn names_any(table: &TableDefinition, roles: &[&str]) -> bool
    ensures { result ≡ list_any (λ role. list_any (is_for role.now) table.now.descriptors) roles.now }
{
    roles.iter().any(|role| table.names_grantee(role))
}

/// Whether a privilege descriptor of the table is for PUBLIC or for a role that the role that asks is in.
fn is_reached(requester: Requester<'_, '_>) -> bool
    requires { IsRequester requester }
    ensures { result ≡ list_any (reaches_of requester.entry) requester.entry.table.now.descriptors }
{
    let table = requester.table;
    // For the proof: the list has descriptors of this table alone.
    let _own = table.descriptors();
    let names = requester.roles.names();
    table.names_grantee(PUBLIC) || names_any(table, names)
}

/// Whether the role that asks has any privilege on the table, which has this name.
fn has_some(requester: Requester<'_, '_>, table: &Name) -> bool
    requires requester { IsRequester requester }
    requires table { table.now ≡ requester.table.now.definition.name }
    ensures { result ≡ has_some_privilege (asked_by requester.entry) requester.entry.role.now table.now }
{
    requester.catalogue.is_superuser(requester.role) || is_reached(requester)
}

/// Checks that each grantee is PUBLIC or a role, else 42704, that the table has each column that is named, else 42703,
/// and that the role that asks has some privilege on the table, which has this name, else 42501.
pub(crate) fn check(
    requester: Requester<'_, '_>,
    table: &Name,
    privileges: &Privileges,
    grantees: &[Grantee],
) -> Result<(), Refusal>
    requires requester { IsRequester requester }
    requires table { table.now ≡ requester.table.now.definition.name }
    ensures allowed { OnOk result (checked (asked_by requester.entry) requester.entry.role.now table.now
        requester.entry.table.now.definition.layout privileges.now grantees.now ≡ Ok tt) }
    ensures refused { IfErr result (λ e. checked (asked_by requester.entry) requester.entry.role.now table.now
        requester.entry.table.now.definition.layout privileges.now grantees.now ≡ Err e.0) }
{
    if !requester.catalogue.knows_grantees(grantees) {
        return Err(Refusal(SqlState::UndefinedObject));
    }
    if !names_columns(requester.table.columns(), privileges) {
        return Err(Refusal(SqlState::UndefinedColumn));
    }
    if !has_some(requester, table) {
        return Err(Refusal(SqlState::InsufficientPrivilege));
    }
    Ok(())
}
