//! Who may change a table or drop it (PostgreSQL manual, ALTER TABLE and DROP TABLE).

ghost use Rattle.std.specs.Prelude.{◌≡◌, Ok, IfOk, IfErr, OnOk};
ghost use Rattle.abstract_database.specs.Roles.{acts_as_owner as may_act};
ghost use Rattle.stored_database.specs.Definitions.{database_of};
ghost use Rattle.catalogue_changes.specs.StatementChanges.{IsTableOf};
ghost use Rattle.schema_statements.specs.Owners.{owned};
ghost use Rattle.schema_statements.specs.Refusing.{IsRightRefusal};

use catalogue::definitions::Catalogue;
use catalogue::table::TableDefinition;
use role_membership::is_member;
use sql_types::name::Name;
use sql_types::state::{Refusal, SqlState};
use std::alloc::{AllocError, Global};

/// The table of a name, which the current role may change. `UndefinedTable` comes where no table
/// has the name; `InsufficientPrivilege` where the current role is neither a superuser nor in the
/// owner; `OutOfMemory` only where memory was refused.
pub(crate) fn owned_table<'a>(
    alloc: Global,
    catalogue: &'a Catalogue,
    current: &Name,
    name: &Name,
) -> Result<&'a TableDefinition, Refusal>
    ensures found { IfOk result (λ table. IsTableOf catalogue.now name.now table.now) }
    ensures allowed { OnOk result (owned catalogue.now current.now name.now ≡ Ok tt) }
    ensures refused { IfErr result
        (λ refusal. IsRightRefusal refusal (owned catalogue.now current.now name.now)) }
{
    let Some(table) = catalogue.table(name) else {
        return Err(Refusal(SqlState::UndefinedTable));
    };
    if !acts_as_owner(alloc, catalogue, current, table.owner())? {
        return Err(Refusal(SqlState::InsufficientPrivilege));
    }
    Ok(table)
}

/// Whether a role is a superuser or in the owner of a table.
pub fn acts_as_owner(
    alloc: Global,
    catalogue: &Catalogue,
    role: &Name,
    owner: &Name,
) -> Result<bool, AllocError>
    ensures { IfOk result
        (λ may. may ≡ may_act (database_of catalogue.now) role.now owner.now) }
{
    if catalogue.is_superuser(role) {
        return Ok(true);
    }
    is_member(alloc, catalogue.memberships(), role, owner)
}
