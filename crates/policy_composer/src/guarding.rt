//! The guard of a table's rows.

ghost use Rattle.std.specs.Prelude.{◌≡◌, false, find, IfOk, IsOk};
ghost use Rattle.abstract_database.specs.Database.{is_role_named};
ghost use Rattle.abstract_database.specs.Lists.{TheName, has_name};
ghost use Rattle.abstract_database.specs.Roles.{is_in};
ghost use Rattle.policy_composer.specs.Guarding.{exempts, guards_from};
ghost use Rattle.policy_composer.specs.Guarding.{MeansGuard, existing_of, new_of};

use crate::formulas::{existing_formulas, new_formulas};
use catalogue::definitions::Catalogue;
use catalogue::table::TableDefinition;
use guards::guard::Guard;
use role_membership::RoleSet;
use sql_ast::privilege::Action;
use sql_types::items::Items;
use sql_types::name::Name;
use std::alloc::{AllocError, Global};

/// Whether row security never concerns a role: a superuser, and a role with BYPASSRLS.
fn is_exempt(catalogue: &Catalogue, role: &Name) -> bool
    ensures { result ≡ exempts (find (is_role_named role.now) catalogue.now.roles) }
{
    match catalogue.role(role) {
        Some(role) => role.attributes.superuser || role.attributes.bypass_rls,
        None => false,
    }
}

/// Whether row security guards a table's rows from a role that is in these roles: it is enabled, the role is not exempt, and
/// the role is not in the owner, unless row security is forced on the owner too.
fn is_guarded(
    catalogue: &Catalogue,
    roles: &RoleSet<'_>,
    role: &Name,
    table: &TableDefinition,
) -> bool
    ensures { result ≡ guards_from roles.now
        (find (is_role_named role.now) catalogue.now.roles) table.now.definition }
{
    table.row_security()
        && !is_exempt(catalogue, role)
        && (table.forced() || !roles.contains(table.owner()))
}

/// The guard of a table's rows from an action of a role. With `reads` the statement needs SELECT too, and then SELECT's
/// policies guard the rows of UPDATE and DELETE as well. `roles` are those that the role is in (`closure` of the crate
/// `role_membership`): a statement finds them once, for all its tables. The guard borrows the table's conditions, and copies
/// nothing.
///
/// In each database that the catalogue describes, it says of each row exactly what the definition of row security says
/// (`existing_guard`, `new_guard`). Of superusers and of roles with BYPASSRLS, and of the owner unless row security is forced,
/// it asks nothing; of every other role it asks the conditions of the policies that are for the action and for the role, and
/// without a permissive one of these no row passes. Existing rows of SELECT, UPDATE and DELETE must meet USING; new rows of
/// INSERT and UPDATE must meet WITH CHECK, or USING where that is missing. SELECT's conditions come last, and are USING
/// (PostgreSQL manual, CREATE POLICY).
///
/// `AllocError` comes only where memory was refused, and never of a table that row security does not guard from the role. Time
/// and memory grow in proportion to the policies of the table.
pub fn compose<'a>(
    alloc: Global,
    catalogue: &Catalogue,
    roles: &RoleSet<'_>,
    role: &Name,
    table: &'a TableDefinition,
    action: Action,
    reads: bool,
) -> Result<Guard<'a>, AllocError>
    requires { (s : TheName) → has_name s roles.now ≡ is_in catalogue.now.memberships role.now s }
    ensures existing { IfOk result (λ guard.
        MeansGuard catalogue.now table.now role.now (existing_of action reads) guard.existing) }
    ensures new { IfOk result (λ guard.
        MeansGuard catalogue.now table.now role.now (new_of action reads) guard.new) }
    ensures unguarded { guards_from roles.now (find (is_role_named role.now) catalogue.now.roles)
        table.now.definition ≡ false → IsOk result }
{
    if !is_guarded(catalogue, roles, role, table) {
        return Ok(Guard {
            existing: Items::new(alloc),
            new: Items::new(alloc),
        });
    }
    let policies = table.policies();
    Ok(Guard {
        existing: existing_formulas(alloc, roles, policies, action, reads)?,
        new: new_formulas(alloc, roles, policies, action, reads)?,
    })
}
