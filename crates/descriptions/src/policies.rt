//! Whether row security guards a table from a role, and which of its policies apply.

ghost use Rattle.std.specs.Prelude.{◌≡◌, ◌&&◌, ◌||◌, not, map, filter, find, IfOk};
ghost use Rattle.abstract_database.specs.Database.{is_role_named};
ghost use Rattle.abstract_database.specs.Guards.{is_guarded, applicable};
ghost use Rattle.catalogue.specs.Policies.{policies_in};
ghost use Rattle.policy_composer.specs.Formulas.{applies as apply};
ghost use Rattle.policy_composer.specs.Guarding.{exempts};
ghost use Rattle.descriptions.specs.Descriptions.{AreItsRoles, InEach};

use catalogue::definitions::Catalogue;
use catalogue::policy::CataloguePolicy;
use catalogue::table::TableDefinition;
use policy_composer::applies;
use role_membership::RoleSet;
use sql_ast::policy::Policy;
use sql_ast::privilege::Action;
use sql_types::name::Name;
use std::alloc::{AllocError, Global};

/// Whether row security guards a table's rows from a role: it is enabled, the role is neither a superuser nor has BYPASSRLS,
/// and the role is not in the owner, unless row security is forced. `roles` are those that the role is in.
pub fn is_guarded(
    catalogue: &Catalogue,
    roles: &RoleSet<'_>,
    role: &Name,
    table: &TableDefinition,
) -> bool
    requires { AreItsRoles catalogue.now.memberships role.now roles.now }
    ensures { InEach catalogue.now table.now (λ db.
        result ≡ is_guarded db role.now table.now.definition) }
{
    guards(
        table.row_security(),
        is_exempt(catalogue, role),
        table.forced(),
        roles.contains(table.owner()),
    )
}

/// Whether row security that is enabled or not, and forced or not, guards a table from a role.
fn guards(enabled: bool, is_exempt: bool, forced: bool, is_in_owner: bool) -> bool
    ensures { result ≡ (enabled && not is_exempt && (forced || not is_in_owner)) }
{
    enabled && !is_exempt && (forced || !is_in_owner)
}

/// The policies of a table that apply to an action of a role, in the order of their names: those that are for the action and
/// for PUBLIC or a role that it is in. They guard rows only where [`is_guarded`] says so. `roles` are those that the role is
/// in. Time grows in proportion to the policies of the table.
pub fn applicable_policies<'a>(
    alloc: Global,
    catalogue: &Catalogue,
    roles: &RoleSet<'_>,
    role: &Name,
    table: &'a TableDefinition,
    action: Action,
) -> Result<Vec<&'a Policy>, AllocError>
    requires { AreItsRoles catalogue.now.memberships role.now roles.now }
    ensures { IfOk result (λ found. InEach catalogue.now table.now (λ db.
        map (λ p. p.now) found.items ≡ applicable db role.now table.now.definition action)) }
{
    let found = applying(alloc, table.policies(), roles, action)?;
    Ok(found)
}

/// The policies that apply to an action of a role that is in these roles.
fn applying<'a>(
    alloc: Global,
    policies: &'a [CataloguePolicy],
    roles: &RoleSet<'_>,
    action: Action,
) -> Result<Vec<&'a Policy>, AllocError>
    ensures { IfOk result (λ found. map (λ p. p.now) found.items
        ≡ filter (apply roles.now action) (policies_in policies.now)) }
{
    let mut found = Vec::new(alloc);
    for policy in policies {
        if applies(&policy.policy, roles, action) {
            found.push(&policy.policy)?;
        }
    }
    Ok(found)
}

/// Whether row security never concerns a role: a superuser, and a role with BYPASSRLS.
fn is_exempt(catalogue: &Catalogue, role: &Name) -> bool
    ensures { result ≡ exempts (find (is_role_named role.now) catalogue.now.roles) }
{
    match catalogue.role(role) {
        Some(role) => role.attributes.superuser || role.attributes.bypass_rls,
        None => false,
    }
}
