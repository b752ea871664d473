//! REVOKE of roles (SQL:2016 Foundation, 12.7; PostgreSQL manual, REVOKE).
ghost use Rattle.std.specs.Prelude.{◌≡◌, ◌⊎◌, ◌&&◌, not, false, Ok, Err, OnOk, OnErr, IfErr};
ghost use Rattle.sql_types.specs.declared.state.SqlState.TheVariants.{OutOfMemory};
ghost use Rattle.expressions.specs.Meaning.{UserNames};
ghost use Rattle.abstract_database.specs.Lists.{has_name, change_where, drop_where};
ghost use Rattle.abstract_database.specs.Roles.{is_named_by, without_memberships};
ghost use Rattle.abstract_database.specs.Checks.{checked_revoke_role};
ghost use Rattle.role_membership.specs.Rights.{database_of};

use crate::checks::check_names;
use crate::role_set::{RoleSet, named};
use sql_ast::role::{Membership, Role};
use sql_ast::statement::RevokeRole;
use sql_types::name::Name;
use sql_types::state::Refusal;
use std::alloc::{AllocError, Global};

/// Whether a membership is one of these roles and of these members.
fn is_named(membership: &Membership, roles: &RoleSet<'_>, members: &RoleSet<'_>) -> bool
    ensures { result ≡ is_named_by roles.now members.now membership.now }
{
    roles.contains(&membership.role) && members.contains(&membership.member)
}

/// Whether a membership with or without the admin option has it afterwards.
fn keeps_option(admin: bool, is_named: bool) -> bool
    ensures { result ≡ (admin && not is_named) }
{
    admin && !is_named
}

/// Takes the admin option from the memberships of these roles and members.
fn clear_options(memberships: &mut [Membership], roles: &RoleSet<'_>, members: &RoleSet<'_>)
    ensures { memberships.new ≡ change_where (is_named_by roles.now members.now) (λ m. record m { admin = false }) memberships.old }
{
    for membership in memberships.iter_mut() {
        let named = is_named(membership, roles, members);
        membership.admin = keeps_option(membership.admin, named);
    }
}

/// Takes the memberships of these roles and members away.
fn remove(memberships: &mut Vec<Membership>, roles: &RoleSet<'_>, members: &RoleSet<'_>)
    ensures { memberships.new.items ≡ drop_where (is_named_by roles.now members.now) memberships.old.items }
{
    memberships.retain(
        |membership: &Membership| -> bool
            ensures { result ≡ not (is_named_by roles.entry.now members.entry.now membership.now) }
        { !is_named(membership, roles, members) },
    );
}

/// Takes the statement's roles from its members, or the admin option alone.
fn take_from_members(
    alloc: Global,
    memberships: &mut Vec<Membership>,
    statement: &RevokeRole,
) -> Result<(), AllocError>
    ensures revoked { OnOk result (memberships.new.items
        ≡ without_memberships statement.now.admin_option_for statement.now.roles statement.now.members memberships.old.items) }
    ensures unchanged { OnErr result (memberships.new.items ≡ memberships.old.items) }
{
    let roles = named(alloc, statement.roles.as_slice())?;
    let members = named(alloc, statement.members.as_slice())?;
    if statement.admin_option_for {
        clear_options(memberships.as_mut_slice(), &roles, &members);
    } else {
        remove(memberships, &roles, &members);
    }
    Ok(())
}

/// Takes the statement's roles from its members, or with ADMIN OPTION FOR the admin option alone; CASCADE and RESTRICT
/// change nothing. It is refused with 42704 where a name is no role's, else with 42501 where the current role may not grant
/// one of the roles, as GRANT asks, and with 53200 where memory was refused; a refusal leaves the memberships as
/// they were. A membership that is not there is passed over. Time and memory grow in proportion to the roles, memberships
/// and names, as far as names hash apart.
pub fn revoke_roles(
    alloc: Global,
    roles: &[Role],
    memberships: &mut Vec<Membership>,
    current: &Name,
    statement: &RevokeRole,
) -> Result<(), Refusal>
    ensures allowed { OnOk result ((users : UserNames) → users.current ≡ current.now
        → checked_revoke_role (database_of roles.now memberships.old.items) users statement.now ≡ Ok tt) }
    ensures revoked { OnOk result (memberships.new.items
        ≡ without_memberships statement.now.admin_option_for statement.now.roles statement.now.members memberships.old.items) }
    ensures refused { IfErr result (λ e. (e.0 ≡ OutOfMemory) ⊎ ((users : UserNames) → users.current ≡ current.now
        → checked_revoke_role (database_of roles.now memberships.old.items) users statement.now ≡ Err e.0)) }
    ensures unchanged { OnErr result (memberships.new.items ≡ memberships.old.items) }
{
    check_names(
        alloc,
        roles,
        memberships.as_slice(),
        current,
        statement.roles.as_slice(),
        statement.members.as_slice(),
    )?;
    take_from_members(alloc, memberships, statement)?;
    Ok(())
}
