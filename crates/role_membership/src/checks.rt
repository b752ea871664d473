//! Who may grant and take memberships (PostgreSQL manual, GRANT, "GRANT on Roles").
ghost use Rattle.std.specs.Prelude.{◌≡◌, ◌⊎◌, ◌++◌, ◌&&◌, ◌||◌, not, [], Ok, Err, bytes_eq, OnOk, IfOk, IfErr};
ghost use Rattle.std.specs.List.{list_any, list_all};
ghost use Rattle.sql_types.specs.declared.state.SqlState.TheVariants.{OutOfMemory};
ghost use Rattle.abstract_database.specs.Lists.{TheName, has_name};
ghost use Rattle.abstract_database.specs.Database.{has_role};
ghost use Rattle.abstract_database.specs.Roles.{is_superuser as is_superuser_of, administers, may_grant_role as may_grant};
ghost use Rattle.role_membership.specs.Rights.{database_of, checked_names};

use crate::marked::roles_above;
use crate::role_set::RoleSet;
use sql_ast::role::{Membership, Role};
use sql_types::name::Name;
use sql_types::state::{Refusal, SqlState};
use std::alloc::{AllocError, Global};

/// Whether a role of this name is a superuser. No role inherits it (PostgreSQL manual, "Role Membership").
pub fn is_superuser(roles: &[Role], name: &Name) -> bool
    ensures { result ≡ is_superuser_of (database_of roles.now []) name.now }
{
    roles
        .iter()
        .any(|role| role.name == *name && role.attributes.superuser)
}

/// The names of all roles.
fn role_names<'a>(alloc: Global, roles: &'a [Role]) -> Result<RoleSet<'a>, AllocError>
    ensures { IfOk result (λ set. (s : TheName) → has_name s set ≡ has_role (database_of roles.now []) s) }
{
    let mut names = RoleSet::none(alloc);
    for role in roles {
        names.insert_if(true, &role.name)?;
    }
    Ok(names)
}

/// The superusers.
fn superusers<'a>(alloc: Global, roles: &'a [Role]) -> Result<RoleSet<'a>, AllocError>
    ensures { IfOk result (λ set. (s : TheName) → has_name s set ≡ is_superuser_of (database_of roles.now []) s) }
{
    let mut names = RoleSet::none(alloc);
    for role in roles {
        names.insert_if(role.attributes.superuser, &role.name)?;
    }
    Ok(names)
}

/// Whether the membership has the admin option and is of one of these members.
fn is_held(membership: &Membership, members: &RoleSet<'_>) -> bool
    ensures { result ≡ (membership.now.admin && has_name membership.now.member members.now) }
{
    membership.admin && members.contains(&membership.member)
}

/// The roles of the memberships that have the admin option and are of one of these members.
fn held<'a>(
    alloc: Global,
    memberships: &'a [Membership],
    members: &RoleSet<'_>,
) -> Result<RoleSet<'a>, AllocError>
    ensures { IfOk result (λ set. (s : TheName)
        → has_name s set ≡ list_any (λ m. bytes_eq m.role s && m.admin && has_name m.member members.now) memberships.now) }
{
    let mut names = RoleSet::none(alloc);
    for membership in memberships {
        names.insert_if(is_held(membership, members), &membership.role)?;
    }
    Ok(names)
}

/// The roles that a role has the admin option for, itself or as one of the roles that it is in.
fn administered<'a>(
    alloc: Global,
    memberships: &'a [Membership],
    role: &Name,
) -> Result<RoleSet<'a>, AllocError>
    ensures { IfOk result (λ set. (s : TheName) → has_name s set ≡ administers (database_of [] memberships.now) role.now s) }
{
    let above = roles_above(alloc, memberships, role)?;
    held(alloc, memberships, &above)
}

/// Whether the names are all names of roles.
fn are_roles(
    alloc: Global,
    roles: &[Role],
    names: &[Name],
    more: &[Name],
) -> Result<bool, AllocError>
    ensures { IfOk result (λ are. are ≡ list_all (has_role (database_of roles.now [])) (names.now ++ more.now)) }
{
    let known = role_names(alloc, roles)?;
    Ok(known.contains_all(names) && known.contains_all(more))
}

/// Whether a role may be granted: by a superuser, or where it is no superuser and is administered.
fn is_grantable(by_superuser: bool, is_superuser: bool, is_administered: bool) -> bool
    ensures { result ≡ (by_superuser || (not is_superuser && is_administered)) }
{
    by_superuser || !is_superuser && is_administered
}

/// Whether each of these may be granted.
fn are_grantable(
    by_superuser: bool,
    superusers: &RoleSet<'_>,
    administered: &RoleSet<'_>,
    roles: &[Name],
) -> bool
    ensures { result ≡ list_all (λ s. by_superuser || (not (has_name s superusers.now) && has_name s administered.now)) roles.now }
{
    roles.iter().all(|role| is_grantable(
        by_superuser,
        superusers.contains(role),
        administered.contains(role),
    ))
}

/// Whether a role may grant and take memberships of each of these: a superuser may those of each role, another role those of
/// the roles that are no superusers and that it has the admin option for, itself or as one of the roles that it is in.
/// Time grows in proportion to the roles, the memberships and these, as far as names hash apart.
fn may_grant_all(
    alloc: Global,
    roles: &[Role],
    memberships: &[Membership],
    role: &Name,
    granted: &[Name],
) -> Result<bool, AllocError>
    ensures { IfOk result (λ may. may ≡ list_all (may_grant (database_of roles.now memberships.now) role.now) granted.now) }
{
    let by_superuser = is_superuser(roles, role);
    let superusers = superusers(alloc, roles)?;
    let administered = administered(alloc, memberships, role)?;
    Ok(are_grantable(by_superuser, &superusers, &administered, granted))
}

/// Checks that each name is a role's, else 42704, and that the current role may grant each of the roles, else 42501.
pub(crate) fn check_names(
    alloc: Global,
    roles: &[Role],
    memberships: &[Membership],
    current: &Name,
    granted: &[Name],
    members: &[Name],
) -> Result<(), Refusal>
    ensures allowed { OnOk result (checked_names (database_of roles.now memberships.now) current.now granted.now members.now ≡ Ok tt) }
    ensures refused { IfErr result (λ e. (e.0 ≡ OutOfMemory)
        ⊎ (checked_names (database_of roles.now memberships.now) current.now granted.now members.now ≡ Err e.0)) }
{
    if !are_roles(alloc, roles, granted, members)? {
        return Err(Refusal(SqlState::UndefinedObject));
    }
    if !may_grant_all(alloc, roles, memberships, current, granted)? {
        return Err(Refusal(SqlState::InsufficientPrivilege));
    }
    Ok(())
}
