//! By which memberships a role is in another one.

ghost use Rattle.std.specs.Prelude.{◌≡◌, ◌&&◌, map, IfOk};
ghost use Rattle.abstract_database.specs.Lists.{has_name};
ghost use Rattle.descriptions.specs.Descriptions.{AreItsRoles, LeadsTo};
ghost use Rattle.table_access.specs.Accesses.{AreAllOf};
ghost use Rattle.table_access.specs.Having.{ways, ways_to};

use descriptions::memberships::MembershipDescription;
use role_membership::{Memberships, RoleSet, closure};
use sql_ast::privilege::Grantee;
use sql_ast::role::Membership;
use sql_types::name::Name;
use std::alloc::{AllocError, Global};

/// Each membership, in order, with the roles that it leads to. Time grows in proportion to the memberships and the roles that
/// they lead to.
pub(crate) fn all_memberships<'a>(
    alloc: Global,
    memberships: &'a Memberships,
) -> Result<Vec<MembershipDescription<'a>>, AllocError>
    ensures { IfOk result (λ found. AreAllOf memberships.now found.items) }
{
    let mut found = Vec::new(alloc);
    for membership in memberships.as_slice() {
        let leads_to = closure(alloc, memberships, &membership.role)?;
        found.push(MembershipDescription {
            membership,
            leads_to,
        })?;
    }
    Ok(found)
}

/// The memberships by which a role is in another one. `roles` are those that it is in.
pub(crate) fn ways<'a>(
    alloc: Global,
    all: &[MembershipDescription<'a>],
    memberships: &Memberships,
    role: &Name,
    roles: &RoleSet<'_>,
    other: &Name,
) -> Result<Vec<&'a Membership>, AllocError>
    requires all { AreAllOf memberships.now all.now }
    requires roles { AreItsRoles memberships.now role.now roles.now }
    ensures { IfOk result (λ found. map (λ m. m.now) found.items
        ≡ ways memberships.now role.now other.now) }
{
    let mut found = Vec::new(alloc);
    for one in all {
        if is_between(one, roles, other) {
            found.push(one.membership)?;
        }
    }
    Ok(found)
}

/// Whether a membership is one of a role that is in these, and leads on to another one.
fn is_between(one: &MembershipDescription<'_>, roles: &RoleSet<'_>, other: &Name) -> bool
    ensures { result ≡ (has_name one.now.membership.now.member roles.now && has_name other.now one.now.leads_to) }
{
    roles.contains(&one.membership.member) && one.leads_to.contains(other)
}

/// The memberships by which a grantee concerns a role. `roles` are those that it is in.
pub(crate) fn ways_to<'a>(
    alloc: Global,
    all: &[MembershipDescription<'a>],
    memberships: &Memberships,
    role: &Name,
    roles: &RoleSet<'_>,
    grantee: &Grantee,
) -> Result<Vec<&'a Membership>, AllocError>
    requires all { AreAllOf memberships.now all.now }
    requires roles { AreItsRoles memberships.now role.now roles.now }
    ensures { IfOk result (λ found. map (λ m. m.now) found.items
        ≡ ways_to memberships.now role.now grantee.now) }
{
    match grantee {
        Grantee::Public => Ok(Vec::new(alloc)),
        Grantee::Role(other) => ways(alloc, all, memberships, role, roles, other),
    }
}
