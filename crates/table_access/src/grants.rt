//! The grants that give a role an action on a table.

ghost use Rattle.std.specs.Prelude.{◌≡◌, map, filter, IfOk};
ghost use Rattle.sql_ast.specs.declared.privilege.Descriptor.{Descriptor as TheDescriptor};
ghost use Rattle.abstract_database.specs.Database.{same_action};
ghost use Rattle.abstract_database.specs.Whole.{Each};
ghost use Rattle.descriptions.specs.Descriptions.{AreItsRoles};
ghost use Rattle.table_access.specs.Accesses.{AreAllOf, ReachesBy};

use crate::action::HeldGrant;
use crate::ways::ways_to;
use descriptions::memberships::MembershipDescription;
use grant_graph::action_number;
use role_membership::{Memberships, RoleSet};
use sql_ast::privilege::{Action, Descriptor};
use sql_types::name::Name;
use std::alloc::{AllocError, Global};

/// Those of these descriptors that are for an action, in their order, each with the memberships by which it reaches a role.
/// `roles` are those that the role is in.
pub(crate) fn grants_for<'a>(
    alloc: Global,
    all: &[MembershipDescription<'a>],
    memberships: &Memberships,
    role: &Name,
    roles: &RoleSet<'_>,
    given: &[&'a Descriptor],
    action: Action,
) -> Result<Vec<HeldGrant<'a>>, AllocError>
    requires all { AreAllOf memberships.now all.now }
    requires roles { AreItsRoles memberships.now role.now roles.now }
    ensures grants { IfOk result (λ found. map (λ g. g.descriptor.now) found.items
        ≡ filter (λ (d : TheDescriptor). same_action d.action action) (map (λ d. d.now) given.now)) }
    ensures memberships { IfOk result (λ found.
        Each (ReachesBy memberships.now role.now) found.items) }
{
    let mut found = Vec::new(alloc);
    for descriptor in given {
        if is_for_action(descriptor, action) {
            found.push(held_grant(alloc, all, memberships, role, roles, descriptor)?)?;
        }
    }
    Ok(found)
}

/// Whether a descriptor is for an action.
fn is_for_action(descriptor: &Descriptor, action: Action) -> bool
    ensures { result ≡ same_action descriptor.now.action action }
{
    action_number(descriptor.action) == action_number(action)
}

/// A descriptor with the memberships by which it reaches a role.
fn held_grant<'a>(
    alloc: Global,
    all: &[MembershipDescription<'a>],
    memberships: &Memberships,
    role: &Name,
    roles: &RoleSet<'_>,
    descriptor: &'a Descriptor,
) -> Result<HeldGrant<'a>, AllocError>
    requires all { AreAllOf memberships.now all.now }
    requires roles { AreItsRoles memberships.now role.now roles.now }
    ensures descriptor { IfOk result (λ grant. grant.descriptor.now ≡ descriptor.now) }
    ensures memberships { IfOk result (ReachesBy memberships.now role.now) }
{
    let ways = ways_to(alloc, all, memberships, role, roles, &descriptor.grantee)?;
    Ok(HeldGrant {
        descriptor,
        memberships: ways,
    })
}
