//! Memberships that are those of roles, and have no cycle.

ghost use Rattle.std.specs.Prelude.{◌≡◌, ◌↔◌, ◌<◌, ◌-◌, false, IsTrue, Some, length, slice_get, bytes_eq, IfOk};
ghost use Rattle.std.specs.List.{list_any, list_all};
ghost use Rattle.sql_ast.specs.declared.role.Membership.{Membership as TheMembership};
ghost use Rattle.abstract_database.specs.Roles.{IsIn};
ghost use Rattle.abstract_database.specs.Whole.{Each, OneOf, IsWholeMembership};
ghost use Rattle.catalogue_loading.specs.ValidityChecks.{is_of_roles, is_granted_above, closes_cycle};

use catalogue::definitions::Catalogue;
use role_membership::{Memberships, RoleSet, closure};
use sql_ast::role::Membership;
use sql_types::name::Name;
use std::alloc::{AllocError, Global};

/// Whether the roles and the members of all memberships are roles.
fn are_of_roles(catalogue: &Catalogue, memberships: &[Membership]) -> bool
    ensures { result ≡ list_all (is_of_roles catalogue.now.roles) memberships.now }
{
    memberships.iter().all(|membership| {
        catalogue.has_role(&membership.role) && catalogue.has_role(&membership.member)
    })
}

/// Whether one of these roles is a member of this one.
fn has_member_above(memberships: &[Membership], role: &Name, above: &RoleSet<'_>) -> bool
    ensures { result ≡ list_any (is_granted_above role.now above.now) memberships.now }
{
    memberships.iter().any(|membership| membership.role == *role
        && above.contains(&membership.member))
}

/// Whether a role is in one of its members.
fn is_in_a_member(alloc: Global, memberships: &Memberships, role: &Name) -> Result<bool, AllocError>
    ensures { IfOk result (λ found. found
        ≡ list_any (closes_cycle memberships.now role.now) memberships.now) }
{
    let above = closure(alloc, memberships, role)?;
    Ok(has_member_above(memberships.as_slice(), role, &above))
}

fn have_one_role(one: &Membership, other: &Membership) -> bool
    ensures { result ≡ bytes_eq one.now.role other.now.role }
{
    one.role == other.role
}

/// Whether the membership at an index is not of the role of the one before it.
fn is_first_of_role(memberships: &[Membership], index: usize) -> bool
    requires { index < length memberships.now }
    ensures { result ≡ false → (before m : TheMembership)
        → slice_get memberships.now (index - 1) ≡ Some before
        → slice_get memberships.now index ≡ Some m
        → (0 < index) × (before.role ≡ m.role) }
{
    index == 0 || !have_one_role(&memberships[index - 1], &memberships[index])
}

/// Whether memberships have a cycle: whether one has a role that is in its member. Memberships of
/// one role that follow each other are looked at once, each time in proportion to all memberships.
fn have_cycle(alloc: Global, memberships: &Memberships) -> Result<bool, AllocError>
    ensures { IfOk result (λ found. IsTrue found
        ↔ OneOf (λ m. IsIn memberships.now m.role m.member) memberships.now) }
{
    let list = memberships.as_slice();
    for index in 0..list.len() {
        if is_first_of_role(list, index) {
            if is_in_a_member(alloc, memberships, &list[index].role)? {
                return Ok(true);
            }
        }
    }
    Ok(false)
}

/// Whether the memberships are those of roles, and none is in a cycle.
pub(crate) fn are_whole_memberships(
    alloc: Global,
    catalogue: &Catalogue,
    memberships: &Memberships,
) -> Result<bool, AllocError>
    ensures { IfOk result (λ whole. IsTrue whole
        ↔ Each (IsWholeMembership catalogue.now.roles memberships.now) memberships.now) }
{
    if !are_of_roles(catalogue, memberships.as_slice()) {
        return Ok(false);
    }
    Ok(!have_cycle(alloc, memberships)?)
}
