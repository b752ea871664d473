//! The roles that roles are in, over memberships in any order.
ghost use Rattle.std.specs.Prelude.{◌≡◌, ◌↔◌, false, IfOk, OnOk, IsTrue};
ghost use Rattle.abstract_database.specs.Lists.{TheName, has_name, has_double};
ghost use Rattle.abstract_database.specs.Roles.{is_in};
ghost use Rattle.role_membership.specs.Chains.{AreMarked, AreRolesAbove, IsOneInOne};

use crate::chains::marks;
use crate::role_set::{RoleSet, named};
use sql_ast::role::Membership;
use sql_types::name::Name;
use std::alloc::{AllocError, Global};

/// Adds the role of each marked membership.
fn add_marked<'a>(
    roles: &mut RoleSet<'a>,
    memberships: &'a [Membership],
    marks: &[bool],
) -> Result<(), AllocError>
    requires { AreMarked roles.old memberships.now marks.now }
    ensures chains { OnOk result (AreRolesAbove memberships.now roles.old roles.new) }
    ensures distinct { has_double roles.old ≡ false → OnOk result (has_double roles.new ≡ false) }
{
    for (index, membership) in memberships.iter().enumerate() {
        roles.insert_if(marks[index], &membership.role)?;
    }
    Ok(())
}

/// The roles that one of these is in.
fn closure_of<'a>(
    alloc: Global,
    memberships: &'a [Membership],
    mut roles: RoleSet<'a>,
) -> Result<RoleSet<'a>, AllocError>
    ensures chains { IfOk result (AreRolesAbove memberships.now roles.entry) }
    ensures distinct { has_double roles.entry ≡ false → IfOk result (λ above. has_double above ≡ false) }
{
    let marks = marks(alloc, memberships, &roles)?;
    add_marked(&mut roles, memberships, marks.as_slice())?;
    Ok(roles)
}

/// The roles that a role is in: itself, and each that a finite chain of memberships leads to. Time and memory grow in
/// proportion to all of the memberships.
pub(crate) fn roles_above<'a>(
    alloc: Global,
    memberships: &'a [Membership],
    role: &'a Name,
) -> Result<RoleSet<'a>, AllocError>
    ensures test { IfOk result (λ roles. (s : TheName) → has_name s roles ≡ is_in memberships.now role.now s) }
{
    let mut itself = RoleSet::none(alloc);
    itself.insert_if(true, role)?;
    closure_of(alloc, memberships, itself)
}

/// Whether one of these roles is in one of those.
pub(crate) fn is_one_in_one(
    alloc: Global,
    memberships: &[Membership],
    roles: &[Name],
    of: &[Name],
) -> Result<bool, AllocError>
    ensures { IfOk result (λ found. IsTrue found ↔ IsOneInOne memberships.now roles.now of.now) }
{
    let roles = named(alloc, roles)?;
    let above = closure_of(alloc, memberships, roles)?;
    Ok(above.contains_any(of))
}
