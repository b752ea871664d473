//! The roles that a role is in, each found by the memberships of the one before it.
ghost use Rattle.std.specs.Prelude.{◌≡◌, ◌↔◌, ◌||◌, false, bytes_eq, IfOk, OnOk, IsTrue};
ghost use Rattle.std.specs.List.{list_any};
ghost use Rattle.abstract_database.specs.Lists.{TheName, Among, has_name, has_double};
ghost use Rattle.abstract_database.specs.Roles.{IsIn, is_in};
ghost use Rattle.role_membership.specs.Index.{Extends};

use crate::memberships::Memberships;
use crate::role_set::RoleSet;
use sql_ast::role::Membership;
use sql_types::name::Name;
use std::alloc::{AllocError, Global};

/// The roles that a role is in: itself, and each that a finite chain of memberships leads to. For each of them the
/// memberships of which it is the member are looked up, and no others are looked at: time grows in proportion to these roles
/// and memberships, as far as names hash apart, and with the binary digits of the number of all memberships. Cycles do no
/// harm.
pub fn closure<'a>(
    alloc: Global,
    memberships: &'a Memberships,
    role: &'a Name,
) -> Result<RoleSet<'a>, AllocError>
    ensures chains { IfOk result (λ roles. (s : TheName) → Among s roles ↔ IsIn memberships.now role.now s) }
    ensures test { IfOk result (λ roles. (s : TheName) → has_name s roles ≡ is_in memberships.now role.now s) }
    ensures distinct { IfOk result (λ roles. has_double roles ≡ false) }
{
    let mut roles = RoleSet::none(alloc);
    roles.insert_if(true, role)?;
    let mut next = 0;
    while next < roles.len() {
        let member = roles.at(next);
        add_roles(&mut roles, memberships.of_member(member))?;
        next += 1;
    }
    Ok(roles)
}

/// Adds the role of each of these memberships.
fn add_roles<'a>(roles: &mut RoleSet<'a>, memberships: &'a [Membership]) -> Result<(), AllocError>
    ensures test { OnOk result ((s : TheName) → has_name s roles.new
        ≡ (has_name s roles.old || list_any (λ m. bytes_eq s m.role) memberships.now)) }
    ensures extends { OnOk result (Extends roles.old roles.new) }
    ensures distinct { has_double roles.old ≡ false → OnOk result (has_double roles.new ≡ false) }
{
    for membership in memberships {
        roles.insert_if(true, &membership.role)?;
    }
    Ok(())
}

/// Whether a role is in another one: it is that role, or a finite chain of memberships leads from it to that role.
pub fn is_member(
    alloc: Global,
    memberships: &Memberships,
    role: &Name,
    of: &Name,
) -> Result<bool, AllocError>
    ensures chains { IfOk result (λ found. IsTrue found ↔ IsIn memberships.now role.now of.now) }
    ensures test { IfOk result (λ found. found ≡ is_in memberships.now role.now of.now) }
{
    let roles = closure(alloc, memberships, role)?;
    Ok(roles.contains(of))
}
