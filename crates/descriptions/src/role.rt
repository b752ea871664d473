//! A role, the roles that it is in, and through which memberships.

ghost use Rattle.std.specs.Prelude.{◌≡◌, None, find, IfOk, MatchOption};
ghost use Rattle.abstract_database.specs.Database.{is_role_named};
ghost use Rattle.descriptions.specs.Descriptions.{DescribesRole};

use crate::memberships::{MembershipDescription, describe_memberships};
use catalogue::definitions::Catalogue;
use role_membership::{RoleSet, closure};
use sql_ast::role::Role;
use sql_types::name::Name;
use std::alloc::{AllocError, Global};

/// A role with what it is in.
#[derive(Drop)]
pub struct RoleDescription<'a> {
    pub role: &'a Role,
    /// The role itself, and each that a chain of memberships leads to.
    pub roles: RoleSet<'a>,
    /// The memberships of which it is the member, in the order of their roles.
    pub memberships: Vec<MembershipDescription<'a>>,
}

/// The role of a name with what it is in, or `None` where no role has the name.
pub fn describe_role<'a>(
    alloc: Global,
    catalogue: &'a Catalogue,
    name: &'a Name,
) -> Result<Option<RoleDescription<'a>>, AllocError>
    ensures { IfOk result (λ found. MatchOption found
        (find (is_role_named name.now) catalogue.now.roles ≡ None)
        (DescribesRole catalogue.now name.now)) }
{
    let Some(role) = catalogue.role(name) else {
        return Ok(None);
    };
    let roles = closure(alloc, catalogue.memberships(), name)?;
    let memberships = describe_memberships(alloc, catalogue.memberships(), name)?;
    Ok(Some(RoleDescription {
        role,
        roles,
        memberships,
    }))
}
