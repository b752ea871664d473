//! The memberships of a role, and the roles that each of them leads to.

ghost use Rattle.std.specs.Prelude.{◌≡◌, bytes_eq, map, filter, IfOk};
ghost use Rattle.abstract_database.specs.Roles.{is_of_member};
ghost use Rattle.abstract_database.specs.Whole.{Each};
ghost use Rattle.descriptions.specs.Descriptions.{LeadsTo};

use role_membership::{Memberships, RoleSet, closure};
use sql_ast::role::Membership;
use sql_types::name::Name;
use std::alloc::{AllocError, Global};

/// A membership, and the roles that its member is in through it.
#[derive(Drop)]
pub struct MembershipDescription<'a> {
    pub membership: &'a Membership,
    /// The role of the membership, and each that a chain of memberships leads to from there.
    pub leads_to: RoleSet<'a>,
}

/// The memberships of which a role is the member, in the order of their roles, each with the roles that it leads to. Time
/// grows in proportion to all memberships, and to those that are reached through each.
pub fn describe_memberships<'a>(
    alloc: Global,
    memberships: &'a Memberships,
    member: &Name,
) -> Result<Vec<MembershipDescription<'a>>, AllocError>
    ensures memberships { IfOk result (λ found. map (λ m. m.membership.now) found.items
        ≡ filter (is_of_member member.now) memberships.now) }
    ensures leads_to { IfOk result (λ found. Each (LeadsTo memberships.now) found.items) }
{
    let mut found = Vec::new(alloc);
    for membership in memberships.as_slice() {
        if membership.member == *member {
            found.push(describe_membership(alloc, memberships, membership)?)?;
        }
    }
    Ok(found)
}

/// A membership with the roles that it leads to.
fn describe_membership<'a>(
    alloc: Global,
    memberships: &'a Memberships,
    membership: &'a Membership,
) -> Result<MembershipDescription<'a>, AllocError>
    ensures membership { IfOk result (λ m. m.membership.now ≡ membership.now) }
    ensures leads_to { IfOk result (LeadsTo memberships.now) }
{
    let leads_to = closure(alloc, memberships, &membership.role)?;
    Ok(MembershipDescription {
        membership,
        leads_to,
    })
}
