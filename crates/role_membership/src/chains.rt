//! The memberships that chains from some roles lead to.
ghost use Rattle.std.specs.Prelude.{IfOk};
ghost use Rattle.role_membership.specs.Chains.{AreMarked, IsElementOf, AreElementsOf};

use crate::role_set::RoleSet;
use reachability::{Element, reached_by_keys};
use sql_ast::role::Membership;
use std::alloc::{AllocError, Global};

/// A membership as an element that waits for its member and gives its role; one of these members' is a start.
fn element<'a>(membership: &'a Membership, members: &RoleSet<'_>) -> Element<&'a str>
    ensures { IsElementOf members.now membership.now result }
{
    Element {
        is_start: members.contains(&membership.member),
        waits_for: membership.member.as_str(),
        gives: Some(membership.role.as_str()),
    }
}

/// Each membership as an element.
fn elements<'a>(
    alloc: Global,
    memberships: &'a [Membership],
    members: &RoleSet<'_>,
) -> Result<Vec<Element<&'a str>>, AllocError>
    ensures { IfOk result (λ elements. AreElementsOf members.now memberships.now elements.items) }
{
    let mut elements = Vec::with_capacity(alloc, memberships.len())?;
    for membership in memberships {
        elements.push(element(membership, members))?;
    }
    Ok(elements)
}

/// For each membership whether a chain from one of these roles leads to it.
pub(crate) fn marks(
    alloc: Global,
    memberships: &[Membership],
    roles: &RoleSet<'_>,
) -> Result<Vec<bool>, AllocError>
    ensures { IfOk result (λ marks. AreMarked roles.now memberships.now marks.items) }
{
    let elements = elements(alloc, memberships, roles)?;
    reached_by_keys(alloc, elements.as_slice())
}
