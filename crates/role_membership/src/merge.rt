//! A walk over memberships into which others are put.
ghost use Rattle.std.specs.Prelude.{◌≤◌, length};

use sql_ast::role::Membership;

/// A list that memberships are put into: what is merged so far, and the index of the membership that comes next.
#[derive(Drop)]
pub(crate) struct MembershipMerge<'a> {
    pub(crate) memberships: &'a [Membership],
    pub(crate) next: usize,
    pub(crate) merged: Vec<Membership>,
    ghost inside: { next ≤ length memberships.now },
}
