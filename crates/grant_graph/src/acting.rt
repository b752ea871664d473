//! By whom a role grants and revokes. PostgreSQL (manual, GRANT) picks any role that has the grant option; here the choice is
//! fixed: the owner, the role itself, the least name.
ghost use Rattle.std.specs.Prelude.{◌≡◌, ◌≤◌, ◌&&◌, ◌||◌, [], ◌∷◌, bytes_eq, filter};
ghost use Rattle.std.specs.List.{list_any};
ghost use Rattle.std.specs.Option.{option_map};
ghost use Rattle.std.specs.Ordering.{is_lt};
ghost use Rattle.abstract_database.specs.Roles.{is_in};
ghost use Rattle.abstract_database.specs.Lists.{TheName, has_name, least, lesser as the_lesser, name_cmp};
ghost use Rattle.abstract_database.specs.Database.{is_role_named};
ghost use Rattle.abstract_database.specs.Privileges.{covers, is_for, grant_option_holders, acting_grantor as grantor_of};
ghost use Rattle.grant_graph.specs.Keys.{now_of};
ghost use Rattle.grant_graph.specs.Acting.{database_of, table_of, lent_names, least_with};

use crate::keys::action_number;
use role_membership::{Memberships, RoleSet, is_superuser};
use sql_ast::privilege::{Descriptor, Grantee, Privilege};
use sql_ast::role::Role;
use sql_types::name::Name;

/// The roles of a database, their memberships, and its privilege descriptors.
#[derive(Clone, Copy)]
pub struct Grants<'a> {
    /// In the order of their names.
    pub roles: &'a [Role],
    /// Who is a member of whom.
    pub memberships: &'a Memberships,
    /// Those of all tables, or of those that a statement concerns.
    pub descriptors: &'a [Descriptor],
}

/// Whether a role acts as the owner: as a superuser, or since the owner is one of the roles that it is in.
fn acts_as_owner(roles: &[Role], set: &RoleSet<'_>, role: &Name, owner: &Name) -> bool
    ensures { result ≡ (list_any (λ r. is_role_named role.now r && r.attributes.superuser) roles.now || has_name owner.now set.now) }
{
    is_superuser(roles, role) || set.contains(owner)
}

/// Whether what is granted on this column, or on the whole table, counts for the other.
pub fn covers(granted: Option<usize>, column: Option<usize>) -> bool
    ensures { result ≡ covers granted column }
{
    match (granted, column) {
        (None, _) => true,
        (Some(granted), Some(column)) => granted == column,
        (Some(_), None) => false,
    }
}

/// Whether a descriptor is for this privilege on the table, and grantable.
fn is_grantable_for(descriptor: &Descriptor, table: &Name, privilege: Privilege) -> bool
    ensures { result ≡ (is_for table.now privilege descriptor.now && descriptor.now.grantable) }
{
    descriptor.table == *table
        && action_number(descriptor.action) == action_number(privilege.action)
        && covers(descriptor.column, privilege.column)
        && descriptor.grantable
}

/// The role that a descriptor gives the grant option for this privilege on the table, if any.
fn holder<'a>(descriptor: &'a Descriptor, table: &Name, privilege: Privilege) -> Option<&'a Name>
    ensures { lent_names result ≡ grant_option_holders (descriptor.now ∷ []) table.now privilege }
{
    if !is_grantable_for(descriptor, table, privilege) {
        return None;
    }
    match &descriptor.grantee {
        Grantee::Public => None,
        Grantee::Role(name) => Some(name),
    }
}

/// Whether this role is the holder, if there is one.
fn is_holder(holder: Option<&Name>, role: &Name) -> bool
    ensures { result ≡ list_any (bytes_eq role.now) (lent_names holder.entry) }
{
    match holder {
        None => false,
        Some(name) => *role == *name,
    }
}

/// Whether the role itself holds the grant option.
fn holds_option(descriptors: &[Descriptor], role: &Name, table: &Name, privilege: Privilege) -> bool
    ensures { result ≡ list_any (bytes_eq role.now) (grant_option_holders descriptors.now table.now privilege) }
{
    for descriptor in descriptors {
        let holds = is_holder(holder(descriptor, table, privilege), role);
        if holds {
            return true;
        }
    }
    false
}

fn is_below(left: &Name, right: &Name) -> bool
    ensures { result ≡ is_lt (name_cmp left.now right.now) }
{
    left.as_str().cmp(right.as_str()).is_lt()
}

/// The lesser name.
fn lesser<'a>(name: &'a Name, other: Option<&'a Name>) -> &'a Name
    ensures { result.now ≡ the_lesser name.now (option_map now_of other.entry) }
{
    match other {
        None => name,
        Some(other) => if is_below(other, name) { other } else { name },
    }
}

/// The least of the names so far with one holder more, if it is one of these roles.
fn with_holder<'a>(
    holder: Option<&'a Name>,
    best: Option<&'a Name>,
    roles: &RoleSet<'_>,
) -> Option<&'a Name>
    ensures { option_map now_of result ≡ least_with roles.now (option_map now_of holder.entry) (option_map now_of best.entry) }
{
    match holder {
        None => best,
        Some(name) => if roles.contains(name) {
            Some(lesser(name, best))
        } else {
            best
        },
    }
}

/// The least of these roles that hold the grant option.
fn least_holder<'a>(
    descriptors: &'a [Descriptor],
    roles: &RoleSet<'_>,
    table: &Name,
    privilege: Privilege,
) -> Option<&'a Name>
    ensures { option_map now_of result ≡ least (filter (λ name. has_name name roles.now)
        (grant_option_holders descriptors.now table.now privilege)) }
{
    let mut left = descriptors.len();
    let mut best = None;
    while left > 0 {
        left -= 1;
        let holder = holder(&descriptors[left], table, privilege);
        best = with_holder(holder, best, roles);
    }
    best
}

/// Who grants and revokes this privilege on a table where this role does, which is in these roles: the owner, where the role
/// is a superuser or is in the owner; else the role itself, where it holds a grant option for the privilege, by one on the
/// whole table or on its column; else the least in byte order of the roles that it is in and that hold one; else nobody.
/// Time grows in proportion to the roles and descriptors, as far as names hash apart.
pub fn acting_grantor_among<'a>(
    grants: Grants<'a>,
    roles: &RoleSet<'_>,
    role: &'a Name,
    table: &Name,
    owner: &'a Name,
    privilege: Privilege,
) -> Option<&'a Name>
    requires { (s : TheName) → has_name s roles.now ≡ is_in grants.memberships.now role.now s }
    ensures { option_map now_of result
        ≡ grantor_of (database_of grants.entry) role.now (table_of table.now owner.now) privilege }
{
    if acts_as_owner(grants.roles, roles, role, owner) {
        return Some(owner);
    }
    if holds_option(grants.descriptors, role, table, privilege) {
        return Some(role);
    }
    least_holder(grants.descriptors, roles, table, privilege)
}
