//! As which roles a role may act, where that makes a difference.

ghost use Rattle.std.specs.Prelude.{◌≡◌, map, filter, IfOk};
ghost use Rattle.abstract_database.specs.Whole.{Each};
ghost use Rattle.descriptions.specs.Descriptions.{AreItsRoles, InEach};
ghost use Rattle.table_access.specs.Likeness.{is_shown};
ghost use Rattle.table_access.specs.Accesses.{AreAllOf, KnowsItsRoles, HasOfTable, IsActedAs, HasShownRoles};

use crate::likeness::is_shown;
use crate::role::RoleAccess;
use crate::ways::ways;
use catalogue::definitions::Catalogue;
use catalogue::table::TableDefinition;
use descriptions::memberships::MembershipDescription;
use role_membership::{Memberships, RoleSet};
use sql_ast::role::{Membership, Role};
use sql_types::name::Name;
use std::alloc::{AllocError, Global};

/// A role that another one may set.
#[derive(Drop)]
pub struct SettableRole<'a> {
    pub role: &'a Role,
    /// The memberships by which the other one is in it, in the order of role and member.
    pub memberships: Vec<&'a Membership>,
}

/// As which roles a role may act.
#[derive(Drop)]
pub struct SettableRoles<'a> {
    pub role: &'a Role,
    /// The roles that it may set and that have something else of the table, or for which a policy tells users apart, in the order
    /// of their names. What each of them has stands with its own access. None for a superuser, which may set each role.
    pub others: Vec<SettableRole<'a>>,
}

/// As which roles each of these may act, in their order.
pub(crate) fn each_acting<'a>(
    alloc: Global,
    catalogue: &Catalogue,
    all: &[MembershipDescription<'a>],
    table: &TableDefinition,
    roles: &[RoleAccess<'a>],
) -> Result<Vec<SettableRoles<'a>>, AllocError>
    requires all { AreAllOf catalogue.now.memberships all.now }
    requires roles { map (λ r. r.role.now) roles.now ≡ catalogue.now.roles }
    requires known { Each (KnowsItsRoles catalogue.now.memberships) roles.now }
    requires own { InEach catalogue.now table.now (λ db.
        Each (HasOfTable db table.now.definition) roles.now) }
    ensures roles { IfOk result (λ found. map (λ r. r.role.now) found.items ≡ catalogue.now.roles) }
    ensures others { IfOk result (λ found. InEach catalogue.now table.now (λ db.
        Each (HasShownRoles db table.now.definition) found.items)) }
{
    let mut found = Vec::new(alloc);
    for role in roles {
        found.push(acting_roles(alloc, catalogue, all, table, roles, role)?)?;
    }
    Ok(found)
}

/// As which of these roles one may act.
fn acting_roles<'a>(
    alloc: Global,
    catalogue: &Catalogue,
    all: &[MembershipDescription<'a>],
    table: &TableDefinition,
    roles: &[RoleAccess<'a>],
    one: &RoleAccess<'a>,
) -> Result<SettableRoles<'a>, AllocError>
    requires all { AreAllOf catalogue.now.memberships all.now }
    requires roles { map (λ r. r.role.now) roles.now ≡ catalogue.now.roles }
    requires known { KnowsItsRoles catalogue.now.memberships one.now }
    requires own { InEach catalogue.now table.now (λ db.
        Each (HasOfTable db table.now.definition) roles.now) }
    requires one { InEach catalogue.now table.now (λ db.
        HasOfTable db table.now.definition one.now) }
    ensures role { IfOk result (λ acting. acting.role.now ≡ one.now.role.now) }
    ensures others { IfOk result (λ acting. InEach catalogue.now table.now (λ db.
        HasShownRoles db table.now.definition acting)) }
{
    let is_superuser = catalogue.is_superuser(&one.role.name);
    let others = shown_roles(
        alloc,
        all,
        catalogue.memberships(),
        roles,
        one,
        is_superuser,
    )?;
    Ok(SettableRoles {
        role: one.role,
        others,
    })
}

/// Those of these roles as which one is shown, each with the memberships by which it is in it.
fn shown_roles<'a>(
    alloc: Global,
    all: &[MembershipDescription<'a>],
    memberships: &Memberships,
    roles: &[RoleAccess<'a>],
    one: &RoleAccess<'a>,
    is_superuser: bool,
) -> Result<Vec<SettableRole<'a>>, AllocError>
    requires all { AreAllOf memberships.now all.now }
    requires known { KnowsItsRoles memberships.now one.now }
    ensures shown { IfOk result (λ found. map (λ y. y.role.now) found.items
        ≡ map (λ y. y.role.now) (filter (is_shown is_superuser one.now) roles.now)) }
    ensures memberships { IfOk result (λ found.
        Each (IsActedAs memberships.now one.now.role.now.name) found.items) }
{
    let mut found = Vec::new(alloc);
    for other in roles {
        if is_shown(is_superuser, one, other) {
            found.push(acting_role(
                alloc,
                all,
                memberships,
                &one.role.name,
                &one.roles,
                other.role,
            )?)?;
        }
    }
    Ok(found)
}

/// A role that another one, which is in these roles, may set.
pub(crate) fn acting_role<'a>(
    alloc: Global,
    all: &[MembershipDescription<'a>],
    memberships: &Memberships,
    one: &Name,
    roles: &RoleSet<'_>,
    role: &'a Role,
) -> Result<SettableRole<'a>, AllocError>
    requires all { AreAllOf memberships.now all.now }
    requires roles { AreItsRoles memberships.now one.now roles.now }
    ensures role { IfOk result (λ acting. acting.role.now ≡ role.now) }
    ensures memberships { IfOk result (IsActedAs memberships.now one.now) }
{
    let memberships = ways(alloc, all, memberships, one, roles, &role.name)?;
    Ok(SettableRole { role, memberships })
}
