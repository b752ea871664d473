//! Which powers each role has over the whole database.

ghost use Rattle.std.specs.Prelude.{◌≡◌, ◌&&◌, not, map, filter, bytes_eq, IfOk};
ghost use Rattle.abstract_database.specs.Lists.{has_name};
ghost use Rattle.abstract_database.specs.Whole.{Each};
ghost use Rattle.stored_database.specs.Definitions.{TableDefinition as DefinedTable, database_of};
ghost use Rattle.descriptions.specs.Descriptions.{AreItsRoles};
ghost use Rattle.table_access.specs.Accesses.{AreAllOf, IsActedAs};
ghost use Rattle.table_access.specs.Powers.{comes_to, is_owned_by, HasPowers, ArePowers};

use crate::acting::{SettableRole, acting_role};
use crate::ways::all_memberships;
use catalogue::definitions::Catalogue;
use catalogue::table::TableDefinition;
use descriptions::memberships::MembershipDescription;
use role_membership::{RoleSet, closure};
use sql_ast::role::Role;
use sql_types::name::Name;
use std::alloc::{AllocError, Global};

/// What power a role has over the whole database.
#[derive(Drop)]
pub struct RolePowers<'a> {
    /// The role with its attributes: whether it is a superuser, may log in, and has BYPASSRLS.
    pub role: &'a Role,
    /// The tables of which it is the owner itself, in the order of their names.
    pub owns: Vec<&'a TableDefinition>,
    /// The roles that it may set, in the order of their names, each with the memberships by which it may. None for a superuser, which
    /// may set each role.
    pub others: Vec<SettableRole<'a>>,
}

/// For each role, in the order of names, what power it has over the whole database: by its attributes, by the tables that it
/// owns, and by SET ROLE. `AllocError` comes where memory was refused.
pub fn powers<'a>(
    alloc: Global,
    catalogue: &'a Catalogue,
) -> Result<Vec<RolePowers<'a>>, AllocError>
    ensures { IfOk result (λ found. ArePowers (database_of catalogue.now) found.items) }
{
    let all = all_memberships(alloc, catalogue.memberships())?;
    let mut found = Vec::new(alloc);
    for role in catalogue.roles() {
        found.push(role_powers(alloc, catalogue, all.as_slice(), role)?)?;
    }
    Ok(found)
}

/// What power a role has.
fn role_powers<'a>(
    alloc: Global,
    catalogue: &'a Catalogue,
    all: &[MembershipDescription<'a>],
    role: &'a Role,
) -> Result<RolePowers<'a>, AllocError>
    requires { AreAllOf catalogue.now.memberships all.now }
    ensures role { IfOk result (λ powers. powers.role.now ≡ role.now) }
    ensures powers { IfOk result (HasPowers (database_of catalogue.now)) }
{
    let roles = closure(alloc, catalogue.memberships(), &role.name)?;
    let others = other_roles(alloc, catalogue, all, role, &roles)?;
    let owns = tables_of(alloc, catalogue.tables(), &role.name)?;
    Ok(RolePowers { role, owns, others })
}

/// The other roles that a role, which is in these, may set.
fn other_roles<'a>(
    alloc: Global,
    catalogue: &'a Catalogue,
    all: &[MembershipDescription<'a>],
    role: &Role,
    roles: &RoleSet<'_>,
) -> Result<Vec<SettableRole<'a>>, AllocError>
    requires all { AreAllOf catalogue.now.memberships all.now }
    requires roles { AreItsRoles catalogue.now.memberships role.now.name roles.now }
    ensures others { IfOk result (λ found. map (λ y. y.role.now) found.items
        ≡ filter (comes_to catalogue.now.memberships role.now) catalogue.now.roles) }
    ensures memberships { IfOk result (λ found.
        Each (IsActedAs catalogue.now.memberships role.now.name) found.items) }
{
    let memberships = catalogue.memberships();
    let mut found = Vec::new(alloc);
    for other in catalogue.roles() {
        if comes_to(role, roles, other) {
            found.push(acting_role(alloc, all, memberships, &role.name, roles, other)?)?;
        }
    }
    Ok(found)
}

/// Whether a role, which is in these, comes to another one by SET ROLE.
fn comes_to(role: &Role, roles: &RoleSet<'_>, other: &Role) -> bool
    ensures { result ≡ (not role.now.attributes.superuser && not (bytes_eq role.now.name other.now.name)
        && has_name other.now.name roles.now) }
{
    !role.attributes.superuser && role.name != other.name && roles.contains(&other.name)
}

/// The tables of which a role is the owner.
fn tables_of<'a>(
    alloc: Global,
    tables: &'a [TableDefinition],
    owner: &Name,
) -> Result<Vec<&'a TableDefinition>, AllocError>
    ensures { IfOk result (λ found. map (λ t. t.now.definition) found.items
        ≡ filter (is_owned_by owner.now) (map (λ (t : DefinedTable). t.definition) tables.now)) }
{
    let mut found = Vec::new(alloc);
    for table in tables {
        if *table.owner() == *owner {
            found.push(table)?;
        }
    }
    Ok(found)
}
