//! What a role may do to a table, by which privilege descriptors, and what it may grant on.

ghost use Rattle.std.specs.Prelude.{◌≡◌, ◌&&◌, map, filter, IfOk};
ghost use Rattle.std.specs.List.{list_any};
ghost use Rattle.std.specs.Option.{option_map};
ghost use Rattle.abstract_database.specs.Lists.{has_name};
ghost use Rattle.abstract_database.specs.Privileges.{is_for, has_privilege, acting_grantor as grantor_of};
ghost use Rattle.grant_graph.specs.Keys.{now_of};
ghost use Rattle.descriptions.specs.Descriptions.{AreItsRoles, InEach, given_to, is_one};

use catalogue::definitions::Catalogue;
use catalogue::table::TableDefinition;
use grant_graph::{Grants, acting_grantor_among, action_number, covers};
use role_membership::RoleSet;
use sql_ast::privilege::{Descriptor, Grantee, Privilege};
use sql_types::name::Name;
use std::alloc::{AllocError, Global};

/// The privilege descriptors for a table that give a role something: those to PUBLIC and those to a role that it is in, in
/// their order. `roles` are those that the role is in (`closure` of the crate `role_membership`). Time grows in proportion to
/// the descriptors of the table.
pub fn privileges_given<'a>(
    alloc: Global,
    catalogue: &Catalogue,
    roles: &RoleSet<'_>,
    role: &Name,
    table: &'a TableDefinition,
) -> Result<Vec<&'a Descriptor>, AllocError>
    requires { AreItsRoles catalogue.now.memberships role.now roles.now }
    ensures { IfOk result (λ found. InEach catalogue.now table.now (λ db.
        map (λ d. d.now) found.items ≡ given_to db role.now table.now.definition.name)) }
{
    let found = given_among(alloc, table.descriptors(), roles)?;
    Ok(found)
}

/// Whether a role has a privilege on a table: as a superuser, or by a descriptor for it to PUBLIC or to a role that it is in.
/// `roles` are those that the role is in.
pub fn has_privilege(
    catalogue: &Catalogue,
    roles: &RoleSet<'_>,
    role: &Name,
    table: &TableDefinition,
    privilege: Privilege,
) -> bool
    requires { AreItsRoles catalogue.now.memberships role.now roles.now }
    ensures { InEach catalogue.now table.now (λ db.
        result ≡ has_privilege db role.now table.now.definition.name privilege) }
{
    catalogue.is_superuser(role) || is_given(table.descriptors(), roles, table.name(), privilege)
}

/// By whom a role grants a privilege on a table on, or `None` where it may not: the owner, where the role is a superuser or is
/// in the owner; else the role itself, where it holds the grant option; else the least in byte order of the roles that it is
/// in and that hold one. `roles` are those that the role is in.
pub fn grants_as<'a>(
    catalogue: &'a Catalogue,
    roles: &RoleSet<'_>,
    role: &'a Name,
    table: &'a TableDefinition,
    privilege: Privilege,
) -> Option<&'a Name>
    requires { AreItsRoles catalogue.now.memberships role.now roles.now }
    ensures { InEach catalogue.now table.now (λ db.
        option_map now_of result ≡ grantor_of db role.now table.now.definition privilege) }
{
    let grants = Grants {
        roles: catalogue.roles(),
        memberships: catalogue.memberships(),
        descriptors: table.descriptors(),
    };
    acting_grantor_among(grants, roles, role, table.name(), table.owner(), privilege)
}

/// The descriptors whose grantee is PUBLIC or one of these roles.
fn given_among<'a>(
    alloc: Global,
    descriptors: &'a [Descriptor],
    roles: &RoleSet<'_>,
) -> Result<Vec<&'a Descriptor>, AllocError>
    ensures { IfOk result (λ found. map (λ d. d.now) found.items
        ≡ filter (λ d. is_one roles.now d.grantee) descriptors.now) }
{
    let mut found = Vec::new(alloc);
    for descriptor in descriptors {
        if concerns(roles, &descriptor.grantee) {
            found.push(descriptor)?;
        }
    }
    Ok(found)
}

/// Whether one of the descriptors gives one of these roles, or PUBLIC, a privilege on a table.
fn is_given(
    descriptors: &[Descriptor],
    roles: &RoleSet<'_>,
    table: &Name,
    privilege: Privilege,
) -> bool
    ensures { result ≡ list_any (λ d. is_for table.now privilege d && is_one roles.now d.grantee) descriptors.now }
{
    descriptors.iter().any(|descriptor| {
        gives(descriptor, table, privilege) && concerns(roles, &descriptor.grantee)
    })
}

/// Whether a descriptor is for a privilege on a table.
fn gives(descriptor: &Descriptor, table: &Name, privilege: Privilege) -> bool
    ensures { result ≡ is_for table.now privilege descriptor.now }
{
    descriptor.table == *table
        && action_number(descriptor.action) == action_number(privilege.action)
        && covers(descriptor.column, privilege.column)
}

/// Whether a grantee is PUBLIC or one of these roles.
fn concerns(roles: &RoleSet<'_>, grantee: &Grantee) -> bool
    ensures { result ≡ is_one roles.now grantee.now }
{
    match grantee {
        Grantee::Public => true,
        Grantee::Role(name) => roles.contains(name),
    }
}
