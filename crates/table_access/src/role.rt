//! What a role has of a table by itself.

ghost use Rattle.std.specs.Prelude.{◌≡◌, map, IfOk};
ghost use Rattle.abstract_database.specs.Whole.{Each};
ghost use Rattle.descriptions.specs.Descriptions.{InEach};
ghost use Rattle.table_access.specs.Accesses.{AreAllOf, KnowsItsRoles, HasOfTable};

use crate::action::{ActionAccess, action_access};
use catalogue::definitions::Catalogue;
use catalogue::table::TableDefinition;
use descriptions::memberships::MembershipDescription;
use descriptions::policies::is_guarded;
use descriptions::privileges::privileges_given;
use role_membership::{RoleSet, closure};
use sql_ast::privilege::Action;
use sql_ast::role::Role;
use std::alloc::{AllocError, Global};

/// What a role has of a table by itself.
pub struct RoleAccess<'a> {
    /// The role with its attributes. A superuser has each privilege, and may set each role.
    pub role: &'a Role,
    /// The roles that it is in: itself, and each that a chain of memberships leads to. It may set each of them (PostgreSQL
    /// manual, SET ROLE).
    pub roles: RoleSet<'a>,
    /// Whether it is in the owner of the table.
    pub is_in_owner: bool,
    /// Whether row security guards the rows of the table from it.
    pub is_guarded: bool,
    pub select: ActionAccess<'a>,
    pub insert: ActionAccess<'a>,
    pub update: ActionAccess<'a>,
    pub delete: ActionAccess<'a>,
}

// Written and not derived: where a value is dropped this is one call, and not its parts one by one.
impl Drop for RoleAccess<'_> {
    fn drop(self) {
        let RoleAccess {
            role: _,
            roles: _,
            is_in_owner: _,
            is_guarded: _,
            select: _,
            insert: _,
            update: _,
            delete: _,
        } = self;
    }
}

/// What each role has of a table by itself, in the order of the roles' names.
pub(crate) fn each_access<'a>(
    alloc: Global,
    catalogue: &'a Catalogue,
    all: &[MembershipDescription<'a>],
    table: &'a TableDefinition,
) -> Result<Vec<RoleAccess<'a>>, AllocError>
    requires { AreAllOf catalogue.now.memberships all.now }
    ensures roles { IfOk result (λ found. map (λ r. r.role.now) found.items ≡ catalogue.now.roles) }
    ensures known { IfOk result (λ found.
        Each (KnowsItsRoles catalogue.now.memberships) found.items) }
    ensures own { IfOk result (λ found. InEach catalogue.now table.now (λ db.
        Each (HasOfTable db table.now.definition) found.items)) }
{
    let mut found = Vec::new(alloc);
    for role in catalogue.roles() {
        found.push(role_access(alloc, catalogue, all, table, role)?)?;
    }
    Ok(found)
}

/// What a role has of a table by itself.
fn role_access<'a>(
    alloc: Global,
    catalogue: &'a Catalogue,
    all: &[MembershipDescription<'a>],
    table: &'a TableDefinition,
    role: &'a Role,
) -> Result<RoleAccess<'a>, AllocError>
    requires { AreAllOf catalogue.now.memberships all.now }
    ensures role { IfOk result (λ access. access.role.now ≡ role.now) }
    ensures known { IfOk result (KnowsItsRoles catalogue.now.memberships) }
    ensures own { IfOk result (λ access. InEach catalogue.now table.now (λ db.
        HasOfTable db table.now.definition access)) }
{
    let name = &role.name;
    let roles = closure(alloc, catalogue.memberships(), name)?;
    let given = privileges_given(alloc, catalogue, &roles, name, table)?;
    let given = given.as_slice();
    let guarded = is_guarded(catalogue, &roles, name, table);
    let select = action_access(
        alloc,
        catalogue,
        all,
        &roles,
        name,
        table,
        given,
        guarded,
        Action::Select,
    )?;
    let insert = action_access(
        alloc,
        catalogue,
        all,
        &roles,
        name,
        table,
        given,
        guarded,
        Action::Insert,
    )?;
    let update = action_access(
        alloc,
        catalogue,
        all,
        &roles,
        name,
        table,
        given,
        guarded,
        Action::Update,
    )?;
    let delete = action_access(
        alloc,
        catalogue,
        all,
        &roles,
        name,
        table,
        given,
        guarded,
        Action::Delete,
    )?;
    Ok(RoleAccess {
        role,
        is_in_owner: roles.contains(table.owner()),
        is_guarded: guarded,
        roles,
        select,
        insert,
        update,
        delete,
    })
}
