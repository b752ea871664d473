//! What a role has of a table: what it was given, whether row security concerns it, and which policies apply.

ghost use Rattle.std.specs.Prelude.{◌≡◌, IfOk};
ghost use Rattle.descriptions.specs.Descriptions.{AreItsRoles, InEach, ApplyTo, DescribesAccess, DescribesPrivilege};

use crate::policies::{applicable_policies, is_guarded};
use crate::privileges::{grants_as, has_privilege, privileges_given};
use catalogue::definitions::Catalogue;
use catalogue::table::TableDefinition;
use role_membership::RoleSet;
use sql_ast::policy::Policy;
use sql_ast::privilege::{Action, Descriptor, Privilege};
use sql_types::name::Name;
use std::alloc::{AllocError, Global};

/// The policies that apply to a role, for each action in the order of their names.
#[derive(Drop)]
pub struct PoliciesByAction<'a> {
    pub select: Vec<&'a Policy>,
    pub insert: Vec<&'a Policy>,
    pub update: Vec<&'a Policy>,
    pub delete: Vec<&'a Policy>,
}

/// What a role has of a table.
#[derive(Drop)]
pub struct TableAccess<'a> {
    /// The privilege descriptors to PUBLIC and to the roles that the role is in.
    pub given: Vec<&'a Descriptor>,
    /// Whether row security guards the rows from the role.
    pub is_guarded: bool,
    /// The policies that apply, which guard rows only where row security does.
    pub policies: PoliciesByAction<'a>,
}

/// A privilege on a table, and what it is to a role.
#[derive(Clone, Copy)]
pub struct PrivilegeDescription<'a> {
    pub privilege: Privilege,
    /// Whether the role has it.
    pub is_held: bool,
    /// By whom the role grants it on, if it may.
    pub grants_as: Option<&'a Name>,
}

/// What a role has of a table. `roles` are those that the role is in.
pub fn describe_access<'a>(
    alloc: Global,
    catalogue: &Catalogue,
    roles: &RoleSet<'_>,
    role: &Name,
    table: &'a TableDefinition,
) -> Result<TableAccess<'a>, AllocError>
    requires { AreItsRoles catalogue.now.memberships role.now roles.now }
    ensures { IfOk result (λ access. InEach catalogue.now table.now (λ db.
        DescribesAccess db role.now table.now.definition access)) }
{
    let given = privileges_given(alloc, catalogue, roles, role, table)?;
    let is_guarded = is_guarded(catalogue, roles, role, table);
    let policies = policies_by_action(alloc, catalogue, roles, role, table)?;
    Ok(TableAccess {
        given,
        is_guarded,
        policies,
    })
}

/// What a privilege on a table is to a role. `roles` are those that the role is in.
pub fn describe_privilege<'a>(
    catalogue: &'a Catalogue,
    roles: &RoleSet<'_>,
    role: &'a Name,
    table: &'a TableDefinition,
    privilege: Privilege,
) -> PrivilegeDescription<'a>
    requires { AreItsRoles catalogue.now.memberships role.now roles.now }
    ensures described { InEach catalogue.now table.now (λ db.
        DescribesPrivilege db role.now table.now.definition result) }
    ensures privilege { result.privilege ≡ privilege }
{
    PrivilegeDescription {
        privilege,
        is_held: has_privilege(catalogue, roles, role, table, privilege),
        grants_as: grants_as(catalogue, roles, role, table, privilege),
    }
}

/// The policies that apply to each action of a role.
fn policies_by_action<'a>(
    alloc: Global,
    catalogue: &Catalogue,
    roles: &RoleSet<'_>,
    role: &Name,
    table: &'a TableDefinition,
) -> Result<PoliciesByAction<'a>, AllocError>
    requires { AreItsRoles catalogue.now.memberships role.now roles.now }
    ensures { IfOk result (λ policies. InEach catalogue.now table.now (λ db.
        ApplyTo db role.now table.now.definition policies)) }
{
    let select = applicable_policies(alloc, catalogue, roles, role, table, Action::Select)?;
    let insert = applicable_policies(alloc, catalogue, roles, role, table, Action::Insert)?;
    let update = applicable_policies(alloc, catalogue, roles, role, table, Action::Update)?;
    let delete = applicable_policies(alloc, catalogue, roles, role, table, Action::Delete)?;
    Ok(PoliciesByAction {
        select,
        insert,
        update,
        delete,
    })
}
