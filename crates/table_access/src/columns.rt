//! The columns on which a role has an action.

ghost use Rattle.std.specs.Prelude.{◌≡◌, IfOk};
ghost use Rattle.descriptions.specs.Descriptions.{AreItsRoles, InEach};
ghost use Rattle.table_access.specs.Having.{columns_with};

use catalogue::definitions::Catalogue;
use catalogue::table::TableDefinition;
use descriptions::privileges::has_privilege;
use role_membership::RoleSet;
use sql_ast::privilege::{Action, Privilege};
use sql_types::name::Name;
use std::alloc::{AllocError, Global};

/// The columns on which a role has an action, by their indices from 0. `roles` are those that it is in.
pub(crate) fn columns_with(
    alloc: Global,
    catalogue: &Catalogue,
    roles: &RoleSet<'_>,
    role: &Name,
    table: &TableDefinition,
    action: Action,
) -> Result<Vec<usize>, AllocError>
    requires { AreItsRoles catalogue.now.memberships role.now roles.now }
    ensures { IfOk result (λ found. InEach catalogue.now table.now (λ db.
        found.items ≡ columns_with db role.now table.now.definition action)) }
{
    let mut found = Vec::new(alloc);
    for index in 0..table.columns().len() {
        let privilege = Privilege {
            action,
            column: Some(index),
        };
        if has_privilege(catalogue, roles, role, table, privilege) {
            found.push(index)?;
        }
    }
    Ok(found)
}
