//! CREATE ROLE (SQL:2016 Foundation, 12.4; PostgreSQL manual, CREATE ROLE).

ghost use Rattle.std.specs.Prelude.{◌≡◌, IfErr};
ghost use Rattle.store.specs.StatementError.{FailsForMemory};
ghost use Rattle.abstract_database.specs.Statements.{create_role as creates_role};
ghost use Rattle.catalogue.specs.Executed.{Defines};
ghost use Rattle.catalogue_changes.specs.Carried.{IsCurrent};

use crate::role_attributes::attributes_of;
use catalogue::change::SchemaChange;
use catalogue::definitions::Catalogue;
use catalogue::effect::Effect;
use catalogue_changes::{defined, push_role_put};
use sql_ast::role::Role;
use sql_ast::statement::CreateRole;
use sql_types::name::Name;
use sql_types::state::SqlState;
use sql_types::tag::Tag;
use sql_types::try_copy::TryCopy;
use std::alloc::Global;
use store::{Batch, StatementError};

/// Carries out CREATE ROLE for the current role: it puts the new role, which has the attributes that
/// are written and no others.
///
/// It is refused with `DuplicateObject` where a role of this name is there; with
/// `InsufficientPrivilege` where the current role is no superuser. It fails for memory alone.
pub fn create_role(
    alloc: Global,
    catalogue: &Catalogue,
    current: &Name,
    statement: &CreateRole,
) -> Result<Effect, StatementError>
    ensures memory { IfErr result FailsForMemory }
    ensures executes { Defines (IsCurrent current.now)
        (λ db users. creates_role db users statement.now) catalogue.now result }
{
    // For the proof: a name is text, and has no zero byte.
    let _name = statement.role.as_str();
    if catalogue.has_role(&statement.role) {
        return Err(StatementError::Refused(SqlState::DuplicateObject));
    }
    if !catalogue.is_superuser(current) {
        return Err(StatementError::Refused(SqlState::InsufficientPrivilege));
    }
    let role = Role {
        name: statement.role.try_copy(alloc)?,
        attributes: attributes_of(statement.attributes.as_slice()),
    };
    let mut changes = Batch::new(alloc);
    push_role_put(alloc, catalogue, &role, &mut changes)?;
    let change = SchemaChange::PutRole(role);
    Ok(defined(Tag::CreateRole, None, changes, change))
}
