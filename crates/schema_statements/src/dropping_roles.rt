//! DROP ROLE (SQL:2016 Foundation, 12.6; PostgreSQL manual, DROP ROLE).

ghost use Rattle.std.specs.Prelude.{◌≡◌, IfErr};
ghost use Rattle.store.specs.StatementError.{FailsForMemory};
ghost use Rattle.abstract_database.specs.Statements.{drop_role as drops_role};
ghost use Rattle.catalogue.specs.Executed.{Defines};
ghost use Rattle.catalogue_changes.specs.Carried.{AreUsers};

use crate::role_usage::must_stay;
use catalogue::change::SchemaChange;
use catalogue::definitions::Catalogue;
use catalogue::effect::Effect;
use catalogue_changes::{defined, push_role_drop};
use sql_ast::statement::DropRole;
use sql_types::name::Name;
use sql_types::state::SqlState;
use sql_types::tag::Tag;
use sql_types::try_copy::TryCopy;
use std::alloc::Global;
use store::{Batch, StatementError};

/// Carries out DROP ROLE for the current role in a session of a login role: it drops the role, and
/// its memberships with it.
///
/// It is refused with `UndefinedObject` where no role of this name is there; with
/// `InsufficientPrivilege` where the current role is no superuser; with `DependentObjects` where the
/// role owns a table, stands in a privilege descriptor, is named by a policy, or is the current role
/// or the login role. It fails for memory alone.
pub fn drop_role(
    alloc: Global,
    catalogue: &Catalogue,
    current: &Name,
    session: &Name,
    statement: &DropRole,
) -> Result<Effect, StatementError>
    ensures memory { IfErr result FailsForMemory }
    ensures executes { Defines (AreUsers current.now session.now)
        (λ db users. drops_role db users statement.now) catalogue.now result }
{
    let role = &statement.role;
    if !catalogue.has_role(role) {
        return Err(StatementError::Refused(SqlState::UndefinedObject));
    }
    if !catalogue.is_superuser(current) {
        return Err(StatementError::Refused(SqlState::InsufficientPrivilege));
    }
    if must_stay(catalogue, current, session, role) {
        return Err(StatementError::Refused(SqlState::DependentObjects));
    }
    let mut changes = Batch::new(alloc);
    push_role_drop(alloc, catalogue, role, &mut changes)?;
    let change = SchemaChange::DropRole(role.try_copy(alloc)?);
    Ok(defined(Tag::DropRole, None, changes, change))
}
