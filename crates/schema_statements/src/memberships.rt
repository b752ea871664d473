//! GRANT and REVOKE of roles (SQL:2016 Foundation, 12.5 and 12.7; PostgreSQL manual, GRANT,
//! REVOKE).

ghost use Rattle.std.specs.Prelude.{IfOk, IfErr};
ghost use Rattle.store.specs.StatementError.{FailsForMemory};
ghost use Rattle.catalogue.specs.Executed.{Defines};
ghost use Rattle.catalogue_changes.specs.Carried.{IsCurrent};
ghost use Rattle.schema_statements.specs.MembershipStatements.{run_of, Sets, IsRefusedSo};

use crate::membership_statement::MembershipStatement;
use catalogue::change::SchemaChange;
use catalogue::definitions::Catalogue;
use catalogue::effect::Effect;
use catalogue_changes::{defined, push_memberships};
use role_membership::{Memberships, grant_roles, revoke_roles};
use sql_types::name::Name;
use sql_types::state::Refusal;
use std::alloc::Global;
use store::{Batch, StatementError};

/// Carries out GRANT or REVOKE of roles for the current role: it sets the memberships. After GRANT there
/// is among them one of each of the members in each of the roles; granted again, a membership keeps its
/// admin option or is given one. After REVOKE those of the members in the roles are gone, or with ADMIN
/// OPTION FOR their admin options; a membership that is not there is passed over.
///
/// It is refused with `UndefinedObject` where a name is no role's; with `InsufficientPrivilege` where
/// the current role may not grant one of the roles; a GRANT with `InvalidGrantOperation` where a role
/// would be granted to itself or to a role that it is in. It fails for memory alone.
pub fn grant_or_revoke_roles(
    alloc: Global,
    catalogue: &Catalogue,
    current: &Name,
    statement: MembershipStatement<'_>,
) -> Result<Effect, StatementError>
    ensures memory { IfErr result FailsForMemory }
    ensures executes { Defines (IsCurrent current.now) (run_of statement.entry) catalogue.now result }
{
    let next = memberships_after(alloc, catalogue, current, statement)?;
    let mut changes = Batch::new(alloc);
    push_memberships(alloc, catalogue, &next, &mut changes)?;
    let change = SchemaChange::SetMemberships(next);
    Ok(defined(statement.tag(), None, changes, change))
}

/// The memberships that a statement of the current role sets.
fn memberships_after(
    alloc: Global,
    catalogue: &Catalogue,
    current: &Name,
    statement: MembershipStatement<'_>,
) -> Result<Memberships, Refusal>
    ensures set { IfOk result (Sets current.now statement.entry catalogue.now) }
    ensures refused { IfErr result (IsRefusedSo current.now statement.entry catalogue.now) }
{
    let roles = catalogue.roles();
    let mut memberships = catalogue.memberships().to_vec(alloc)?;
    match statement {
        MembershipStatement::Grant(grant) => {
            grant_roles(alloc, roles, &mut memberships, current, grant)?;
            Ok(Memberships::new(alloc, memberships)?)
        }
        MembershipStatement::Revoke(revoke) => {
            revoke_roles(alloc, roles, &mut memberships, current, revoke)?;
            Ok(Memberships::new(alloc, memberships)?)
        }
    }
}
