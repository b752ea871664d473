//! GRANT of roles (SQL:2016 Foundation, 12.5; PostgreSQL manual, GRANT, "GRANT on Roles").
ghost use Rattle.std.specs.Prelude.{◌≡◌, ◌⊎◌, true, Ok, Err, is_ok, OnOk, OnErr, IfErr};
ghost use Rattle.sql_types.specs.declared.state.SqlState.TheVariants.{OutOfMemory};
ghost use Rattle.expressions.specs.Meaning.{UserNames};
ghost use Rattle.abstract_database.specs.Lists.{Rising};
ghost use Rattle.abstract_database.specs.Database.{membership_cmp};
ghost use Rattle.abstract_database.specs.Checks.{checked_grant_role};
ghost use Rattle.role_membership.specs.Rights.{database_of};

use crate::checks::check_names;
use crate::marked::is_one_in_one;
use crate::merging::merged;
use sql_ast::role::{Membership, Role};
use sql_ast::statement::GrantRole;
use sql_types::name::Name;
use sql_types::state::{Refusal, SqlState};
use std::alloc::Global;

/// Grants each of the statement's roles to each of its members, in memberships that rise by role and member. It is refused
/// with 42704 where a name is no role's, else with 42501 where the current role may not grant one of the roles, as a superuser
/// may each and another role those that are no superusers and that it has the admin option for, else with 0LP01 where a role
/// would be granted to itself or to a role that it is in, and with 53200 where memory was refused; a refusal leaves the memberships as they were. Granted again, a membership keeps its
/// admin option or is given one. Time grows in proportion to the roles, the memberships, the names (as far as these hash
/// apart; they are sorted too) and the memberships that are made.
pub fn grant_roles(
    alloc: Global,
    roles: &[Role],
    memberships: &mut Vec<Membership>,
    current: &Name,
    statement: &GrantRole,
) -> Result<(), Refusal>
    ensures allowed { OnOk result ((users : UserNames) → users.current ≡ current.now
        → is_ok (checked_grant_role (database_of roles.now memberships.old.items) users statement.now) ≡ true) }
    ensures granted { Rising membership_cmp memberships.old.items → OnOk result ((users : UserNames) → users.current ≡ current.now
        → checked_grant_role (database_of roles.now memberships.old.items) users statement.now ≡ Ok memberships.new.items) }
    ensures refused { IfErr result (λ e. (e.0 ≡ OutOfMemory) ⊎ ((users : UserNames) → users.current ≡ current.now
        → checked_grant_role (database_of roles.now memberships.old.items) users statement.now ≡ Err e.0)) }
    ensures in_order { Rising membership_cmp memberships.old.items → Rising membership_cmp memberships.new.items }
    ensures unchanged { OnErr result (memberships.new.items ≡ memberships.old.items) }
{
    let granted = statement.roles.as_slice();
    let members = statement.members.as_slice();
    check_names(
        alloc,
        roles,
        memberships.as_slice(),
        current,
        granted,
        members,
    )?;
    if is_one_in_one(alloc, memberships.as_slice(), granted, members)? {
        return Err(Refusal(SqlState::InvalidGrantOperation));
    }
    *memberships = merged(
        alloc,
        memberships.as_slice(),
        granted,
        members,
        statement.with_admin_option,
    )?;
    Ok(())
}
