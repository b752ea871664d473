//! Which policies of a table apply, and the condition that each has for a row.

ghost use Rattle.std.specs.Prelude.{◌≡◌};
ghost use Rattle.std.specs.List.{list_any};
ghost use Rattle.std.specs.Option.{option_copied};
ghost use Rattle.abstract_database.specs.Lists.{has_name};
ghost use Rattle.abstract_database.specs.Guards.{is_for_action as is_for};
ghost use Rattle.policy_composer.specs.Formulas.{is_for_one, applies as apply, bound_condition};

use catalogue::policy::CataloguePolicy;
use expressions::types::Typed;
use role_membership::RoleSet;
use sql_ast::policy::{Policy, PolicyCommand, PolicyRoles};
use sql_ast::privilege::Action;
use sql_types::name::Name;

/// The rows that a guard is for: those that a statement finds in the table, or those that it writes.
#[derive(Clone, Copy)]
pub enum GuardedRows {
    Existing,
    New,
}

/// Whether a policy for this command is for an action.
fn is_for_action(action: Action, command: PolicyCommand) -> bool
    ensures { result ≡ is_for action command }
{
    match command {
        PolicyCommand::All => true,
        PolicyCommand::Only(only) => matches!(
            (action, only),
            (Action::Select, Action::Select)
                | (Action::Insert, Action::Insert)
                | (Action::Update, Action::Update)
                | (Action::Delete, Action::Delete)
        ),
    }
}

/// Whether one of these names is that of one of the roles.
fn has_one(roles: &RoleSet<'_>, names: &[Name]) -> bool
    ensures { result ≡ list_any (λ name. has_name name roles.now) names.now }
{
    names.iter().any(|name| roles.contains(name))
}

/// Whether a policy for these roles concerns one of the roles that a role is in.
fn is_for_role(roles: &RoleSet<'_>, concerned: &PolicyRoles) -> bool
    ensures { result ≡ is_for_one roles.now concerned.now }
{
    match concerned {
        PolicyRoles::Public => true,
        PolicyRoles::Only(names) => has_one(roles, names.as_slice()),
    }
}

/// Whether a policy applies to an action of a role that is in these roles.
pub fn applies(policy: &Policy, roles: &RoleSet<'_>, action: Action) -> bool
    ensures { result ≡ apply roles.now action policy.now }
{
    is_for_action(action, policy.command) && is_for_role(roles, &policy.roles)
}

/// The condition that a policy has for a row, if it has one: USING for an existing row; for a new row WITH CHECK, or USING
/// where that is missing.
pub(crate) fn condition(policy: &CataloguePolicy, rows: GuardedRows) -> Option<&Typed>
    ensures { option_copied result ≡ bound_condition rows policy.now }
{
    match rows {
        GuardedRows::Existing => policy.using.as_ref(),
        GuardedRows::New => match policy.check.as_ref() {
            Some(check) => Some(check),
            None => policy.using.as_ref(),
        },
    }
}
