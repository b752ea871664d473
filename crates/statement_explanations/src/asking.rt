//! What a plan asks of the rows of its tables.

ghost use Rattle.std.specs.Prelude.{◌≡◌, option_to_list};
ghost use Rattle.row_statements.specs.Users.{roles_of};
ghost use Rattle.statement_explanations.specs.Asking.{action_of, conditions_of, inserts, reads_too};

use expressions::types::Typed;
use planner::Plan;
use role_membership::RoleSet;
use sql_ast::privilege::Action;
use std::slice::from_ref;

/// The action for which a statement is asked policies first.
pub(crate) fn action_of(plan: &Plan<'_>) -> Action
    ensures { result ≡ action_of plan.now }
{
    match plan {
        Plan::Select(_) => Action::Select,
        Plan::Insert(_) => Action::Insert,
        Plan::Update(_) => Action::Update,
        Plan::Delete(_) => Action::Delete,
    }
}

/// Whether it is asked the policies of SELECT behind these.
pub(crate) fn reads_too(plan: &Plan<'_>) -> bool
    ensures { result ≡ reads_too plan.now }
{
    match plan {
        Plan::Select(_) | Plan::Insert(_) => false,
        Plan::Update(plan) => plan.reads,
        Plan::Delete(plan) => plan.reads,
    }
}

/// Whether it adds rows.
pub(crate) fn inserts(plan: &Plan<'_>) -> bool
    ensures { result ≡ inserts plan.now }
{
    match plan {
        Plan::Insert(_) => true,
        Plan::Select(_) | Plan::Update(_) | Plan::Delete(_) => false,
    }
}

/// The conditions of a statement: those after ON and the one after WHERE.
pub(crate) fn conditions_of<'a>(plan: &'a Plan<'_>) -> &'a [Typed]
    ensures { result.now ≡ conditions_of plan.now }
{
    match plan {
        Plan::Select(plan) => plan.query.conditions.as_slice(),
        Plan::Insert(_) => &[],
        Plan::Update(plan) => in_slice(&plan.condition),
        Plan::Delete(plan) => in_slice(&plan.condition),
    }
}

// The condition of WHERE, if there is one.
fn in_slice(condition: &Option<Typed>) -> &[Typed]
    ensures { result.now ≡ option_to_list condition.now }
{
    match condition {
        Some(condition) => from_ref(condition),
        None => &[],
    }
}

/// The roles that the current role is in.
pub(crate) fn role_set<'a, 'c>(plan: &'a Plan<'c>) -> &'a RoleSet<'c>
    ensures { result.now ≡ roles_of plan.now }
{
    match plan {
        Plan::Select(plan) => &plan.roles,
        Plan::Insert(plan) => &plan.roles,
        Plan::Update(plan) => &plan.roles,
        Plan::Delete(plan) => &plan.roles,
    }
}
