//! What a statement over rows comes to, and who acts.
ghost use Rattle.std.specs.Prelude.{◌≡◌, List, map};
ghost use Rattle.sql_ast.specs.declared.role.Membership.{Membership};
ghost use Rattle.expressions.specs.Rows.{names_of};
ghost use Rattle.abstract_database.specs.Lists.{TheName, has_name};
ghost use Rattle.abstract_database.specs.Roles.{is_in};
ghost use Rattle.row_statements.specs.Executed.{answered, counted, effect_by};
ghost use Rattle.row_statements.specs.Users.{roles_of, seen_users};

use catalogue::effect::Effect;
use expressions::eval::Users;
use planner::Plan;
use sql_types::answer::Answer;
use sql_types::items::Items;
use sql_types::name::Name;
use sql_types::tag::Tag;
use sql_types::value::Value;
use std::alloc::Global;
use store::{Batch, StatementError};
use table_rows::RowChanges;

// What a statement comes to that changes rows: it is answered by how many there are, and the
// definitions stay.
pub(crate) fn counted(
    tag: Tag,
    made: Result<RowChanges, StatementError>,
) -> Result<Effect, StatementError>
    ensures { result ≡ effect_by (counted tag) made }
{
    let made = made?;
    Ok(Effect {
        answer: Answer::Done {
            tag,
            count: Some(made.count),
            warning: None,
        },
        changes: made.changes,
        schema: None,
    })
}

// What a SELECT comes to: it is answered by its rows, and changes nothing.
pub(crate) fn answered(
    alloc: Global,
    rows: Result<Items<Items<Value>>, StatementError>,
) -> Result<Effect, StatementError>
    ensures { result ≡ effect_by answered rows }
{
    let rows = rows?;
    Ok(Effect {
        answer: Answer::Rows(rows),
        changes: Batch::new(alloc),
        schema: None,
    })
}

/// The roles of a plan, those that its current role is in.
pub fn roles_of<'a>(plan: &'a Plan<'_>) -> &'a [&'a str]
    ensures { map (λ role. role.now) result.now ≡ roles_of plan.now }
{
    match plan {
        Plan::Select(plan) => plan.roles.names(),
        Plan::Insert(plan) => plan.roles.names(),
        Plan::Update(plan) => plan.roles.names(),
        Plan::Delete(plan) => plan.roles.names(),
    }
}

/// The users of a statement, as expressions see them, where these are the roles that the current one
/// is in.
pub fn users_of<'a>(current: &'a Name, session: &'a Name, roles: &'a [&'a str]) -> Users<'a>
    ensures { (memberships : List Membership)
        → ((s : TheName) → has_name s (map (λ role. role.now) roles.now)
        ≡ is_in memberships current.now s)
        → names_of result ≡ seen_users memberships current.now session.now }
{
    Users {
        current_user: current.as_str(),
        session_user: session.as_str(),
        roles,
    }
}
