//! SELECT, INSERT, UPDATE and DELETE: planned, and their plans carried out (SQL:2016 Foundation,
//! 7.4 to 7.16, 14.9, 14.11 and 14.14; PostgreSQL manual, "SQL Commands").
ghost use Rattle.std.specs.Prelude.{◌≡◌, [], IfOk, IfErr, None};
ghost use Rattle.expressions.specs.Rows.{names_of};
ghost use Rattle.abstract_database.specs.Database.{Database};
ghost use Rattle.abstract_database.specs.Statements.{exec_over_rows};
ghost use Rattle.stored_database.specs.Records.{Shows};
ghost use Rattle.catalogue.specs.Executed.{Executes};
ghost use Rattle.store.specs.StatementError.{ReadsMap};
ghost use Rattle.table_rows.specs.Failures.{IsDamagedFor};
ghost use Rattle.row_statements.specs.Costs.{CostsAtMost, CostsPlanned};
ghost use Rattle.row_statements.specs.Damage.{FindsDamage, StopsForDamage};
ghost use Rattle.row_statements.specs.Executed.{OnlyReads, Performs, PlansReads, WritesAsRead};
ghost use Rattle.row_statements.specs.Reading.{AnswersBy, ReadsFor};
ghost use Rattle.row_statements.specs.Users.{seen_users};

use crate::outcome::{answered, counted, roles_of, users_of};
use crate::ranges::{RangedSource, ranged, ranged_where, targets};
use catalogue::definitions::Catalogue;
use catalogue::effect::Effect;
use executor::select;
use expressions::eval::Users;
use planner::{Plan, plan_rows};
use sql_ast::statement::RowStatement;
use sql_types::name::Name;
use sql_types::tag::Tag;
use std::alloc::Global;
use store::{Map, StatementError};
use table_rows::{Assignments, Insertion, delete, insert, update};

/// A SELECT, INSERT, UPDATE or DELETE of the current role in a session: its answer, and the changes
/// of the rows that it concerns. A SELECT changes nothing.
///
/// It is refused as [`plan_rows`] says, and then as [`select`], [`insert`], [`update`] or [`delete`]
/// does. Memory that is refused and a device that fails are faults, and so is a record that is of no
/// row among the keys of [`ranged`] or of [`crate::range_where`], and no other.
///
/// Over one table it costs no more than a walk over the records among these keys, whether it is answered or
/// refused, and a look-up for each new key: no other record makes it call the map once more.
pub fn execute<M: Map>(
    alloc: Global,
    map: &mut M,
    catalogue: &Catalogue,
    current: &Name,
    session: &Name,
    statement: &RowStatement,
) -> Result<Effect, StatementError>
    ensures preserved { M.preserved map.old map.new }
    ensures read { ReadsMap result (M.state map.old) (M.state map.new) }
    ensures cost { (M.state map.old).sound → CostsAtMost (M.cost map.old map.new)
        (M.state map.old).map catalogue.now
        (seen_users catalogue.now.memberships current.now session.now) statement.now }
    ensures unchanged { OnlyReads statement.now → IfOk result (λ effect. effect.changes ≡ []) }
    ensures definitions { IfOk result (λ effect. effect.schema ≡ None) }
    ensures executed { (M.state map.old).sound → (db : Database)
        → Shows (M.state map.old).map catalogue.now db
        → WritesAsRead db (seen_users db.memberships current.now session.now) statement.now
        → Executes (M.state map.old).map catalogue.now result
        (exec_over_rows db (seen_users db.memberships current.now session.now) statement.now) }
    ensures damage { (M.state map.old).sound → IfErr result (IsDamagedFor
        (FindsDamage (M.state map.old).map catalogue.now
        (seen_users catalogue.now.memberships current.now session.now) statement.now)) }
    ensures reads { (M.state map.old).sound → IfOk result (λ effect.
        ReadsFor (M.state map.old).map catalogue.now
        (seen_users catalogue.now.memberships current.now session.now) statement.now effect.answer) }
{
    let plan = plan_rows(alloc, catalogue, current, statement)?;
    let users = users_of(current, session, roles_of(&plan));
    carry_out(alloc, map, &plan, users)
}

// The same of the plan of such a statement.
fn carry_out<M: Map>(
    alloc: Global,
    map: &mut M,
    plan: &Plan<'_>,
    users: Users<'_>,
) -> Result<Effect, StatementError>
    ensures preserved { M.preserved map.old map.new }
    ensures read { ReadsMap result (M.state map.old) (M.state map.new) }
    ensures cost { (M.state map.old).sound → CostsPlanned (M.cost map.old map.new)
        (M.state map.old).map (names_of users.entry) plan.now }
    ensures unchanged { PlansReads plan.now → IfOk result (λ effect. effect.changes ≡ []) }
    ensures definitions { IfOk result (λ effect. effect.schema ≡ None) }
    ensures executed { (M.state map.old).sound
        → Performs (M.state map.old).map (names_of users.entry) plan.now result }
    ensures damage { (M.state map.old).sound
        → StopsForDamage (M.state map.old).map (names_of users.entry) plan.now result }
    ensures reads { (M.state map.old).sound → IfOk result (λ effect.
        AnswersBy (M.state map.old).map (names_of users.entry) plan.now effect.answer) }
{
    match plan {
        Plan::Select(plan) => {
            let conditions = plan.query.conditions.as_slice();
            let tables = ranged(alloc, plan.sources.as_slice(), conditions, &users)?;
            let targets = targets(alloc, tables.as_slice(), &users)?;
            let rows = select(alloc, map, targets.as_slice(), &users, &plan.query);
            answered(alloc, rows)
        }
        Plan::Insert(plan) => {
            let table = RangedSource {
                source: &plan.target,
                range: None,
            };
            let target = table.target(&users);
            let insertion = Insertion {
                columns: plan.columns.as_slice(),
                rows: plan.rows.as_slice(),
            };
            let made = insert(alloc, map, &target, &insertion);
            counted(Tag::Insert, made)
        }
        Plan::Update(plan) => {
            let condition = plan.condition.as_ref();
            let table = ranged_where(alloc, &plan.target, condition, &users)?;
            let target = table.target(&users);
            let assignments = Assignments {
                columns: plan.columns.as_slice(),
                values: plan.values.as_slice(),
            };
            let made = update(alloc, map, &target, condition, &assignments);
            counted(Tag::Update, made)
        }
        Plan::Delete(plan) => {
            let condition = plan.condition.as_ref();
            let table = ranged_where(alloc, &plan.target, condition, &users)?;
            let target = table.target(&users);
            let made = delete(alloc, map, &target, condition);
            counted(Tag::Delete, made)
        }
    }
}
