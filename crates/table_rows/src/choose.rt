//! The rows that an UPDATE or a DELETE chooses.
ghost use Rattle.std.specs.Prelude.{◌≡◌, ◌≤◌, OnOk, IfOk, IfErr, List, length};
ghost use Rattle.sql_types.specs.Row.{Row};
ghost use Rattle.expressions.specs.Rows.{names_of, value_on};
ghost use Rattle.store.specs.Records.{IsKeySize};
ghost use Rattle.abstract_database.specs.Changes.{condition_on_row};
ghost use Rattle.row_codec.specs.InPlace.{table_cell};
ghost use Rattle.guards.specs.Truths.{is_met};
ghost use Rattle.store.specs.StatementError.{ReadsMap};
ghost use Rattle.table_rows.specs.Failures.{Gives, Answers, IsDamagedFor, ReadsNoMap};
ghost use Rattle.table_rows.specs.HeldRows.{HoldsRows, ConcernRowsOf};
ghost use Rattle.table_rows.specs.Ranged.{records_of, FindsSpelled, FindsDamage, IsOfTable, LosesNothing};
ghost use Rattle.table_rows.specs.Costs.{cost_of};
ghost use Rattle.table_rows.specs.Targets.{users_of, sees, condition_in};
ghost use Rattle.table_rows.specs.Choosing.{is_chosen, became, all_chosen, nothing_chosen, chosen_after, TakesRow};

use crate::target::{Assignments, Target};
use crate::values::assigned_row;
use crate::visit::{Flow, RowVisitor};
use crate::walk::visit_target;
use expressions::eval::{Users, eval};
use expressions::types::Typed;
use row_codec::RowRef;
use sql_ast::columns::Columns;
use sql_types::items::Items;
use sql_types::state::SqlState;
use sql_types::value::{Truth, Value};
use std::alloc::Global;
use store::{Batch, Fault, MAX_KEY_LENGTH, Map, StatementError};

/// The rows that are chosen: their keys are removed in `changes`; in `rows` is what became of
/// them, where anything is assigned.
#[derive(Drop)]
pub struct ChosenRows {
    pub changes: Batch,
    pub rows: Items<Items<Value>>,
    pub count: u64,
}

/// A choice of rows that goes on.
#[derive(Drop)]
pub struct Choosing<'a> {
    alloc: Global,
    target: &'a Target<'a>,
    condition: Option<&'a Typed>,
    assignments: Option<&'a Assignments<'a>>,
    chosen: ChosenRows,
}

/// The rows of a table that the statement sees and at which its condition is true, with what
/// becomes of them, of those in the range of the target. The first row that is refused ends it.
pub(crate) fn choose<M: Map>(
    alloc: Global,
    records: &mut M,
    target: &Target<'_>,
    condition: Option<&Typed>,
    assignments: Option<&Assignments<'_>>,
) -> Result<ChosenRows, StatementError>
    ensures preserved { M.preserved records.old records.new }
    ensures reads { ReadsMap result (M.state records.old) (M.state records.new) }
    ensures cost { (M.state records.old).sound → M.cost records.old records.new
        (cost_of target.now (M.state records.old).map) }
    ensures chosen { (M.state records.old).sound → (rows : List Row)
        → HoldsRows target.now.id target.now.columns.now (M.state records.old).map rows
        → LosesNothing target.now condition.entry
        → Answers result (all_chosen
        (is_chosen (sees target.now)
        (condition_on_row (users_of target.now) (condition_in condition.entry)))
        (became (users_of target.now) assignments.entry) target.now.id target.now.columns.now
        nothing_chosen rows) }
    ensures spelled { (M.state records.old).sound
        → OnOk result (FindsSpelled target.now (M.state records.old).map) }
    ensures damage { (M.state records.old).sound
        → IfErr result
        (IsDamagedFor (FindsDamage target.now (M.state records.old).map)) }
    ensures concern { (M.state records.old).sound → IsOfTable target.now.id target.now.range
        → IfOk result (λ chosen. ConcernRowsOf target.now.id chosen.changes) }
    ensures few { (M.state records.old).sound → IsOfTable target.now.id target.now.range
        → IfOk result (λ chosen.
        length chosen.rows ≤ length (records_of target.now (M.state records.old).map)) }
{
    let chosen = ChosenRows::new(alloc);
    let mut choosing = Choosing {
        alloc,
        target,
        condition,
        assignments,
        chosen,
    };
    visit_target(alloc, records, target, &mut choosing)?;
    Ok(choosing.chosen)
}

impl ChosenRows {
    fn new(alloc: Global) -> ChosenRows
        ensures { result ≡ nothing_chosen }
    {
        ChosenRows {
            changes: Batch::new(alloc),
            rows: Items::new(alloc),
            count: 0,
        }
    }

    // Takes one more row, of this key, and what becomes of it.
    fn take(&mut self, key: &[u8], new: Option<Items<Value>>) -> Result<(), StatementError>
        ensures takes { IsKeySize key.now → TakesRow result key.now new self.old self.new }
        ensures no_read { ReadsNoMap result }
    {
        if key.is_empty() || key.len() > MAX_KEY_LENGTH {
            return Err(StatementError::Failed(Fault::Damaged));
        }
        let Some(count) = self.count.checked_add(1) else {
            return Err(StatementError::Failed(Fault::Memory));
        };
        self.changes.remove(key)?;
        if let Some(row) = new {
            self.rows.push(row)?;
        }
        self.count = count;
        Ok(())
    }
}

impl<'a> RowVisitor for Choosing<'a> {
    type Answer = ChosenRows;

    ghost use Rattle.std.specs.Prelude.{false};
    ghost use Rattle.table_rows.specs.Choosing.{chosen_after};

    ghost after = { chosen_after };

    ghost ends_early = { false };

    fn visit(
        &mut self,
        columns: &Columns,
        key: &[u8],
        row: &RowRef<'_>,
    ) -> Result<Flow, StatementError> {
        if !is_chosen(self.target, self.condition, row)? {
            return Ok(Flow::Continue);
        }
        let users = self.target.users;
        let new = became(self.alloc, columns, users, self.assignments, row)?;
        self.chosen.take(key, new)?;
        Ok(Flow::Continue)
    }
}

/// Whether a row is chosen: its guard, and then the condition.
pub(crate) fn is_chosen(
    target: &Target<'_>,
    condition: Option<&Typed>,
    row: &RowRef<'_>,
) -> Result<bool, SqlState>
    ensures { result ≡ is_chosen (sees target.now)
        (condition_on_row (users_of target.now) (condition_in condition.entry)) row.now }
{
    if !target.guard.sees(row, target.users)? {
        return Ok(false);
    }
    match condition {
        Some(condition) => is_true(condition, row, target.users),
        None => Ok(true),
    }
}

// Whether a condition is true on a row.
fn is_true(condition: &Typed, row: &RowRef<'_>, users: &Users<'_>) -> Result<bool, SqlState>
    ensures { result
        ≡ is_met (value_on (table_cell row.now) (names_of users.now) condition.now) }
{
    let value = eval(condition, row, users)?;
    Ok(matches!(value.truth(), Truth::True))
}

// What becomes of a row that is chosen, where anything is assigned.
fn became(
    alloc: Global,
    columns: &Columns,
    users: &Users<'_>,
    assignments: Option<&Assignments<'_>>,
    row: &RowRef<'_>,
) -> Result<Option<Items<Value>>, StatementError>
    ensures no_read { ReadsNoMap result }
    ensures gives { length row.now ≡ length columns.now.columns
        → Gives result (became (names_of users.now) assignments.entry row.now) }
{
    match assignments {
        Some(assignments) => {
            let new = assigned_row(alloc, columns, assignments, row, users)?;
            Ok(Some(new.to_row(alloc)?))
        }
        None => Ok(None),
    }
}
