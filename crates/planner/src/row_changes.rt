//! UPDATE and DELETE, checked (SQL:2016 Foundation, 14.9 and 14.14; PostgreSQL manual, UPDATE and
//! DELETE). A DELETE is checked as an UPDATE that sets nothing, but for the privilege that it needs.

ghost use Rattle.std.specs.Prelude.{◌≡◌, [], length, IfOk, IfErr};
ghost use Rattle.sql_ast.specs.declared.statement.RowStatement.TheVariants.{Update as UpdateOf, Delete as DeleteOf};
ghost use Rattle.planner.specs.Answers.{AnswersBy};
ghost use Rattle.planner.specs.Plans.{IsCheckedChange, IsCheckedDelete, IsCheckedUpdate, IsRefusalOf};
ghost use Rattle.planner.specs.RowChanges.{action_of, assignments_of, changes_from, checked_in, condition_of, statement_of, table_of};

use crate::changes::bind_changes;
use crate::named_table::NamedTable;
use crate::reading::changes_read;
use crate::rights::Rights;
use crate::sources::Source;
use crate::targets::set_columns;
use catalogue::definitions::Catalogue;
use catalogue::table::TableDefinition;
use expressions::types::Typed;
use role_membership::RoleSet;
use sql_ast::expr::Expr;
use sql_ast::privilege::Action;
use sql_ast::statement::{Assignment, Delete, Update};
use sql_types::items::Items;
use sql_types::name::Name;
use sql_types::state::{Refusal, SqlState};
use std::alloc::Global;

/// An UPDATE or a DELETE that passed its checks.
#[derive(Drop)]
pub struct ChangePlan<'c> {
    /// The table whose rows are changed or deleted.
    pub target: Source<'c>,
    /// The indices of the columns that are set: none by a DELETE.
    pub columns: Items<usize>,
    /// Their new values, in the same order.
    pub values: Items<Typed>,
    /// The condition of WHERE, or `None` for all rows.
    pub condition: Option<Typed>,
    /// Whether a new value or WHERE names a column, so that SELECT is needed too.
    pub reads: bool,
    /// The roles that the current role is in.
    pub roles: RoleSet<'c>,
}

/// The columns, values and condition of an UPDATE or a DELETE that passed its checks.
#[derive(Drop)]
struct CheckedChanges {
    columns: Items<usize>,
    values: Items<Typed>,
    condition: Option<Typed>,
    reads: bool,
}

/// A statement that changes the rows that its WHERE selects of one table.
#[derive(Drop)]
enum ChangeStatement<'s> {
    Update(&'s Update),
    Delete(&'s Delete),
}

impl<'s> ChangeStatement<'s> {
    /// The name of the table.
    fn table(&self) -> &'s Name
        ensures { result.now ≡ table_of self.now }
    {
        match self {
            ChangeStatement::Update(update) => &update.table,
            ChangeStatement::Delete(delete) => &delete.table,
        }
    }

    /// What is done to its rows.
    fn action(&self) -> Action
        ensures { result ≡ action_of self.now }
    {
        match self {
            ChangeStatement::Update(_) => Action::Update,
            ChangeStatement::Delete(_) => Action::Delete,
        }
    }

    /// What is set: nothing by a DELETE.
    fn assignments(&self) -> &'s [Assignment]
        ensures { result.now ≡ assignments_of self.now }
    {
        match self {
            ChangeStatement::Update(update) => update.assignments.as_slice(),
            ChangeStatement::Delete(_) => &[],
        }
    }

    /// The condition of WHERE, or `None` for all rows.
    fn condition(&self) -> &'s Option<Expr>
        ensures { result.now ≡ condition_of self.now }
    {
        match self {
            ChangeStatement::Update(update) => &update.condition,
            ChangeStatement::Delete(delete) => &delete.condition,
        }
    }
}

/// Checks an UPDATE of a role, stage by stage, each over the whole statement before the next.
///
/// `UndefinedTable` comes where the table is not there; `DuplicateColumn` where a column is set
/// twice; `UndefinedColumn` where a column is set, or named by a value or by WHERE, that the table
/// does not have; `DatatypeMismatch` for the first value that has no type or another one than its
/// column, or where WHERE has no type or is no boolean; `InsufficientPrivilege` where the role may
/// not update one of these columns, or may not read one that a value or WHERE names.
pub fn plan_update<'c>(
    alloc: Global,
    catalogue: &'c Catalogue,
    current: &'c Name,
    statement: &Update,
) -> Result<ChangePlan<'c>, Refusal>
    ensures plan { IfOk result (IsCheckedUpdate catalogue.now current.now statement.now) }
    ensures refusal { IfErr result
        (IsRefusalOf catalogue.now current.now (UpdateOf statement.now)) }
{
    plan_changes(
        alloc,
        catalogue,
        current,
        &ChangeStatement::Update(statement),
    )
}

/// Checks a DELETE of a role, stage by stage, each over the whole statement before the next.
///
/// `UndefinedTable` comes where the table is not there; `UndefinedColumn` where WHERE names a
/// column that it does not have; `DatatypeMismatch` where WHERE has no type or is no boolean;
/// `InsufficientPrivilege` where the role may not delete from the table, or may not read a column
/// that WHERE names.
pub fn plan_delete<'c>(
    alloc: Global,
    catalogue: &'c Catalogue,
    current: &'c Name,
    statement: &Delete,
) -> Result<ChangePlan<'c>, Refusal>
    ensures plan { IfOk result (IsCheckedDelete catalogue.now current.now statement.now) }
    ensures sets_nothing { IfOk result (λ plan. plan.columns ≡ []) }
    ensures refusal { IfErr result
        (IsRefusalOf catalogue.now current.now (DeleteOf statement.now)) }
{
    plan_changes(
        alloc,
        catalogue,
        current,
        &ChangeStatement::Delete(statement),
    )
}

/// Checks either: the table is found, the statement checked over it, and its rows guarded.
fn plan_changes<'c>(
    alloc: Global,
    catalogue: &'c Catalogue,
    current: &'c Name,
    statement: &ChangeStatement<'_>,
) -> Result<ChangePlan<'c>, Refusal>
    ensures plan { IfOk result
        (IsCheckedChange catalogue.now current.now (statement_of statement.now)) }
    ensures sets { IfOk result (λ plan.
        length plan.columns ≡ length (assignments_of statement.now)) }
    ensures refusal { IfErr result
        (IsRefusalOf catalogue.now current.now (statement_of statement.now)) }
{
    let named = NamedTable::find(alloc, catalogue, current, statement.table())?;
    let checked = check_changes(alloc, &named.rights, named.table, statement)?;
    let action = statement.action();
    let guarded = named.guarded(alloc, catalogue, current, action, checked.reads)?;
    Ok(ChangePlan {
        target: guarded.source,
        columns: checked.columns,
        values: checked.values,
        condition: checked.condition,
        reads: checked.reads,
        roles: guarded.roles,
    })
}

/// The checks over the table that was found.
fn check_changes(
    alloc: Global,
    rights: &Rights<'_>,
    table: &TableDefinition,
    statement: &ChangeStatement<'_>,
) -> Result<CheckedChanges, Refusal>
    ensures checks { AnswersBy (checked_in table.now)
        result (changes_from rights.now statement.now table.now) }
    ensures sets { IfOk result (λ checked.
        length checked.columns ≡ length (assignments_of statement.now)) }
{
    let assignments = statement.assignments();
    let condition = statement.condition();
    let columns = set_columns(alloc, table.columns(), assignments)?;
    let set = columns.as_slice();
    let bound = bind_changes(alloc, table, set, assignments, condition)?;
    let values = bound.values.as_slice();
    if !rights.may_change(statement.action(), table, set, values, &bound.condition) {
        return Err(Refusal(SqlState::InsufficientPrivilege));
    }
    let reads = changes_read(values, &bound.condition);
    Ok(CheckedChanges {
        columns,
        values: bound.values,
        condition: bound.condition,
        reads,
    })
}
