//! How deep the expressions of a statement are.

ghost use Rattle.std.specs.Prelude.{◌≡◌, ◌↔◌, IsTrue, All, IfSome};
ghost use Rattle.expr_parser.specs.Whole.{IsWithinDepth};
ghost use Rattle.sql_ast.specs.Expressions.{HoldsInClause, HoldsInAssignment, HoldsInKey, HoldsInJoin, HoldsInList, HoldsInFrom, HoldsInSource};
ghost use Rattle.sql_ast.specs.OverRows.{HoldsOverRows};
ghost use Rattle.sql_ast.specs.Defining.{HoldsInDefining};
ghost use Rattle.sql_parser.specs.Forms.{IsStatementWithinDepth};

use expr_parser::stages::MAX_DEPTH;
use sql_ast::expr::Expr;
use sql_ast::policy::PolicyClause;
use sql_ast::statement::{
    Assignment, DatabaseStatement, DefiningStatement, FromClause, Join, RowStatement, SelectList,
    SortKey, Statement, TableExpression,
};
use sql_types::items::Items;

// An expression that may be left out.
fn condition_is_within_depth(condition: &Option<Expr>) -> bool
    ensures { IsTrue result ↔ IfSome condition.now IsWithinDepth }
{
    match condition {
        Some(condition) => condition.is_within(MAX_DEPTH),
        None => true,
    }
}

fn clause_is_within_depth(clause: &Option<PolicyClause>) -> bool
    ensures { IsTrue result ↔ IfSome clause.now (HoldsInClause IsWithinDepth) }
{
    match clause {
        Some(clause) => clause.expression.is_within(MAX_DEPTH),
        None => true,
    }
}

fn are_within_depth(values: &[Expr]) -> bool
    ensures { IsTrue result ↔ All IsWithinDepth values.now }
{
    for value in values {
        if !value.is_within(MAX_DEPTH) {
            return false;
        }
    }
    true
}

fn rows_are_within_depth(rows: &[Items<Expr>]) -> bool
    ensures { IsTrue result ↔ All (All IsWithinDepth) rows.now }
{
    for row in rows {
        if !are_within_depth(row.as_slice()) {
            return false;
        }
    }
    true
}

fn assignments_are_within_depth(assignments: &[Assignment]) -> bool
    ensures { IsTrue result ↔ All (HoldsInAssignment IsWithinDepth) assignments.now }
{
    for assignment in assignments {
        if !assignment.value.is_within(MAX_DEPTH) {
            return false;
        }
    }
    true
}

fn keys_are_within_depth(keys: &[SortKey]) -> bool
    ensures { IsTrue result ↔ All (HoldsInKey IsWithinDepth) keys.now }
{
    for key in keys {
        if !key.value.is_within(MAX_DEPTH) {
            return false;
        }
    }
    true
}

fn joins_are_within_depth(joins: &[Join]) -> bool
    ensures { IsTrue result ↔ All (HoldsInJoin IsWithinDepth) joins.now }
{
    for join in joins {
        if !condition_is_within_depth(&join.condition) {
            return false;
        }
    }
    true
}

fn list_is_within_depth(list: &SelectList) -> bool
    ensures { IsTrue result ↔ HoldsInList IsWithinDepth list.now }
{
    match list {
        SelectList::Expressions(values) => are_within_depth(values.as_slice()),
        SelectList::Asterisk | SelectList::Count => true,
    }
}

fn tables_are_within_depth(tables: &FromClause) -> bool
    ensures { IsTrue result ↔ HoldsInFrom IsWithinDepth tables.now }
{
    match tables {
        FromClause::List(_) => true,
        FromClause::Joined(_, joins) => joins_are_within_depth(joins.as_slice()),
    }
}

fn order_is_within_depth(order: &Option<Items<SortKey>>) -> bool
    ensures { IsTrue result ↔ IfSome order.now (All (HoldsInKey IsWithinDepth)) }
{
    match order {
        Some(keys) => keys_are_within_depth(keys.as_slice()),
        None => true,
    }
}

fn source_is_within_depth(source: &Option<TableExpression>) -> bool
    ensures { IsTrue result ↔ IfSome source.now (HoldsInSource IsWithinDepth) }
{
    match source {
        Some(source) => {
            tables_are_within_depth(&source.tables)
                && condition_is_within_depth(&source.condition)
                && order_is_within_depth(&source.order)
        }
        None => true,
    }
}

fn row_statement_is_within_depth(statement: &RowStatement) -> bool
    ensures { IsTrue result ↔ HoldsOverRows IsWithinDepth statement.now }
{
    match statement {
        RowStatement::Insert(insert) => rows_are_within_depth(insert.rows.as_slice()),
        RowStatement::Update(update) => {
            assignments_are_within_depth(update.assignments.as_slice())
                && condition_is_within_depth(&update.condition)
        }
        RowStatement::Delete(delete) => condition_is_within_depth(&delete.condition),
        RowStatement::Select(select) => {
            list_is_within_depth(&select.list) && source_is_within_depth(&select.source)
        }
    }
}

fn definition_is_within_depth(statement: &DefiningStatement) -> bool
    ensures { IsTrue result ↔ HoldsInDefining IsWithinDepth statement.now }
{
    match statement {
        DefiningStatement::CreatePolicy(create) => {
            clause_is_within_depth(&create.using) && clause_is_within_depth(&create.check)
        }
        DefiningStatement::CreateRole(_)
        | DefiningStatement::DropRole(_)
        | DefiningStatement::GrantRole(_)
        | DefiningStatement::RevokeRole(_)
        | DefiningStatement::CreateTable(_)
        | DefiningStatement::DropTable(_)
        | DefiningStatement::AlterTable(_)
        | DefiningStatement::DropPolicy(_)
        | DefiningStatement::Grant(_)
        | DefiningStatement::Revoke(_) => true,
    }
}

/// Whether no expression of a statement is deeper than 64, where a value by itself has depth 1 and
/// an operator one more than its deepest operand: each for itself, wherever in the statement it
/// stands.
pub fn is_within_depth(statement: &Statement) -> bool
    ensures { IsTrue result ↔ IsStatementWithinDepth statement.now }
{
    match statement {
        Statement::OnDatabase(DatabaseStatement::OverRows(statement)) =>
            row_statement_is_within_depth(statement),
        Statement::OnDatabase(DatabaseStatement::Defining(statement)) => definition_is_within_depth(
            statement,
        ),
        Statement::OfSession(_) => true,
    }
}
