//! The columns that INSERT and UPDATE give values to (SQL:2016 Foundation, 14.11 and 14.14).

ghost use Rattle.std.specs.Prelude.{◌≡◌, [], map, unwrap_or, IfOk};
ghost use Rattle.std.specs.List.{list_all, range_with_len};
ghost use Rattle.expressions.specs.Names.{AnswersUnlessMemory};
ghost use Rattle.expressions.specs.Stages.{each};
ghost use Rattle.abstract_database.specs.Checks.{counts_fit, found_column, row_width, target_columns};
ghost use Rattle.planner.specs.Columns.{insert_columns, set_columns};

use crate::tables::check_names;
use sql_ast::columns::Columns;
use sql_ast::expr::Expr;
use sql_ast::statement::{Assignment, Insert};
use sql_types::items::Items;
use sql_types::name::Name;
use sql_types::state::{Refusal, SqlState};
use std::alloc::{AllocError, Global};

/// The columns of an INSERT: those of its column list, or without a list as many from the left as a
/// row has values.
///
/// `DuplicateColumn` comes where the list names a column twice, and else `SyntaxError` where a row
/// does not have a value for each column, and else `UndefinedColumn` where no column has a name.
pub(crate) fn insert_columns(
    alloc: Global,
    columns: &Columns,
    statement: &Insert,
) -> Result<Items<usize>, Refusal>
    ensures { AnswersUnlessMemory result (insert_columns columns.now statement.now) }
{
    let names = list_names(alloc, &statement.columns)?;
    check_names(alloc, names.as_slice(), SqlState::DuplicateColumn)?;
    if !counts_fit(columns, &statement.columns, statement.rows.as_slice()) {
        return Err(Refusal(SqlState::SyntaxError));
    }
    target_columns(alloc, columns, statement, names.as_slice())
}

/// The columns that an UPDATE sets.
///
/// `DuplicateColumn` comes where one is set twice, and else `UndefinedColumn` where no column has
/// one of the names.
pub(crate) fn set_columns(
    alloc: Global,
    columns: &Columns,
    assignments: &[Assignment],
) -> Result<Items<usize>, Refusal>
    ensures { AnswersUnlessMemory result
        (set_columns columns.now (map (λ a. a.column) assignments.now)) }
{
    let names = set_names(alloc, assignments)?;
    check_names(alloc, names.as_slice(), SqlState::DuplicateColumn)?;
    find_columns(alloc, columns, names.as_slice())
}

/// The names of a column list: none where there is no list.
fn list_names(alloc: Global, list: &Option<Items<Name>>) -> Result<Vec<&Name>, AllocError>
    ensures { IfOk result (λ names. map (λ n. n.now) names.items ≡ unwrap_or list.now []) }
{
    match list {
        Some(names) => names.as_slice().iter().collect(alloc),
        None => Ok(Vec::new(alloc)),
    }
}

/// Whether there is a value for each column of the list, or without a list no more than columns.
fn counts_fit(columns: &Columns, list: &Option<Items<Name>>, rows: &[Items<Expr>]) -> bool
    ensures { result ≡ list_all (counts_fit columns.now list.now) rows.now }
{
    match list {
        None => rows.iter().all(|row| row.len() <= columns.len()),
        Some(names) => rows.iter().all(|row| row.len() == names.len()),
    }
}

/// The names of the columns that are set.
fn set_names(alloc: Global, assignments: &[Assignment]) -> Result<Vec<&Name>, AllocError>
    ensures { IfOk result (λ names.
        map (λ n. n.now) names.items ≡ map (λ a. a.column) assignments.now) }
{
    assignments
        .iter()
        .map(|assignment| &assignment.column)
        .collect(alloc)
}

/// The columns of an INSERT: those of its column list, whose names are given, or without a list as
/// many from the left as a row has values. `UndefinedColumn` comes where no column has a name.
fn target_columns(
    alloc: Global,
    columns: &Columns,
    statement: &Insert,
    names: &[&Name],
) -> Result<Items<usize>, Refusal>
    requires { map (λ n. n.now) names.now ≡ unwrap_or statement.now.columns [] }
    ensures { AnswersUnlessMemory result (target_columns columns.now statement.now) }
{
    match &statement.columns {
        None => Ok(first_columns(alloc, row_width(statement.rows.as_slice()))?),
        Some(_) => find_columns(alloc, columns, names),
    }
}

/// The columns of these names. `UndefinedColumn` comes where no column has one of them.
fn find_columns(alloc: Global, columns: &Columns, names: &[&Name]) -> Result<Items<usize>, Refusal>
    ensures { AnswersUnlessMemory result
        (each (found_column columns.now) (map (λ n. n.now) names.now)) }
{
    let mut found = Items::new(alloc);
    for name in names {
        found.push(find_column(columns, name)?)?;
    }
    Ok(found)
}

fn find_column(columns: &Columns, name: &Name) -> Result<usize, Refusal>
    ensures { AnswersUnlessMemory result (found_column columns.now name.now) }
{
    match columns.find(name) {
        Some(column) => Ok(column),
        None => Err(Refusal(SqlState::UndefinedColumn)),
    }
}

/// How many values there are in the first row.
fn row_width(rows: &[Items<Expr>]) -> usize
    ensures { result ≡ row_width rows.now }
{
    match rows.first() {
        Some(row) => row.len(),
        None => 0,
    }
}

/// So many columns from the left.
fn first_columns(alloc: Global, count: usize) -> Result<Items<usize>, AllocError>
    ensures { IfOk result (λ columns. columns ≡ range_with_len 0 count) }
{
    let mut columns = Items::new(alloc);
    for column in 0..count {
        columns.push(column)?;
    }
    Ok(columns)
}
