//! Rows that are made of the values of expressions.
ghost use Rattle.std.specs.Prelude.{◌≡◌, [], length, map, IfOk};
ghost use Rattle.sql_types.specs.Value.{owned};
ghost use Rattle.expressions.specs.Rows.{names_of, value_on};
ghost use Rattle.expressions.specs.Stages.{each};
ghost use Rattle.abstract_database.specs.Changes.{value_beside, inserted_row, replaced, assigned};
ghost use Rattle.table_rows.specs.Failures.{Gives, ReadsNoMap};
ghost use Rattle.table_rows.specs.Targets.{terms_in, row_so_wide};

use crate::target::{Assignments, Insertion};
use expressions::eval::{Users, eval};
use expressions::types::Typed;
use row_codec::{LentRow, RowRef};
use sql_ast::columns::Columns;
use sql_types::items::Items;
use sql_types::row::RowView;
use sql_types::value::ValueRef;
use std::alloc::{AllocError, Global};
use store::StatementError;

/// The rows that an INSERT adds, in the order of the statement, lent. Their values are computed on
/// the row of no columns.
pub(crate) fn inserted_rows<'a, 'b>(
    alloc: Global,
    columns: &Columns,
    insertion: &'a Insertion<'a>,
    no_row: &'a LentRow<'b>,
    users: &'a Users<'a>,
) -> Result<Items<LentRow<'a>>, StatementError>
    requires { no_row.now ≡ [] }
    ensures { Gives result (each (λ row. inserted_row columns.now (names_of users.now)
        insertion.now.columns.now (terms_in row)) insertion.now.rows.now) }
{
    let mut rows = Items::new(alloc);
    for row in insertion.rows {
        let values = row.as_slice();
        rows.push(inserted_row(alloc, columns, insertion.columns, values, no_row, users)?)?;
    }
    Ok(rows)
}

fn inserted_row<'a, 'b>(
    alloc: Global,
    columns: &Columns,
    targets: &[usize],
    values: &'a [Typed],
    no_row: &'a LentRow<'b>,
    users: &'a Users<'a>,
) -> Result<LentRow<'a>, StatementError>
    requires { no_row.now ≡ [] }
    ensures { Gives result (inserted_row columns.now (names_of users.now) targets.now
        (terms_in values.now)) }
{
    let values = values_on(alloc, values, no_row, users)?;
    let width = columns.as_slice().len();
    Ok(replaced(alloc, width, targets, &values, no_row)?)
}

/// A row as an UPDATE leaves it, lent: each value is one on the row before.
pub(crate) fn assigned_row<'a>(
    alloc: Global,
    columns: &Columns,
    assignments: &'a Assignments<'a>,
    row: &'a RowRef<'a>,
    users: &'a Users<'a>,
) -> Result<LentRow<'a>, StatementError>
    ensures no_read { ReadsNoMap result }
    ensures gives { length row.now ≡ length columns.now.columns
        → Gives result (assigned (names_of users.now) assignments.now.columns.now
        (terms_in assignments.now.values.now) row.now) }
{
    let values = values_on(alloc, assignments.values, row, users)?;
    let width = columns.as_slice().len();
    Ok(replaced(alloc, width, assignments.columns, &values, row)?)
}

// The values of expressions on a row, or the refusal of the first that fails.
fn values_on<'a, R: RowView>(
    alloc: Global,
    list: &'a [Typed],
    row: &'a R,
    users: &'a Users<'a>,
) -> Result<LentRow<'a>, StatementError>
    ensures { Gives result (each (value_on (R.cell row.now) (names_of users.now)) list.now) }
{
    let mut values = LentRow::new(alloc);
    for expression in list {
        let value = eval(expression, row, users)?;
        values.push(value)?;
    }
    Ok(values)
}

// A row so wide that has these values in the columns of these indices, and elsewhere the values of
// another row.
fn replaced<'a, R: RowView>(
    alloc: Global,
    width: usize,
    columns: &[usize],
    values: &LentRow<'a>,
    row: &'a R,
) -> Result<LentRow<'a>, AllocError>
    ensures { IfOk result (λ new. new
        ≡ replaced columns.now values.now (row_so_wide (R.cell row.now) width)) }
{
    let mut new = LentRow::new(alloc);
    let given = values.as_slice();
    for index in 0..width {
        let old = row.value(0, index);
        let value = value_beside(index, columns, given, old);
        new.push(value)?;
    }
    Ok(new)
}

// The value beside the index of a column, or the other one.
fn value_beside<'a>(
    column: usize,
    columns: &[usize],
    values: &[ValueRef<'a>],
    other: ValueRef<'a>,
) -> ValueRef<'a>
    ensures { owned result
        ≡ value_beside column columns.now (map owned values.now) (owned other.entry) }
{
    match (columns.split_first(), values.split_first()) {
        (Some((first, columns)), Some((value, values))) => {
            if column == *first {
                *value
            } else {
                value_beside(column, columns, values, other)
            }
        }
        _ => other,
    }
}
