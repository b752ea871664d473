//! The values of INSERT (SQL:2016 Foundation, 14.11).

ghost use Rattle.std.specs.Prelude.{◌≡◌, [], ◌++◌, take, drop, map, flat_map, OnOk, IfOk};
ghost use Rattle.std.specs.Vec.Iter.{into_iter_items};
ghost use Rattle.sql_ast.specs.Scope.{tables_of};
ghost use Rattle.expressions.specs.Parts.{part_of};
ghost use Rattle.abstract_database.specs.Checks.{value_parts};
ghost use Rattle.planner.specs.Answers.{AnswersBy};
ghost use Rattle.planner.specs.Inserted.{rows_of, AreAsLong, cut_as, bound_rows};

use crate::changes::type_at;
use expressions::parts::{Part, bind};
use expressions::types::Typed;
use sql_ast::columns::Columns;
use sql_ast::expr::Expr;
use sql_ast::scope::Scope;
use sql_types::items::Items;
use sql_types::state::Refusal;
use std::alloc::{AllocError, Global};
use std::vec::IntoIter;

/// The values that are given to these columns, row by row: no value may name a column.
///
/// `UndefinedColumn` comes where one does, and else `DatatypeMismatch` for the first value that has
/// no type or another one than its column.
pub(crate) fn bind_rows(
    alloc: Global,
    layout: &Columns,
    columns: &[usize],
    rows: &[Items<Expr>],
) -> Result<Items<Items<Typed>>, Refusal>
    ensures { AreAsLong columns.now rows.now
        → AnswersBy rows_of result (bound_rows [] layout.now columns.now rows.now) }
{
    bind_in_scope(alloc, &Scope { tables: &[] }, layout, columns, rows)
}

/// The same over the tables of a scope: the names of all, and then the types of all.
fn bind_in_scope(
    alloc: Global,
    scope: &Scope<'_>,
    layout: &Columns,
    columns: &[usize],
    rows: &[Items<Expr>],
) -> Result<Items<Items<Typed>>, Refusal>
    ensures { AreAsLong columns.now rows.now
        → AnswersBy rows_of result (bound_rows (tables_of scope.now) layout.now columns.now rows.now) }
{
    let mut parts = Vec::new(alloc);
    add_rows(&mut parts, scope, layout, columns, rows)?;
    let bound = bind(alloc, parts.as_slice())?;
    Ok(split_rows(alloc, bound, rows)?)
}

/// Adds the values of all rows.
fn add_rows<'e, 's>(
    parts: &mut Vec<Part<'e, 's>>,
    scope: &Scope<'s>,
    layout: &Columns,
    columns: &[usize],
    rows: &'e [Items<Expr>],
) -> Result<(), AllocError>
    ensures { OnOk result (map part_of parts.new.items
        ≡ map part_of parts.old.items
        ++ flat_map (value_parts (tables_of scope.now) layout.now columns.now) rows.now) }
{
    for row in rows {
        add_row(parts, scope, layout, columns, row.as_slice())?;
    }
    Ok(())
}

/// Adds the values of a row, each of which has the type of its column.
fn add_row<'e, 's>(
    parts: &mut Vec<Part<'e, 's>>,
    scope: &Scope<'s>,
    layout: &Columns,
    columns: &[usize],
    row: &'e [Expr],
) -> Result<(), AllocError>
    ensures { OnOk result (map part_of parts.new.items
        ≡ map part_of parts.old.items
        ++ value_parts (tables_of scope.now) layout.now columns.now row.now) }
{
    for (column, expression) in columns.iter().zip(row) {
        parts.push(Part {
            expression,
            scope: *scope,
            expected: type_at(layout, *column),
        })?;
    }
    Ok(())
}

/// The values cut into rows that are as long as those of the statement.
fn split_rows(
    alloc: Global,
    bound: Items<Typed>,
    rows: &[Items<Expr>],
) -> Result<Items<Items<Typed>>, AllocError>
    ensures { IfOk result (λ cut. cut ≡ cut_as rows.now bound) }
{
    let mut values = bound.into_vec().into_iter();
    let mut cut = Items::new(alloc);
    for row in rows {
        cut.push(take_row(alloc, &mut values, row.len())?)?;
    }
    Ok(cut)
}

/// Takes so many of the values, or as many as there are.
fn take_row(
    alloc: Global,
    values: &mut IntoIter<Typed>,
    count: usize,
) -> Result<Items<Typed>, AllocError>
    ensures taken { IfOk result (λ row. row ≡ take count (into_iter_items values.old)) }
    ensures left { IfOk result (λ row.
        into_iter_items values.new ≡ drop count (into_iter_items values.old)) }
{
    let mut row = Items::new(alloc);
    for _at in 0..count {
        let Some(value) = values.next() else {
            return Ok(row);
        };
        row.push(value)?;
    }
    Ok(row)
}
