//! The new values and the condition of a statement that changes rows of one table (SQL:2016
//! Foundation, 14.9, 14.14 and 14.15).

ghost use Rattle.std.specs.Prelude.{◌≡◌, ◌++◌, ◌≤◌, map, length, option_to_list, is_some, OnOk};
ghost use Rattle.sql_ast.specs.Scope.{tables_of};
ghost use Rattle.expressions.specs.Parts.{part_of};
ghost use Rattle.abstract_database.specs.Expressions.{own_scope, column_type};
ghost use Rattle.abstract_database.specs.Checks.{value_parts};
ghost use Rattle.planner.specs.Answers.{AnswersBy};
ghost use Rattle.planner.specs.Changed.{terms_of, where_parts, bound_changes};

use catalogue::table::TableDefinition;
use expressions::parts::{Part, bind};
use expressions::types::Typed;
use sql_ast::columns::{ColumnType, Columns};
use sql_ast::expr::Expr;
use sql_ast::scope::{Scope, ScopeTable};
use sql_ast::statement::Assignment;
use sql_types::items::Items;
use sql_types::state::Refusal;
use std::alloc::{AllocError, Global};

/// The new values and the condition of a statement, with the indices of their columns.
#[derive(Drop)]
pub(crate) struct BoundChanges {
    /// The new values, in the order of the assignments.
    pub values: Items<Typed>,
    /// The condition of WHERE, if there is one.
    pub condition: Option<Typed>,
}

/// The values that are assigned to these columns, and the condition of WHERE, over the columns of a
/// table.
///
/// `UndefinedColumn` comes for the first column of the text that the table does not have, and where
/// there is none, `DatatypeMismatch` for the first value that has no type or another one than its
/// column, or where WHERE has no type or is no boolean.
pub(crate) fn bind_changes(
    alloc: Global,
    table: &TableDefinition,
    columns: &[usize],
    assignments: &[Assignment],
    condition: &Option<Expr>,
) -> Result<BoundChanges, Refusal>
    requires { length columns.now ≡ length assignments.now }
    ensures { AnswersBy terms_of result
        (bound_changes (own_scope table.now.definition) table.now.definition.layout columns.now
        (map (λ a. a.value) assignments.now) condition.now) }
{
    let name = table.name();
    let layout = table.columns();
    let tables = [ScopeTable {
        name,
        columns: layout,
    }];
    let scope = Scope { tables: &tables };
    bind_in_scope(alloc, &scope, layout, columns, assignments, condition)
}

/// The same over the tables of a scope: the names of all, and then the types of all.
fn bind_in_scope(
    alloc: Global,
    scope: &Scope<'_>,
    layout: &Columns,
    columns: &[usize],
    assignments: &[Assignment],
    condition: &Option<Expr>,
) -> Result<BoundChanges, Refusal>
    requires { length columns.now ≡ length assignments.now }
    ensures { AnswersBy terms_of result
        (bound_changes (tables_of scope.now) layout.now columns.now
        (map (λ a. a.value) assignments.now) condition.now) }
{
    let mut parts = Vec::new(alloc);
    add_values(&mut parts, scope, layout, columns, assignments)?;
    add_where(&mut parts, scope, condition)?;
    let bound = bind(alloc, parts.as_slice())?;
    Ok(split(bound, condition))
}

/// Adds the values that are assigned, each of which has the type of its column.
fn add_values<'e, 's>(
    parts: &mut Vec<Part<'e, 's>>,
    scope: &Scope<'s>,
    layout: &Columns,
    columns: &[usize],
    assignments: &'e [Assignment],
) -> Result<(), AllocError>
    ensures { OnOk result (map part_of parts.new.items
        ≡ map part_of parts.old.items
        ++ value_parts (tables_of scope.now) layout.now columns.now
        (map (λ a. a.value) assignments.now)) }
{
    for (column, assignment) in columns.iter().zip(assignments) {
        parts.push(Part {
            expression: &assignment.value,
            scope: *scope,
            expected: type_at(layout, *column),
        })?;
    }
    Ok(())
}

/// The type of the column of an index, or `None` after the last.
pub(crate) fn type_at(layout: &Columns, column: usize) -> Option<ColumnType>
    ensures { result ≡ column_type layout.now column }
{
    match layout.get(column) {
        Some(column) => Some(column.column_type),
        None => None,
    }
}

/// Adds the condition of WHERE, if there is one.
fn add_where<'e, 's>(
    parts: &mut Vec<Part<'e, 's>>,
    scope: &Scope<'s>,
    condition: &'e Option<Expr>,
) -> Result<(), AllocError>
    ensures { OnOk result (map part_of parts.new.items
        ≡ map part_of parts.old.items ++ where_parts (tables_of scope.now) condition.now) }
{
    if let Some(expression) = condition {
        parts.push(Part {
            expression,
            scope: *scope,
            expected: Some(ColumnType::Boolean),
        })?;
    }
    Ok(())
}

/// The bound parts: that of WHERE is the last, if there is one.
fn split(bound: Items<Typed>, condition: &Option<Expr>) -> BoundChanges
    requires { length (option_to_list condition.now) ≤ length bound }
    ensures whole { result.values ++ option_to_list result.condition ≡ bound }
    ensures condition { is_some result.condition ≡ is_some condition.now }
{
    let mut values = bound.into_vec();
    let condition = match condition {
        Some(_) => values.pop(),
        None => None,
    };
    BoundChanges {
        values: Items::from_vec(values),
        condition,
    }
}
