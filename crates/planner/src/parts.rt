//! The expressions of a SELECT in the order of the text: its list, ON, WHERE, ORDER BY
//! (SQL:2016 Foundation, 7.16).

ghost use Rattle.std.specs.Prelude.{◌≡◌, ◌++◌, ℕ, map, take, IfOk, OnOk, length};
ghost use Rattle.sql_ast.specs.Scope.{tables_of};
ghost use Rattle.expressions.specs.Parts.{part_of};
ghost use Rattle.abstract_database.specs.Queries.{select_parts, expressions_of, references_of, conditions_in, conditions_of, condition_on, join_conditions, keys_of};
ghost use Rattle.planner.specs.Parts.{value_part, condition_part, key_part};

use expressions::parts::Part;
use sql_ast::columns::ColumnType;
use sql_ast::expr::Expr;
use sql_ast::scope::Scope;
use sql_ast::statement::{FromClause, Join, SelectList, SortKey, TableExpression};
use sql_types::items::Items;
use std::alloc::{AllocError, Global};

/// The parts of a SELECT over the tables of a scope, in the order of the text.
pub(crate) fn select_parts<'e, 's>(
    alloc: Global,
    scope: &Scope<'s>,
    list: &'e SelectList,
    source: &'e Option<TableExpression>,
) -> Result<Vec<Part<'e, 's>>, AllocError>
    ensures { IfOk result (λ parts. map part_of parts.items
        ≡ select_parts (tables_of scope.now) list.now source.now) }
{
    let mut parts = Vec::new(alloc);
    add_list(&mut parts, scope, list)?;
    add_conditions(&mut parts, scope, source)?;
    add_order(&mut parts, scope, source)?;
    Ok(parts)
}

/// Adds the expressions of a list.
fn add_list<'e, 's>(
    parts: &mut Vec<Part<'e, 's>>,
    scope: &Scope<'s>,
    list: &'e SelectList,
) -> Result<(), AllocError>
    ensures { OnOk result (map part_of parts.new.items
        ≡ map part_of parts.old.items
        ++ map (value_part (tables_of scope.now)) (expressions_of list.now)) }
{
    match list {
        SelectList::Expressions(expressions) => add_values(parts, scope, expressions.as_slice()),
        SelectList::Asterisk | SelectList::Count => Ok(()),
    }
}

fn add_values<'e, 's>(
    parts: &mut Vec<Part<'e, 's>>,
    scope: &Scope<'s>,
    expressions: &'e [Expr],
) -> Result<(), AllocError>
    ensures { OnOk result (map part_of parts.new.items
        ≡ map part_of parts.old.items ++ map (value_part (tables_of scope.now)) expressions.now) }
{
    for expression in expressions {
        parts.push(Part {
            expression,
            scope: *scope,
            expected: None,
        })?;
    }
    Ok(())
}

/// Adds the conditions after ON, each over the tables up to its own, and that of WHERE over all.
fn add_conditions<'e, 's>(
    parts: &mut Vec<Part<'e, 's>>,
    scope: &Scope<'s>,
    source: &'e Option<TableExpression>,
) -> Result<(), AllocError>
    ensures { OnOk result (map part_of parts.new.items
        ≡ map part_of parts.old.items
        ++ map (condition_part (tables_of scope.now)) (conditions_of source.now)) }
{
    match source {
        None => Ok(()),
        Some(source) => {
            add_join_conditions(parts, scope, &source.tables)?;
            let tables = count_tables(&source.tables);
            add_condition(parts, scope, tables, &source.condition)
        }
    }
}

/// How many tables FROM names.
fn count_tables(tables: &FromClause) -> usize
    ensures { result ≡ length (references_of tables.now) }
{
    match tables {
        FromClause::List(references) => references.len(),
        FromClause::Joined(_, joins) => joins.as_slice().len() + 1,
    }
}

fn add_join_conditions<'e, 's>(
    parts: &mut Vec<Part<'e, 's>>,
    scope: &Scope<'s>,
    tables: &'e FromClause,
) -> Result<(), AllocError>
    ensures { OnOk result (map part_of parts.new.items
        ≡ map part_of parts.old.items
        ++ map (condition_part (tables_of scope.now)) (conditions_in tables.now)) }
{
    match tables {
        FromClause::List(_) => Ok(()),
        FromClause::Joined(_, joins) => add_joins(parts, scope, joins.as_slice()),
    }
}

/// Adds the condition of each join: that of the first may name two tables.
fn add_joins<'e, 's>(
    parts: &mut Vec<Part<'e, 's>>,
    scope: &Scope<'s>,
    joins: &'e [Join],
) -> Result<(), AllocError>
    ensures { OnOk result (map part_of parts.new.items
        ≡ map part_of parts.old.items
        ++ map (condition_part (tables_of scope.now)) (join_conditions 2 joins.now)) }
{
    for (index, join) in joins.iter().enumerate() {
        add_condition(parts, scope, index + 2, &join.condition)?;
    }
    Ok(())
}

/// Adds a condition, if there is one, which may name the columns of so many tables from the left.
fn add_condition<'e, 's>(
    parts: &mut Vec<Part<'e, 's>>,
    scope: &Scope<'s>,
    tables: usize,
    condition: &'e Option<Expr>,
) -> Result<(), AllocError>
    ensures { OnOk result (map part_of parts.new.items
        ≡ map part_of parts.old.items
        ++ map (condition_part (tables_of scope.now)) (condition_on tables condition.now)) }
{
    if let Some(expression) = condition {
        parts.push(Part {
            expression,
            scope: first_tables(scope, tables),
            expected: Some(ColumnType::Boolean),
        })?;
    }
    Ok(())
}

/// The first so many tables of a scope, or all where there are fewer.
fn first_tables<'s>(scope: &Scope<'s>, count: usize) -> Scope<'s>
    ensures { tables_of result ≡ take count (tables_of scope.now) }
{
    match scope.tables.get(..count) {
        Some(tables) => Scope { tables },
        None => *scope,
    }
}

/// Adds the sort keys.
fn add_order<'e, 's>(
    parts: &mut Vec<Part<'e, 's>>,
    scope: &Scope<'s>,
    source: &'e Option<TableExpression>,
) -> Result<(), AllocError>
    ensures { OnOk result (map part_of parts.new.items
        ≡ map part_of parts.old.items
        ++ map (key_part (tables_of scope.now)) (keys_of source.now)) }
{
    add_keys(parts, scope, sort_keys(source))
}

fn add_keys<'e, 's>(
    parts: &mut Vec<Part<'e, 's>>,
    scope: &Scope<'s>,
    keys: &'e [SortKey],
) -> Result<(), AllocError>
    ensures { OnOk result (map part_of parts.new.items
        ≡ map part_of parts.old.items ++ map (key_part (tables_of scope.now)) keys.now) }
{
    for key in keys {
        parts.push(Part {
            expression: &key.value,
            scope: *scope,
            expected: None,
        })?;
    }
    Ok(())
}

/// The sort keys after ORDER BY, if there are some.
pub(crate) fn sort_keys(source: &Option<TableExpression>) -> &[SortKey]
    ensures { result.now ≡ keys_of source.now }
{
    match source {
        None => &[],
        Some(source) => match &source.order {
            None => &[],
            Some(keys) => keys.as_slice(),
        },
    }
}

/// How many expressions a list has.
pub(crate) fn count_expressions(list: &SelectList) -> usize
    ensures { result ≡ length (expressions_of list.now) }
{
    match list {
        SelectList::Expressions(expressions) => expressions.len(),
        SelectList::Asterisk | SelectList::Count => 0,
    }
}
