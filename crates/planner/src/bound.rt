//! The binder of SELECT: names, and then types, of all its expressions (SQL:2016 Foundation, 7.16).

ghost use Rattle.std.specs.Prelude.{◌≡◌, ◌+◌, length, map, take, drop, IfOk};
ghost use Rattle.sql_ast.specs.Scope.{tables_of};
ghost use Rattle.abstract_database.specs.Queries.{bound_query, is_descending, keys_of, limit_of};
ghost use Rattle.gathering.specs.Queries.{terms, list_of, key_of, bound_of};
ghost use Rattle.planner.specs.Bound.{HasWidths, IsListOf, key_values, Begins, AnswersQuery};
ghost use Rattle.planner.specs.Parts.{list_length, conditions_length, list_with, keys_with, query_with};

use crate::parts::{count_expressions, select_parts, sort_keys};
use expressions::parts::bind;
use expressions::types::Typed;
use gathering::query::{OutputList, Query, RowList, TypedSortKey};
use sql_ast::scope::Scope;
use sql_ast::statement::{SelectList, SortDirection, SortKey as WrittenKey, TableExpression};
use sql_types::items::Items;
use sql_types::state::Refusal;
use std::alloc::{AllocError, Global};

/// The query of a SELECT over tables that were found.
///
/// `UndefinedColumn` and `AmbiguousColumn` come for the first column of the text that is not found
/// once, and where there is none, `DatatypeMismatch` for the first expression of the text that has
/// no type, or for the first condition that is no boolean.
pub fn bind_query(
    alloc: Global,
    scope: &Scope<'_>,
    list: &SelectList,
    source: &Option<TableExpression>,
) -> Result<Query, Refusal>
    ensures { AnswersQuery (tables_of scope.now) result
        (bound_query (tables_of scope.now) list.now source.now) }
{
    let parts = select_parts(alloc, scope, list, source)?;
    let bound = bind(alloc, parts.as_slice())?;
    Ok(split(alloc, scope, bound, list, source)?)
}

/// The query of the bound parts: the first are those of the list, the last those of ORDER BY.
fn split(
    alloc: Global,
    scope: &Scope<'_>,
    bound: Items<Typed>,
    list: &SelectList,
    source: &Option<TableExpression>,
) -> Result<Query, AllocError>
    requires { length bound
        ≡ list_length list.now + (conditions_length source.now + length (keys_of source.now)) }
    ensures query { IfOk result (λ q. bound_of q ≡ query_with list.now source.now (terms bound)) }
    ensures widths { IfOk result (λ q. HasWidths (tables_of scope.now) q.list) }
    ensures list { IfOk result (λ q. IsListOf q.list (take (list_length list.now) bound)) }
    ensures keys { IfOk result (λ q. Begins (key_values q.keys)
        (drop (conditions_length source.now) (drop (list_length list.now) bound))) }
{
    let mut values = bound.into_vec();
    let mut conditions = values.split_off(count_expressions(list))?;
    let keys = sort_keys(source);
    let count = conditions.len() - keys.len();
    let key_values = conditions.split_off(count)?;
    query_of(alloc, scope, list, source, values, conditions, key_values)
}

/// The query of the values of the list, of the conditions, and of the values of the sort keys.
fn query_of(
    alloc: Global,
    scope: &Scope<'_>,
    list: &SelectList,
    source: &Option<TableExpression>,
    values: Vec<Typed>,
    conditions: Vec<Typed>,
    sorts: Vec<Typed>,
) -> Result<Query, AllocError>
    ensures query { IfOk result (λ q. bound_of q ≡ record {
      list = list_with list.now (terms values.items);
      conditions = terms conditions.items;
      keys = keys_with (keys_of source.now) (terms sorts.items);
      limit = limit_of source.now;
    }) }
    ensures widths { IfOk result (λ q. HasWidths (tables_of scope.now) q.list) }
    ensures list { IfOk result (λ q. IsListOf q.list values.items) }
    ensures keys { IfOk result (λ q. Begins (key_values q.keys) sorts.items) }
{
    Ok(Query {
        list: output_list(alloc, scope, list, Items::from_vec(values))?,
        conditions: Items::from_vec(conditions),
        keys: sorted_by(alloc, sort_keys(source), sorts)?,
        limit: limit(source),
    })
}

/// What is answered of a combination of rows: `values` are the expressions of the list.
fn output_list(
    alloc: Global,
    scope: &Scope<'_>,
    list: &SelectList,
    values: Items<Typed>,
) -> Result<OutputList, AllocError>
    ensures list { IfOk result (λ l. list_of l ≡ list_with list.now (terms values)) }
    ensures values { IfOk result (λ l. IsListOf l values) }
    ensures widths { IfOk result (HasWidths (tables_of scope.now)) }
{
    match list {
        SelectList::Asterisk => Ok(OutputList::Rows(RowList::Columns(widths(alloc, scope)?))),
        SelectList::Expressions(_) => Ok(OutputList::Rows(RowList::Values(values))),
        SelectList::Count => Ok(OutputList::Count),
    }
}

/// How many columns each table has.
fn widths(alloc: Global, scope: &Scope<'_>) -> Result<Items<usize>, AllocError>
    ensures { IfOk result (λ widths. widths ≡ map (λ t. length t.columns) (tables_of scope.now)) }
{
    let mut widths = Items::new(alloc);
    for table in scope.tables {
        widths.push(table.columns.len())?;
    }
    Ok(widths)
}

/// The sort keys, each with its bound value.
fn sorted_by(
    alloc: Global,
    keys: &[WrittenKey],
    values: Vec<Typed>,
) -> Result<Items<TypedSortKey>, AllocError>
    ensures keys { IfOk result (λ sorted.
        map key_of sorted ≡ keys_with keys.now (terms values.items)) }
    ensures values { IfOk result (λ sorted. Begins (key_values sorted) values.items) }
{
    let mut sorted = Items::new(alloc);
    for (key, value) in keys.iter().zip(values) {
        let descending = is_descending(key.direction);
        sorted.push(TypedSortKey { value, descending })?;
    }
    Ok(sorted)
}

fn is_descending(direction: Option<SortDirection>) -> bool
    ensures { result ≡ is_descending direction }
{
    match direction {
        Some(SortDirection::Descending) => true,
        Some(SortDirection::Ascending) | None => false,
    }
}

fn limit(source: &Option<TableExpression>) -> Option<u64>
    ensures { result ≡ limit_of source.now }
{
    match source {
        None => None,
        Some(source) => source.limit,
    }
}
