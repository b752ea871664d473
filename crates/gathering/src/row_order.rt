//! Rows in the order of their sort keys.
ghost use Rattle.std.specs.Prelude.{◌≡◌, false, true, IfOk};
ghost use Rattle.abstract_database.specs.Queries.{sorted};
ghost use Rattle.gathering.specs.Entries.{row_cmp};
ghost use Rattle.gathering.specs.RowOrder.{are_numbered, has_number, is_directed_number, is_number, key_number};
ghost use Rattle.gathering.specs.SortValues.{number_in};

use crate::keyed_row::KeyedRow;
use crate::sort_value::{Directed, SortValue};
use sql_types::value::Value;
use std::alloc::AllocError;
use std::cmp::Reverse;

/// The rows in the order of their keys, of which those with the same keys stay in their order.
///
/// Where each row has one key, and each key is a number, the numbers are sorted, and each row is moved once.
pub(crate) fn in_order_of_keys(rows: Vec<KeyedRow>) -> Result<Vec<KeyedRow>, AllocError>
    ensures { IfOk result (λ ordered. ordered.items ≡ sorted row_cmp rows.items) }
{
    if are_numbered(rows.as_slice(), false) {
        return in_order_of_numbers(rows);
    }
    if are_numbered(rows.as_slice(), true) {
        return in_falling_order(rows);
    }
    let mut rows = rows;
    rows.sort()?;
    Ok(rows)
}

// The rows in the order of their numbers.
fn in_order_of_numbers(rows: Vec<KeyedRow>) -> Result<Vec<KeyedRow>, AllocError>
    requires { are_numbered false rows.items ≡ true }
    ensures { IfOk result (λ ordered. ordered.items ≡ sorted row_cmp rows.items) }
{
    let mut rows = rows;
    rows.sort_by_cached_key(|row| key_number(row))?;
    Ok(rows)
}

// The rows in the order of their numbers, from the greatest on.
fn in_falling_order(rows: Vec<KeyedRow>) -> Result<Vec<KeyedRow>, AllocError>
    requires { are_numbered true rows.items ≡ true }
    ensures { IfOk result (λ ordered. ordered.items ≡ sorted row_cmp rows.items) }
{
    let mut rows = rows;
    rows.sort_by_cached_key(|row| Reverse(key_number(row)))?;
    Ok(rows)
}

// Whether each row has one key, which is a number in this direction.
fn are_numbered(rows: &[KeyedRow], descending: bool) -> bool
    ensures { result ≡ are_numbered descending rows.now }
{
    for row in rows {
        if !has_number(row, descending) {
            return false;
        }
    }
    true
}

// Whether a row has one key, which is a number in this direction.
fn has_number(row: &KeyedRow, descending: bool) -> bool
    ensures { result ≡ has_number descending row.now }
{
    row.others.is_empty() && is_directed_number(&row.first, descending)
}

// Whether a key is a number in this direction.
fn is_directed_number(key: &Directed, descending: bool) -> bool
    ensures { result ≡ is_directed_number descending key.now }
{
    match key {
        Directed::Ascending(value) => !descending && is_number(value),
        Directed::Descending(value) => descending && is_number(&value.0),
    }
}

// Whether a value is a number.
fn is_number(value: &SortValue) -> bool
    ensures { result ≡ is_number value.now }
{
    matches!(value.0, Value::Int(_))
}

// The number of a row's first key, 0 where it is none.
fn key_number(row: &KeyedRow) -> i64
    ensures { result ≡ key_number row.now }
{
    match &row.first {
        Directed::Ascending(value) => number_in(value),
        Directed::Descending(value) => number_in(&value.0),
    }
}

// The number in a value, 0 where there is none.
fn number_in(value: &SortValue) -> i64
    ensures { result ≡ number_in value.now.0 }
{
    match value.0 {
        Value::Int(number) => number,
        _ => 0,
    }
}
