//! In which order the rows of a target are found: by its key, of which the first columns may be the
//! same in all of them.
ghost use Rattle.std.specs.Prelude.{IfSome};
ghost use Rattle.sql_ast.specs.Layout.{IsLayout};
ghost use Rattle.executor.specs.FoundOrder.{BeginAlike, ComparesAs, HaveOnePrefix, IsInside, IsOrderOf};

use gathering::key_order::are_first_of;
use gathering::query::TypedSortKey;
use key_ranges::KeyRange;
use row_codec::key_cell_at;
use sql_ast::columns::{ColumnType, Columns};
use sql_types::value::{ValueRef, compare};
use std::cmp::Ordering;
use table_rows::Target;

/// Columns in whose order the rows of a target are found, and of which these sort keys are the first if
/// there are such: all columns of the key, or those behind the first ones that are the same in each
/// row of the target's range, or of the one span around its spans.
pub(crate) fn order_of_rows<'a>(table: &Target<'a>, keys: &[TypedSortKey]) -> &'a [usize]
    ensures order { IsOrderOf table.now result.now }
    ensures layout { IsLayout table.now.columns.now }
{
    match table.range {
        Some(KeyRange::Span { start, stop }) => {
            order_inside(table, start.as_slice(), stop.as_slice(), keys)
        }
        Some(KeyRange::Several(spans)) => order_inside(table, spans.start(), spans.stop(), keys),
        _ => table.columns.key(),
    }
}

// The same of a target whose rows have keys that go on between `start` and `stop`.
fn order_inside<'a>(
    table: &Target<'a>,
    start: &[u8],
    stop: &[u8],
    keys: &[TypedSortKey],
) -> &'a [usize]
    requires { IsInside table.now start.now stop.now }
    ensures order { IsOrderOf table.now result.now }
    ensures layout { IsLayout table.now.columns.now }
{
    let key = table.columns.key();
    match behind_prefix(start, stop) {
        Some((start, stop)) => order_between(table.columns, key, start, stop, keys),
        None => key,
    }
}

/// What follows in both of these behind the prefix of the keys of a table, where they have the same
/// one.
pub(crate) fn behind_prefix<'a>(start: &'a [u8], stop: &'a [u8]) -> Option<(&'a [u8], &'a [u8])>
    ensures { IfSome result (λ r. HaveOnePrefix start.now stop.now r.0.now r.1.now) }
{
    if start.len() < 5 || stop.len() < 5 {
        return None;
    }
    let (first, start) = start.split_at(5);
    let (second, stop) = stop.split_at(5);
    if first != second {
        return None;
    }
    Some((start, stop))
}

// The same of rows whose columns of the key, from these on, go on between `start` and `stop`: of
// these columns those behind the first ones with which both begin.
fn order_between<'a>(
    columns: &Columns,
    key: &'a [usize],
    start: &[u8],
    stop: &[u8],
    keys: &[TypedSortKey],
) -> &'a [usize]
    ensures { ComparesAs columns.now start.now stop.now key.now result.now }
{
    if are_first_of(key, keys) {
        return key;
    }
    match key.split_first() {
        None => key,
        Some((first, others)) => match columns.get(*first) {
            None => key,
            Some(column) => match shared_cell(column.column_type, start, stop) {
                None => key,
                Some(cell) => order_between(columns, others, cell.start, cell.stop, keys),
            },
        },
    }
}

/// A cell of a key with which two others go on, and what follows it in both.
#[derive(Clone, Copy)]
pub(crate) struct SharedCell<'a> {
    pub value: ValueRef<'a>,
    pub start: &'a [u8],
    pub stop: &'a [u8],
}

/// The cell of a value of this type with which both of these begin, or `None` where they begin with no
/// such cell, or with two that differ.
pub(crate) fn shared_cell<'a>(
    kind: ColumnType,
    start: &'a [u8],
    stop: &'a [u8],
) -> Option<SharedCell<'a>>
    ensures { IfSome result (BeginAlike kind start.now stop.now) }
{
    let (value, start) = key_cell_at(kind, start)?;
    let (other, stop) = key_cell_at(kind, stop)?;
    match compare(value, other)? {
        Ordering::Equal => Some(SharedCell { value, start, stop }),
        _ => None,
    }
}
