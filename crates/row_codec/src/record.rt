//! The record of a row whose texts are lent: whether it keeps to the limits, and its bytes.
ghost use Rattle.std.specs.Prelude.{◌≡◌, ◌++◌, ◌+◌, ◌<◌, ◌≤◌, ◌^◌, ◌↔◌, IsTrue, OnOk, length, map, min, nat_eq, []};
ghost use Rattle.std.specs.List.{list_any};
ghost use Rattle.sql_types.specs.Value.{owned};
ghost use Rattle.sql_ast.specs.Rows.{key_cell_size, value_cell_size, key_size, size_in_record, record_size_from, record_size, fits_record, KeepsLimits};
ghost use Rattle.row_codec.specs.Rows.{row_key, row_value, value_bytes};

use crate::cell::{push_key_cell, push_value_cell};
use crate::lent::LentRow;
use sql_ast::columns::Columns;
use sql_types::row::RowView;
use sql_types::value::ValueRef;
use std::alloc::AllocError;
use storage_sizes::{MAX_ROW_KEY_LENGTH, MAX_VALUE_LENGTH};

/// Whether a row keeps to the limits: its key to [`MAX_ROW_KEY_LENGTH`] bytes, its other columns to [`MAX_VALUE_LENGTH`].
pub fn fits_record(columns: &Columns, row: &LentRow<'_>) -> bool
    ensures value { result ≡ fits_record columns.now row.now }
    ensures limits { IsTrue result ↔ KeepsLimits columns.now row.now }
{
    size_of_key(columns.key(), row) <= MAX_ROW_KEY_LENGTH
        && record_size(columns, row) <= MAX_VALUE_LENGTH
}

/// How many bytes the columns of a row take that are no key columns, or the greatest number where that is less.
pub fn record_size(columns: &Columns, row: &LentRow<'_>) -> usize
    ensures { result ≡ min (record_size columns.now.key row.now) usize.MAX }
{
    size_of_others(columns.key(), 0, row.as_slice())
}

/// How many bytes the cells of a row take in its record, or the greatest number where that is less.
pub fn size_of_cells(columns: &Columns, row: &LentRow<'_>) -> usize
    ensures { result
        ≡ min (key_size columns.now.key row.now + record_size columns.now.key row.now) usize.MAX }
{
    let key = size_of_key(columns.key(), row);
    key.saturating_add(record_size(columns, row))
}

/// Appends the key of a row: the cells of its key columns, in their order in the key.
pub fn push_row_key(
    columns: &Columns,
    row: &LentRow<'_>,
    out: &mut Vec<u8>,
) -> Result<(), AllocError>
    ensures { OnOk result (out.new.items ≡ out.old.items ++ row_key columns.now row.now) }
{
    for index in columns.key() {
        push_key_cell(out, row.value(0, *index))?;
    }
    Ok(())
}

/// Appends the value of a row's record: the cells of the columns that are no key columns.
pub fn push_row_value(
    columns: &Columns,
    row: &LentRow<'_>,
    out: &mut Vec<u8>,
) -> Result<(), AllocError>
    requires { record_size columns.now.key row.now ≤ MAX_VALUE_LENGTH }
    ensures { OnOk result (out.new.items ≡ out.old.items ++ row_value columns.now row.now) }
{
    push_others(columns.key(), row, row.as_slice().len(), out)
}

/// Writes the value of a row's record in place of what a buffer holds.
#[tactic(auto, using(crate::proofs::Lengths::value_size))]
pub fn write_row_value(
    columns: &Columns,
    row: &LentRow<'_>,
    out: &mut Vec<u8>,
) -> Result<(), AllocError>
    requires { KeepsLimits columns.now row.now }
    ensures value { OnOk result (out.new.items ≡ row_value columns.now row.now) }
    ensures size { OnOk result (length out.new.items ≤ MAX_VALUE_LENGTH) }
{
    out.clear();
    push_row_value(columns, row, out)
}

// Appends the cells of the columns that are no key columns.
fn push_others(
    key: &[usize],
    row: &LentRow<'_>,
    width: usize,
    out: &mut Vec<u8>,
) -> Result<(), AllocError>
    requires small { record_size key.now row.now ≤ MAX_VALUE_LENGTH }
    requires wide { width ≡ length row.now }
    ensures { OnOk result (out.new.items ≡ out.old.items ++ value_bytes key.now 0 row.now) }
{
    for index in 0..width {
        if !is_in_key(key, index) {
            push_value_cell(out, row.value(0, index))?;
        }
    }
    Ok(())
}

// Whether a column is one of the key's.
pub(crate) fn is_in_key(key: &[usize], index: usize) -> bool
    ensures { result ≡ list_any (nat_eq index) key.now }
{
    key.contains(&index)
}

// How many bytes a value takes in a key, or the greatest number where that is less.
fn key_cell_size(value: ValueRef<'_>) -> usize
    ensures { result ≡ min (key_cell_size (owned value.entry)) usize.MAX }
{
    match value {
        ValueRef::Null => 0,
        ValueRef::Int(_) => 8,
        ValueRef::Text(text) => text.len().saturating_add(1),
        ValueRef::Bool(_) => 1,
    }
}

// How many bytes a value takes after a key, or the greatest number where that is less.
fn value_cell_size(value: ValueRef<'_>) -> usize
    ensures { result ≡ min (value_cell_size (owned value.entry)) usize.MAX }
{
    match value {
        ValueRef::Null | ValueRef::Bool(_) => 1,
        ValueRef::Int(_) => 9,
        ValueRef::Text(text) => text.len().saturating_add(3),
    }
}

fn size_of_key(key: &[usize], row: &LentRow<'_>) -> usize
    ensures { result ≡ min (key_size key.now row.now) usize.MAX }
{
    match key.split_first() {
        None => 0,
        Some((index, rest)) => {
            let size = key_cell_size(row.value(0, *index));
            size.saturating_add(size_of_key(rest, row))
        }
    }
}

// The size of the columns that are no key columns, the first of which has this index.
fn size_of_others(key: &[usize], index: usize, row: &[ValueRef<'_>]) -> usize
    requires { index + length row.now < 2 ^ 64 }
    ensures { result ≡ min (record_size_from key.now index (map owned row.now)) usize.MAX }
{
    match row.split_first() {
        None => 0,
        Some((value, rest)) => {
            let size = size_in_record(key, index, *value);
            size.saturating_add(size_of_others(key, index + 1, rest))
        }
    }
}

// How many bytes a column takes in a record: none where it is one of the key.
fn size_in_record(key: &[usize], index: usize, value: ValueRef<'_>) -> usize
    ensures { result ≡ min (size_in_record key.now index (owned value.entry)) usize.MAX }
{
    if is_in_key(key, index) {
        0
    } else {
        value_cell_size(value)
    }
}
