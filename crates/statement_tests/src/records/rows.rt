//! Rows in words, each with the bytes that it is written as.

use crate::told::Told;
use crate::values::put_value;
use catalogue::table::TableDefinition;
use row_codec::{
    LentRow, RowRef, push_row_key, push_row_prefix, push_row_value, record_size, view,
};
use sql_ast::columns::Columns;
use sql_types::row::RowView;
use sql_types::value::Value;
use std::alloc::{AllocError, Global};
use store::{Cursor, Fault, MAX_VALUE_LENGTH, MemStore};

/// How many bytes of a row's key are not its own: those of its kind and of the number of its table.
const PREFIX_LENGTH: usize = 5;

/// Tells the rows of a table in a store.
pub fn put_rows(
    alloc: Global,
    out: &mut Told,
    table: &TableDefinition,
    store: &mut MemStore,
) -> Result<(), Fault> {
    let mut cursor = cursor_over(alloc, table)?;
    for _ in 0..u64::MAX {
        if !cursor.advance(store)? {
            return Ok(());
        }
        let record = cursor.entry();
        let key = record.key().get(PREFIX_LENGTH..).unwrap_or(&[]);
        put_row(alloc, out, table, key, record.value())?;
    }
    Ok(())
}

/// A cursor before the records of the rows of a table.
fn cursor_over(alloc: Global, table: &TableDefinition) -> Result<Cursor, AllocError> {
    let mut prefix = Vec::new(alloc);
    push_row_prefix(&mut prefix, table.id())?;
    Cursor::over(alloc, prefix.as_slice())
}

/// Tells the row of a table that a key without the number of the table and a value spell, or that they spell none.
pub fn put_row(
    alloc: Global,
    out: &mut Told,
    table: &TableDefinition,
    key: &[u8],
    value: &[u8],
) -> Result<(), AllocError> {
    let Some(row) = view(table.columns(), key, value) else {
        out.put("no row\n");
        return Ok(());
    };
    let values = values_of(alloc, &row, table.columns().len())?;
    put_values(out, table, values.as_slice());
    let lent = LentRow::of(alloc, values.as_slice())?;
    put_key(alloc, out, table, &lent)?;
    put_others(alloc, out, table.columns(), &lent)
}

/// The values of a row of so many columns.
fn values_of(alloc: Global, row: &RowRef<'_>, width: usize) -> Result<Vec<Value>, AllocError> {
    let mut values = Vec::new(alloc);
    for column in 0..width {
        values.push(row.value(0, column).to_value(alloc)?)?;
    }
    Ok(values)
}

/// Tells the row of a table that has these values.
fn put_values(out: &mut Told, table: &TableDefinition, values: &[Value]) {
    out.put_name("row of ", table.name());
    out.put(":");
    for value in values {
        out.put(" ");
        put_value(out, value.as_ref());
    }
}

/// Tells the key of the record of a row.
fn put_key(
    alloc: Global,
    out: &mut Told,
    table: &TableDefinition,
    row: &LentRow<'_>,
) -> Result<(), AllocError> {
    let mut key = Vec::new(alloc);
    push_row_prefix(&mut key, table.id())?;
    push_row_key(table.columns(), row, &mut key)?;
    out.put(" as ");
    out.put_bytes(key.as_slice());
    Ok(())
}

/// Tells the value of the record of a row, and ends its line.
fn put_others(
    alloc: Global,
    out: &mut Told,
    columns: &Columns,
    row: &LentRow<'_>,
) -> Result<(), AllocError> {
    if record_size(columns, row) > MAX_VALUE_LENGTH {
        out.put("/too long\n");
        return Ok(());
    }
    let mut others = Vec::new(alloc);
    push_row_value(columns, row, &mut others)?;
    out.put("/");
    out.put_bytes(others.as_slice());
    out.put("\n");
    Ok(())
}
