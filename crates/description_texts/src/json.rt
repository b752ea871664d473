//! Sections as JSON.

use crate::section::{Cell, Section};
use serde_json::{Map, Value};
use sql_types::name::Name;
use std::alloc::{AllocError, Global};

/// The sections as one JSON object: under the name of each a list of its rows, and a row is an object with a member for each
/// column. PUBLIC is null, and so is what is not there.
pub fn render_json(alloc: Global, sections: &[Section<'_>]) -> Result<String, AllocError> {
    let mut members = Map::new(alloc);
    for section in sections {
        insert_rows(alloc, &mut members, section)?;
    }
    let mut text = Value::Object(members).to_string_pretty(alloc)?;
    text.push('\n')?;
    Ok(text)
}

fn insert_rows(
    alloc: Global,
    members: &mut Map<String, Value>,
    section: &Section<'_>,
) -> Result<(), AllocError> {
    let name = String::from_str(alloc, section.name)?;
    drop(members.insert(name, rows_value(alloc, section)?)?);
    Ok(())
}

fn rows_value(alloc: Global, section: &Section<'_>) -> Result<Value, AllocError> {
    let mut rows = Vec::new(alloc);
    for row in section.rows.as_slice() {
        rows.push(row_value(alloc, section.columns, row.as_slice())?)?;
    }
    Ok(Value::Array(rows))
}

fn row_value(alloc: Global, columns: &[&str], row: &[Cell<'_>]) -> Result<Value, AllocError> {
    let mut members = Map::new(alloc);
    for (column, cell) in columns.iter().zip(row.iter()) {
        insert_cell(alloc, &mut members, column, cell)?;
    }
    Ok(Value::Object(members))
}

fn insert_cell(
    alloc: Global,
    members: &mut Map<String, Value>,
    column: &str,
    cell: &Cell<'_>,
) -> Result<(), AllocError> {
    let name = String::from_str(alloc, column)?;
    drop(members.insert(name, cell_value(alloc, cell)?)?);
    Ok(())
}

fn cell_value(alloc: Global, cell: &Cell<'_>) -> Result<Value, AllocError> {
    match cell {
        Cell::Text(text) => Value::try_from_str(alloc, text),
        Cell::Flag(flag) => Ok(Value::Bool(*flag)),
        Cell::Number(number) => Ok(Value::from(*number as u64)),
        Cell::Names(names) => names_value(alloc, names),
        Cell::Public | Cell::Absent => Ok(Value::Null),
    }
}

fn names_value(alloc: Global, names: &[Name]) -> Result<Value, AllocError> {
    let mut list = Vec::new(alloc);
    for name in names {
        list.push(Value::try_from_str(alloc, name.as_str())?)?;
    }
    Ok(Value::Array(list))
}
