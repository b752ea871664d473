//! The rows of an answer, as messages.

ghost use Rattle.std.specs.Prelude.{◌≡◌, ◌∷◌, ◌++◌, [], IfOk, OnOk, map, Some, None};
ghost use Rattle.postgres_messages.specs.BackendViews.{viewed_column};
ghost use Rattle.postgres_messages.specs.Views.{viewed_value};
ghost use Rattle.postgres_talks.specs.Moments.{columns_in};
ghost use Rattle.postgres_talks.specs.Rows.{are_rows_of, are_same_columns, columns_said, data_type_of, described_column, described_columns, is_row_of, is_same_column, is_same_type, is_value_of, limited_said, row_said, rows_said, select_tag, value_binary, value_in, value_text, values_in};
ghost use Rattle.postgres_messages.specs.Backend.{portal_suspended};
ghost use Rattle.postgres_talks.specs.Sayings.{Puts, complete_said, message};

use crate::formats::{next_format, other_formats};
use crate::said::Said;
use crate::tags::select_tag;
use itoa::Buffer;
use postgres_messages::backend::{BackendMessage, DataType, DescribedColumn, ValueFormat};
use postgres_messages::frontend::FieldBytes;
use sql_ast::columns::ColumnType;
use sql_ast::description::{ResultColumn, StatementDescription};
use sql_types::items::Items;
use sql_types::try_copy::TryCopy;
use sql_types::value::Value;
use std::alloc::{AllocError, Global};

// Says each row in these formats, and how many there are.
pub(crate) fn say_rows(
    alloc: Global,
    formats: &[ValueFormat],
    rows: &[Items<Value>],
    said: &mut Said,
) -> Result<(), AllocError>
    ensures { OnOk result (Puts (rows_said formats.now rows.now) said.old said.new) }
{
    say_each_row(alloc, formats, rows, said)?;
    say_count(alloc, rows.len(), said)?;
    Ok(())
}

// Says the rows, up to as many as are asked for at most.
pub(crate) fn say_limited(
    alloc: Global,
    formats: &[ValueFormat],
    most: u32,
    rows: &[Items<Value>],
    said: &mut Said,
) -> Result<(), AllocError>
    ensures { OnOk result (Puts (limited_said most formats.now rows.now) said.old said.new) }
{
    let most = most as usize;
    if most == 0 || rows.len() < most {
        say_rows(alloc, formats, rows, said)
    } else {
        say_first(alloc, formats, &rows[..most], said)
    }
}

// Says rows behind which there may be others.
fn say_first(
    alloc: Global,
    formats: &[ValueFormat],
    rows: &[Items<Value>],
    said: &mut Said,
) -> Result<(), AllocError>
    ensures { OnOk result (Puts (map (row_said formats.now) rows.now ++ message portal_suspended ∷ []) said.old said.new) }
{
    say_each_row(alloc, formats, rows, said)?;
    said.put(&BackendMessage::PortalSuspended)?;
    Ok(())
}

// Says the columns, whose values come in these formats.
pub(crate) fn say_columns(
    alloc: Global,
    formats: &[ValueFormat],
    columns: &[ResultColumn],
    said: &mut Said,
) -> Result<(), AllocError>
    ensures { OnOk result (Puts (columns_said formats.now columns.now ∷ []) said.old said.new) }
{
    let shown = described_columns(alloc, formats, columns)?;
    said.put(&BackendMessage::RowDescription(&shown))
}

fn described_columns<'a>(
    alloc: Global,
    mut formats: &[ValueFormat],
    mut columns: &'a [ResultColumn],
) -> Result<Vec<DescribedColumn<'a>>, AllocError>
    ensures { IfOk result (λ shown. map viewed_column shown.items ≡ described_columns formats.entry.now columns.entry.now) }
{
    let mut shown = Vec::new(alloc);
    while let [column, rest @ ..] = columns {
        shown.push(described_column(next_format(formats), column))?;
        formats = other_formats(formats);
        columns = rest;
    }
    Ok(shown)
}

fn described_column(format: ValueFormat, column: &ResultColumn) -> DescribedColumn<'_>
    ensures { viewed_column result ≡ described_column format column.now }
{
    DescribedColumn {
        name: column.name.as_str(),
        data_type: data_type_of(column.column_type),
        format,
    }
}

fn data_type_of(column_type: ColumnType) -> DataType
    ensures { result ≡ data_type_of column_type }
{
    match column_type {
        ColumnType::BigInt => DataType::Int8,
        ColumnType::Text => DataType::Text,
        ColumnType::Boolean => DataType::Bool,
    }
}

// Whether each of some rows is one of these columns.
pub(crate) fn are_rows_of(columns: &[ResultColumn], mut rows: &[Items<Value>]) -> bool
    ensures { result ≡ are_rows_of columns.now rows.entry.now }
{
    while let [row, rest @ ..] = rows {
        if !is_row_of(columns, row.as_slice()) {
            return false;
        }
        rows = rest;
    }
    true
}

// Whether a row has as many values as there are columns, each null or of its column's type.
fn is_row_of(mut columns: &[ResultColumn], mut row: &[Value]) -> bool
    ensures { result ≡ is_row_of columns.entry.now row.entry.now }
{
    while let [column, other_columns @ ..] = columns {
        let [value, other_values @ ..] = row else {
            return false;
        };
        if !is_value_of(column.column_type, value) {
            return false;
        }
        columns = other_columns;
        row = other_values;
    }
    row.is_empty()
}

fn is_value_of(column_type: ColumnType, value: &Value) -> bool
    ensures { result ≡ is_value_of column_type value.now }
{
    match (column_type, value) {
        (_, Value::Null) => true,
        (ColumnType::BigInt, Value::Int(_)) => true,
        (ColumnType::Text, Value::Text(_)) => true,
        (ColumnType::Boolean, Value::Bool(_)) => true,
        (_, _) => false,
    }
}

// The columns that a description tells, if it tells some.
pub(crate) fn columns_in(
    alloc: Global,
    description: &StatementDescription,
) -> Result<Option<Items<ResultColumn>>, AllocError>
    ensures { IfOk result (λ columns. columns ≡ columns_in description.now) }
{
    match description {
        StatementDescription::Rows(columns) => {
            Ok(Some(copied_columns(alloc, columns.as_slice())?))
        }
        _ => Ok(None),
    }
}

// A copy of columns, if there are some.
pub(crate) fn copied(
    alloc: Global,
    columns: &Option<Items<ResultColumn>>,
) -> Result<Option<Items<ResultColumn>>, AllocError>
    ensures { IfOk result (λ copy. copy ≡ columns.now) }
{
    match columns {
        None => Ok(None),
        Some(columns) => Ok(Some(copied_columns(alloc, columns.as_slice())?)),
    }
}

// Whether these are the same columns.
pub(crate) fn are_same_columns(mut columns: &[ResultColumn], mut others: &[ResultColumn]) -> bool
    ensures { result ≡ are_same_columns columns.entry.now others.entry.now }
{
    while let [column, other_columns @ ..] = columns {
        let [other, rest @ ..] = others else {
            return false;
        };
        if !is_same_column(column, other) {
            return false;
        }
        columns = other_columns;
        others = rest;
    }
    others.is_empty()
}

fn is_same_column(column: &ResultColumn, other: &ResultColumn) -> bool
    ensures { result ≡ is_same_column column.now other.now }
{
    column.name.as_str() == other.name.as_str()
        && is_same_type(column.column_type, other.column_type)
}

fn is_same_type(column_type: ColumnType, other: ColumnType) -> bool
    ensures { result ≡ is_same_type column_type other }
{
    match (column_type, other) {
        (ColumnType::BigInt, ColumnType::BigInt) => true,
        (ColumnType::Text, ColumnType::Text) => true,
        (ColumnType::Boolean, ColumnType::Boolean) => true,
        (_, _) => false,
    }
}

// A copy of columns.
fn copied_columns(
    alloc: Global,
    columns: &[ResultColumn],
) -> Result<Items<ResultColumn>, AllocError>
    ensures { IfOk result (λ copy. copy ≡ columns.now) }
{
    let mut copy = Items::new(alloc);
    for column in columns {
        copy.push(ResultColumn {
            name: column.name.try_copy(alloc)?,
            column_type: column.column_type,
        })?;
    }
    Ok(copy)
}

fn say_each_row(
    alloc: Global,
    formats: &[ValueFormat],
    rows: &[Items<Value>],
    said: &mut Said,
) -> Result<(), AllocError>
    ensures { OnOk result (Puts (map (row_said formats.now) rows.now) said.old said.new) }
{
    for row in rows {
        say_row(alloc, formats, row.as_slice(), said)?;
    }
    Ok(())
}

fn say_row(
    alloc: Global,
    formats: &[ValueFormat],
    row: &[Value],
    said: &mut Said,
) -> Result<(), AllocError>
    ensures { OnOk result (Puts (row_said formats.now row.now ∷ []) said.old said.new) }
{
    let values = values_in(alloc, formats, row)?;
    let fields = fields_of(alloc, &values)?;
    said.put(&BackendMessage::DataRow(&fields))
}

fn values_in(
    alloc: Global,
    mut formats: &[ValueFormat],
    mut row: &[Value],
) -> Result<Vec<Option<Items<u8>>>, AllocError>
    ensures { IfOk result (λ values. values.items ≡ values_in formats.entry.now row.entry.now) }
{
    let mut values = Vec::new(alloc);
    while let [value, rest @ ..] = row {
        values.push(value_in(alloc, next_format(formats), value)?)?;
        formats = other_formats(formats);
        row = rest;
    }
    Ok(values)
}

fn value_in(
    alloc: Global,
    format: ValueFormat,
    value: &Value,
) -> Result<Option<Items<u8>>, AllocError>
    ensures { IfOk result (λ bytes. bytes ≡ value_in format value.now) }
{
    match format {
        ValueFormat::Text => value_text(alloc, value),
        ValueFormat::Binary => value_binary(alloc, value),
    }
}

// A value as text; null is none.
fn value_text(alloc: Global, value: &Value) -> Result<Option<Items<u8>>, AllocError>
    ensures { IfOk result (λ text. text ≡ value_text value.now) }
{
    match value {
        Value::Null => Ok(None),
        Value::Int(number) => some_bytes(alloc, Buffer::new().format(*number).as_bytes()),
        Value::Text(text) => some_bytes(alloc, text.as_str().as_bytes()),
        Value::Bool(true) => some_bytes(alloc, b"t"),
        Value::Bool(false) => some_bytes(alloc, b"f"),
    }
}

// A value in binary; null is none.
fn value_binary(alloc: Global, value: &Value) -> Result<Option<Items<u8>>, AllocError>
    ensures { IfOk result (λ bytes. bytes ≡ value_binary value.now) }
{
    match value {
        Value::Null => Ok(None),
        Value::Int(number) => some_bytes(alloc, &number.to_be_bytes()),
        Value::Text(text) => some_bytes(alloc, text.as_str().as_bytes()),
        Value::Bool(true) => some_bytes(alloc, &[1]),
        Value::Bool(false) => some_bytes(alloc, &[0]),
    }
}

fn some_bytes(alloc: Global, bytes: &[u8]) -> Result<Option<Items<u8>>, AllocError>
    ensures { IfOk result (λ copy. copy ≡ Some bytes.now) }
{
    let mut copy = Vec::new(alloc);
    copy.extend_from_slice(bytes)?;
    Ok(Some(Items::from_vec(copy)))
}

fn fields_of(alloc: Global, values: &[Option<Items<u8>>]) -> Result<Vec<FieldBytes<'_>>, AllocError>
    ensures { IfOk result (λ fields. map viewed_value fields.items ≡ values.now) }
{
    let mut fields = Vec::new(alloc);
    for value in values {
        fields.push(field_of(value))?;
    }
    Ok(fields)
}

fn field_of(value: &Option<Items<u8>>) -> FieldBytes<'_>
    ensures { viewed_value result ≡ value.now }
{
    match value {
        None => FieldBytes::Null,
        Some(bytes) => FieldBytes::Bytes(bytes.as_slice()),
    }
}

fn say_count(alloc: Global, count: usize, said: &mut Said) -> Result<(), AllocError>
    ensures { OnOk result (Puts (complete_said (select_tag count) ∷ []) said.old said.new) }
{
    let tag = select_tag(alloc, count)?;
    said.put(&BackendMessage::CommandComplete(tag.as_str()))
}
