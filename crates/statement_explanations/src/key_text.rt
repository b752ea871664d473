//! Ranges of keys as conditions on the columns of the key.

use crate::key_values::key_values;
use crate::literal_text::{push_name, push_value};
use catalogue::table::TableDefinition;
use key_ranges::KeyRange;
use row_codec::LentRow;
use sql_ast::columns::Columns;
use sql_types::value::{ValueRef, compare};
use std::alloc::{AllocError, Global};
use std::cmp::Ordering;

/// What is written where bytes are of no key.
const NO_KEY: &str = "bytes of no key";

/// What is written of a span that has all keys of a table.
const ALL_KEYS: &str = "all keys";

/// A range of keys of a table: a text for each of its spans, none where no row has such a key.
pub(crate) fn range_texts(
    alloc: Global,
    table: &TableDefinition,
    range: &KeyRange,
) -> Result<Vec<String>, AllocError> {
    let mut texts = Vec::new(alloc);
    match range {
        KeyRange::Point(key) => push_point(alloc, &mut texts, table, key.as_slice())?,
        KeyRange::Span { start, stop } => {
            texts.push(span_text(alloc, table, start.as_slice(), stop.as_slice())?)?;
        }
        KeyRange::Several(spans) => {
            for span in spans.as_slice() {
                texts.push(span_text(alloc, table, span.start.as_slice(), span.stop.as_slice())?)?;
            }
        }
    }
    Ok(texts)
}

/// Whether this is the key of no row, which stands for no key at all.
pub(crate) fn is_no_key(
    alloc: Global,
    table: &TableDefinition,
    key: &[u8],
) -> Result<bool, AllocError> {
    match key_values(alloc, table.id(), table.columns(), key)? {
        Some(values) => Ok(values.as_slice().is_empty()),
        None => Ok(false),
    }
}

// Adds the text of one key, unless no row has it.
fn push_point(
    alloc: Global,
    texts: &mut Vec<String>,
    table: &TableDefinition,
    key: &[u8],
) -> Result<(), AllocError> {
    if is_no_key(alloc, table, key)? {
        return Ok(());
    }
    texts.push(span_text(alloc, table, key, key)?)?;
    Ok(())
}

// The keys from a start on, up to the last that comes before a stop or begins with it.
fn span_text(
    alloc: Global,
    table: &TableDefinition,
    start: &[u8],
    stop: &[u8],
) -> Result<String, AllocError> {
    let columns = table.columns();
    let start = key_values(alloc, table.id(), columns, start)?;
    let stop = key_values(alloc, table.id(), columns, stop)?;
    match (start, stop) {
        (Some(start), Some(stop)) => bounds_text(alloc, columns, &start, &stop),
        _ => String::from_str(alloc, NO_KEY),
    }
}

// The keys whose first columns are not less than some values, and not greater than others.
fn bounds_text(
    alloc: Global,
    columns: &Columns,
    start: &LentRow<'_>,
    stop: &LentRow<'_>,
) -> Result<String, AllocError> {
    let mut out = String::new(alloc);
    let writer = KeyWriter { alloc, columns };
    let shared = shared_front(start.as_slice(), stop.as_slice());
    writer.push_equal(&mut out, start.as_slice(), shared)?;
    writer.push_bound(&mut out, start.as_slice(), shared, " >= ")?;
    writer.push_bound(&mut out, stop.as_slice(), shared, " <= ")?;
    if out.is_empty() {
        out.push_str(ALL_KEYS)?;
    }
    Ok(out)
}

// With how many equal values both begin.
fn shared_front(start: &[ValueRef<'_>], stop: &[ValueRef<'_>]) -> usize {
    let mut shared: usize = 0;
    for (left, right) in start.iter().zip(stop) {
        match compare(*left, *right) {
            Some(Ordering::Equal) => shared = shared.saturating_add(1),
            _ => return shared,
        }
    }
    shared
}

// What conditions on the columns of a key are written with.
#[derive(Clone, Copy)]
struct KeyWriter<'a> {
    alloc: Global,
    columns: &'a Columns,
}

impl<'a> KeyWriter<'a> {
    // Adds that the first columns of the key are equal to so many of these values.
    fn push_equal(
        &self,
        out: &mut String,
        values: &[ValueRef<'_>],
        count: usize,
    ) -> Result<(), AllocError> {
        for (index, value) in values.iter().take(count).enumerate() {
            push_and(out)?;
            self.push_column(out, index)?;
            out.push_str(" = ")?;
            push_value(self.alloc, out, *value)?;
        }
        Ok(())
    }

    // Adds how the columns of the key behind so many compare to the values behind as many, if there are
    // any.
    fn push_bound(
        &self,
        out: &mut String,
        values: &[ValueRef<'_>],
        shared: usize,
        operator: &str,
    ) -> Result<(), AllocError> {
        let bounds = values.get(shared..).unwrap_or(&[]);
        if bounds.is_empty() {
            return Ok(());
        }
        push_and(out)?;
        self.push_columns(out, shared, bounds.len())?;
        out.push_str(operator)?;
        self.push_values(out, bounds)
    }

    // Adds so many columns of the key behind so many, in parentheses where there are several.
    fn push_columns(
        &self,
        out: &mut String,
        shared: usize,
        count: usize,
    ) -> Result<(), AllocError> {
        if count == 1 {
            return self.push_column(out, shared);
        }
        out.push('(')?;
        for index in 0..count {
            push_comma(out, index)?;
            self.push_column(out, shared.saturating_add(index))?;
        }
        out.push(')')
    }

    // Adds values, in parentheses where there are several.
    fn push_values(&self, out: &mut String, values: &[ValueRef<'_>]) -> Result<(), AllocError> {
        if let [value] = values {
            return push_value(self.alloc, out, *value);
        }
        out.push('(')?;
        for (index, value) in values.iter().enumerate() {
            push_comma(out, index)?;
            push_value(self.alloc, out, *value)?;
        }
        out.push(')')
    }

    // Adds the name of the column that stands in the key behind so many.
    fn push_column(&self, out: &mut String, place: usize) -> Result<(), AllocError> {
        let Some(index) = self.columns.key().get(place) else {
            return Ok(());
        };
        match self.columns.get(*index) {
            Some(column) => push_name(self.alloc, out, column.name.as_str()),
            None => Ok(()),
        }
    }
}

// Adds AND behind what stands there.
fn push_and(out: &mut String) -> Result<(), AllocError> {
    if out.is_empty() {
        Ok(())
    } else {
        out.push_str(" AND ")
    }
}

// Adds a comma before each but the first.
fn push_comma(out: &mut String, index: usize) -> Result<(), AllocError> {
    if index == 0 {
        Ok(())
    } else {
        out.push_str(", ")
    }
}
