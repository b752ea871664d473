//! Sections as text in columns.

use crate::section::{Cell, Section};
use sql_types::name::Name;
use std::alloc::{AllocError, Global};

/// What stands for what is not there.
const ABSENT: &str = "-";

/// The sections as text: the name of each on a line of its own, then its columns' names and its rows, each column as wide as
/// its widest cell, and an empty line between two sections. A control character stands as a space.
pub fn render_text(alloc: Global, sections: &[Section<'_>]) -> Result<String, AllocError> {
    let mut out = String::new(alloc);
    for (index, section) in sections.iter().enumerate() {
        if index > 0 {
            out.push('\n')?;
        }
        out.push_str(section.name)?;
        out.push('\n')?;
        push_rows(alloc, &mut out, section)?;
    }
    Ok(out)
}

/// Adds the names of the columns of a section and its rows.
fn push_rows(alloc: Global, out: &mut String, section: &Section<'_>) -> Result<(), AllocError> {
    let header = header_texts(alloc, section.columns)?;
    let rows = row_texts(alloc, section)?;
    push_table(alloc, out, header.as_slice(), rows.as_slice())
}

/// Adds rows under their header, each column as wide as its widest cell.
fn push_table(
    alloc: Global,
    out: &mut String,
    header: &[String],
    rows: &[Vec<String>],
) -> Result<(), AllocError> {
    let widths = widths(alloc, header, rows)?;
    push_row(out, widths.as_slice(), header)?;
    for row in rows {
        push_row(out, widths.as_slice(), row.as_slice())?;
    }
    Ok(())
}

fn header_texts(alloc: Global, columns: &[&str]) -> Result<Vec<String>, AllocError> {
    let mut texts = Vec::new(alloc);
    for column in columns {
        texts.push(String::from_str(alloc, column)?)?;
    }
    Ok(texts)
}

fn row_texts(alloc: Global, section: &Section<'_>) -> Result<Vec<Vec<String>>, AllocError> {
    let mut rows = Vec::new(alloc);
    for row in section.rows.as_slice() {
        rows.push(cell_texts(alloc, row.as_slice())?)?;
    }
    Ok(rows)
}

fn cell_texts(alloc: Global, row: &[Cell<'_>]) -> Result<Vec<String>, AllocError> {
    let mut texts = Vec::new(alloc);
    for cell in row {
        texts.push(cell_text(alloc, cell)?)?;
    }
    Ok(texts)
}

fn cell_text(alloc: Global, cell: &Cell<'_>) -> Result<String, AllocError> {
    match cell {
        Cell::Text(text) => printable(alloc, text),
        Cell::Flag(true) => String::from_str(alloc, "yes"),
        Cell::Flag(false) => String::from_str(alloc, "no"),
        Cell::Number(number) => format!(in alloc; "{number}"),
        Cell::Names(names) => joined(alloc, names),
        Cell::Public => String::from_str(alloc, "PUBLIC"),
        Cell::Absent => String::from_str(alloc, ABSENT),
    }
}

/// A text with a space in place of each control character.
fn printable(alloc: Global, text: &str) -> Result<String, AllocError> {
    let mut out = String::new(alloc);
    for c in text.chars() {
        out.push(if c.is_control() { ' ' } else { c })?;
    }
    Ok(out)
}

/// Names with commas between them.
fn joined(alloc: Global, names: &[Name]) -> Result<String, AllocError> {
    let mut out = String::new(alloc);
    for (index, name) in names.iter().enumerate() {
        if index > 0 {
            out.push_str(", ")?;
        }
        let text = printable(alloc, name.as_str())?;
        out.push_str(text.as_str())?;
    }
    Ok(out)
}

/// For each column how many characters its widest cell has.
fn widths(
    alloc: Global,
    header: &[String],
    rows: &[Vec<String>],
) -> Result<Vec<usize>, AllocError> {
    let mut widths = Vec::new(alloc);
    for (index, name) in header.iter().enumerate() {
        widths.push(width(name.chars().count(), rows, index))?;
    }
    Ok(widths)
}

/// How many characters the widest cell of a column has, at least so many.
fn width(least: usize, rows: &[Vec<String>], index: usize) -> usize {
    let mut width = least;
    for row in rows {
        if let Some(text) = row.get(index) {
            width = width.max(text.chars().count());
        }
    }
    width
}

/// Adds a row, its last cell as it is and each other filled up to its width.
fn push_row(out: &mut String, widths: &[usize], row: &[String]) -> Result<(), AllocError> {
    for (index, text) in row.iter().enumerate() {
        out.push_str("  ")?;
        out.push_str(text.as_str())?;
        if index + 1 < row.len() {
            fill(out, text.chars().count(), widths.get(index))?;
        }
    }
    out.push('\n')
}

/// Fills a cell that has so many characters up to its width.
fn fill(out: &mut String, length: usize, width: Option<&usize>) -> Result<(), AllocError> {
    if let Some(width) = width {
        for _ in length..*width {
            out.push(' ')?;
        }
    }
    Ok(())
}
