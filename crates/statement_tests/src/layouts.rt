//! Lays out two sections of a description. A line `text` prints them in columns, and a line `json` as JSON, each behind `rows` and
//! how many lines follow. What they look like was written by hand.

use crate::told::Told;
use anyhow::{Result, bail};
use description_texts::json::render_json;
use description_texts::section::{Cell, Section};
use description_texts::text::render_text;
use std::alloc::{AllocError, Global};

/// Tells the sections in the layout that a line names.
pub fn follow(alloc: Global, line: &str, out: &mut Told) -> Result<()> {
    let sections = sections(alloc)?;
    put_laid_out(alloc, line, sections.as_slice(), out)
}

/// The section of the roles and that of the columns.
fn sections(alloc: Global) -> Result<Vec<Section<'static>>, AllocError> {
    let roles = roles(alloc)?;
    let columns = columns(alloc)?;
    let mut sections = Vec::new(alloc);
    sections.push(roles)?;
    sections.push(columns)?;
    Ok(sections)
}

/// Roles, of which one has a tab in its name.
fn roles(alloc: Global) -> Result<Section<'static>, AllocError> {
    let mut roles = Section::new(alloc, "roles", &["role", "superuser"]);
    push_row(alloc, &mut roles, Cell::Text("ann"), Cell::Flag(true))?;
    push_row(alloc, &mut roles, Cell::Text("bo\tb"), Cell::Flag(false))?;
    Ok(roles)
}

/// Columns, with each kind of cell that roles do not have.
fn columns(alloc: Global) -> Result<Section<'static>, AllocError> {
    let mut columns = Section::new(alloc, "columns", &["column", "key"]);
    push_row(alloc, &mut columns, Cell::Text("n"), Cell::Number(1))?;
    push_row(
        alloc,
        &mut columns,
        Cell::Text("a longer name"),
        Cell::Absent,
    )?;
    push_row(alloc, &mut columns, Cell::Public, Cell::Absent)?;
    Ok(columns)
}

/// Adds a row of two cells.
fn push_row<'c>(
    alloc: Global,
    section: &mut Section<'c>,
    first: Cell<'c>,
    second: Cell<'c>,
) -> Result<(), AllocError> {
    let mut cells = Vec::new(alloc);
    cells.push(first)?;
    cells.push(second)?;
    section.push(cells)
}

/// Tells sections in the layout that a line names, behind the number of lines.
fn put_laid_out(alloc: Global, line: &str, sections: &[Section<'_>], out: &mut Told) -> Result<()> {
    let text = match line {
        "text" => render_text(alloc, sections)?,
        "json" => render_json(alloc, sections)?,
        _ => bail!("there is no such layout"),
    };
    out.put_number("rows ", text.lines().count() as i128);
    out.put_all(&["\n", text.as_str()]);
    Ok(())
}
