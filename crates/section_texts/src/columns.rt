//! Sections as text in columns.

ghost use Rattle.std.specs.Prelude.{◌≡◌, ◌++◌, map, flat_map, replicate, IfOk, OnOk, string_bytes};
ghost use Rattle.section_texts.specs.Sections.{cell_of, row_of, section_of};
ghost use Rattle.section_texts.specs.Columns.{shown_row, length_at, width_at, widths_from, table_line, table_text, section_text, columns_text};
ghost use Rattle.section_texts.specs.Cells.{shown_cell};

use crate::cell::{SectionCell, push_cell, push_if};
use crate::section::TextSection;
use std::alloc::{AllocError, Global};

/// The sections as text: the name of each on a line of its own, then the names of its columns and its rows, each column as wide as
/// its widest text, and an empty line between two sections. `AllocError` comes where memory was refused.
pub fn columns_text(alloc: Global, sections: &[TextSection<'_>]) -> Result<String, AllocError>
    ensures { IfOk result (λ text. string_bytes text ≡ columns_text (map section_of sections.now)) }
{
    let mut out = String::new(alloc);
    let mut later = false;
    let mut rest = sections;
    while let [section, after @ ..] = rest {
        push_if(&mut out, later, "\n")?;
        push_section(alloc, &mut out, section)?;
        later = true;
        rest = after;
    }
    Ok(out)
}

// Adds a section.
fn push_section(
    alloc: Global,
    out: &mut String,
    section: &TextSection<'_>,
) -> Result<(), AllocError>
    ensures { OnOk result (string_bytes out.new ≡ string_bytes out.old ++ section_text (section_of section.now)) }
{
    out.push_str(section.name)?;
    out.push_str("\n")?;
    let heads = head_texts(alloc, section.columns)?;
    let rows = row_texts(alloc, section.rows.as_slice())?;
    push_table(alloc, out, heads.as_slice(), rows.as_slice())
}

// The names of columns.
fn head_texts(alloc: Global, columns: &[&str]) -> Result<Vec<String>, AllocError>
    ensures { IfOk result (λ texts. map string_bytes texts.items ≡ map (λ c. c.now) columns.now) }
{
    let mut texts = Vec::new(alloc);
    for column in columns {
        texts.push(String::from_str(alloc, column)?)?;
    }
    Ok(texts)
}

// The texts of rows.
fn row_texts(alloc: Global, rows: &[Vec<SectionCell<'_>>]) -> Result<Vec<Vec<String>>, AllocError>
    ensures { IfOk result (λ texts. map (λ r. map string_bytes r.items) texts.items ≡ map shown_row (map (λ r. row_of r.items) rows.now)) }
{
    let mut texts = Vec::new(alloc);
    for row in rows {
        texts.push(cell_texts(alloc, row.as_slice())?)?;
    }
    Ok(texts)
}

// The texts of a row.
fn cell_texts(alloc: Global, row: &[SectionCell<'_>]) -> Result<Vec<String>, AllocError>
    ensures { IfOk result (λ texts. map string_bytes texts.items ≡ shown_row (row_of row.now)) }
{
    let mut texts = Vec::new(alloc);
    for cell in row {
        texts.push(cell_text(alloc, cell)?)?;
    }
    Ok(texts)
}

fn cell_text(alloc: Global, cell: &SectionCell<'_>) -> Result<String, AllocError>
    ensures { IfOk result (λ text. string_bytes text ≡ shown_cell (cell_of cell.now)) }
{
    let mut text = String::new(alloc);
    push_cell(&mut text, cell)?;
    Ok(text)
}

// Adds rows under their heads, each column as wide as its widest text.
fn push_table(
    alloc: Global,
    out: &mut String,
    heads: &[String],
    rows: &[Vec<String>],
) -> Result<(), AllocError>
    ensures { OnOk result (string_bytes out.new
        ≡ string_bytes out.old ++ table_text (map string_bytes heads.now) (map (λ r. map string_bytes r.items) rows.now)) }
{
    let widths = widths(alloc, heads, rows)?;
    push_line(out, widths.as_slice(), heads)?;
    push_lines(out, widths.as_slice(), rows)
}

// Adds rows.
fn push_lines(out: &mut String, widths: &[usize], rows: &[Vec<String>]) -> Result<(), AllocError>
    ensures { OnOk result (string_bytes out.new
        ≡ string_bytes out.old ++ flat_map (table_line 0 widths.now) (map (λ r. map string_bytes r.items) rows.now)) }
{
    let mut rest = rows;
    while let [row, after @ ..] = rest {
        push_line(out, widths, row.as_slice())?;
        rest = after;
    }
    Ok(())
}

// How wide each column is.
fn widths(alloc: Global, heads: &[String], rows: &[Vec<String>]) -> Result<Vec<usize>, AllocError>
    ensures { IfOk result (λ widths. widths.items ≡ widths_from 0 (map string_bytes heads.now) (map (λ r. map string_bytes r.items) rows.now)) }
{
    let mut widths = Vec::new(alloc);
    let mut rest = heads;
    while let [head, after @ ..] = rest {
        widths.push(width_at(widths.len(), head.len(), rows))?;
        rest = after;
    }
    Ok(widths)
}

// The greatest length at a place, at least so much.
fn width_at(index: usize, least: usize, rows: &[Vec<String>]) -> usize
    ensures { result ≡ width_at index least (map (λ r. map string_bytes r.items) rows.now) }
{
    let mut width = least;
    let mut rest = rows;
    while let [row, after @ ..] = rest {
        width = width.max(length_at(index, row.as_slice()));
        rest = after;
    }
    width
}

// How long the text at a place is: 0, where the row has none.
fn length_at(index: usize, row: &[String]) -> usize
    ensures { result ≡ length_at index (map string_bytes row.now) }
{
    let mut left = index;
    let mut rest = row;
    while let [text, after @ ..] = rest {
        if left == 0 {
            return text.len();
        }
        left -= 1;
        rest = after;
    }
    0
}

// Adds a line of a table.
fn push_line(out: &mut String, widths: &[usize], row: &[String]) -> Result<(), AllocError>
    ensures { OnOk result (string_bytes out.new
        ≡ string_bytes out.old ++ table_line 0 widths.now (map string_bytes row.now)) }
{
    let mut lacks = 0;
    let mut widths = widths;
    let mut texts = row;
    while let [width, more_widths @ ..] = widths {
        let [text, more_texts @ ..] = texts else {
            return out.push_str("\n");
        };
        push_blanks(out, lacks)?;
        out.push_str("  ")?;
        out.push_str(text.as_str())?;
        lacks = width.saturating_sub(text.len());
        widths = more_widths;
        texts = more_texts;
    }
    out.push_str("\n")
}

// Adds so many blanks.
fn push_blanks(out: &mut String, count: usize) -> Result<(), AllocError>
    ensures { OnOk result (string_bytes out.new ≡ string_bytes out.old ++ replicate count 32) }
{
    let mut left = count;
    while 0 < left {
        out.push_str(" ")?;
        left -= 1;
    }
    Ok(())
}
