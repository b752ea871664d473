//! Rows as lines that stand by themselves.

ghost use Rattle.std.specs.Prelude.{◌≡◌, ◌++◌, false, map, take, drop, IfOk, OnOk, string_bytes};
ghost use Rattle.section_texts.specs.Sections.{row_of, section_of};
ghost use Rattle.section_texts.specs.LineTexts.{named_cells, content_text, first_text, line_text, subject_text, texts_of};

use crate::cell::{SectionCell, push_cell, push_if};
use crate::section::TextSection;
use std::alloc::{AllocError, Global};

/// A row as a line: what it is about, which no other line of the section is, and what it says of that.
#[derive(Drop)]
pub struct LineTexts {
    pub subject: String,
    pub content: String,
}

/// A row of a section as a line: what stands in the first columns of the section says what it is about. `AllocError` comes where memory
/// was refused.
pub fn line_of(
    alloc: Global,
    section: &TextSection<'_>,
    row: &[SectionCell<'_>],
) -> Result<LineTexts, AllocError>
    ensures { IfOk result (λ line. texts_of line ≡ line_text (section_of section.now) (row_of row.now)) }
{
    let subject = subject_of(alloc, section, row)?;
    let content = content_of(alloc, section, row)?;
    Ok(LineTexts { subject, content })
}

// What a row is about.
fn subject_of(
    alloc: Global,
    section: &TextSection<'_>,
    row: &[SectionCell<'_>],
) -> Result<String, AllocError>
    ensures { IfOk result (λ text. string_bytes text ≡ subject_text (section_of section.now) (row_of row.now)) }
{
    let mut out = String::new(alloc);
    out.push_str(section.name)?;
    out.push_str(": ")?;
    push_first(&mut out, section, row)?;
    Ok(out)
}

// Adds the cells that say what a row is about.
#[tactic(auto, using(crate::proofs::Cut::taken_columns, crate::proofs::Cut::taken_cells))]
fn push_first(
    out: &mut String,
    section: &TextSection<'_>,
    row: &[SectionCell<'_>],
) -> Result<(), AllocError>
    ensures { OnOk result (string_bytes out.new
        ≡ string_bytes out.old ++ first_text (section_of section.now) (row_of row.now)) }
{
    push_named(
        out,
        first_columns(section.columns, section.keys),
        first_cells(row, section.keys),
    )
}

// What it says of that.
#[tactic(auto, using(crate::proofs::Cut::dropped_columns, crate::proofs::Cut::dropped_cells))]
fn content_of(
    alloc: Global,
    section: &TextSection<'_>,
    row: &[SectionCell<'_>],
) -> Result<String, AllocError>
    ensures { IfOk result (λ text. string_bytes text ≡ content_text (section_of section.now) (row_of row.now)) }
{
    let mut out = String::new(alloc);
    push_named(
        &mut out,
        other_columns(section.columns, section.keys),
        other_cells(row, section.keys),
    )?;
    Ok(out)
}

// Adds cells, each with the name of its column before it.
fn push_named(out: &mut String, columns: &[&str], row: &[SectionCell<'_>]) -> Result<(), AllocError>
    ensures { OnOk result (string_bytes out.new
        ≡ string_bytes out.old ++ named_cells false (map (λ c. c.now) columns.now) (row_of row.now)) }
{
    let mut later = false;
    let mut columns = columns;
    let mut cells = row;
    while let [column, more_columns @ ..] = columns {
        let [cell, more_cells @ ..] = cells else {
            return Ok(());
        };
        push_if(out, later, ", ")?;
        out.push_str(column)?;
        out.push_str(" ")?;
        push_cell(out, cell)?;
        later = true;
        columns = more_columns;
        cells = more_cells;
    }
    Ok(())
}

// The columns that say what a row is about.
fn first_columns<'s, 'a>(columns: &'s [&'a str], keys: usize) -> &'s [&'a str]
    ensures { result.now ≡ take keys columns.now }
{
    if keys < columns.len() {
        &columns[..keys]
    } else {
        columns
    }
}

// The other columns.
fn other_columns<'s, 'a>(columns: &'s [&'a str], keys: usize) -> &'s [&'a str]
    ensures { result.now ≡ drop keys columns.now }
{
    if keys < columns.len() {
        &columns[keys..]
    } else {
        &[]
    }
}

// The cells that say what a row is about.
fn first_cells<'s, 'a>(row: &'s [SectionCell<'a>], keys: usize) -> &'s [SectionCell<'a>]
    ensures { result.now ≡ take keys row.now }
{
    if keys < row.len() { &row[..keys] } else { row }
}

// The other cells.
fn other_cells<'s, 'a>(row: &'s [SectionCell<'a>], keys: usize) -> &'s [SectionCell<'a>]
    ensures { result.now ≡ drop keys row.now }
{
    if keys < row.len() { &row[keys..] } else { &[] }
}
