//! Sections as JSON.

ghost use Rattle.std.specs.Prelude.{◌≡◌, ◌++◌, false, map, IfOk, OnOk, string_bytes};
ghost use Rattle.section_texts.specs.Sections.{cell_of, way_of, row_of, section_of};
ghost use Rattle.section_texts.specs.Json.{json_string, json_names_behind, json_ways_behind, json_cell, json_members_behind, json_row, json_rows_behind, json_section, json_sections_behind, json_text};

use crate::cell::{MembershipWay, SectionCell, push_if};
use crate::section::TextSection;
use serde_json::Value;
use std::alloc::{AllocError, Global};

/// The sections as one JSON object (RFC 8259): under the name of each a list of its rows, a line for each, and a row is an object
/// with a member for each column. PUBLIC is null, and so is what is not there. `AllocError` comes where memory was refused.
pub fn json_text(alloc: Global, sections: &[TextSection<'_>]) -> Result<String, AllocError>
    ensures { IfOk result (λ text. string_bytes text ≡ json_text (map section_of sections.now)) }
{
    let mut out = String::new(alloc);
    out.push_str("{")?;
    push_sections(alloc, &mut out, sections)?;
    out.push_str("\n}\n")?;
    Ok(out)
}

// Adds sections with a comma between two.
fn push_sections(
    alloc: Global,
    out: &mut String,
    sections: &[TextSection<'_>],
) -> Result<(), AllocError>
    ensures { OnOk result (string_bytes out.new
        ≡ string_bytes out.old ++ json_sections_behind false (map section_of sections.now)) }
{
    let mut later = false;
    let mut rest = sections;
    while let [section, after @ ..] = rest {
        push_if(out, later, ",")?;
        push_section(alloc, out, section)?;
        later = true;
        rest = after;
    }
    Ok(())
}

// Adds a section.
fn push_section(
    alloc: Global,
    out: &mut String,
    section: &TextSection<'_>,
) -> Result<(), AllocError>
    ensures { OnOk result (string_bytes out.new ≡ string_bytes out.old ++ json_section (section_of section.now)) }
{
    out.push_str("\n  \"")?;
    out.push_str(section.name)?;
    out.push_str("\": [")?;
    push_rows(alloc, out, section.columns, section.rows.as_slice())?;
    out.push_str("\n  ]")
}

// Adds rows with a comma between two.
fn push_rows(
    alloc: Global,
    out: &mut String,
    columns: &[&str],
    rows: &[Vec<SectionCell<'_>>],
) -> Result<(), AllocError>
    ensures { OnOk result (string_bytes out.new
        ≡ string_bytes out.old ++ json_rows_behind false (map (λ c. c.now) columns.now) (map (λ r. row_of r.items) rows.now)) }
{
    let mut later = false;
    let mut rest = rows;
    while let [row, after @ ..] = rest {
        push_if(out, later, ",")?;
        push_row(alloc, out, columns, row.as_slice())?;
        later = true;
        rest = after;
    }
    Ok(())
}

// Adds a row on a line of its own.
fn push_row(
    alloc: Global,
    out: &mut String,
    columns: &[&str],
    row: &[SectionCell<'_>],
) -> Result<(), AllocError>
    ensures { OnOk result (string_bytes out.new
        ≡ string_bytes out.old ++ json_row (map (λ c. c.now) columns.now) (row_of row.now)) }
{
    out.push_str("\n    {")?;
    push_members(alloc, out, columns, row)?;
    out.push_str("}")
}

// Adds a member for each cell, under the name of its column.
fn push_members(
    alloc: Global,
    out: &mut String,
    columns: &[&str],
    row: &[SectionCell<'_>],
) -> Result<(), AllocError>
    ensures { OnOk result (string_bytes out.new
        ≡ string_bytes out.old ++ json_members_behind false (map (λ c. c.now) columns.now) (row_of row.now)) }
{
    let mut later = false;
    let mut columns = columns;
    let mut cells = row;
    while let [column, more_columns @ ..] = columns {
        let [cell, more_cells @ ..] = cells else {
            return Ok(());
        };
        push_if(out, later, ", ")?;
        out.push_str("\"")?;
        out.push_str(column)?;
        out.push_str("\": ")?;
        push_cell(alloc, out, cell)?;
        later = true;
        columns = more_columns;
        cells = more_cells;
    }
    Ok(())
}

// Adds a cell.
fn push_cell(alloc: Global, out: &mut String, cell: &SectionCell<'_>) -> Result<(), AllocError>
    ensures { OnOk result (string_bytes out.new ≡ string_bytes out.old ++ json_cell (cell_of cell.now)) }
{
    match cell {
        SectionCell::Text(text) => push_string(alloc, out, text),
        SectionCell::Flag(true) => out.push_str("true"),
        SectionCell::Flag(false) => out.push_str("false"),
        SectionCell::Names(names) => {
            out.push_str("[")?;
            push_names(alloc, out, names.as_slice())?;
            out.push_str("]")
        }
        SectionCell::Ways(ways) => {
            out.push_str("[")?;
            push_ways(alloc, out, ways.as_slice())?;
            out.push_str("]")
        }
        SectionCell::Everyone | SectionCell::Absent => out.push_str("null"),
    }
}

// Adds names with a comma between two.
fn push_names(alloc: Global, out: &mut String, names: &[&str]) -> Result<(), AllocError>
    ensures { OnOk result (string_bytes out.new
        ≡ string_bytes out.old ++ json_names_behind false (map (λ n. n.now) names.now)) }
{
    let mut later = false;
    let mut rest = names;
    while let [name, after @ ..] = rest {
        push_if(out, later, ", ")?;
        push_string(alloc, out, name)?;
        later = true;
        rest = after;
    }
    Ok(())
}

// Adds memberships with a comma between two.
fn push_ways(alloc: Global, out: &mut String, ways: &[MembershipWay<'_>]) -> Result<(), AllocError>
    ensures { OnOk result (string_bytes out.new
        ≡ string_bytes out.old ++ json_ways_behind false (map way_of ways.now)) }
{
    let mut later = false;
    let mut rest = ways;
    while let [way, after @ ..] = rest {
        push_if(out, later, ", ")?;
        out.push_str("[")?;
        push_string(alloc, out, way.member)?;
        out.push_str(", ")?;
        push_string(alloc, out, way.role)?;
        out.push_str("]")?;
        later = true;
        rest = after;
    }
    Ok(())
}

// Adds a text as a string of JSON.
fn push_string(alloc: Global, out: &mut String, text: &str) -> Result<(), AllocError>
    ensures { OnOk result (string_bytes out.new ≡ string_bytes out.old ++ json_string text.now) }
{
    let string = Value::try_from_str(alloc, text)?.to_string(alloc)?;
    out.push_str(string.as_str())
}
