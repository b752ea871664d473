//! What differs between two databases, as lines and as a section.

ghost use Rattle.std.specs.Prelude.{◌≡◌, ◌++◌, map, flat_map, IfOk, OnOk, string_bytes};
ghost use Rattle.section_texts.specs.Sections.{row_of, section_of};
ghost use Rattle.access_texts.specs.Differences.{marked_line, difference_text, difference_texts, difference_row, difference_section};

use line_differences::{DescriptionLine, LineDifference};
use section_texts::{SectionCell, TextSection};
use std::alloc::{AllocError, Global};

/// What differs, a line each: `-` before one that is gone, `+` before one that came, and `~` before one that says something else, with
/// what it said and what it says.
pub(crate) fn difference_texts(
    alloc: Global,
    found: &[LineDifference<'_>],
) -> Result<String, AllocError>
    ensures { IfOk result (λ text. string_bytes text ≡ difference_texts found.now) }
{
    let mut out = String::new(alloc);
    let mut rest = found;
    while let [difference, after @ ..] = rest {
        push_difference(&mut out, *difference)?;
        rest = after;
    }
    Ok(out)
}

fn push_difference(out: &mut String, difference: LineDifference<'_>) -> Result<(), AllocError>
    ensures { OnOk result (string_bytes out.new ≡ string_bytes out.old ++ difference_text difference.entry) }
{
    match difference {
        LineDifference::Gone(line) => push_line(out, "- ", line)?,
        LineDifference::Came(line) => push_line(out, "+ ", line)?,
        LineDifference::Changed { old, new } => {
            push_line(out, "~ ", old)?;
            out.push_str(" -> ")?;
            out.push_str(new.content)?;
        }
    }
    out.push_str("\n")
}

// Adds a line behind its mark.
fn push_line(out: &mut String, mark: &str, line: DescriptionLine<'_>) -> Result<(), AllocError>
    ensures { OnOk result (string_bytes out.new ≡ string_bytes out.old ++ marked_line mark.now line.entry) }
{
    out.push_str(mark)?;
    out.push_str(line.subject)?;
    out.push_str("; ")?;
    out.push_str(line.content)
}

/// What differs, a row each.
pub(crate) fn difference_section<'s>(
    alloc: Global,
    found: &[LineDifference<'s>],
) -> Result<TextSection<'s>, AllocError>
    ensures { IfOk result (λ section. section_of section ≡ difference_section found.now) }
{
    let mut rows = Vec::new(alloc);
    let mut rest = found;
    while let [difference, after @ ..] = rest {
        rows.push(difference_row(alloc, *difference)?)?;
        rest = after;
    }
    Ok(TextSection {
        name: "differences",
        columns: &["change", "of", "was", "is"],
        keys: 2,
        rows,
    })
}

fn difference_row<'s>(
    alloc: Global,
    difference: LineDifference<'s>,
) -> Result<Vec<SectionCell<'s>>, AllocError>
    ensures { IfOk result (λ row. row_of row.items ≡ difference_row difference.entry) }
{
    let made = match difference {
        LineDifference::Gone(line) => vec![in alloc;
            SectionCell::Text("gone"),
            SectionCell::Text(line.subject),
            SectionCell::Text(line.content),
            SectionCell::Absent,
        ]?,
        LineDifference::Came(line) => vec![in alloc;
            SectionCell::Text("came"),
            SectionCell::Text(line.subject),
            SectionCell::Absent,
            SectionCell::Text(line.content),
        ]?,
        LineDifference::Changed { old, new } => vec![in alloc;
            SectionCell::Text("changed"),
            SectionCell::Text(old.subject),
            SectionCell::Text(old.content),
            SectionCell::Text(new.content),
        ]?,
    };
    Ok(made)
}
