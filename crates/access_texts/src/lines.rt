//! Lines of sections in the order of what they are about.

ghost use Rattle.std.specs.Prelude.{◌≡◌, ◌≤◌, Some, map, length, IfOk, OnOk, IsTrue, ◌↔◌, string_bytes};
ghost use Rattle.store.specs.Records.{IsOrdered, changed};
ghost use Rattle.line_differences.specs.Lines.{lines_of};
ghost use Rattle.section_texts.specs.Sections.{section_of};
ghost use Rattle.section_texts.specs.LineTexts.{texts_of};
ghost use Rattle.access_texts.specs.Lines.{put_rows, put_place, stands, lines_in};

use line_differences::DescriptionLine;
use section_texts::{LineTexts, TextSection, line_of};
use std::alloc::{AllocError, Global};
use std::cmp::Ordering;

/// The rows of sections as lines in the order of their subjects' bytes; of two about the same the later one. Time grows with the
/// square of the number of rows.
pub(crate) fn ordered_lines(
    alloc: Global,
    sections: &[TextSection<'_>],
) -> Result<Vec<LineTexts>, AllocError>
    ensures lines { IfOk result (λ lines. map texts_of lines.items ≡ lines_in (map section_of sections.now)) }
{
    let mut lines = Vec::new(alloc);
    let mut rest = sections;
    while let [section, after @ ..] = rest {
        put_section(alloc, &mut lines, section)?;
        rest = after;
    }
    Ok(lines)
}

// Puts the rows of a section among lines.
fn put_section(
    alloc: Global,
    lines: &mut Vec<LineTexts>,
    section: &TextSection<'_>,
) -> Result<(), AllocError>
    ensures { OnOk result (map texts_of lines.new.items
        ≡ put_rows (section_of section.now) (section_of section.now).rows (map texts_of lines.old.items)) }
{
    let mut rest = section.rows.as_slice();
    while let [row, after @ ..] = rest {
        put(lines, line_of(alloc, section, row.as_slice())?)?;
        rest = after;
    }
    Ok(())
}

// Puts a line in its place, or in that of the one about the same.
fn put(lines: &mut Vec<LineTexts>, line: LineTexts) -> Result<(), AllocError>
    ensures { OnOk result (map texts_of lines.new.items
        ≡ changed (string_bytes line.subject) (Some (string_bytes line.content)) (map texts_of lines.old.items)) }
{
    let place = place_of(lines.as_slice(), line.subject.as_str());
    if stands(lines.as_slice(), line.subject.as_str()) {
        lines[place] = line;
    } else {
        lines.insert(place, line)?;
    }
    Ok(())
}

// The place of a subject: behind each line whose subject is less, up to the first one whose is not.
fn place_of(lines: &[LineTexts], subject: &str) -> usize
    ensures place { result ≡ put_place subject.now (map texts_of lines.now) }
    ensures within { result ≤ length lines.now }
{
    let mut place = 0;
    let mut rest = lines;
    while let [line, after @ ..] = rest {
        match subject.cmp(line.subject.as_str()) {
            Ordering::Greater => place += 1,
            _ => return place,
        }
        rest = after;
    }
    place
}

// Whether a line is about this subject, among lines in order.
fn stands(lines: &[LineTexts], subject: &str) -> bool
    ensures { result ≡ stands subject.now (map texts_of lines.now) }
{
    let mut rest = lines;
    while let [line, after @ ..] = rest {
        match subject.cmp(line.subject.as_str()) {
            Ordering::Greater => {}
            Ordering::Equal => return true,
            Ordering::Less => return false,
        }
        rest = after;
    }
    false
}

/// Lines, lent.
pub(crate) fn lent_lines<'s>(
    alloc: Global,
    lines: &'s [LineTexts],
) -> Result<Vec<DescriptionLine<'s>>, AllocError>
    ensures { IfOk result (λ lent. lines_of lent.items ≡ map texts_of lines.now) }
{
    let mut lent = Vec::new(alloc);
    let mut rest = lines;
    while let [line, after @ ..] = rest {
        lent.push(DescriptionLine {
            subject: line.subject.as_str(),
            content: line.content.as_str(),
        })?;
        rest = after;
    }
    Ok(lent)
}
