//! In which formats the values of an answer come.

ghost use Rattle.std.specs.Prelude.{◌≡◌, [], IfOk, map};
ghost use Rattle.postgres_talks.specs.Formats.{are_format_codes, are_formats_for, format_of, next_format, other_formats};

use postgres_messages::backend::ValueFormat;
use sql_types::try_copy::TryCopy;
use std::alloc::{AllocError, Global};
use std::marker::Model;

// Whether codes are codes of formats.
pub(crate) fn are_format_codes(codes: &[u16]) -> bool
    ensures { result ≡ are_format_codes codes.now }
{
    codes.iter().all(|code| *code < 2)
}

/// Formats of the columns of an answer: none for text, one for all, or one for each. Contracts see them as a list.
#[derive(Drop)]
pub struct ResultFormats {
    formats: Vec<ValueFormat>,
}

impl Model for ResultFormats {
    ghost use Rattle.std.specs.Prelude.{List};
    ghost use Rattle.postgres_messages.specs.declared.backend.ValueFormat.{ValueFormat};

    ghost Value = { List ValueFormat };

    ghost view = { λ f. f.formats.items };
}

impl ResultFormats {
    /// None.
    pub fn new(alloc: Global) -> ResultFormats
        ensures { result ≡ [] }
    {
        ResultFormats {
            formats: Vec::new(alloc),
        }
    }

    /// The formats, lent.
    pub fn as_slice(&self) -> &[ValueFormat]
        ensures { result.now ≡ self.now }
    {
        self.formats.as_slice()
    }

    /// Takes all away.
    pub fn clear(&mut self)
        ensures { self.new ≡ [] }
    {
        self.formats.clear();
    }
}

impl TryCopy for ResultFormats {
    fn try_copy(&self, alloc: Global) -> Result<ResultFormats, AllocError> {
        let mut formats = Vec::new(alloc);
        formats.extend_from_slice(&self.formats)?;
        Ok(ResultFormats { formats })
    }
}

// The formats that codes stand for.
pub(crate) fn formats_of(alloc: Global, codes: &[u16]) -> Result<ResultFormats, AllocError>
    ensures { IfOk result (λ formats. formats ≡ map format_of codes.now) }
{
    let mut formats = Vec::new(alloc);
    for code in codes {
        formats.push(format_of(*code))?;
    }
    Ok(ResultFormats { formats })
}

fn format_of(code: u16) -> ValueFormat
    ensures { result ≡ format_of code }
{
    if code == 0 {
        ValueFormat::Text
    } else {
        ValueFormat::Binary
    }
}

// The format of the next column: without formats all values are text, and one is for all.
pub(crate) fn next_format(formats: &[ValueFormat]) -> ValueFormat
    ensures { result ≡ next_format formats.now }
{
    match formats {
        [] => ValueFormat::Text,
        [first, ..] => *first,
    }
}

// Those of the columns behind it.
pub(crate) fn other_formats(formats: &[ValueFormat]) -> &[ValueFormat]
    ensures { result.now ≡ other_formats formats.now }
{
    match formats {
        [_, rest @ ..] if !rest.is_empty() => rest,
        _ => formats,
    }
}

// Whether there is at most one, or one for each of so many columns.
pub(crate) fn are_formats_for(formats: &[ValueFormat], columns: usize) -> bool
    ensures { result ≡ are_formats_for formats.now columns }
{
    match formats {
        [] => true,
        [_] => true,
        _ => formats.len() == columns,
    }
}
