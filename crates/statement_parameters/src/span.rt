//! Where the parts of a statement stand in its masked text.

ghost use Rattle.std.specs.Prelude.{◌≡◌, slice_range};

/// A part: a token of the language, or a parameter by its number.
#[derive(Clone, Copy)]
pub struct PartSpan {
    /// Where the blanks before it begin.
    pub from: usize,
    pub start: usize,
    pub end: usize,
    pub parameter: Option<u16>,
}

/// The parts of a statement, with its masked text.
#[derive(Clone, Copy)]
pub struct PartSpans<'a> {
    pub masked: &'a [u8],
    pub spans: &'a [PartSpan],
}

// The bytes from one place up to another, as far as they are there.
pub(crate) fn slice_of(bytes: &[u8], start: usize, end: usize) -> &[u8]
    ensures { result.now ≡ slice_range bytes.now start end }
{
    if end <= start || bytes.len() <= start {
        &[]
    } else if bytes.len() <= end {
        &bytes[start..]
    } else {
        &bytes[start..end]
    }
}
