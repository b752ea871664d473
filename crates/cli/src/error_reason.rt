//! What is wrong with words that do not fit the grammar, as `clap` tells it.

use clap::Error;
use std::fmt;
use std::fmt::Write;

/// The reason that `clap` gives for a mistake, without its `error: `, without the usage that follows
/// it, and without the tip to write the wrong word after `--`, which it gives also where the word is
/// the value of an option: there that makes it a FILE.
#[derive(Drop)]
pub(crate) struct ErrorReason<'e>(pub(crate) &'e Error);

impl fmt::Display for ErrorReason<'_> {
    fn fmt<W: fmt::Write>(&self, f: &mut fmt::Formatter<W>) -> fmt::Result {
        let mut reason = ReasonWriter { out: f };
        write!(reason, "{}", self.0)
    }
}

/// Passes of the text of an error its reason on. `clap` writes the text in one piece.
#[derive(Drop)]
struct ReasonWriter<'f, W> {
    out: &'f mut fmt::Formatter<W>,
}

impl<W: fmt::Write> fmt::Write for ReasonWriter<'_, W> {
    fn write_str(&mut self, text: &str) -> fmt::Result {
        self.out.write_str(reason_in(text))
    }
}

/// What stands in the text of an error between its `error: ` and the wrong tip or what follows.
fn reason_in(text: &str) -> &str {
    let text = text.strip_prefix("error: ").unwrap_or(text);
    let text = before(text, "\n\nFor more information");
    let text = before(text, "\n\nUsage: ");
    before(text, "\n  tip: to pass '").trim_end()
}

/// What stands before the last place of a mark, or the whole text where there is none.
fn before<'t>(text: &'t str, mark: &str) -> &'t str {
    match text.rsplit_once(mark) {
        Some((before, _)) => before,
        None => text,
    }
}
