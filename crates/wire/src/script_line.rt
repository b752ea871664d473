//! A line of a script, read.

ghost use Rattle.std.specs.Prelude.{◌≡◌, ◌<◌, ℕ, List, false};
ghost use Rattle.wire.specs.ScriptLine.{Request, Spells, ReadsAs};
ghost use Rattle.wire.specs.ScriptLine.{is_name_byte, is_session_name, IsNameSplit};

/// What a line of a script requests.
#[derive(Clone, Copy)]
pub enum Line<'a> {
    /// An empty line, or one that begins with `#`: it requests nothing.
    Skipped,
    /// `open NAME LOGIN`: opens the session NAME for the role LOGIN.
    Open { name: &'a str, login: &'a str },
    /// `NAME: TEXT`: the session NAME runs the statement TEXT.
    Statement { name: &'a str, text: &'a str },
    /// `close NAME`: closes the session NAME.
    Close { name: &'a str },
}

/// Whether a text may name a session: one or more ASCII letters, digits and `_`.
fn is_session_name(name: &str) -> bool
    ensures { result ≡ is_session_name name.now }
{
    !name.is_empty() && name.as_bytes().iter().all(|byte| is_name_byte(*byte))
}

fn is_name_byte(byte: u8) -> bool
    ensures { result ≡ is_name_byte byte }
{
    byte.is_ascii_alphanumeric() || byte == b'_'
}

/// The session name that a text begins with, and the text after `end`, a character that no name has
/// and that follows the name.
fn split_name(text: &str, end: char) -> Option<(&str, &str)>
    requires ascii { end < 128 }
    requires unnamed { is_name_byte end ≡ false }
    ensures { IsNameSplit end text.now result }
{
    let Some((name, rest)) = text.split_once(end) else {
        return None;
    };
    if !is_session_name(name) {
        return None;
    }
    Some((name, rest))
}

/// Reads a line, given without its newline; `None` is the answer for an invalid line. One space
/// follows `open`, the name of an opening, the colon of a statement, and `close`; all that comes
/// after it is LOGIN, TEXT or NAME.
pub fn read_line(line: &str) -> Option<Line<'_>>
    ensures { ReadsAs line.now result }
{
    if line.is_empty() {
        return Some(Line::Skipped);
    }
    if line.starts_with('#') {
        return Some(Line::Skipped);
    }
    if let Some(rest) = line.strip_prefix("open ") {
        return match split_name(rest, ' ') {
            Some((name, login)) => Some(Line::Open { name, login }),
            None => None,
        };
    }
    if let Some(name) = line.strip_prefix("close ") {
        if is_session_name(name) {
            return Some(Line::Close { name });
        }
        return None;
    }
    let Some((name, rest)) = split_name(line, ':') else {
        return None;
    };
    match rest.strip_prefix(' ') {
        Some(text) => Some(Line::Statement { name, text }),
        None => None,
    }
}

/// A line spells one request at most.
pub fn one_request()
    ensures { (line : List ℕ) (r s : Request) → Spells line r → Spells line s → r ≡ s }
{}
