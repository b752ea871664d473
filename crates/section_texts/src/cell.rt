//! What stands in a row under one column, and how it is written where it is read.

ghost use Rattle.std.specs.Prelude.{◌≡◌, ◌<◌, ◌++◌, ◌∷◌, [], false, map, OnOk, string_bytes};
ghost use Rattle.section_texts.specs.Sections.{cell_of, way_of};
ghost use Rattle.section_texts.specs.Cells.{separated, is_plain_byte, all_are_plain, is_plain, hex_digit, escaped_byte, escaped, shown_text, shown_names, shown_names_behind, shown_ways, shown_ways_behind, shown_cell};

use std::alloc::AllocError;

/// A membership: the member, and the role that it is in.
#[derive(Clone, Copy)]
pub struct MembershipWay<'a> {
    pub member: &'a str,
    pub role: &'a str,
}

/// What stands in a row under one column.
#[derive(Drop)]
pub enum SectionCell<'a> {
    /// A name, a word of SQL, or the text of a condition.
    Text(&'a str),
    Flag(bool),
    /// Names, in order.
    Names(Vec<&'a str>),
    /// Memberships, in order: of each the member, and the role that it is in.
    Ways(Vec<MembershipWay<'a>>),
    /// Every role.
    Everyone,
    /// What is not there, as the grantor of what the system gave.
    Absent,
}

/// Adds a cell as it is read: a text with letters, digits and `_` alone as it is; any other text, and PUBLIC where it is a name, in
/// double quotes, in which a quote and a backslash stand behind a backslash, and each byte of a character that ASCII has no sign for
/// as `\x` with two digits; names and memberships in parentheses, the latter as `bob in staff`; PUBLIC for every role, and `-` for what is not there. No two cells of one kind are
/// written alike.
pub(crate) fn push_cell(out: &mut String, cell: &SectionCell<'_>) -> Result<(), AllocError>
    ensures { OnOk result (string_bytes out.new ≡ string_bytes out.old ++ shown_cell (cell_of cell.now)) }
{
    match cell {
        SectionCell::Text(text) => push_text(out, text),
        SectionCell::Flag(true) => out.push_str("yes"),
        SectionCell::Flag(false) => out.push_str("no"),
        SectionCell::Names(names) => push_names(out, names.as_slice()),
        SectionCell::Ways(ways) => push_ways(out, ways.as_slice()),
        SectionCell::Everyone => out.push_str("PUBLIC"),
        SectionCell::Absent => out.push_str("-"),
    }
}

// Adds names in parentheses.
fn push_names(out: &mut String, names: &[&str]) -> Result<(), AllocError>
    ensures { OnOk result (string_bytes out.new ≡ string_bytes out.old ++ shown_names (map (λ n. n.now) names.now)) }
{
    out.push_str("(")?;
    push_behind(out, names)?;
    out.push_str(")")
}

// Adds names with a comma between two.
fn push_behind(out: &mut String, names: &[&str]) -> Result<(), AllocError>
    ensures { OnOk result (string_bytes out.new ≡ string_bytes out.old ++ shown_names_behind false (map (λ n. n.now) names.now)) }
{
    let mut later = false;
    let mut rest = names;
    while let [name, after @ ..] = rest {
        push_if(out, later, ", ")?;
        push_text(out, name)?;
        later = true;
        rest = after;
    }
    Ok(())
}

// Adds memberships in parentheses.
fn push_ways(out: &mut String, ways: &[MembershipWay<'_>]) -> Result<(), AllocError>
    ensures { OnOk result (string_bytes out.new ≡ string_bytes out.old ++ shown_ways (map way_of ways.now)) }
{
    out.push_str("(")?;
    push_ways_behind(out, ways)?;
    out.push_str(")")
}

// Adds memberships with a comma between two.
fn push_ways_behind(out: &mut String, ways: &[MembershipWay<'_>]) -> Result<(), AllocError>
    ensures { OnOk result (string_bytes out.new ≡ string_bytes out.old ++ shown_ways_behind false (map way_of ways.now)) }
{
    let mut later = false;
    let mut rest = ways;
    while let [way, after @ ..] = rest {
        push_if(out, later, ", ")?;
        push_text(out, way.member)?;
        out.push_str(" in ")?;
        push_text(out, way.role)?;
        later = true;
        rest = after;
    }
    Ok(())
}

/// Adds what separates two, where something stands before.
pub(crate) fn push_if(out: &mut String, later: bool, separator: &str) -> Result<(), AllocError>
    ensures { OnOk result (string_bytes out.new ≡ string_bytes out.old ++ separated later separator.now) }
{
    if later {
        out.push_str(separator)
    } else {
        Ok(())
    }
}

// Adds a text: as it is, or in quotes.
fn push_text(out: &mut String, text: &str) -> Result<(), AllocError>
    ensures { OnOk result (string_bytes out.new ≡ string_bytes out.old ++ shown_text text.now) }
{
    if is_plain(text.as_bytes()) {
        return out.push_str(text);
    }
    out.push_str("\"")?;
    push_escaped(out, text.as_bytes())?;
    out.push_str("\"")
}

// Whether a text needs no quotes.
fn is_plain(text: &[u8]) -> bool
    ensures { result ≡ is_plain text.now }
{
    !text.is_empty() && text != b"PUBLIC".as_slice() && are_plain(text)
}

// Whether each of these bytes is a letter, a digit or `_`.
fn are_plain(text: &[u8]) -> bool
    ensures { result ≡ all_are_plain text.now }
{
    let mut rest = text;
    while let [byte, after @ ..] = rest {
        if !is_plain_byte(*byte) {
            return false;
        }
        rest = after;
    }
    true
}

fn is_plain_byte(byte: u8) -> bool
    ensures { result ≡ is_plain_byte byte }
{
    (b'a' <= byte && byte <= b'z')
        || (b'A' <= byte && byte <= b'Z')
        || (b'0' <= byte && byte <= b'9')
        || byte == b'_'
}

// Adds bytes between quotes.
fn push_escaped(out: &mut String, text: &[u8]) -> Result<(), AllocError>
    ensures { OnOk result (string_bytes out.new ≡ string_bytes out.old ++ escaped text.now) }
{
    for byte in text {
        push_byte(out, *byte)?;
    }
    Ok(())
}

// Adds a byte between quotes.
fn push_byte(out: &mut String, byte: u8) -> Result<(), AllocError>
    ensures { OnOk result (string_bytes out.new ≡ string_bytes out.old ++ escaped_byte byte) }
{
    if byte == b'"' || byte == b'\\' {
        out.push_str("\\")?;
        return push_ascii(out, byte);
    }
    if 32 <= byte && byte < 127 {
        return push_ascii(out, byte);
    }
    out.push_str("\\x")?;
    push_ascii(out, hex_digit(byte / 16))?;
    push_ascii(out, hex_digit(byte % 16))
}

// Adds a byte of ASCII.
fn push_ascii(out: &mut String, byte: u8) -> Result<(), AllocError>
    requires { byte < 128 }
    ensures { OnOk result (string_bytes out.new ≡ string_bytes out.old ++ byte ∷ []) }
{
    out.push(char::from(byte))
}

// The digit of a number below 16.
fn hex_digit(number: u8) -> u8
    requires { number < 16 }
    ensures digit { result ≡ hex_digit number }
    ensures ascii { result < 128 }
{
    if number < 10 {
        b'0' + number
    } else {
        b'a' + (number - 10)
    }
}
