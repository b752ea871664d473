//! Names and values as they are written in SQL.

use sql_lexer::lexer::tokens;
use sql_lexer::token::{Token, TokenKind};
use sql_types::value::ValueRef;
use std::alloc::{AllocError, Global};

/// Adds a value as a literal (SQL:2016 Foundation, 5.3).
pub(crate) fn push_value(
    alloc: Global,
    out: &mut String,
    value: ValueRef<'_>,
) -> Result<(), AllocError> {
    match value {
        ValueRef::Null => out.push_str("NULL"),
        ValueRef::Int(number) => {
            let digits = format!(in alloc; "{number}")?;
            out.push_str(digits.as_str())
        }
        ValueRef::Text(text) => push_quoted(out, text, '\''),
        ValueRef::Bool(true) => out.push_str("TRUE"),
        ValueRef::Bool(false) => out.push_str("FALSE"),
    }
}

/// Adds a name, in quotes where it is not read as this name without them (SQL:2016 Foundation, 5.4).
pub(crate) fn push_name(alloc: Global, out: &mut String, name: &str) -> Result<(), AllocError> {
    if is_plain(name) && is_one_name(alloc, name) {
        out.push_str(name)
    } else {
        push_quoted(out, name, '"')
    }
}

// Whether a name has small letters, digits and `_` alone, and begins with no digit.
fn is_plain(name: &str) -> bool {
    begins_plainly(name) && name.bytes().all(is_plain_byte)
}

// Whether a text is one token, and no reserved word.
fn is_one_name(alloc: Global, text: &str) -> bool {
    match tokens(alloc, text) {
        Ok(found) => is_name_alone(found.as_slice()),
        Err(_) => false,
    }
}

fn is_name_alone(tokens: &[Token<'_>]) -> bool {
    match tokens {
        [token] => !matches!(token.kind, TokenKind::Reserved(_)),
        _ => false,
    }
}

fn begins_plainly(name: &str) -> bool {
    match name.as_bytes().first() {
        Some(byte) => !byte.is_ascii_digit(),
        None => false,
    }
}

fn is_plain_byte(byte: u8) -> bool {
    byte.is_ascii_lowercase() || byte.is_ascii_digit() || byte == b'_'
}

// Adds a text between quotes, and each quote in it twice.
fn push_quoted(out: &mut String, text: &str, quote: char) -> Result<(), AllocError> {
    out.push(quote)?;
    for c in text.chars() {
        if c == quote {
            out.push(quote)?;
        }
        out.push(c)?;
    }
    out.push(quote)
}
