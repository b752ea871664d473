//! Where the bytes of a written text stand: in a word, in quotes, in a comment or in none of these.

ghost use Rattle.std.specs.Prelude.{◌≡◌, ◌<◌, ◌+◌, ◌^◌, ◌++◌, [], IfOk, if◌then◌else◌, slice_index};
ghost use Rattle.sql_lexer.specs.declared.class.Class.TheVariants as class;
ghost use Rattle.sql_lexer.specs.Class.{is_in};
ghost use Rattle.statement_parameters.specs.Masks.{is_foreign, is_in_comment, is_masked, masked, masked_from, place_behind, place_behind_comment, place_behind_first};
ghost use Rattle.statement_parameters.specs.Places.{comments_open};

use std::alloc::{AllocError, Global};

/// Where a byte of a written text stands.
#[derive(Clone, Copy)]
pub enum BytePlace {
    /// Between two tokens, or behind a byte that is no part of a word.
    Outside,
    /// Behind a byte of a word, which may go on.
    Word,
    /// Behind this quote, which was not closed.
    Quoted(u8),
    /// In a comment to the end of its line.
    Line,
    /// At the second byte of what opens a comment, in so many others.
    Opening(usize),
    /// In so many comments.
    Comment(usize),
    /// At the second byte of what closes the last of so many comments.
    Closing(usize),
}

fn begins_word(byte: u8) -> bool
    ensures { result ≡ is_in class.Start byte }
{
    byte.is_ascii_alphabetic() || byte == b'_' || 128 <= byte
}

fn continues_word(byte: u8) -> bool
    ensures { result ≡ is_in class.Inner byte }
{
    byte.is_ascii_alphanumeric() || byte == b'_' || byte == b'$' || 128 <= byte
}

fn continues_line(byte: u8) -> bool
    ensures { result ≡ is_in class.Line byte }
{
    byte != 10 && byte != 13 && byte != 0
}

fn place_behind_first(byte: u8, next: u8) -> BytePlace
    ensures { result ≡ place_behind_first byte next }
{
    if begins_word(byte) {
        BytePlace::Word
    } else if byte == b'\'' || byte == b'"' {
        BytePlace::Quoted(byte)
    } else if byte == b'-' && next == b'-' {
        BytePlace::Line
    } else if byte == b'/' && next == b'*' {
        BytePlace::Opening(0)
    } else {
        BytePlace::Outside
    }
}

fn place_behind_comment(depth: usize, byte: u8, next: u8) -> BytePlace
    ensures { result ≡ place_behind_comment depth byte next }
{
    if byte == b'/' && next == b'*' {
        BytePlace::Opening(depth)
    } else if byte == b'*' && next == b'/' {
        BytePlace::Closing(depth)
    } else {
        BytePlace::Comment(depth)
    }
}

fn place_behind_closing(depth: usize) -> BytePlace
    ensures { result ≡ place_behind (BytePlace.Closing depth) 47 0 }
{
    if depth == 1 {
        BytePlace::Outside
    } else {
        BytePlace::Comment(depth.saturating_sub(1))
    }
}

// Where the byte behind a byte stands, which is the next one.
fn place_behind(place: BytePlace, byte: u8, next: u8) -> BytePlace
    requires { comments_open place + 1 < 2 ^ 64 }
    ensures { result ≡ place_behind place byte next }
{
    match place {
        BytePlace::Outside => place_behind_first(byte, next),
        BytePlace::Word if continues_word(byte) => BytePlace::Word,
        BytePlace::Word => place_behind_first(byte, next),
        BytePlace::Quoted(quote) if byte == quote => BytePlace::Outside,
        BytePlace::Quoted(quote) => BytePlace::Quoted(quote),
        BytePlace::Line if continues_line(byte) => BytePlace::Line,
        BytePlace::Line => BytePlace::Outside,
        BytePlace::Opening(depth) => BytePlace::Comment(depth + 1),
        BytePlace::Comment(depth) => place_behind_comment(depth, byte, next),
        BytePlace::Closing(depth) => place_behind_closing(depth),
    }
}

fn is_in_comment(place: BytePlace) -> bool
    ensures { result ≡ is_in_comment place }
{
    matches!(
        place,
        BytePlace::Opening(_) | BytePlace::Comment(_) | BytePlace::Closing(_)
    )
}

// Whether a byte opens a comment, or is the sign of a parameter.
fn is_foreign(byte: u8, next: u8) -> bool
    ensures { result ≡ is_foreign byte next }
{
    (byte == b'/' && next == b'*') || (byte == b'$' && next.is_ascii_digit())
}

// Whether a byte at a place becomes a blank.
fn is_masked(place: BytePlace, byte: u8, next: u8) -> bool
    ensures { result ≡ is_masked place byte next }
{
    match place {
        BytePlace::Outside => is_foreign(byte, next),
        BytePlace::Word => !continues_word(byte) && is_foreign(byte, next),
        BytePlace::Quoted(_) | BytePlace::Line => false,
        _ => byte != 0,
    }
}

fn shown_byte(place: BytePlace, byte: u8, next: u8) -> u8
    ensures { result ≡ (if is_masked place byte next then 32 else byte) }
{
    if is_masked(place, byte, next) {
        b' '
    } else {
        byte
    }
}

fn first_or_zero(bytes: &[u8]) -> u8
    ensures { result ≡ slice_index bytes.now 0 }
{
    match bytes {
        [first, ..] => *first,
        [] => 0,
    }
}

// A written text in which each comment between `/*` and `*/`, and the sign of each parameter, are blanks.
pub(crate) fn masked(alloc: Global, text: &[u8]) -> Result<Vec<u8>, AllocError>
    ensures { IfOk result (λ shown. shown.items ≡ masked text.now) }
{
    let mut shown = Vec::new(alloc);
    let mut place = BytePlace::Outside;
    let mut rest = text;
    while let [byte, after @ ..] = rest {
        let next = first_or_zero(after);
        shown.push(shown_byte(place, *byte, next))?;
        place = place_behind(place, *byte, next);
        rest = after;
    }
    if is_in_comment(place) {
        shown.push(b'$')?;
    }
    Ok(shown)
}
