//! Texts in which some characters are written as others.

use crate::told::Told;

/// Tells the text that a line writes: `{N*X}` is N times X, and a backslash with a letter one character.
pub fn put_written_out(out: &mut Told, line: &str) {
    for (at, part) in line.split('{').enumerate() {
        match part.split_once('}') {
            Some((repeated, rest)) if at > 0 => {
                put_repeated(out, repeated);
                put_plain(out, rest);
            }
            _ => put_plain(out, part),
        }
    }
}

/// Tells N times X for `N*X`, and nothing where there is no such number.
fn put_repeated(out: &mut Told, repeated: &str) {
    let (count, text) = repeated.split_once('*').unwrap_or(("", repeated));
    for _ in 0..count.parse::<u32>().unwrap_or(0) {
        put_plain(out, text);
    }
}

/// Tells a text in which a backslash and a letter stand for one character.
fn put_plain(out: &mut Told, text: &str) {
    let mut is_escaped = false;
    for letter in text.chars() {
        if is_escaped {
            out.put_char(meant(letter));
            is_escaped = false;
        } else if letter == '\\' {
            is_escaped = true;
        } else {
            out.put_char(letter);
        }
    }
}

/// The character that a letter after a backslash stands for.
fn meant(letter: char) -> char {
    match letter {
        'n' => '\n',
        'r' => '\r',
        't' => '\t',
        'f' => '\u{c}',
        'v' => '\u{b}',
        '0' => '\0',
        's' => ' ',
        other => other,
    }
}
