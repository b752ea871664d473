//! The words of a line.

/// A word: its name, and the numbers behind it, 0 where there are fewer.
#[derive(Clone, Copy)]
pub struct Word<'a> {
    pub name: &'a str,
    pub first: u32,
    pub second: u32,
    pub third: u32,
}

/// The word that a text writes.
pub fn word_of(text: &str) -> Word<'_> {
    let (name, rest) = text.split_once(':').unwrap_or((text, ""));
    let (first, rest) = number_in(rest);
    let (second, rest) = number_in(rest);
    let (third, _) = number_in(rest);
    Word {
        name,
        first,
        second,
        third,
    }
}

/// The number that a text begins with, 0 where there is none, and what stands behind it after a colon.
pub fn number_in(text: &str) -> (u32, &str) {
    let (number, rest) = text.split_once(':').unwrap_or((text, ""));
    (number.parse().unwrap_or(0), rest)
}

/// The last byte of a number.
pub fn byte_of(number: u32) -> u8 {
    (number % 256) as u8
}
