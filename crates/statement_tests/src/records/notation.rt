//! Bytes as a line writes them: pairs of hexadecimal digits, with spaces between any of them, and texts between single quotes.
//! `N*XX` is N times the byte XX.

use anyhow::Result;
use std::alloc::Global;
use store::Entry;

/// The record of a key and a value, which a slash parts. With no slash the value is empty.
pub fn record_of(alloc: Global, text: &str) -> Result<Entry> {
    let (key, value) = text.split_once('/').unwrap_or((text, ""));
    let key = bytes_of(alloc, key)?;
    let value = bytes_of(alloc, value)?;
    Ok(Entry::from_parts(key, value))
}

/// The bytes that a text writes.
fn bytes_of(alloc: Global, text: &str) -> Result<Vec<u8>> {
    let mut out = Vec::new(alloc);
    for (at, part) in text.split('\'').enumerate() {
        if at % 2 == 1 {
            out.extend_from_slice(part.as_bytes())?;
        } else {
            push_groups(alloc, &mut out, part)?;
        }
    }
    Ok(out)
}

/// Appends groups of digits with spaces between them.
fn push_groups(alloc: Global, out: &mut Vec<u8>, groups: &str) -> Result<()> {
    for group in groups.split(' ') {
        let (count, digits) = group.split_once('*').unwrap_or(("1", group));
        push_digits(alloc, out, count.parse().unwrap_or(0), digits)?;
    }
    Ok(())
}

/// Appends the bytes of digits so many times.
fn push_digits(alloc: Global, out: &mut Vec<u8>, count: usize, digits: &str) -> Result<()> {
    let bytes = hex::decode(alloc, digits)?;
    for _ in 0..count {
        out.extend_from_slice(bytes.as_slice())?;
    }
    Ok(())
}
