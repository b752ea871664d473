//! Calls as words write them.

use crate::transcript::Transcript;
use anyhow::Result;
use std::alloc::Global;
use std::fmt::Debug;
use storage_sizes::PAGE_SIZE;

/// A call as a word writes it: a name, and up to three arguments with colons before them. One that is not there is empty.
#[derive(Clone, Copy)]
pub struct CallWords<'a> {
    pub alloc: Global,
    pub word: &'a str,
    pub name: &'a str,
    pub first: &'a str,
    pub second: &'a str,
    pub third: &'a str,
}

impl<'a> CallWords<'a> {
    /// The call that a word writes.
    pub fn new(alloc: Global, word: &'a str) -> CallWords<'a> {
        let (name, arguments) = word.split_once(':').unwrap_or((word, ""));
        let (first, arguments) = arguments.split_once(':').unwrap_or((arguments, ""));
        let (second, third) = arguments.split_once(':').unwrap_or((arguments, ""));
        CallWords {
            alloc,
            word,
            name,
            first,
            second,
            third,
        }
    }

    /// Tells the call and its answer, on a line.
    pub fn answer(&self, out: &mut Transcript, answer: &str) {
        out.put_all(&[self.word, " ", answer, "\n"]);
    }

    /// Tells the call and a fault, on a line.
    pub fn answer_fault<F: Debug + Drop>(&self, out: &mut Transcript, fault: F) {
        out.put_all(&[self.word, " "]);
        out.put_debug(fault);
        out.put("\n");
    }

    /// Tells the call and a number, on a line.
    pub fn answer_number(&self, out: &mut Transcript, number: u64) {
        out.put(self.word);
        out.put_after_blank(number);
        out.put("\n");
    }

    /// Tells the call and bytes, on a line. The bytes are written as an argument is: of equal ones at the end, more than three
    /// are counted.
    pub fn answer_bytes(&self, out: &mut Transcript, bytes: &[u8]) {
        let last = bytes.last().copied().unwrap_or(0);
        let equal = equal_at_end(bytes, last);
        let counted = if equal > 3 { equal } else { 0 };
        let uncounted = bytes.len().saturating_sub(counted);
        out.put_all(&[self.word, " "]);
        out.put_bytes(bytes.get(..uncounted).unwrap_or(bytes));
        if counted > 0 {
            out.put(if uncounted > 0 { "+" } else { "" });
            out.put_number(counted as u64);
            out.put("*");
            out.put_bytes(&[last]);
        }
        out.put("\n");
    }
}

/// How many bytes at the end are equal to this one.
fn equal_at_end(bytes: &[u8], last: u8) -> usize {
    let mut equal = 0usize;
    for at in 0..bytes.len() {
        equal = if bytes[at] == last {
            equal.wrapping_add(1)
        } else {
            0
        };
    }
    equal
}

/// The number that an argument is.
pub fn number_in(argument: &str) -> u32 {
    argument.parse().unwrap_or(0)
}

/// The bytes that an argument writes.
pub fn bytes_in(alloc: Global, argument: &str) -> Result<Vec<u8>> {
    let mut bytes = Vec::new(alloc);
    for part in argument.split('+') {
        push_part(alloc, &mut bytes, part)?;
    }
    Ok(bytes)
}

/// Appends the bytes that a part of an argument writes.
fn push_part(alloc: Global, bytes: &mut Vec<u8>, part: &str) -> Result<()> {
    let (times, digits) = part.split_once('*').unwrap_or(("1", part));
    let part = hex::decode(alloc, digits)?;
    bytes.extend_from_slice(part.as_slice())?;
    let more = number_in(times).saturating_sub(1) as usize;
    let last = part.last().copied().unwrap_or(0);
    bytes.resize(bytes.len().saturating_add(more), last)?;
    Ok(())
}

/// Fills a page with the bytes that an argument writes, and zeros behind them.
pub fn fill(alloc: Global, argument: &str, page: &mut [u8; PAGE_SIZE]) -> Result<()> {
    let mut bytes = bytes_in(alloc, argument)?;
    bytes.resize(PAGE_SIZE, 0)?;
    page.copy_from_slice(bytes.as_slice());
    Ok(())
}
