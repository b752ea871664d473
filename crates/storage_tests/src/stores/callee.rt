//! What answers calls.

use crate::stores::call::CallWords;
use crate::transcript::Transcript;
use anyhow::Result;
use std::alloc::Global;

/// A thing of which lines make calls.
pub trait Callee {
    /// Makes a call, and tells a line where it answers something.
    fn make(&mut self, call: &CallWords<'_>, out: &mut Transcript) -> Result<()>;
}

/// Makes the calls of words, one after another.
pub fn make_calls<S: Callee>(
    alloc: Global,
    callee: &mut S,
    words: &str,
    out: &mut Transcript,
) -> Result<()> {
    for word in words.split(' ') {
        if !word.is_empty() {
            callee.make(&CallWords::new(alloc, word), out)?;
        }
    }
    Ok(())
}
