//! Scripts with long lines, of which a file holds the parts.

use std::alloc::{AllocError, Global};

/// The text of a file in which `{N*X}` stands for N times X.
pub fn expanded(alloc: Global, text: &str) -> Result<String, AllocError> {
    let mut out = String::new(alloc);
    for (at, part) in text.split('{').enumerate() {
        match part.split_once('}') {
            Some((repeated, rest)) if at > 0 => {
                push_repeated(&mut out, repeated)?;
                out.push_str(rest)?;
            }
            _ => out.push_str(part)?,
        }
    }
    Ok(out)
}

/// Appends N times X for `N*X`, and nothing where there is no such number.
fn push_repeated(out: &mut String, repeated: &str) -> Result<(), AllocError> {
    let Some((count, text)) = repeated.split_once('*') else {
        return Ok(());
    };
    let count: u32 = count.parse().unwrap_or(0);
    for _ in 0..count {
        out.push_str(text)?;
    }
    Ok(())
}
