//! Says of texts, one a line, where they go wrong: the index of a byte, or `none` where `parse` does not refuse the text for its
//! syntax. That the text before it begins a statement is proved; here stand the places that were meant.
//!
//! Lines are read as those of the part `texts`.

use crate::texts::escapes::put_written_out;
use crate::told::Told;
use sql_parser::places::error_place;
use std::alloc::{AllocError, Global};

/// Tells a line as it is, or where its text goes wrong.
pub fn follow(alloc: Global, line: &str, out: &mut Told) -> Result<(), AllocError> {
    if line.starts_with("-- ") {
        out.put_line(&[line]);
        return Ok(());
    }
    let mut text = Told::new(alloc);
    put_written_out(&mut text, line);
    match error_place(alloc, text.text()?)? {
        Some(place) => out.put_number("", place as i128),
        None => out.put("none"),
    }
    out.put("\n");
    Ok(())
}
