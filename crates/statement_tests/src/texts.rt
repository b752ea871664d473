//! Parses texts, one a line, and tells for each what it stands for: the command with all its parts, in one
//! form for all its spellings, or `refused` and the code of the refusal. Names are printed without quotes, and operators with
//! parentheses. That `parse` answers what the grammar says is proved; here stand texts beside what they were meant to say.
//!
//! A line that begins with `-- ` is told as it is. In a text `\n`, `\r`, `\t`, `\f`, `\v` and `\0` stand for a newline,
//! a carriage return, a tab, a form feed, a vertical tab and a zero byte, `\s` for a space, and `{N*X}` for N times X.

pub mod escapes;
mod printed_expressions;
mod printed_sources;
mod printed_statements;

use crate::texts::escapes::put_written_out;
use crate::texts::printed_statements::put_statement;
use crate::told::Told;
use sql_parser::parse::parse;
use std::alloc::{AllocError, Global};

/// Tells a line as it is, or what its text stands for.
pub fn follow(alloc: Global, line: &str, out: &mut Told) -> Result<(), AllocError> {
    if line.starts_with("-- ") {
        out.put_line(&[line]);
        return Ok(());
    }
    let mut text = Told::new(alloc);
    put_written_out(&mut text, line);
    put_answer(alloc, text.text()?, out);
    Ok(())
}

/// Tells what a text stands for.
fn put_answer(alloc: Global, text: &str, out: &mut Told) {
    match parse(alloc, text) {
        Ok(statement) => put_statement(out, &statement),
        Err(refusal) => out.put_all(&["refused ", refusal.0.code()]),
    }
    out.put("\n");
}
