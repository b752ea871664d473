//! Labels of a SELECT's list.

use crate::printing::print_bytes;
use select_labels::unlabelled::{may_have_labels, without_labels};
use sql_lexer::lexer;
use sql_types::name::Name;
use std::alloc::Global;
use std::io;

/// Prints a blank and the label of an item, `-` for none.
fn print_label<R: Print>(rt: &R, alloc: Global, label: &Option<Name>) -> io::Result<()> {
    match label {
        Some(name) => print_bytes(rt, alloc, name.as_str().as_bytes()),
        None => print_bytes(rt, alloc, &[]),
    }
}

/// Prints a text without its labels, behind these.
fn print_unlabelled<R: Print>(rt: &R, alloc: Global, text: &str) -> io::Result<()> {
    let Some(made) = without_labels(alloc, text)? else {
        return println!(rt; "stays");
    };
    print!(rt; "made")?;
    for label in made.labels.as_slice() {
        print_label(rt, alloc, label)?;
    }
    println!(rt; " {}", made.text.as_str())
}

/// `labels TEXT`
pub fn labels<R: Print>(rt: &R, alloc: Global, text: &str) -> io::Result<()> {
    match lexer::tokens(alloc, text) {
        Ok(tokens) if !may_have_labels(&tokens) => println!(rt; "plain"),
        _ => print_unlabelled(rt, alloc, text),
    }
}
