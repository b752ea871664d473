//! Sections: what a description has of one kind, as rows under the names of their columns.

use sql_types::name::Name;
use std::alloc::{AllocError, Global};

/// What stands in a row under one column.
#[derive(Clone, Copy)]
pub enum Cell<'a> {
    /// A name, a word of SQL, or the text of a condition.
    Text(&'a str),
    Flag(bool),
    Number(usize),
    /// Names of roles.
    Names(&'a [Name]),
    /// Every role.
    Public,
    /// What is not there, as the column of a privilege on a whole table.
    Absent,
}

/// What a description has of one kind.
#[derive(Drop)]
pub struct Section<'a> {
    pub name: &'static str,
    pub columns: &'static [&'static str],
    /// In each as many cells as there are columns.
    pub rows: Vec<Vec<Cell<'a>>>,
}

impl<'a> Section<'a> {
    /// A section with no rows, for which no memory is taken.
    pub fn new(alloc: Global, name: &'static str, columns: &'static [&'static str]) -> Section<'a> {
        Section {
            name,
            columns,
            rows: Vec::new(alloc),
        }
    }

    /// Adds a row.
    pub fn push(&mut self, row: Vec<Cell<'a>>) -> Result<(), AllocError> {
        self.rows.push(row)?;
        Ok(())
    }
}
