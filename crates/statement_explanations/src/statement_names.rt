//! The names that the tables of a statement have there.

use sql_ast::statement::{FromClause, RowStatement, Select, TableReference};
use sql_types::name::Name;
use std::alloc::{AllocError, Global};

/// The names of the tables of a statement, in the order of FROM.
pub(crate) fn table_names(
    alloc: Global,
    statement: &RowStatement,
) -> Result<Vec<&Name>, AllocError> {
    match statement {
        RowStatement::Select(select) => selected_names(alloc, select),
        RowStatement::Insert(insert) => one_name(alloc, &insert.table),
        RowStatement::Update(update) => one_name(alloc, &update.table),
        RowStatement::Delete(delete) => one_name(alloc, &delete.table),
    }
}

fn one_name(alloc: Global, name: &Name) -> Result<Vec<&Name>, AllocError> {
    let mut names = Vec::new(alloc);
    names.push(name)?;
    Ok(names)
}

fn selected_names(alloc: Global, select: &Select) -> Result<Vec<&Name>, AllocError> {
    match &select.source {
        None => Ok(Vec::new(alloc)),
        Some(source) => names_in(alloc, &source.tables),
    }
}

fn names_in(alloc: Global, tables: &FromClause) -> Result<Vec<&Name>, AllocError> {
    let mut names = Vec::new(alloc);
    match tables {
        FromClause::List(references) => {
            for reference in references.as_slice() {
                names.push(name_of(reference))?;
            }
        }
        FromClause::Joined(first, joins) => {
            names.push(name_of(first))?;
            for join in joins.as_slice() {
                names.push(name_of(&join.table))?;
            }
        }
    }
    Ok(names)
}

// The name of a table in the statement: its alias where it has one.
fn name_of(reference: &TableReference) -> &Name {
    match &reference.alias {
        Some(alias) => alias,
        None => &reference.table,
    }
}
