//! The tables whose columns an expression may name, and the column that a name means there.

ghost use Rattle.std.specs.Prelude.{◌≡◌, option_to_list};
ghost use Rattle.sql_ast.specs.Scope.{type_at, table_of, tables_of, found_in, is_called, index_named};

use crate::columns::{ColumnType, Columns};
use crate::expression::ColumnName;
use sql_types::name::Name;
use sql_types::state::SqlState;
use sql_types::try_copy::TryCopy;
use std::alloc::{AllocError, Global};

/// Where a column is: the index of its table in a scope and its own index in that table, each
/// counted from 0.
#[derive(Clone, Copy, PartialEq, Eq)]
pub struct ColumnIndex {
    pub table: usize,
    pub column: usize,
}

impl TryCopy for ColumnIndex {
    fn try_copy(&self, _: Global) -> Result<ColumnIndex, AllocError> {
        Ok(*self)
    }
}

/// A table under the name that it has in a statement: its alias where it has one.
#[derive(Clone, Copy)]
pub struct ScopeTable<'a> {
    pub name: &'a Name,
    pub columns: &'a Columns,
}

/// The tables whose columns an expression may name, in the order of the text.
#[derive(Clone, Copy)]
pub struct Scope<'a> {
    pub tables: &'a [ScopeTable<'a>],
}

impl<'a> Scope<'a> {
    /// The one column that a name means. `UndefinedColumn` comes where no table of the
    /// scope has it, also where no table is called as its table part says, and `AmbiguousColumn`
    /// where it is found more than once.
    pub fn find(&self, name: &ColumnName) -> Result<ColumnIndex, SqlState>
        ensures { result ≡ found_in (tables_of self.now) name.now }
    {
        let mut found = None;
        for (index, table) in self.tables.iter().enumerate() {
            if let Some(column) = index_named(index, table, name) {
                if found.is_some() {
                    return Err(SqlState::AmbiguousColumn);
                }
                found = Some(column);
            }
        }
        found.ok_or(SqlState::UndefinedColumn)
    }

    /// The type of the column of an index, or `None` where there is none.
    pub fn type_at(&self, index: ColumnIndex) -> Option<ColumnType>
        ensures { result ≡ type_at (tables_of self.now) index }
    {
        let table = self.tables.get(index.table)?;
        let column = table.columns.get(index.column)?;
        Some(column.column_type)
    }
}

fn is_called(table: &ScopeTable<'_>, name: &Option<Name>) -> bool
    ensures { result ≡ is_called table.now.name.now name.now }
{
    match name {
        None => true,
        Some(name) => table.name == name,
    }
}

fn index_named(index: usize, table: &ScopeTable<'_>, name: &ColumnName) -> Option<ColumnIndex>
    ensures { option_to_list result ≡ index_named index (table_of table.now) name.now }
{
    if !is_called(table, &name.table) {
        return None;
    }
    let column = table.columns.find(&name.column)?;
    Some(ColumnIndex {
        table: index,
        column,
    })
}
