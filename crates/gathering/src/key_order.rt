//! Sort keys in whose order the rows of a table stand already.
ghost use Rattle.std.specs.Prelude.{◌≡◌};
ghost use Rattle.sql_ast.specs.Term.{term_of};
ghost use Rattle.gathering.specs.Joins.{column_in};
ghost use Rattle.gathering.specs.KeyOrder.{is_own_column, is_ascending_by, are_first_of};

use crate::join::column_in;
use crate::query::TypedSortKey;
use sql_ast::scope::ColumnIndex;

/// Whether the sort keys are the first of these columns of the first table, each ascending.
pub fn are_first_of(columns: &[usize], keys: &[TypedSortKey]) -> bool
    ensures { result ≡ are_first_of columns.now keys.now }
{
    let mut left = columns;
    for key in keys {
        let Some((index, others)) = left.split_first() else {
            return false;
        };
        if !is_ascending_by(*index, key) {
            return false;
        }
        left = others;
    }
    true
}

// Whether rows are sorted by the first table's column of the index, ascending.
fn is_ascending_by(index: usize, key: &TypedSortKey) -> bool
    ensures { result ≡ is_ascending_by index key.now }
{
    !key.descending && is_own_column(index, column_in(key.value.tree()))
}

// Whether this is the first table's column of the index.
fn is_own_column(index: usize, column: Option<ColumnIndex>) -> bool
    ensures { result ≡ is_own_column index column }
{
    match column {
        None => false,
        Some(column) => column.table == 0 && column.column == index,
    }
}
