//! The values of the key columns that bytes of a key spell.

ghost use Rattle.std.specs.Prelude.{IfOk};
ghost use Rattle.statement_explanations.specs.Keys.{AddsCells, AreKeyValues};

use row_codec::{LentRow, key_cell_at, push_row_prefix};
use sql_ast::columns::Columns;
use std::alloc::{AllocError, Global};

/// The values of the first columns of the key that bytes spell, which begin as the keys of the table of
/// this number do. `None` where they spell none.
pub(crate) fn key_values<'k>(
    alloc: Global,
    id: u32,
    columns: &Columns,
    bytes: &'k [u8],
) -> Result<Option<LentRow<'k>>, AllocError>
    ensures { IfOk result (AreKeyValues id columns.now bytes.now) }
{
    let mut prefix = Vec::new(alloc);
    push_row_prefix(&mut prefix, id)?;
    let Some(cells) = bytes.strip_prefix(prefix.as_slice()) else {
        return Ok(None);
    };
    let mut values = LentRow::new(alloc);
    if push_cells(columns, columns.key(), cells, &mut values)? {
        Ok(Some(values))
    } else {
        Ok(None)
    }
}

// Appends the values that cells spell of these columns of a key, and answers whether they spell no more.
fn push_cells<'k>(
    columns: &Columns,
    key: &[usize],
    cells: &'k [u8],
    values: &mut LentRow<'k>,
) -> Result<bool, AllocError>
    ensures { IfOk result (λ whole. AddsCells columns.now.columns key.now values.old cells.now whole values.new) }
{
    if cells.is_empty() {
        return Ok(true);
    }
    let Some((first, others)) = key.split_first() else {
        return Ok(false);
    };
    let Some(column) = columns.get(*first) else {
        return Ok(false);
    };
    match key_cell_at(column.column_type, cells) {
        None => Ok(false),
        Some((value, rest)) => {
            values.push(value)?;
            push_cells(columns, others, rest, values)
        }
    }
}
