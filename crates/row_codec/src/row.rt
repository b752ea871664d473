//! A row, read in place from the bytes of its record.

ghost use Rattle.std.specs.Prelude.{◌≡◌, ◌<◌, ◌≤◌, ℕ, List, Some, [], length, map, slice_index, slice_get, nat_eq, false, IfSome, IfNone, MatchOption};
ghost use Rattle.sql_types.specs.declared.value.Value.{Value};
ghost use Rattle.sql_ast.specs.Layout.{IsLayout};
ghost use Rattle.sql_types.specs.Row.{Row, value_at};
ghost use Rattle.sql_ast.specs.Fits.{FitsColumns, FitsColumnIfAny, FitsTable};
ghost use Rattle.row_codec.specs.Rows.{row_key, row_value, value_bytes, Spells};
ghost use Rattle.row_codec.specs.InPlace.{row_of, IsKeySpelled, HasKeyOf, AreOthersSpelled, SameKey};

use crate::cell::{key_cell_at, value_cell_at};
use crate::record::is_in_key;
use sql_ast::columns::{Columns, MAX_COLUMNS};
use sql_types::row::RowView;
use sql_types::value::ValueRef;
use std::marker::Model;
use storage_sizes::{MAX_ROW_KEY_LENGTH, MAX_VALUE_LENGTH};

// The value of each column at its index.
#[derive(Drop)]
struct Cells<'a> {
    values: [ValueRef<'a>; MAX_COLUMNS],
    ghost wide: { length values ≡ 16 },
}

/// A row whose texts stand in the bytes of its record, which contracts see as its values. It takes
/// 400 bytes, so it is read into a place that stays where it is.
#[derive(Drop)]
pub struct RowRef<'a> {
    cells: Cells<'a>,
    width: usize,
}

impl<'a> Model for RowRef<'a> {
    ghost use Rattle.sql_types.specs.Row.{Row};
    ghost use Rattle.row_codec.specs.InPlace.{row_of};

    ghost Value = { Row };

    ghost view = { λ r. row_of r.width r.cells.values };
}

impl<'a> RowView for RowRef<'a> {
    ghost use Rattle.std.specs.Prelude.{ℕ};
    ghost use Rattle.sql_types.specs.declared.value.Value.{Value};
    ghost use Rattle.row_codec.specs.InPlace.{table_cell};

    ghost cell = { table_cell };

    fn value(&self, table: usize, column: usize) -> ValueRef<'_> {
        if table > 0 || column >= self.width {
            return ValueRef::Null;
        }
        match self.cells.values.get(column) {
            Some(value) => *value,
            None => ValueRef::Null,
        }
    }
}

impl<'a> RowRef<'a> {
    /// A row of no columns, the place for one that is read.
    pub fn new() -> RowRef<'a>
        ensures { result ≡ [] }
    {
        let cells = Cells {
            values: [ValueRef::Null; MAX_COLUMNS],
        };
        RowRef { cells, width: 0 }
    }

    /// Reads the row that the bytes of a record spell, its key without the prefix that the table's
    /// keys have, in place of the row that was there. `None` where they spell no row that a table of
    /// these columns may hold; then the row has no columns.
    pub fn read(&mut self, columns: &Columns, key: &'a [u8], value: &'a [u8]) -> Option<()>
        ensures found { IfSome result (λ _. Spells columns.now key.now value.now self.new) }
        ensures none { IfNone result (self.new ≡ []) }
        ensures only { (row : Row) → Spells columns.now key.now value.now row
            → MatchOption result ⊥ (λ _. self.new ≡ row) }
    {
        self.width = 0;
        if key.len() > MAX_ROW_KEY_LENGTH || value.len() > MAX_VALUE_LENGTH {
            return None;
        }
        read_key(columns, key, &mut self.cells)?;
        read_others(columns, value, &mut self.cells)?;
        self.width = columns.as_slice().len();
        Some(())
    }
}

/// The row that the bytes of a record spell, its key without the prefix that the table's keys have.
/// `None` where they spell no row that a table of these columns may hold.
pub fn view<'a>(columns: &Columns, key: &'a [u8], value: &'a [u8]) -> Option<RowRef<'a>>
    ensures found { IfSome result (λ row. Spells columns.now key.now value.now row) }
    ensures only { (row : Row) → Spells columns.now key.now value.now row → result ≡ Some row }
{
    let mut row = RowRef::new();
    row.read(columns, key, value)?;
    Some(row)
}

// Reads the cells of the key columns from the key, each to its index. They are read in place: a row
// takes 400 bytes, which are not copied from one call to the next.
fn read_key<'a>(columns: &Columns, key: &'a [u8], cells: &mut Cells<'a>) -> Option<()>
    ensures found { IfSome result (λ _. IsKeySpelled columns.now key.now cells.new.values) }
    ensures only { (row : Row) → FitsColumns columns.now.columns row → key.now ≡ row_key columns.now row
        → MatchOption result ⊥ (λ _. HasKeyOf columns.now row cells.new.values) }
{
    let mut rest = key;
    for index in columns.key() {
        let column = columns.get(*index)?;
        let (value, after) = key_cell_at(column.column_type, rest)?;
        cells.values[*index] = value;
        rest = after;
    }
    if !rest.is_empty() {
        return None;
    }
    Some(())
}

// Reads the cells of the other columns from the bytes after the key, each to its index, beside those
// of the key columns.
fn read_others<'a>(columns: &Columns, bytes: &'a [u8], cells: &mut Cells<'a>) -> Option<()>
    requires short { length bytes.now ≤ MAX_VALUE_LENGTH }
    ensures found { IfSome result (λ _. AreOthersSpelled columns.now bytes.now cells.new.values) }
    ensures same_key { IfSome result (λ _. SameKey columns.now.key cells.old.values cells.new.values) }
    ensures only { (row : Row) → FitsColumns columns.now.columns row
        → HasKeyOf columns.now row cells.old.values → bytes.now ≡ row_value columns.now row
        → MatchOption result ⊥ (λ _. row_of (length columns.now.columns) cells.new.values ≡ row) }
{
    let mut unread = bytes;
    let key = columns.key();
    for (index, column) in columns.as_slice().iter().enumerate() {
        if is_in_key(key, index) {
            continue;
        }
        let (value, after) = value_cell_at(column, unread)?;
        cells.values[index] = value;
        unread = after;
    }
    if !unread.is_empty() {
        return None;
    }
    Some(())
}
