//! The look-up of a verifier.

ghost use Rattle.std.specs.Prelude.{◌≡◌, ◌++◌, ℕ, List, Some, None, IfOk, MatchOption};
ghost use Rattle.sql_types.specs.Row.{Row, value_at};
ghost use Rattle.sql_types.specs.Value.{owned};
ghost use Rattle.sql_types.specs.declared.value.Value.TheVariants as values;
ghost use Rattle.store.specs.Readers.{HasRead};
ghost use Rattle.store.specs.Records.{entry_at};
ghost use Rattle.row_codec.specs.Cells.{key_cell};
ghost use Rattle.row_codec.specs.Rows.{row_prefix, Spells};
ghost use Rattle.abstract_database.specs.Database.{Database};
ghost use Rattle.stored_database.specs.Records.{Shows};
ghost use Rattle.kept_verifiers.specs.Verifiers.{text_in, kept_text, IsFoundKept, ReadsNone};

use crate::table::{may_log_in, verifier_table};
use catalogue::definitions::Catalogue;
use row_codec::{push_key_cell, push_row_prefix, view};
use sql_ast::columns::Columns;
use sql_types::name::Name;
use sql_types::row::RowView;
use sql_types::text::Text;
use sql_types::value::ValueRef;
use std::alloc::{AllocError, Global};
use store::{Entry, Fault, Map};

/// The text that the table of this name keeps for a role, over a map whose definitions are those of the
/// catalogue. One record is read at most, that of the role's row.
///
/// `None`: the role may not log in, the table keeps no verifiers, it has no row of the role, or a null in
/// it. The table keeps verifiers where it has two columns of text, of which the first alone is its key,
/// and its owner is a superuser. Memory: an allocation failed. Device: the device of the map failed.
/// Damaged: the record is one that no database has, which never comes over a map that shows a database.
pub fn verifier_of<M: Map>(
    alloc: Global,
    map: &mut M,
    catalogue: &Catalogue,
    table: &Name,
    role: &str,
) -> Result<Option<Text>, Fault>
    ensures preserved { M.preserved map.old map.new }
    ensures read { HasRead result (M.state map.old) (M.state map.new) }
    ensures cost { M.cost map.old map.new 1 }
    ensures kept { (M.state map.old).sound → (db : Database)
        → Shows (M.state map.old).map catalogue.now db
        → IsFoundKept (kept_text db table.now role.now) result }
{
    if !may_log_in(catalogue.roles(), role) {
        return Ok(None);
    }
    let Some(table) = verifier_table(catalogue, table) else {
        return Ok(None);
    };
    match row_key(alloc, table.id(), role) {
        Ok(key) => text_at(alloc, map, table.columns(), &key),
        Err(_) => Err(Fault::Memory),
    }
}

// The key of a role's row in the table of this number.
fn row_key(alloc: Global, table: u32, role: &str) -> Result<Vec<u8>, AllocError>
    ensures { IfOk result (λ key. key.items ≡ row_prefix table ++ key_cell (values.Text role.now)) }
{
    let mut key = Vec::new(alloc);
    push_row_prefix(&mut key, table)?;
    push_key_cell(&mut key, ValueRef::Text(role))?;
    Ok(key)
}

// The text in the second column of the row that the record of this key spells, or `None` where there is
// no such record, or no text in that column.
fn text_at<M: Map>(
    alloc: Global,
    map: &mut M,
    columns: &Columns,
    key: &[u8],
) -> Result<Option<Text>, Fault>
    ensures preserved { M.preserved map.old map.new }
    ensures read { HasRead result (M.state map.old) (M.state map.new) }
    ensures cost { M.cost map.old map.new 1 }
    ensures none { (M.state map.old).sound → entry_at key.now (M.state map.old).map ≡ None
        → IsFoundKept None result }
    ensures some { (M.state map.old).sound → (id : ℕ) (rest value : List ℕ) (row : Row)
        → entry_at key.now (M.state map.old).map ≡ Some (row_prefix id ++ rest, value)
        → Spells columns.now rest value row
        → IsFoundKept (text_in (value_at row 1)) result }
{
    let mut entry = Entry::new(alloc);
    match map.get(key, &mut entry) {
        Ok(true) => text_in(alloc, columns, &entry),
        Ok(false) => Ok(None),
        Err(fault) => Err(Fault::from(fault)),
    }
}

// The text in the second column of the row that a record spells, or `None` where none stands there. The
// faults are Memory, and Damaged where it spells no row.
fn text_in(alloc: Global, columns: &Columns, entry: &Entry) -> Result<Option<Text>, Fault>
    ensures reads_none { ReadsNone result }
    ensures some { (id : ℕ) (rest : List ℕ) (row : Row) → entry.now.0 ≡ row_prefix id ++ rest
        → Spells columns.now rest entry.now.1 row
        → IsFoundKept (text_in (value_at row 1)) result }
{
    let Some(key) = after_prefix(entry.key()) else {
        return Err(Fault::Damaged);
    };
    match view(columns, key, entry.value()) {
        Some(row) => copied(alloc, row.value(0, 1)),
        None => Err(Fault::Damaged),
    }
}

// What follows the prefix that the keys of a table's rows have.
fn after_prefix(key: &[u8]) -> Option<&[u8]>
    ensures { (id : ℕ) (rest : List ℕ) → key.now ≡ row_prefix id ++ rest
        → MatchOption result ⊥ (λ found. found.now ≡ rest) }
{
    key.get(5..)
}

// A copy of a text, or `None` of another value. The only fault is Memory.
fn copied(alloc: Global, value: ValueRef<'_>) -> Result<Option<Text>, Fault>
    ensures reads_none { ReadsNone result }
    ensures text { IsFoundKept (text_in (owned value.entry)) result }
{
    match value {
        ValueRef::Text(text) => match Text::from_str(alloc, text) {
            Ok(text) => Ok(Some(text)),
            Err(_) => Err(Fault::Memory),
        },
        ValueRef::Null | ValueRef::Int(_) | ValueRef::Bool(_) => Ok(None),
    }
}
