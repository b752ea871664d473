//! New rows of a table among the changes of a statement.
ghost use Rattle.std.specs.Prelude.{◌≡◌, IfOk, IfErr, OnOk, List, length};
ghost use Rattle.std.specs.List.{AllByRecursion};
ghost use Rattle.sql_types.specs.Row.{Row};
ghost use Rattle.sql_ast.specs.Rows.{KeepsLimits};
ghost use Rattle.sql_ast.specs.Fits.{FitsTable};
ghost use Rattle.store.specs.Records.{applied, IsOrdered};
ghost use Rattle.sql_ast.specs.Layout.{IsLayout};
ghost use Rattle.abstract_database.specs.Whole.{Each};
ghost use Rattle.stored_database.specs.RecordFormat.{row_record};
ghost use Rattle.store.specs.StatementError.{ReadsMap};
ghost use Rattle.table_rows.specs.Failures.{IsDamagedFor};
ghost use Rattle.table_rows.specs.HeldRows.{HoldsRows, ConcernRowsOf};
ghost use Rattle.table_rows.specs.Puts.{FindsKey, PutsRecord, PutsRows};

use row_codec::{LentRow, push_row_key, push_row_prefix, push_row_value, size_of_cells};
use sql_ast::columns::Columns;
use sql_types::state::SqlState;
use std::alloc::{AllocError, Global};
use store::{Batch, Map, StatementError, StoreFault};

// What the keys of a table's rows begin with has so many bytes.
const PREFIX_LENGTH: usize = 5;

/// Puts new rows of the table of this number among the changes of a statement. `UniqueViolation`
/// where one has the key of another, of a row of the table after those changes or of a new one
/// before it. The faults are Memory and Device.
pub fn put_rows<M: Map>(
    alloc: Global,
    records: &mut M,
    id: u32,
    columns: &Columns,
    rows: &[LentRow<'_>],
    changes: &mut Batch,
) -> Result<(), StatementError>
    requires { AllByRecursion (KeepsLimits columns.now) rows.now }
    ensures preserved { M.preserved records.old records.new }
    ensures reads { ReadsMap result (M.state records.old) (M.state records.new) }
    ensures cost { M.cost records.old records.new (length rows.now) }
    ensures puts { (M.state records.old).sound → (others : List Row) → IsLayout columns.now
        → IsOrdered changes.old
        → HoldsRows id columns.now (applied changes.old (M.state records.old).map) others
        → Each (FitsTable columns.now) rows.now
        → PutsRows result id columns.now rows.now others (M.state records.old).map changes.old
        changes.new }
    ensures concern { OnOk result (ConcernRowsOf id changes.old → ConcernRowsOf id changes.new) }
    ensures undamaged { (M.state records.old).sound → IfErr result (IsDamagedFor ⊥) }
{
    for row in rows {
        put_row(alloc, records, id, columns, row, changes)?;
    }
    Ok(())
}

// Puts one new row, unless its key is there. Its record is written once, into the memory that it
// keeps.
fn put_row<M: Map>(
    alloc: Global,
    records: &mut M,
    id: u32,
    columns: &Columns,
    row: &LentRow<'_>,
    changes: &mut Batch,
) -> Result<(), StatementError>
    requires { KeepsLimits columns.now row.now }
    ensures preserved { M.preserved records.old records.new }
    ensures reads { ReadsMap result (M.state records.old) (M.state records.new) }
    ensures cost { M.cost records.old records.new 1 }
    ensures puts { (M.state records.old).sound
        → PutsRecord result (row_record id columns.now row.now) (M.state records.old).map
        changes.old changes.new }
    ensures concern { OnOk result (ConcernRowsOf id changes.old → ConcernRowsOf id changes.new) }
{
    let mut record = key_of(alloc, id, columns, row)?;
    if has_key(records, changes, &record)? {
        return Err(StatementError::Refused(SqlState::UniqueViolation));
    }
    let key_length = record.len();
    push_row_value(columns, row, &mut record)?;
    changes.put_record(record, key_length)?;
    Ok(())
}

// The key of a row's record, with room for its value behind it.
fn key_of(
    alloc: Global,
    id: u32,
    columns: &Columns,
    row: &LentRow<'_>,
) -> Result<Vec<u8>, AllocError>
    ensures { IfOk result (λ key. key.items ≡ (row_record id columns.now row.now).0) }
{
    let size = size_of_cells(columns, row).saturating_add(PREFIX_LENGTH);
    let mut key = Vec::with_capacity(alloc, size)?;
    push_row_prefix(&mut key, id)?;
    push_row_key(columns, row, &mut key)?;
    Ok(key)
}

// Whether a key is there in the records after these changes: the changes of the statement say it,
// or else the map does.
fn has_key<M: Map>(records: &mut M, changes: &Batch, key: &[u8]) -> Result<bool, StoreFault>
    ensures preserved { M.preserved records.old records.new }
    ensures cost { M.cost records.old records.new 1 }
    ensures finds { FindsKey key.now changes.now result (M.state records.old)
        (M.state records.new) }
{
    match changes.find(key) {
        Some(change) => Ok(change.is_put()),
        None => records.contains(key),
    }
}
