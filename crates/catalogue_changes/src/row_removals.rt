//! The removals of the records of a table's rows, added to the changes of a batch.

ghost use Rattle.std.specs.Prelude.{◌≡◌, ◌≢◌, [], ◌∷◌, Err, OnOk};
ghost use Rattle.store.specs.Records.{IsKeySize, entries_where, has_prefix};
ghost use Rattle.store.specs.Readers.{HasRead};
ghost use Rattle.store.specs.Walks.{left};
ghost use Rattle.row_codec.specs.Rows.{row_prefix};
ghost use Rattle.catalogue_changes.specs.Differences.{removal, differences};
ghost use Rattle.catalogue_changes.specs.Entries.{Adds};
ghost use Rattle.catalogue_changes.specs.Reads.{HaveKeySizes, RemovesNext};

use row_codec::push_row_prefix;
use std::alloc::Global;
use storage_sizes::MAX_KEY_LENGTH;
use store::{Batch, Cursor, Entry, Fault, Map};

/// Adds the removal of the record of each row of the table of this number. Device: the map answered
/// it. Damaged: a record's key has no size that a store takes.
pub(crate) fn push_row_removals<M: Map>(
    alloc: Global,
    table: u32,
    map: &mut M,
    out: &mut Batch,
) -> Result<(), Fault>
    ensures preserved { M.preserved map.old map.new }
    ensures read { HasRead result (M.state map.old) (M.state map.new) }
    ensures ok { (M.state map.old).sound → OnOk result (Adds (differences
        (entries_where (has_prefix (row_prefix table)) (M.state map.old).map) []) out.old out.new) }
    ensures undamaged { (M.state map.old).sound
        → HaveKeySizes (entries_where (has_prefix (row_prefix table)) (M.state map.old).map)
        → result ≢ Err Fault.Damaged }
{
    let mut prefix = Vec::new(alloc);
    push_row_prefix(&mut prefix, table)?;
    let mut cursor = Cursor::over(alloc, &prefix)?;
    push_removals(map, &mut cursor, out)
}

// Adds the removal of each record that a walk has yet to find.
fn push_removals<M: Map>(map: &mut M, cursor: &mut Cursor, out: &mut Batch) -> Result<(), Fault>
    ensures preserved { M.preserved map.old map.new }
    ensures read { HasRead result (M.state map.old) (M.state map.new) }
    ensures ok { (M.state map.old).sound → OnOk result
        (Adds (differences (left cursor.old (M.state map.old).map) []) out.old out.new) }
    ensures undamaged { (M.state map.old).sound
        → HaveKeySizes (left cursor.old (M.state map.old).map) → result ≢ Err Fault.Damaged }
{
    for _ in 0..u64::MAX {
        match push_next_removal(map, cursor, out) {
            Ok(true) => {}
            Ok(false) => return Ok(()),
            Err(fault) => return Err(fault),
        }
    }
    Err(Fault::Memory)
}

// Adds the removal of the next record that a walk finds. False: none is left.
fn push_next_removal<M: Map>(
    map: &mut M,
    cursor: &mut Cursor,
    out: &mut Batch,
) -> Result<bool, Fault>
    ensures preserved { M.preserved map.old map.new }
    ensures read { HasRead result (M.state map.old) (M.state map.new) }
    ensures moved { (M.state map.old).sound → RemovesNext result cursor.old cursor.new
        (M.state map.old).map out.old out.new }
{
    match cursor.advance(map) {
        Ok(true) => {}
        Ok(false) => return Ok(false),
        Err(fault) => return Err(Fault::from(fault)),
    }
    match push_key_removal(cursor.entry(), out) {
        Ok(()) => Ok(true),
        Err(fault) => Err(fault),
    }
}

// Adds the removal of a record. Damaged: its key has no size that a store takes.
fn push_key_removal(entry: &Entry, out: &mut Batch) -> Result<(), Fault>
    ensures ok { OnOk result (Adds (removal entry.now ∷ []) out.old out.new) }
    ensures undamaged { IsKeySize entry.now.0 → result ≢ Err Fault.Damaged }
    ensures no_device { result ≢ Err Fault.Device }
{
    let key = entry.key();
    if key.is_empty() || key.len() > MAX_KEY_LENGTH {
        return Err(Fault::Damaged);
    }
    // For the proof: the list is in order.
    let _in_order = out.pieces();
    out.remove(key)?;
    Ok(())
}
