//! The changes that spell records of record format 1 in record format 2.

ghost use Rattle.std.specs.Prelude.{◌≡◌, ◌≢◌, [], Ok, Err, IfOk, map};
ghost use Rattle.std.specs.List.{AllByRecursion};
ghost use Rattle.storage_sizes.specs.declared.record_format.RecordFormat.TheVariants.{V2};
ghost use Rattle.store.specs.Records.{Records, IsOrdered, applied};
ghost use Rattle.store.specs.Readers.{HasRead};
ghost use Rattle.store.specs.Store.{StoreState};
ghost use Rattle.entry_differences.specs.Differences.{differences, applied_in_turn};
ghost use Rattle.recovery.specs.MigrationChanges.{HasRoom, with_its_place, MigratesRecords, MigratesRecordsFrom};

use crate::places::{RecordReader, placed_entries};
use catalogue_loading::load_items;
use entry_differences::push_differences;
use sql_types::items::Items;
use std::alloc::Global;
use storage_sizes::{RecordFormat, RecordKind};
use store::{Batch, Entry, Fault, Map, Store};

/// The changes that spell records of record format 1 in record format 2: each privilege descriptor
/// goes, and comes with a place; no other record changes. The map is only read.
///
/// Device: the map answered it. Damaged: a descriptor's record has no room for a place, so the
/// records stand for no database.
fn migration_changes<M: Map>(alloc: Global, map: &mut M) -> Result<Batch, Fault>
    ensures preserved { M.preserved map.old map.new }
    ensures read { HasRead result (M.state map.old) (M.state map.new) }
    ensures spelled { (M.state map.old).sound → MigratesRecords result (M.state map.old).map }
{
    let removed = match load_items(alloc, map, &[RecordKind::Descriptor as u8], &RecordReader) {
        Ok(removed) => removed,
        Err(fault) => return Err(fault),
    };
    place_changes(alloc, removed.as_slice())
}

// The changes that take records to the same with a place in each key. Damaged: one of them has no
// room for it.
fn place_changes(alloc: Global, removed: &[Entry]) -> Result<Batch, Fault>
    ensures placed { IfOk result (λ batch. (records : Records) → IsOrdered records
        → applied batch records
        ≡ applied_in_turn (differences removed.now (map with_its_place removed.now)) records) }
    ensures undamaged { AllByRecursion HasRoom removed.now → result ≢ Err Fault.Damaged }
    ensures no_device { result ≢ Err Fault.Device }
{
    let came = placed_entries(alloc, removed)?;
    let mut batch = Batch::new(alloc);
    push_differences(removed, came.as_slice(), &mut batch)?;
    Ok(batch)
}

/// No list where the records of a store are of record format 2. Where they are of the first,
/// the one list of changes that spell them in the second. The store is only read, in the second
/// record format not even that.
///
/// Device: the store answered it. Damaged: the records stand for no database. The last two never
/// come in record format 2.
pub fn migration_lists<S: Store>(alloc: Global, store: &mut S) -> Result<Items<Batch>, Fault>
    ensures preserved { S.preserved store.old store.new }
    ensures read { HasRead result (S.state store.old) (S.state store.new) }
    ensures spelled { (S.state store.old).sound
        → MigratesRecordsFrom (S.state store.old).record_format result (S.state store.old).map }
    ensures none { (S.state store.old).record_format ≡ V2
        → (result ≡ Ok []) × (store.new ≡ store.old) }
{
    let mut lists = Items::new(alloc);
    match store.record_format() {
        RecordFormat::V1 => match migration_changes(alloc, store) {
            Ok(batch) => lists.push(batch)?,
            Err(fault) => return Err(fault),
        },
        RecordFormat::V2 => {}
    }
    Ok(lists)
}
