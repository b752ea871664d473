//! Records of privilege descriptors that get a place.

ghost use Rattle.std.specs.Prelude.{◌≡◌, ◌≢◌, Err, IfOk, map, take, drop};
ghost use Rattle.std.specs.List.{AllByRecursion};
ghost use Rattle.store.specs.Records.{Record};
ghost use Rattle.catalogue_loading.specs.Decoding.{Decodes};
ghost use Rattle.recovery.specs.MigrationChanges.{HasRoom, IsAnything, with_its_place};

use catalogue_loading::ItemReader;
use std::alloc::{AllocError, Global};
use store::{Entry, Fault, MAX_KEY_LENGTH, MAX_VALUE_LENGTH};

/// Where the place of a column stands in the key of a descriptor: after the kind, the number of the
/// table and the action.
const PLACE: usize = 6;
/// The byte in the place where a descriptor is for the whole table.
const WHOLE_TABLE: u8 = 0;

/// The reader of records as they stand.
#[derive(Drop)]
pub(crate) struct RecordReader;

impl ItemReader for RecordReader {
    type Item = Entry;

    ghost use Rattle.store.specs.Records.{Record};
    ghost use Rattle.recovery.specs.MigrationChanges.{IsAnything};

    ghost IsValid = { λ reader. IsAnything };

    ghost spell = { λ reader e. e };

    fn read(&self, alloc: Global, entry: &Entry) -> Result<Entry, Fault> {
        Ok(copy_of(alloc, entry)?)
    }
}

// A copy of a record.
fn copy_of(alloc: Global, entry: &Entry) -> Result<Entry, AllocError>
    ensures { IfOk result (λ copy. copy ≡ entry.now) }
{
    let mut copy = Entry::new(alloc);
    copy.set(entry.key(), entry.value())?;
    Ok(copy)
}

/// The records with a place in each key. Damaged: one of them has no room for it.
pub(crate) fn placed_entries(alloc: Global, entries: &[Entry]) -> Result<Vec<Entry>, Fault>
    ensures placed { IfOk result (λ placed. placed.items ≡ map with_its_place entries.now) }
    ensures room { IfOk result (λ placed. AllByRecursion HasRoom entries.now) }
    ensures undamaged { AllByRecursion HasRoom entries.now → result ≢ Err Fault.Damaged }
    ensures no_device { result ≢ Err Fault.Device }
{
    let mut placed = Vec::new(alloc);
    for entry in entries {
        placed.push(placed_entry(alloc, entry)?)?;
    }
    Ok(placed)
}

// A record with a place in its key. Damaged: it has no room for it.
fn placed_entry(alloc: Global, entry: &Entry) -> Result<Entry, Fault>
    ensures placed { IfOk result (λ placed. placed ≡ with_its_place entry.now) }
    ensures room { IfOk result (λ placed. HasRoom entry.now) }
    ensures undamaged { HasRoom entry.now → result ≢ Err Fault.Damaged }
    ensures no_device { result ≢ Err Fault.Device }
{
    let key = entry.key();
    let value = entry.value();
    if key.is_empty() || key.len() >= MAX_KEY_LENGTH || value.len() > MAX_VALUE_LENGTH {
        return Err(Fault::Damaged);
    }
    let (front, rest) = split_at_place(key);
    let mut placed = Vec::from_slice(alloc, front)?;
    placed.push(WHOLE_TABLE)?;
    placed.extend_from_slice(rest)?;
    Ok(Entry::from_parts(placed, Vec::from_slice(alloc, value)?))
}

// What stands before the place, and what stands behind it.
fn split_at_place(key: &[u8]) -> (&[u8], &[u8])
    ensures front { result.0.now ≡ take 6 key.now }
    ensures rest { result.1.now ≡ drop 6 key.now }
{
    if key.len() < PLACE {
        return (key, &[]);
    }
    key.split_at(PLACE)
}
