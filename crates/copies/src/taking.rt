//! Records that a walk takes into a batch.
ghost use Rattle.std.specs.Prelude.{◌≡◌, ◌≢◌, Some, Ok, Err, IfErr, IfOk, false};
ghost use Rattle.store.specs.Records.{Records, IsChangeSize, changed};
ghost use Rattle.store.specs.Readers.{HasRead};
ghost use Rattle.store.specs.Steps.{Takes};
ghost use Rattle.copies.specs.RecordCopies.{Fills, HasOutsized};

use store::{Batch, EntryRef, Fault, MAX_KEY_LENGTH, MAX_VALUE_LENGTH, Map};

// The records of one commit, at most.
const BATCH_RECORDS: usize = 1 << 18;

// The bytes of keys and values of one commit: once there are so many, no record is added. Each commit is synced twice, so few
// are made; and however many records there are, no more memory is taken than for those of one.
const BATCH_BYTES: u64 = 1 << 24;

// Puts a record into a batch. Damaged: it is of no size that a store takes.
fn put_record(batch: &mut Batch, entry: &EntryRef<'_>) -> Result<(), Fault>
    ensures put { IfOk result (λ x. batch.new ≡ changed entry.now.0 (Some (Some entry.now.1)) batch.old) }
    ensures damaged { IfErr result (λ fault. fault ≡ Fault.Damaged
        → IsChangeSize (entry.now.0, Some entry.now.1) → ⊥) }
    ensures no_read { result ≢ Err Fault.Device }
{
    if entry.key.is_empty()
        || entry.key.len() > MAX_KEY_LENGTH
        || entry.value.len() > MAX_VALUE_LENGTH
    {
        return Err(Fault::Damaged);
    }
    batch.put(entry.key, entry.value)?;
    Ok(())
}

// Takes the first record ahead of a place into a batch, and adds its bytes to those that were taken. False: none is ahead.
fn take_record<M: Map>(
    source: &mut M,
    place: &mut M::Place,
    batch: &mut Batch,
    bytes: &mut u64,
) -> Result<bool, Fault>
    ensures preserved { M.preserved source.old source.new }
    ensures read { HasRead result (M.state source.old) (M.state source.new) }
    ensures taken { (M.state source.old).sound → (records : Records) → M.ahead source.old place.old records
        → IfOk result (λ found. Takes (λ e. batch.new ≡ changed e.0 (Some (Some e.1)) batch.old)
        (M.ahead source.new place.new) found records) }
    ensures damaged { (M.state source.old).sound → (records : Records) → M.ahead source.old place.old records
        → IfErr result (λ fault. fault ≡ Fault.Damaged → HasOutsized records) }
    ensures none { result ≡ Ok false → batch.new ≡ batch.old }
{
    if !source.step(place)? {
        return Ok(false);
    }
    let found = source.entry(place);
    *bytes = bytes
        .saturating_add(found.key.len() as u64)
        .saturating_add(found.value.len() as u64);
    put_record(batch, &found)?;
    Ok(true)
}

/// Takes records ahead of a place into a batch, up to those of one commit, and adds their bytes to those that were taken. False:
/// none is left ahead.
pub fn take_records<M: Map>(
    source: &mut M,
    place: &mut M::Place,
    batch: &mut Batch,
    bytes: &mut u64,
) -> Result<bool, Fault>
    ensures preserved { M.preserved source.old source.new }
    ensures read { HasRead result (M.state source.old) (M.state source.new) }
    ensures filled { (M.state source.old).sound → (records : Records) → M.ahead source.old place.old records
        → IfOk result (λ more. Fills (M.ahead source.new place.new) more records batch.old batch.new) }
    ensures damaged { (M.state source.old).sound → (records : Records) → M.ahead source.old place.old records
        → IfErr result (λ fault. fault ≡ Fault.Damaged → HasOutsized records) }
{
    let most = bytes.saturating_add(BATCH_BYTES);
    for _ in 0..BATCH_RECORDS {
        if *bytes >= most {
            return Ok(true);
        }
        if !take_record(source, place, batch, bytes)? {
            return Ok(false);
        }
    }
    Ok(true)
}
