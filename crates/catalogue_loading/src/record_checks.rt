//! Checks of the records of one kind, of which nothing is kept.

ghost use Rattle.std.specs.Prelude.{◌≡◌, ◌↔◌, IsTrue};
ghost use Rattle.store.specs.Records.{Record, Records};
ghost use Rattle.store.specs.Readers.{HasRead};
ghost use Rattle.store.specs.Steps.{AheadWithin};
ghost use Rattle.store.specs.Store.{StoreState};
ghost use Rattle.store.specs.Walks.{is_within};
ghost use Rattle.catalogue_loading.specs.RecordChecks.{ChecksRecords, Tests};

use store::{EntryRef, Fault, Map, begins_with, comes_before};

/// A test of one record.
pub trait RecordTest {
    /// The record is as it is to be.
    ghost Passes: { Self → Record → Type 0 };

    /// Whether a record is as it is to be. It takes no memory.
    fn passes(&self, entry: &EntryRef<'_>) -> bool
        ensures { IsTrue result ↔ Passes self.now entry.now };
}

// Whether a key begins with this prefix or comes before it.
fn is_within(prefix: &[u8], key: &[u8]) -> bool
    ensures { result ≡ is_within prefix.now key.now }
{
    begins_with(key, prefix) || comes_before(key, prefix)
}

// Goes behind the first record ahead of a place that has this prefix, which is as it is to be, or answers that there is none.
fn test_next<M: Map, T: RecordTest>(
    map: &mut M,
    place: &mut M::Place,
    prefix: &[u8],
    test: &T,
) -> Result<bool, Fault>
    ensures preserved { M.preserved map.old map.new }
    ensures read { HasRead result (M.state map.old) (M.state map.new) }
    ensures tested { (M.state map.old).sound → (records : Records)
        → AheadWithin prefix.now (M.ahead map.old place.old) records
        → Tests (T.Passes test.now) (AheadWithin prefix.now (M.ahead map.new place.new))
        result records }
{
    match map.step(place) {
        Ok(true) => {}
        Ok(false) => return Ok(false),
        Err(fault) => return Err(Fault::from(fault)),
    }
    let entry = map.entry(place);
    if !is_within(prefix, entry.key) {
        return Ok(false);
    }
    if !test.passes(&entry) {
        return Err(Fault::Damaged);
    }
    Ok(true)
}

/// Reads all records whose keys begin with this prefix, and tests each. Device: the map answered
/// it. Damaged: one of the records does not pass.
pub fn check_records<M: Map, T: RecordTest>(
    map: &mut M,
    prefix: &[u8],
    test: &T,
) -> Result<(), Fault>
    ensures preserved { M.preserved map.old map.new }
    ensures read { HasRead result (M.state map.old) (M.state map.new) }
    ensures checked { (M.state map.old).sound
        → ChecksRecords (T.Passes test.now) (M.state map.old).map prefix.now result }
{
    let mut place = map.seek(prefix)?;
    for _ in 0..u64::MAX {
        match test_next(map, &mut place, prefix, test) {
            Ok(true) => {}
            Ok(false) => return Ok(()),
            Err(fault) => return Err(fault),
        }
    }
    Err(Fault::Memory)
}
