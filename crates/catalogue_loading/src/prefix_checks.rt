//! The check that no record is an orphan, by one record for each prefix that keys may begin with.

ghost use Rattle.std.specs.Prelude.{◌≡◌, ◌≤◌, ◌-◌, ◌++◌, true, ℕ, List, length, replicate};
ghost use Rattle.store.specs.Records.{entries_where, has_prefix, is_from};
ghost use Rattle.store.specs.Readers.{HasRead};
ghost use Rattle.store.specs.Store.{StoreState};
ghost use Rattle.catalogue_loading.specs.Orphans.{IsNone, Jumps, prefix_of};
ghost use Rattle.catalogue_loading.specs.RecordChecks.{ChecksRecords};

use crate::orphan_records::OrphanTest;
use storage_sizes::MAX_KEY_LENGTH;
use store::{Fault, Map, begins_with};

// More bytes than a key has.
const BEHIND_LENGTH: usize = MAX_KEY_LENGTH + 1;

// A key behind all keys of records that begin with a prefix, since none is as long, and before all others that come after them.
fn key_behind(prefix: &[u8]) -> [u8; BEHIND_LENGTH]
    requires { length prefix.now ≤ BEHIND_LENGTH }
    ensures { result ≡ prefix.now ++ replicate (BEHIND_LENGTH - length prefix.now) 255 }
{
    let mut behind = [u8::MAX; BEHIND_LENGTH];
    behind[..prefix.len()].copy_from_slice(prefix);
    behind
}

// Goes behind the first record ahead of a place and all that begin with the same prefix, none of which is an orphan, or answers
// that no record is left that may be one.
fn pass_prefix<M: Map>(
    map: &mut M,
    place: &mut M::Place,
    test: &OrphanTest<'_>,
) -> Result<bool, Fault>
    ensures preserved { M.preserved map.old map.new }
    ensures read { HasRead result (M.state map.old) (M.state map.new) }
    ensures jumped { (M.state map.old).sound → (start : List ℕ)
        → M.ahead map.old place.old (entries_where (is_from start) (M.state map.old).map)
        → has_prefix (prefix_of test.now.orphans) start ≡ true
        → Jumps (IsNone test.now.orphans test.now.ids.now) (prefix_of test.now.orphans)
        (M.ahead map.new place.new) (M.state map.old).map start result }
{
    match map.step(place) {
        Ok(true) => {}
        Ok(false) => return Ok(false),
        Err(fault) => return Err(Fault::from(fault)),
    }
    let key = map.entry(place).key;
    if !begins_with(key, test.orphans.prefix()) {
        return Ok(false);
    }
    let Some(prefix) = test.known_prefix(key) else {
        return Err(Fault::Damaged);
    };
    let behind = key_behind(prefix);
    *place = map.seek(&behind)?;
    Ok(true)
}

/// Finds whether one of the records is an orphan of those that are looked for. Of each kind, and of each table where there may
/// be orphans of a kind, one record is read. Device: the map answered it. Damaged: one of the records is an orphan.
pub(crate) fn check_prefixes<M: Map>(map: &mut M, test: &OrphanTest<'_>) -> Result<(), Fault>
    ensures preserved { M.preserved map.old map.new }
    ensures read { HasRead result (M.state map.old) (M.state map.new) }
    ensures checked { (M.state map.old).sound
        → ChecksRecords (IsNone test.now.orphans test.now.ids.now) (M.state map.old).map
        (prefix_of test.now.orphans) result }
{
    let mut place = map.seek(test.orphans.prefix())?;
    for _ in 0..u64::MAX {
        match pass_prefix(map, &mut place, test) {
            Ok(true) => {}
            Ok(false) => return Ok(()),
            Err(fault) => return Err(fault),
        }
    }
    Err(Fault::Memory)
}
