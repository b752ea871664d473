//! Calls of maps and stores. What they answer is told and compared, and no proof here speaks of it: so these say nothing of it,
//! and what calls them need not know what a store promises.

use store::{Batch, Cursor, Entry, Map, Store, StoreFault};

/// Commits a batch.
pub fn commit<S: Store>(store: &mut S, batch: &mut Batch) -> Result<(), StoreFault> {
    store.commit(batch)
}

/// Commits a batch, and that the records are of record format 2.
pub fn commit_migration<S: Store>(store: &mut S, batch: &Batch) -> Result<(), StoreFault> {
    store.commit_migration(batch)
}

/// Reads the entry of a key. Answers whether there is one.
pub fn look_up<M: Map>(map: &mut M, key: &[u8], out: &mut Entry) -> Result<bool, StoreFault> {
    map.get(key, out)
}

/// Reads the first entry from a key on. Answers whether there is one.
pub fn scan_from<M: Map>(map: &mut M, key: &[u8], out: &mut Entry) -> Result<bool, StoreFault> {
    map.scan_from(key, out)
}

/// Moves a cursor to the next record. Answers whether there is one.
pub fn advance<M: Map>(cursor: &mut Cursor, map: &mut M) -> Result<bool, StoreFault> {
    cursor.advance(map)
}

/// The place before all records.
pub fn seek<M: Map>(map: &mut M) -> Result<M::Place, StoreFault> {
    map.seek(&[])
}

/// Goes behind the next record. Answers whether there is one.
pub fn step<M: Map>(map: &mut M, place: &mut M::Place) -> Result<bool, StoreFault> {
    map.step(place)
}

/// How many records there are.
pub fn count<M: Map>(map: &mut M) -> Result<u64, StoreFault> {
    map.count_to(&[], &[], u64::MAX)
}
