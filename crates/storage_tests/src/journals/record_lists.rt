//! Whether stores have the same records.

use crate::stores::map_calls::{advance, count, look_up, seek, step};
use std::alloc::Global;
use store::{Cursor, Entry, Map, StoreFault};

/// Whether two stores have the same records, by scans, look-ups, a walk and a count.
pub fn same_records<M: Map, N: Map>(
    alloc: Global,
    map: &mut M,
    other: &mut N,
) -> Result<bool, StoreFault> {
    Ok(scans_meet_same(alloc, map, other)? && walk_meets_same(alloc, map, other)?)
}

/// Whether scans of two stores meet the same records, each of which is looked up in both.
fn scans_meet_same<M: Map, N: Map>(
    alloc: Global,
    map: &mut M,
    other: &mut N,
) -> Result<bool, StoreFault> {
    let mut cursor = Cursor::over(alloc, &[])?;
    let mut wanted = Cursor::over(alloc, &[])?;
    scan(map, other, &mut cursor, &mut wanted, &mut Entry::new(alloc))
}

/// Whether two cursors meet the same records, each of which is looked up in both stores.
fn scan<M: Map, N: Map>(
    map: &mut M,
    other: &mut N,
    cursor: &mut Cursor,
    wanted: &mut Cursor,
    found: &mut Entry,
) -> Result<bool, StoreFault> {
    for _ in 0..u32::MAX {
        let is_there = advance(cursor, map)?;
        if advance(wanted, other)? != is_there {
            return Ok(false);
        }
        if !is_there {
            return Ok(true);
        }
        let entry = wanted.entry();
        let is_met = is_same(cursor.entry(), entry);
        if !is_met || !has(map, entry, found)? || !has(other, entry, found)? {
            return Ok(false);
        }
    }
    Ok(false)
}

/// Whether two entries have the same key and the same value.
fn is_same(entry: &Entry, other: &Entry) -> bool {
    entry.key() == other.key() && entry.value() == other.value()
}

/// Whether a store has an entry, by a look-up.
fn has<M: Map>(map: &mut M, entry: &Entry, found: &mut Entry) -> Result<bool, StoreFault> {
    Ok(look_up(map, entry.key(), found)? && found.value() == entry.value())
}

/// Whether a walk over a store meets the records that a scan of another one meets, and they are as many as are counted.
fn walk_meets_same<M: Map, N: Map>(
    alloc: Global,
    map: &mut M,
    other: &mut N,
) -> Result<bool, StoreFault> {
    let mut wanted = Cursor::over(alloc, &[])?;
    let mut place = seek(map)?;
    walk(map, other, &mut place, &mut wanted)
}

/// Whether a walk from a place on meets the records that a cursor meets, and they are as many as are counted.
fn walk<M: Map, N: Map>(
    map: &mut M,
    other: &mut N,
    place: &mut M::Place,
    wanted: &mut Cursor,
) -> Result<bool, StoreFault> {
    for records in 0..u64::MAX {
        let is_there = step(map, place)?;
        if advance(wanted, other)? != is_there {
            return Ok(false);
        }
        if !is_there {
            return Ok(count(map)? == records);
        }
        let (entry, expected) = (map.entry(place), wanted.entry());
        if entry.key != expected.key() || entry.value != expected.value() {
            return Ok(false);
        }
    }
    Ok(false)
}
