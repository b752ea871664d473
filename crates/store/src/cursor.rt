//! Walks over the records of a span of keys.
ghost use Rattle.std.specs.Prelude.{◌≡◌, ◌++◌, ◌∷◌, [], ◌||◌, IfOk, OnOk, List, ℕ, true};
ghost use Rattle.std.specs.Ordering.{is_lt};
ghost use Rattle.store.specs.Records.{Records, entries_where, has_prefix, is_from, key_cmp};
ghost use Rattle.store.specs.Walks.{Walk, Advances, is_within, span, walk_between};

use crate::{Entry, Map, StoreFault};
use std::alloc::{AllocError, Global};
use std::marker::Model;

/// Where a walk goes on, where it stops, and the entry that it found last. A step takes memory
/// only for a key or a value that is longer than all before it.
pub struct Cursor {
    next: Vec<u8>,
    stop: Vec<u8>,
    entry: Entry,
}

// Written and not derived: where a value is dropped this is one call, and not its parts one by one.
impl Drop for Cursor {
    fn drop(self) {
        let Cursor {
            next: _,
            stop: _,
            entry: _,
        } = self;
    }
}

impl Model for Cursor {
    ghost use Rattle.store.specs.Walks.{Walk};

    ghost Value = { Walk };

    ghost view = { λ c. record { next = c.next.items; stop = c.stop.items; entry = c.entry } };
}

impl Cursor {
    /// A walk over all records whose keys begin with this prefix.
    pub fn over(alloc: Global, prefix: &[u8]) -> Result<Cursor, AllocError>
        ensures { IfOk result (λ cursor. cursor ≡ walk_between prefix.now prefix.now) }
    {
        Cursor::between(alloc, prefix, prefix)
    }

    /// A walk over the records from the key `start` on, up to the last whose key comes before
    /// `stop` or begins with it.
    pub fn between(alloc: Global, start: &[u8], stop: &[u8]) -> Result<Cursor, AllocError>
        ensures { IfOk result (λ cursor. cursor ≡ walk_between start.now stop.now) }
    {
        Ok(Cursor {
            next: Vec::from_slice(alloc, start)?,
            stop: Vec::from_slice(alloc, stop)?,
            entry: Entry::new(alloc),
        })
    }

    /// The entry that was found last, lent.
    pub fn entry(&self) -> &Entry
        ensures { result.now ≡ self.now.entry }
    {
        &self.entry
    }

    /// Goes on to the next record. True: `entry` is that record. False: none is left, and nothing
    /// is said of `entry`, nor after a fault. The faults are Memory and Device.
    pub fn advance<M: Map>(&mut self, map: &mut M) -> Result<bool, StoreFault>
        ensures preserved { M.preserved map.old map.new }
        ensures advances { Advances result self.old self.new (M.state map.old) (M.state map.new) }
    {
        if !map.scan_from(self.next.as_slice(), &mut self.entry)? {
            return Ok(false);
        }
        if !is_within(self.stop.as_slice(), self.entry.key()) {
            return Ok(false);
        }
        set_after(&mut self.next, self.entry.key())?;
        Ok(true)
    }
}

/// Whether a key begins with this stop or comes before it.
pub fn is_within(stop: &[u8], key: &[u8]) -> bool
    ensures { result ≡ is_within stop.now key.now }
{
    let shared = key.len().min(stop.len());
    for at in 0..shared {
        if key[at] != stop[at] {
            return key[at] < stop[at];
        }
    }
    true
}

// The least key after this one.
fn set_after(next: &mut Vec<u8>, key: &[u8]) -> Result<(), AllocError>
    ensures { OnOk result (next.new.items ≡ key.now ++ 0 ∷ []) }
{
    next.clear();
    next.extend_from_slice(key)?;
    next.push(0)?;
    Ok(())
}

/// A walk over a prefix finds the records with that prefix.
pub fn prefix_is_a_span()
    ensures { (prefix : List ℕ) (records : Records)
        → span prefix prefix records ≡ entries_where (has_prefix prefix) records }
{}
