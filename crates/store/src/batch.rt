//! The changes that a store commits at once.
ghost use Rattle.std.specs.Prelude.{◌≡◌, ◌<◌, ◌≤◌, ◌↔◌, [], length, slice_get, Some, None, Option, MatchOption, OnOk, OnErr, IsTrue, take, drop, vec_len, ◌++◌, option_to_list, IfNone};
ghost use Rattle.std.specs.Option.{option_copied};
ghost use Rattle.std.specs.List.{AllByRecursion};
ghost use Rattle.store.specs.Records.{Changes, IsOrdered, IsKeySize, IsChangeSize, changed, entry_at, first_from};
ghost use Rattle.store.specs.Batch.{IsBatch, all_changes};
ghost use Rattle.store.specs.InPieces.{changes_of};
ghost use Rattle.store.specs.Pieces.{AreFilled};

use crate::pieces::Pieces;
use crate::{Change, MAX_VALUE_LENGTH, Piece};
use sql_types::try_copy::TryCopy;
use std::alloc::{AllocError, Global};
use std::marker::Model;

/// Puts and removals, each key once, in the order of the keys. Each has a size that a store takes,
/// so the caller of `commit` owes nothing. Contracts see a batch as its changes.
pub struct Batch {
    changes: Pieces,
    alloc: Global,
}

// Written and not derived: where a value is dropped this is one call, and not its parts one by one.
impl Drop for Batch {
    fn drop(self) {
        let Batch {
            changes: _,
            alloc: _,
        } = self;
    }
}

impl Model for Batch {
    ghost use Rattle.store.specs.Records.{Changes};
    ghost use Rattle.store.specs.Batch.{IsBatch};
    ghost use Rattle.store.specs.InPieces.{changes_of};

    ghost Value = { Changes };

    ghost view = { λ b. changes_of b.changes };

    ghost invariant = { λ b. IsBatch (changes_of b.changes) };
}

impl Batch {
    /// A batch of no changes, which has allocated nothing yet.
    pub fn new(alloc: Global) -> Batch
        ensures { result ≡ [] }
    {
        Batch {
            changes: Pieces::new(alloc),
            alloc,
        }
    }

    /// The changes in pieces, the least keys first, lent.
    pub fn pieces(&self) -> &[Piece]
        ensures changes { all_changes result.now ≡ self.now }
        ensures ordered { IsOrdered self.now }
        ensures sizes { AllByRecursion IsChangeSize self.now }
        ensures filled { AreFilled result.now }
    {
        self.changes.as_slice()
    }

    /// Whether there is no change.
    pub fn is_empty(&self) -> bool
        ensures { IsTrue result ↔ (self.now ≡ []) }
    {
        self.changes.is_empty()
    }

    /// The change of a key, or `None` where there is none.
    pub fn find(&self, key: &[u8]) -> Option<&Change>
        ensures { option_copied result ≡ entry_at key.now self.now }
    {
        if self.changes.all_end_before(key) {
            return None;
        }
        self.changes.find(key)
    }

    /// The change of the least key from this one on, or `None` where there is none.
    pub fn first_from(&self, key: &[u8]) -> Option<&Change>
        ensures { option_copied result ≡ first_from key.now self.now }
    {
        self.changes.first_from(key)
    }

    /// Puts a value at a key, in place of the key's earlier change. The only error is that an
    /// allocation failed, which leaves the batch as it was.
    pub fn put(&mut self, key: &[u8], value: &[u8]) -> Result<(), AllocError>
        requires key { IsKeySize key.now }
        requires value { length value.now ≤ MAX_VALUE_LENGTH }
        ensures ok { OnOk result (self.new ≡ changed key.now (Some (Some value.now)) self.old) }
        ensures err { OnErr result (self.new ≡ self.old) }
    {
        let change = Change::put(self.alloc, key, value)?;
        self.record(change)
    }

    /// Puts a record, in place of its key's earlier change: a key of this length, and behind it the
    /// value, in their memory. The only error is that an allocation failed, which leaves the batch as
    /// it was.
    pub fn put_record(&mut self, bytes: Vec<u8>, key_length: usize) -> Result<(), AllocError>
        requires inside { key_length ≤ vec_len bytes }
        requires key { IsKeySize (take key_length bytes.items) }
        requires value { length (drop key_length bytes.items) ≤ MAX_VALUE_LENGTH }
        ensures ok { OnOk result (self.new ≡ changed (take key_length bytes.items)
            (Some (Some (drop key_length bytes.items))) self.old) }
        ensures err { OnErr result (self.new ≡ self.old) }
    {
        let change = Change::put_of(bytes, key_length);
        self.record(change)
    }

    /// Removes a key, in place of its earlier change. The only error is that an allocation failed,
    /// which leaves the batch as it was.
    pub fn remove(&mut self, key: &[u8]) -> Result<(), AllocError>
        requires { IsKeySize key.now }
        ensures ok { OnOk result (self.new ≡ changed key.now (Some None) self.old) }
        ensures err { OnErr result (self.new ≡ self.old) }
    {
        let change = Change::removal(self.alloc, key)?;
        self.record(change)
    }

    // Takes the last change off, or `None` where there is none.
    pub(crate) fn pop(&mut self) -> Option<Change>
        ensures last { self.old ≡ self.new ++ option_to_list result }
        ensures none { IfNone result (self.old ≡ []) }
    {
        self.changes.pop()
    }

    // Moves all changes behind entries that come before them. The only error is that an allocation
    // failed, which leaves both as they were.
    pub(crate) fn move_behind(&mut self, entries: &mut Pieces) -> Result<(), AllocError>
        requires { IsOrdered (changes_of entries.old ++ self.old) }
        ensures ok { OnOk result (changes_of entries.new ≡ changes_of entries.old ++ self.old) }
        ensures err { OnErr result (changes_of entries.new ≡ changes_of entries.old) }
        ensures given_back { OnErr result (self.new ≡ self.old) }
    {
        entries.move_behind(&mut self.changes)?;
        Ok(())
    }

    // Puts a change at its key's place.
    fn record(&mut self, change: Change) -> Result<(), AllocError>
        requires { IsChangeSize change }
        ensures ok { OnOk result (self.new ≡ changed change.0 (Some change.1) self.old) }
        ensures err { OnErr result (self.new ≡ self.old) }
    {
        self.changes.put(change)?;
        Ok(())
    }
}

impl TryCopy for Batch {
    fn try_copy(&self, alloc: Global) -> Result<Batch, AllocError> {
        Ok(Batch {
            changes: self.changes.copy(alloc)?,
            alloc,
        })
    }
}
