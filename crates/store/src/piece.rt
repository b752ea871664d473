//! Runs of changes.
ghost use Rattle.std.specs.Prelude.{◌≡◌, ◌≤◌, [], ◌∷◌, ◌++◌, None, Some, IsTrue, ◌↔◌, IsSome, IsOk, length, take, drop, slice_get, IfOk, OnOk, OnErr, option_to_list, IfNone};
ghost use Rattle.std.specs.Option.{option_copied};
ghost use Rattle.store.specs.Records.{IsOrdered, changed, entry_at, first_from, lookup};
ghost use Rattle.store.specs.Place.{IsPlace, IsStopPlace, has_key_at, has_lesser_key_at};
ghost use Rattle.store.specs.Pieces.{ends_before, ends_within, IsInnerPlace, puts, puts_within, weight};

use crate::Change;
use crate::cursor::is_within;
use sql_types::try_copy::TryCopy;
use std::alloc::{AllocError, Global};
use std::marker::Model;
use storage_sizes::{comes_before, is_same_key};

/// A run of changes in the order of their keys, as a batch keeps them. Contracts see it as its
/// changes.
#[derive(Drop)]
pub struct Piece {
    changes: Vec<Change>,
    // How many of the changes put a value.
    put_count: usize,
}

impl Model for Piece {
    ghost use Rattle.std.specs.Prelude.{◌≡◌, length};
    ghost use Rattle.store.specs.Records.{Changes};
    ghost use Rattle.store.specs.Pieces.{puts};

    ghost Value = { Changes };

    ghost view = { λ p. p.changes.items };

    ghost invariant = { λ p. p.put_count ≡ length (puts p.changes.items) };
}

impl Piece {
    // One change.
    pub(crate) fn of(alloc: Global, change: Change) -> Result<Piece, AllocError>
        ensures { IfOk result (λ piece. piece ≡ change ∷ []) }
    {
        let put_count = count_put(&change);
        let mut changes = Vec::new(alloc);
        changes.push(change)?;
        Ok(Piece { changes, put_count })
    }

    /// The changes, lent.
    pub fn as_slice(&self) -> &[Change]
        ensures { result.now ≡ self.now }
    {
        self.changes.as_slice()
    }

    // How many changes there are.
    pub(crate) fn len(&self) -> usize
        ensures { result ≡ length self.now }
    {
        self.changes.len()
    }

    // Whether the last key comes before this one.
    pub(crate) fn ends_before(&self, key: &[u8]) -> bool
        ensures { result ≡ ends_before key.now self.now }
    {
        match self.changes.last() {
            Some(change) => comes_before(change.key(), key),
            None => false,
        }
    }

    // Whether the last key is within a stop.
    pub(crate) fn ends_within(&self, stop: &[u8]) -> bool
        ensures { result ≡ ends_within stop.now self.now }
    {
        match self.changes.last() {
            Some(change) => is_within(stop, change.key()),
            None => false,
        }
    }

    // How many changes from an index on put a value.
    pub(crate) fn count_from(&self, at: usize) -> usize
        ensures { result ≡ length (puts (drop at self.now)) }
    {
        if at == 0 {
            return self.put_count;
        }
        if at >= self.changes.len() {
            return 0;
        }
        count_puts(&self.changes[at..])
    }

    // How many changes from an index on, of keys within a stop, put a value.
    pub(crate) fn count_within(&self, at: usize, stop: &[u8]) -> usize
        requires { IsOrdered self.now }
        ensures { result ≡ length (puts_within stop.now (drop at self.now)) }
    {
        let end = self.stop_place(stop);
        if at >= end {
            return 0;
        }
        count_puts(&self.changes[at..end])
    }

    // The index of the first change whose key is not within a stop.
    fn stop_place(&self, stop: &[u8]) -> usize
        requires { IsOrdered self.now }
        ensures place { IsStopPlace stop.now result self.now }
        ensures inside { result ≤ length self.now }
    {
        self.changes
            .partition_point(|change| is_within(stop, change.key()))
    }

    // The change of a key, or `None` where there is none.
    pub(crate) fn find(&self, key: &[u8]) -> Option<&Change>
        requires { IsOrdered self.now }
        ensures { option_copied result ≡ entry_at key.now self.now }
    {
        let at = self.place(key);
        if self.has_key_at(key, at) {
            self.get(at)
        } else {
            None
        }
    }

    // The change of the least key from this one on, or `None` where there is none.
    pub(crate) fn first_from(&self, key: &[u8]) -> Option<&Change>
        requires { IsOrdered self.now }
        ensures { option_copied result ≡ first_from key.now self.now }
    {
        let at = self.place(key);
        self.get(at)
    }

    // Puts a change at its key's place, in place of the key's earlier change. The only error is
    // that an allocation failed, which leaves the piece as it was.
    pub(crate) fn put_at(&mut self, at: usize, change: Change) -> Result<(), AllocError>
        requires ordered { IsOrdered self.old }
        requires place { IsPlace change.0 at self.old }
        ensures ok { OnOk result (self.new ≡ changed change.0 (Some change.1) self.old) }
        ensures err { OnErr result (self.new ≡ self.old) }
        ensures there { IsSome (lookup change.0 self.old) → IsOk result }
    {
        let put_count = count_put(&change);
        if self.has_key_at(change.key(), at) {
            let old_count = count_put(&self.changes[at]);
            self.changes[at] = change;
            self.put_count = self.put_count - old_count + put_count;
            return Ok(());
        }
        self.changes.insert(at, change)?;
        self.put_count += put_count;
        Ok(())
    }

    // Copies of the changes.
    fn copies(&self, alloc: Global) -> Result<Vec<Change>, AllocError>
        ensures { IfOk result (λ copies. copies.items ≡ self.now) }
    {
        let mut copies = Vec::with_capacity(alloc, self.changes.len())?;
        for change in &self.changes {
            copies.push(change.try_copy(alloc)?)?;
        }
        Ok(copies)
    }

    // Takes the last change off, or `None` where there is none.
    pub(crate) fn pop(&mut self) -> Option<Change>
        ensures last { self.old ≡ self.new ++ option_to_list result }
        ensures none { IfNone result (self.old ≡ []) }
    {
        let change = self.changes.pop()?;
        self.put_count -= count_put(&change);
        Some(change)
    }

    // Moves the changes of a later piece behind the others. The only error is that an allocation
    // failed, which leaves both as they were.
    pub(crate) fn move_behind(&mut self, later: &mut Piece) -> Result<(), AllocError>
        ensures ok { OnOk result (self.new ≡ self.old ++ later.old) }
        ensures err { OnErr result (self.new ≡ self.old) }
        ensures given_back { OnErr result (later.new ≡ later.old) }
    {
        self.changes.append(&mut later.changes)?;
        self.put_count += later.put_count;
        later.put_count = 0;
        Ok(())
    }

    // Whether each change puts a value.
    pub(crate) fn puts_each(&self) -> bool {
        self.put_count == self.changes.len()
    }

    // Removes the change of a key from its place, if there is one.
    pub(crate) fn remove_at(&mut self, key: &[u8], at: usize)
        requires { IsPlace key.now at self.old }
        ensures { self.new ≡ changed key.now None self.old }
    {
        if self.has_key_at(key, at) {
            self.put_count -= count_put(&self.changes[at]);
            self.changes.remove(at);
        }
    }

    // Whether there is no change.
    pub(crate) fn is_empty(&self) -> bool
        ensures { IsTrue result ↔ (self.now ≡ []) }
    {
        self.changes.is_empty()
    }

    // Whether an index is the place of a key, between two changes of the piece.
    pub(crate) fn is_inner_place(&self, key: &[u8], at: usize) -> bool
        requires { IsOrdered self.now }
        ensures { IsTrue result → IsInnerPlace key.now at self.now }
    {
        if at == 0 {
            return false;
        }
        if at >= self.len() {
            return false;
        }
        if self.has_lesser_key_at(key, at) {
            return false;
        }
        self.has_lesser_key_at(key, at - 1)
    }

    // Keeps the changes before an index, and gives out the others. The only error is that an
    // allocation failed, which leaves the piece as it was.
    pub(crate) fn split_off(&mut self, at: usize) -> Result<Piece, AllocError>
        requires { at ≤ length self.old }
        ensures kept { OnOk result (self.new ≡ take at self.old) }
        ensures behind { IfOk result (λ behind. behind ≡ drop at self.old) }
        ensures err { OnErr result (self.new ≡ self.old) }
    {
        let changes = self.changes.split_off(at)?;
        let put_count = count_puts(&changes);
        self.put_count -= put_count;
        Ok(Piece { changes, put_count })
    }

    // The index of the first change of a key or of one after it.
    pub(crate) fn place(&self, key: &[u8]) -> usize
        requires { IsOrdered self.now }
        ensures place { IsPlace key.now result self.now }
        ensures inside { result ≤ length self.now }
    {
        self.changes
            .partition_point(|change| comes_before(change.key(), key))
    }

    // The change at an index, or `None` past the last.
    pub(crate) fn get(&self, at: usize) -> Option<&Change>
        ensures { option_copied result ≡ slice_get self.now at }
    {
        self.changes.get(at)
    }

    // Whether the change at an index is of a lesser key.
    fn has_lesser_key_at(&self, key: &[u8], at: usize) -> bool
        ensures { result ≡ has_lesser_key_at key.now at self.now }
    {
        match self.get(at) {
            Some(found) => comes_before(found.key(), key),
            None => false,
        }
    }

    // Whether the change at an index is of this key.
    pub(crate) fn has_key_at(&self, key: &[u8], at: usize) -> bool
        ensures { result ≡ has_key_at key.now at self.now }
    {
        match self.get(at) {
            Some(change) => is_same_key(change.key(), key),
            None => false,
        }
    }
}

// How many changes put a value.
fn count_puts(changes: &[Change]) -> usize
    ensures { result ≡ length (puts changes.now) }
{
    let mut count: usize = 0;
    for change in changes {
        count += count_put(change);
    }
    count
}

// One if a change puts a value, and else none.
fn count_put(change: &Change) -> usize
    ensures exact { result ≡ weight change.now }
    ensures small { result ≤ 1 }
{
    match change.value() {
        Some(_) => 1,
        None => 0,
    }
}

impl TryCopy for Piece {
    fn try_copy(&self, alloc: Global) -> Result<Piece, AllocError> {
        let changes = self.copies(alloc)?;
        Ok(Piece {
            changes,
            put_count: self.put_count,
        })
    }
}
