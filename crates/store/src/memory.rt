//! A store in memory.
ghost use Rattle.std.specs.Prelude.{◌≡◌, [], List, ℕ, None, Some, IsTrue, IsSome, is_some, IfOk, OnOk, OnErr, Err};
ghost use Rattle.std.specs.Option.{option_copied};
ghost use Rattle.std.specs.declared.cmp.Ordering.TheVariants.{Less};
ghost use Rattle.std.proofs.Common.{refl, ◌∙◌};
ghost use Rattle.store.specs.Records.{IsOrdered, IsOrdered-prop, applied, changed, key_cmp, lookup};
ghost use Rattle.store.specs.Batch.{all_changes};
ghost use Rattle.store.specs.InPieces.{changes_of};
ghost use Rattle.store.specs.Held.{AreHeld, records_of};
ghost use Rattle.store.specs.Memory.{memory_state};
ghost use Rattle.storage_sizes.specs.CurrentRecordFormat.{current};

use crate::admin::put_admin;
use crate::cursor::is_within;
use crate::pieces::{Pieces, Place};
use crate::{Batch, Change, Entry, EntryRef, Map, Piece, Store, StoreFault};
use sql_types::name::Name;
use sql_types::try_copy::TryCopy;
use std::alloc::{AllocError, Global};
use storage_sizes::RecordFormat;

/// A store in memory: entries in the order of their keys, in pieces, in which a key is found by
/// binary search. By definition a stop leaves its records. It never fails; an allocation may,
/// before a record has changed.
///
/// An entry with no value stands for no record. A commit first makes such entries for the keys that
/// are not there yet, which may fail; then it gives the entries their values, which may not.
pub struct MemStore {
    record_format: RecordFormat,
    entries: Pieces,
    // The place next to the key that was looked for last. Any will do: it is only tried first.
    next: Place,
    alloc: Global,
    ghost ordered: { IsOrdered (records_of entries) } by { IsOrdered-prop (records_of entries) },
}

// Written and not derived: where a value is dropped this is one call, and not its parts one by one.
impl Drop for MemStore {
    fn drop(self) {
        let MemStore {
            record_format: _,
            entries: _,
            next: _,
            alloc: _,
        } = self;
    }
}

impl MemStore {
    ghost use Rattle.store.specs.Memory.{new_records};
    ghost use Rattle.store.specs.MemoryStore.{memory_store_state};

    /// The records of a new database, as they are spelled now: one role of this name, a superuser
    /// that may log in.
    pub fn new(alloc: Global, admin: &Name) -> Result<MemStore, AllocError>
        ensures records { IfOk result (λ store. (memory_store_state store).map ≡ new_records admin.now) }
        ensures record_format { IfOk result (λ store. (memory_store_state store).record_format ≡ current) }
    {
        let change = put_admin(alloc, admin)?;
        let mut entries = Pieces::new(alloc);
        entries.put(change)?;
        Ok(MemStore {
            record_format: RecordFormat::current(),
            entries,
            next: Place::start(),
            alloc,
        })
    }

    // The value of a key, or `None` where it has no record.
    fn value(&self, key: &[u8]) -> Option<&[u8]>
        ensures { option_copied result ≡ lookup key.now (records_of self.now.entries) }
    {
        match self.entries.find(key) {
            Some(change) => change.value(),
            None => None,
        }
    }

    // Whether a key has a record. Its place is tried first from now on.
    fn has_record(&mut self, key: &[u8]) -> bool
        ensures found { result ≡ is_some (lookup key.now (records_of self.old.entries)) }
        ensures record_format { self.new.record_format ≡ self.old.record_format }
        ensures same { self.new.entries ≡ self.old.entries }
    {
        let place = self.entries.place_of(key, self.next);
        self.next = place;
        match self.entries.change_at(key, place) {
            Some(change) => change.is_put(),
            None => false,
        }
    }

    // Makes an entry with no value for the key of a change, if it has none.
    fn hold(&mut self, change: &Change) -> Result<(), AllocError>
        ensures record_format { self.new.record_format ≡ self.old.record_format }
        ensures same { records_of self.new.entries ≡ records_of self.old.entries }
        ensures held { OnOk result (IsSome (lookup change.now.0 (changes_of self.new.entries))) }
        ensures kept { (k : List ℕ) → IsSome (lookup k (changes_of self.old.entries))
            → IsSome (lookup k (changes_of self.new.entries)) }
    {
        if self.entries.holds(change.key()) {
            return Ok(());
        }
        let empty = change.to_removal(self.alloc)?;
        self.entries.put(empty)?;
        Ok(())
    }

    // Makes an entry for the key of each of these changes that puts a value.
    fn hold_each(&mut self, changes: &[Change]) -> Result<(), AllocError>
        ensures record_format { self.new.record_format ≡ self.old.record_format }
        ensures same { records_of self.new.entries ≡ records_of self.old.entries }
        ensures held { OnOk result (AreHeld changes.now (changes_of self.new.entries)) }
        ensures kept { (k : List ℕ) → IsSome (lookup k (changes_of self.old.entries))
            → IsSome (lookup k (changes_of self.new.entries)) }
    {
        for change in changes {
            if change.is_put() {
                self.hold(change)?;
            }
        }
        Ok(())
    }

    // The same of the changes of pieces.
    fn hold_all(&mut self, pieces: &[Piece]) -> Result<(), AllocError>
        ensures record_format { self.new.record_format ≡ self.old.record_format }
        ensures same { records_of self.new.entries ≡ records_of self.old.entries }
        ensures held { OnOk result (AreHeld (all_changes pieces.now) (changes_of self.new.entries)) }
    {
        for piece in pieces {
            self.hold_each(piece.as_slice())?;
        }
        Ok(())
    }

    // Whether a key has an entry with no value.
    fn has_empty_entry(&self, key: &[u8]) -> bool
        ensures { IsTrue result → lookup key.now (changes_of self.now.entries) ≡ Some None }
    {
        match self.entries.find(key) {
            Some(change) => change.value().is_none(),
            None => false,
        }
    }

    // Removes the entry of a key if it has no value.
    fn release(&mut self, key: &[u8])
        ensures record_format { self.new.record_format ≡ self.old.record_format }
        ensures same { records_of self.new.entries ≡ records_of self.old.entries }
    {
        if self.has_empty_entry(key) {
            self.entries.remove(key);
        }
    }

    // Removes the entries of the keys of these changes that have no value.
    fn release_each(&mut self, changes: &[Change])
        ensures record_format { self.new.record_format ≡ self.old.record_format }
        ensures same { records_of self.new.entries ≡ records_of self.old.entries }
    {
        for change in changes {
            self.release(change.key());
        }
    }

    // The same of the changes of pieces.
    fn release_all(&mut self, pieces: &[Piece])
        ensures record_format { self.new.record_format ≡ self.old.record_format }
        ensures same { records_of self.new.entries ≡ records_of self.old.entries }
    {
        for piece in pieces {
            self.release_each(piece.as_slice());
        }
    }

    // Makes a change, whose key has an entry where a value is put.
    fn make(&mut self, change: Change)
        requires { IsSome change.1 → IsSome (lookup change.0 (changes_of self.old.entries)) }
        ensures record_format { self.new.record_format ≡ self.old.record_format }
        ensures made { records_of self.new.entries
            ≡ changed change.0 change.1 (records_of self.old.entries) }
        ensures elsewhere { (k : List ℕ) → key_cmp k change.0 ≡ Less
            → lookup k (changes_of self.new.entries) ≡ lookup k (changes_of self.old.entries) }
    {
        if change.is_put() {
            self.entries.replace(change);
        } else {
            self.entries.remove(change.key());
        }
    }

    // Makes the changes of a batch, which are taken off it from the last on. Each that puts a value
    // has an entry.
    fn make_all(&mut self, batch: &mut Batch)
        requires ordered { IsOrdered batch.old }
        requires held { AreHeld batch.old (changes_of self.old.entries) }
        ensures record_format { self.new.record_format ≡ self.old.record_format }
        ensures made { records_of self.new.entries
            ≡ applied batch.old (records_of self.old.entries) }
    {
        while let Some(change) = batch.pop() {
            self.make(change);
        }
    }

    // Makes all changes of a batch, or none of them. The batch is as it was until all entries are
    // there.
    fn change_among(&mut self, batch: &mut Batch) -> Result<(), StoreFault>
        ensures record_format { self.new.record_format ≡ self.old.record_format }
        ensures made { OnOk result (records_of self.new.entries
            ≡ applied batch.old (records_of self.old.entries)) }
        ensures refused { OnErr result (records_of self.new.entries ≡ records_of self.old.entries) }
        ensures given_back { OnErr result (batch.new ≡ batch.old) }
        ensures memory { OnErr result (result ≡ Err StoreFault.Memory) }
    {
        self.entries.begin_at(self.next);
        if self.hold_all(batch.pieces()).is_err() {
            self.release_all(batch.pieces());
            return Err(StoreFault::Memory);
        }
        self.entries.turn_back();
        self.make_all(batch);
        Ok(())
    }

    // The same, where changes that come behind all entries are moved there as they are.
    fn change(&mut self, batch: &mut Batch) -> Result<(), StoreFault>
        ensures record_format { self.new.record_format ≡ self.old.record_format }
        ensures made { OnOk result (records_of self.new.entries
            ≡ applied batch.old (records_of self.old.entries)) }
        ensures refused { OnErr result (records_of self.new.entries ≡ records_of self.old.entries) }
        ensures given_back { OnErr result (batch.new ≡ batch.old) }
        ensures memory { OnErr result (result ≡ Err StoreFault.Memory) }
    {
        if !self.entries.are_later(batch.pieces()) {
            return self.change_among(batch);
        }
        batch.move_behind(&mut self.entries)?;
        Ok(())
    }
}

impl Map for MemStore {
    ghost use Rattle.store.specs.Places.{ahead_in, IsFoundAt};
    ghost use Rattle.store.specs.Steps.{AheadWithin};

    type Place = Place;

    ghost state = { λ s. memory_state s.record_format (records_of s.entries) };

    ghost preserved = { λ s later. (later.record_format ≡ s.record_format) × (later.entries ≡ s.entries) };

    ghost preserved_same = { λ s. (refl, refl) };

    ghost preserved_joined = { λ s mid later first second. (second.0 ∙ first.0, second.1 ∙ first.1) };

    ghost cost = { λ s later most. Unit {0} };

    ghost cost_none = { λ s. tt };

    ghost cost_joined = { λ s mid later first second one other. tt };

    ghost cost_within = { λ s later less most below spent. tt };

    ghost ahead = { λ s place records. ahead_in s.entries place ≡ records };

    ghost ahead_within = { λ s stop place records.
        AheadWithin stop (λ all. ahead_in s.entries place ≡ all) records };

    ghost found_at = { λ s place e. IsFoundAt s.entries place e };

    ghost ahead_stays = { λ s later place records kept is. rw kept.1 is };

    ghost ahead_cut = { λ s stop place records rise is. (records, refl, rise, is) };

    ghost ordered = { λ s sound. s.ordered };

    ghost only_now = { λ s sound x none. absurd none };

    fn get(&mut self, key: &[u8], out: &mut Entry) -> Result<bool, StoreFault> {
        match self.value(key) {
            Some(value) => {
                out.set(key, value)?;
                Ok(true)
            }
            None => Ok(false),
        }
    }

    fn scan_from(&mut self, key: &[u8], out: &mut Entry) -> Result<bool, StoreFault> {
        let place = self.entries.place_from(key, self.next);
        match self.entries.step_from(place) {
            Some((next, entry)) => {
                self.next = next;
                out.set(entry.key, entry.value)?;
                Ok(true)
            }
            None => Ok(false),
        }
    }

    fn contains(&mut self, key: &[u8]) -> Result<bool, StoreFault> {
        Ok(self.has_record(key))
    }

    fn count_to(&mut self, start: &[u8], stop: &[u8], most: u64) -> Result<u64, StoreFault> {
        let from = self.entries.place_from(start, self.next);
        Ok(self.entries.count_within(from, stop, most))
    }

    fn seek(&mut self, key: &[u8]) -> Result<Place, StoreFault> {
        let place = self.entries.place_from(key, self.next);
        self.next = place;
        Ok(place)
    }

    fn step(&mut self, place: &mut Place) -> Result<bool, StoreFault> {
        match self.entries.step_from(*place) {
            Some((next, _)) => {
                *place = next;
                Ok(true)
            }
            None => Ok(false),
        }
    }

    fn step_within(&mut self, place: &mut Place, stop: &[u8]) -> Result<bool, StoreFault> {
        match self.entries.step_from(*place) {
            Some((next, entry)) => {
                *place = next;
                Ok(is_within(stop, entry.key))
            }
            None => Ok(false),
        }
    }

    fn entry<'a>(&'a self, place: &'a Place) -> EntryRef<'a> {
        let (key, value) = self.entries.put_before(*place);
        EntryRef { key, value }
    }
}

impl Store for MemStore {
    ghost closes = { λ s. tt };

    ghost settled = { λ s x sound works left. left };

    fn number(&self) -> u64 {
        0
    }

    fn fulls(&self) -> u64 {
        0
    }

    fn failures(&self) -> u64 {
        0
    }

    fn record_format(&self) -> RecordFormat {
        self.record_format
    }

    fn commit(&mut self, batch: &mut Batch) -> Result<(), StoreFault> {
        if batch.is_empty() {
            return Ok(());
        }
        self.change(batch)
    }

    fn commit_migration(&mut self, batch: &Batch) -> Result<(), StoreFault> {
        let mut copy = batch.try_copy(self.alloc)?;
        self.change(&mut copy)?;
        self.record_format = RecordFormat::V2;
        Ok(())
    }
}
