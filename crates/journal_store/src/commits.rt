//! Commits of a store with a journal: a record, where there is room for one, or else the pages.
ghost use Rattle.std.specs.Prelude.{◌≡◌, ◌≢◌, ◌⊎◌, ◌<◌, ◌≤◌, ◌+◌, ◌/◌, ℕ, List, [], false, IsTrue, Ok, Err, OnOk, OnErr, length};
ghost use Rattle.storage_sizes.specs.declared.record_format.RecordFormat.TheVariants.{V2};
ghost use Rattle.journal.specs.Changes.{Spells};
ghost use Rattle.store.specs.Contents.{changed_by_batch, changed_in};
ghost use Rattle.store.specs.Store.{Commits, stored};
ghost use Rattle.journal_store.specs.Commits.{NothingWaits, HadNoRoomBehind, HadNoRoomLeft, IsRecordOrRoot, CommitsInJournal};
ghost use Rattle.journal_store.specs.Room.{changes_in, HasRoomFor};
ghost use Rattle.journal_store.specs.StoreLaws.{settled};
ghost use Rattle.journal_store.specs.Stores.{journal_state, root_number, end_of_records, IsSoundJournal};

use crate::devices::JournalDevice;
use crate::encoded_lengths::left_after_encoded;
use crate::stores::{JOURNAL_ROOM, JournalStore};
use journal::{PART_SIZE, batch_bytes};
use sql_types::try_copy::TryCopy;
use store::{Batch, RecordFormat, Store, StoreFault};

impl<D: JournalDevice> JournalStore<D> {
    // Whether something waits under this number, which is then one of a record. If not, and it is that of the store, nothing
    // waits, or no number in the journal is above the root's.
    fn waits_under(&self, number: u64) -> bool
        ensures waits { IsTrue result → (root_number self.now < number) × (self.now.top ≡ number) }
        ensures none { IsSoundJournal self.now → (journal_state self.now).has_failed ≡ false
            → number ≡ (journal_state self.now).number → result ≡ false
            → NothingWaits self.now ⊎ (self.now.top ≤ root_number self.now) }
    {
        self.end > 0 && self.store.number() < number && self.top == number
    }

    // Whether a batch may be a record: there are sectors for its parts, and pages enough for what waits and it.
    fn may_record(&self, batch: &Batch) -> bool
        ensures sectors { IsTrue result → (bytes : List ℕ) → Spells bytes batch.now
            → end_of_records self.now + length bytes / PART_SIZE ≤ JOURNAL_ROOM }
        ensures pages { IsTrue result → HasRoomFor (changes_in self.now.waiting + length batch.now) self.now }
    {
        let room = (JOURNAL_ROOM - self.end) as usize * PART_SIZE;
        left_after_encoded(room, batch).is_some() && self.has_pages_for(batch)
    }

    // Commits to the pages what waits, by itself, and then a batch. As the number is one of a record that waits, the two
    // new roots raise it by one at most.
    fn checkpoint_apart(&mut self, batch: &Batch) -> Result<(), StoreFault>
        requires works { (journal_state self.old).has_failed ≡ false }
        requires waits { root_number self.old < self.old.top }
        ensures commits { Commits result (changed_by_batch batch.now (stored (journal_state self.old)))
            (journal_state self.old) (journal_state self.new) }
        ensures room { IsSoundJournal self.old → result ≡ Err StoreFault.Full
            → HadNoRoomBehind batch.now self.old }
        ensures anew { OnOk result (root_number self.new ≡ root_number self.old + 2) }
        ensures cleared { OnOk result (self.new.waiting ≡ []) }
    {
        let nothing = Batch::new(self.alloc);
        match self.checkpoint(&nothing) {
            Ok(()) => self.checkpoint(batch),
            Err(fault) => Err(fault),
        }
    }

    // Commits to the pages all that waits and a batch: at once, or, where there is no room for that, one after the other.
    fn commit_to_pages(&mut self, batch: &Batch) -> Result<(), StoreFault>
        requires { (journal_state self.old).has_failed ≡ false }
        ensures commits { Commits result (changed_by_batch batch.now (stored (journal_state self.old)))
            (journal_state self.old) (journal_state self.new) }
        ensures room { IsSoundJournal self.old → result ≡ Err StoreFault.Full
            → HadNoRoomLeft batch.now self.old }
        ensures anew { IsSoundJournal self.old → OnOk result
            ((root_number self.old < root_number self.new) × (self.new.waiting ≡ [])) }
    {
        let number = self.number();
        match self.checkpoint(batch) {
            Ok(()) => Ok(()),
            Err(StoreFault::Full) => {
                if self.waits_under(number) {
                    self.checkpoint_apart(batch)
                } else {
                    Err(StoreFault::Full)
                }
            }
            Err(fault) => Err(fault),
        }
    }

    // Commits a batch that changes something. Only one that may be a record is encoded and copied: the copy is joined to
    // what waits before the device is written, which may fail, and the batch itself stays with the caller.
    fn commit_some(&mut self, batch: &Batch) -> Result<(), StoreFault>
        requires works { (journal_state self.old).has_failed ≡ false }
        requires some { batch.now ≢ [] }
        ensures commits { Commits result (changed_by_batch batch.now (stored (journal_state self.old)))
            (journal_state self.old) (journal_state self.new) }
        ensures room { IsSoundJournal self.old → result ≡ Err StoreFault.Full
            → HadNoRoomLeft batch.now self.old }
        ensures rises { IsSoundJournal self.old → OnOk result (IsRecordOrRoot self.old self.new) }
    {
        let number = self.number();
        if number == u64::MAX {
            return Err(StoreFault::Number);
        }
        if !self.may_record(batch) {
            return self.commit_to_pages(batch);
        }
        let Ok(bytes) = batch_bytes(self.alloc, batch) else {
            return Err(StoreFault::Memory);
        };
        let Ok(copy) = batch.try_copy(self.alloc) else {
            return Err(StoreFault::Memory);
        };
        self.append(copy, number + 1, &bytes)
    }

    // Commits all changes of a batch, or none of them.
    fn commit_lent(&mut self, batch: &Batch) -> Result<(), StoreFault>
        ensures commits { Commits result (changed_by_batch batch.now (stored (journal_state self.old)))
            (journal_state self.old) (journal_state self.new) }
        ensures empty { batch.now ≡ [] → (journal_state self.old).has_failed ≡ false
            → (result ≡ Ok tt) × (self.new ≡ self.old) }
        ensures journal { CommitsInJournal batch.now result self.old self.new }
    {
        if self.has_failed() {
            return Err(StoreFault::Device);
        }
        if batch.is_empty() {
            return Ok(());
        }
        self.commit_some(batch)
    }
}

impl<D: JournalDevice> Store for JournalStore<D> {
    ghost closes = { λ s. tt };

    ghost settled = { λ s x sound works left. settled s sound works x left };

    fn number(&self) -> u64 {
        self.store.number().max(self.top)
    }

    fn fulls(&self) -> u64 {
        self.store.fulls()
    }

    fn failures(&self) -> u64 {
        self.store.failures()
    }

    fn record_format(&self) -> RecordFormat {
        self.store.record_format()
    }

    /// Commits all changes of a batch, or none of them, as `Store` says. Where the batch fits behind the records that are
    /// there, and the free pages are enough for what waits and it, it is a record, with one sync, and waits; else all that
    /// waits and it are committed to the pages. With `Ok` of a batch that is not empty a record of the next number stands behind
    /// the root, or there is a newer root, behind which nothing waits: the number has risen by one, or is as it was. Full: the
    /// pages had no room for the batch, once what waits was in them, or none for what waits by itself; of records that wait with
    /// no number above the root's, none for all at once (`HadNoRoomLeft`). Once the store has answered Device nothing changes.
    fn commit(&mut self, batch: &mut Batch) -> Result<(), StoreFault>
        ensures commits { Commits result (changed_by_batch batch.old (stored (journal_state self.old)))
            (journal_state self.old) (journal_state self.new) }
        ensures empty { batch.old ≡ [] → (journal_state self.old).has_failed ≡ false
            → (result ≡ Ok tt) × (self.new ≡ self.old) }
        ensures journal { CommitsInJournal batch.old result self.old self.new }
        ensures given_back { OnErr result (batch.new ≡ batch.old) }
    {
        self.commit_lent(batch)
    }

    /// Commits all changes of a batch, as `commit` does: the records are of record format 2 already.
    fn commit_migration(&mut self, batch: &Batch) -> Result<(), StoreFault>
        ensures commits { Commits result (changed_in V2 batch.now (stored (journal_state self.old)))
            (journal_state self.old) (journal_state self.new) }
        ensures journal { CommitsInJournal batch.now result self.old self.new }
    {
        self.commit_lent(batch)
    }
}
