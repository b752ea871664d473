//! A store of pages with a journal behind them.
ghost use Rattle.std.specs.Prelude.{◌≡◌, ◌<◌, ◌≤◌, ◌+◌, ◌/◌, ℕ, true, length};
ghost use Rattle.cow_pages.specs.Cow.{device_below};
ghost use Rattle.kv_store.specs.Contents.{is_journaled};
ghost use Rattle.kv_store.specs.TreeStore.{pages_of};

use crate::devices::JournalDevice;
use crate::room::reserve_with;
use journal::{PART_SIZE, write_sectors};
use kv_store::{Reserve, TreeStore};
use sector_device::Device;
use std::alloc::Global;
use store::{Batch, Store, StoreFault};
use transactions::ChangeLists;

// The first sector of the journal, and how many there are.
pub(crate) const JOURNAL_START: u32 = 2;

pub(crate) const JOURNAL_ROOM: u16 = 6;

/// A store of pages with a journal in the six sectors behind the root sectors, as its root says. A commit is a record of the journal as long
/// as there is room: its batch waits in memory, under which the pages are read.
#[derive(Drop)]
pub struct JournalStore<D: Device> {
    pub(crate) store: TreeStore<D>,
    // The batches of all records of the root, merged.
    pub(crate) waiting: ChangeLists,
    // No number in the journal, of whatever root, is greater.
    pub(crate) top: u64,
    // How many sectors the records of the root take.
    pub(crate) end: u16,
    pub(crate) alloc: Global,
    ghost journaled: { is_journaled (pages_of store) ≡ true },
    ghost room: { 8 ≤ (device_below (pages_of store)).sectors },
    ghost inside: { end ≤ 6 },
}

impl<D: Device> JournalStore<D> {
    ghost use Rattle.journal_store.specs.Stores.{journal_state, held_device};

    /// Whether it has answered Device. Then it answers nothing else.
    pub fn has_failed(&self) -> bool
        ensures { result ≡ (journal_state self.now).has_failed }
    {
        self.store.has_failed()
    }

    /// The device below.
    pub fn device(&self) -> &D
        ensures { result.now ≡ held_device self.now }
    {
        self.store.device()
    }

    /// Gives the device back, as it is. What waits is in its journal.
    pub fn into_device(self) -> D
        ensures { result ≡ held_device self }
    {
        let JournalStore {
            store,
            waiting: _,
            top: _,
            end: _,
            alloc: _,
        } = self;
        store.into_device()
    }

    /// Gives back the store of its pages, as it is, whose root says that there is a journal. What waits is in the journal, and
    /// not in the pages.
    pub fn into_pages(self) -> TreeStore<D>
        ensures pages { result ≡ self.store }
        ensures kind { is_journaled (pages_of result) ≡ true }
        ensures room { 8 ≤ (device_below (pages_of result)).sectors }
    {
        let JournalStore {
            store,
            waiting: _,
            top: _,
            end: _,
            alloc: _,
        } = self;
        store
    }
}

impl<D: JournalDevice> JournalStore<D> {
    ghost use Rattle.std.specs.Prelude.{[], ◌≢◌, Err, false, OnOk, OnErr};
    ghost use Rattle.sector_device.specs.Device.{KeepsHistory};
    ghost use Rattle.kv_store.specs.Batches.{HadNoRoom};
    ghost use Rattle.store.specs.Records.{Records, Changes, IsOrdered, applied};
    ghost use Rattle.transactions.specs.Views.{applied_all};
    ghost use Rattle.store.specs.Contents.{changed_by_batch};
    ghost use Rattle.store.specs.Store.{Commits, stored};
    ghost use Rattle.journal.specs.Changes.{Spells};
    ghost use Rattle.kv_store.specs.Reserve.{KeepsReserve};
    ghost use Rattle.journal_store.specs.Room.{changes_in, reserve_for, HasRoomFor, HadNoRoomFor};
    ghost use Rattle.journal_store.specs.Stores.{journal_state, end_of_records, root_number, base_of, device_under, IsSoundJournal};

    /// Commits a batch as the record of the next number, whose parts have these bytes, with one sync. A stop at any moment
    /// leaves the contents before it or those after it, and from `Ok` on those after it alone. It is for a batch with which no
    /// more changes wait than the free pages are counted to be enough for (`HasRoomFor`); that what waits can then be committed
    /// to them by itself is not proved. Memory: an allocation failed, and nothing was written. Device: the device failed.
    pub fn append(&mut self, batch: Batch, number: u64, bytes: &[u8]) -> Result<(), StoreFault>
        requires works { (journal_state self.old).has_failed ≡ false }
        requires next { number ≡ (journal_state self.old).number + 1 }
        requires spells { Spells bytes.now batch }
        requires some { 1 ≤ length bytes.now / PART_SIZE }
        requires fits { end_of_records self.old + length bytes.now / PART_SIZE ≤ JOURNAL_ROOM }
        requires pages { HasRoomFor (changes_in self.old.waiting + length batch) self.old }
        ensures commits { Commits result (changed_by_batch batch (stored (journal_state self.old)))
            (journal_state self.old) (journal_state self.new) }
        ensures never_full { result ≢ Err StoreFault.Full }
        ensures record { OnOk result ((root_number self.new ≡ root_number self.old) × (self.new.top ≡ number)) }
    {
        let root = self.store.number();
        let Ok(sectors) = write_sectors(self.alloc, root, number, bytes) else {
            return Err(StoreFault::Memory);
        };
        // The batch waits before its record is written: for this memory may be refused, which is answered while nothing is on the
        // device. Should the write fail, the store has failed, and what waits is never read again.
        let Ok(()) = self.waiting.record(batch) else {
            return Err(StoreFault::Memory);
        };
        let first = JOURNAL_START + self.end as u32;
        let Ok(()) = self.store.write_protected(first, &sectors) else {
            return Err(StoreFault::Device);
        };
        self.top = number;
        self.end += sectors.len() as u16;
        Ok(())
    }

    // Commits to the pages these changes, which are all that waits and a batch, and keeps the reserve or may take it.
    fn commit_joined(&mut self, joined: &Batch, reserve: Reserve) -> Result<(), StoreFault>
        requires { (journal_state self.old).has_failed ≡ false }
        ensures commits { (batch : Changes) → ((es : Records) → IsOrdered es
            → applied joined.now es ≡ applied batch (applied_all self.old.waiting es))
            → Commits result (changed_by_batch batch (stored (journal_state self.old)))
            (journal_state self.old) (journal_state self.new) }
        ensures anew { OnOk result (root_number self.new ≡ root_number self.old + 1) }
        ensures top { self.new.top ≡ self.old.top }
        ensures cleared { OnOk result (self.new.waiting ≡ []) }
        ensures waits { OnErr result (self.new.waiting ≡ self.old.waiting) }
        ensures history { KeepsHistory (device_under self.old) (device_under self.new) }
        ensures root { IsSoundJournal self.old → result ≡ Err StoreFault.Full
            → root_number self.new ≡ root_number self.old }
        ensures room { IsSoundJournal self.old → result ≡ Err StoreFault.Full
            → HadNoRoom reserve joined.now (base_of self.old).records (pages_of self.old.store) }
        ensures spares { IsSoundJournal self.old
            → OnOk result (KeepsReserve reserve (pages_of self.old.store) (pages_of self.new.store)) }
    {
        // For the proof: the top is the same afterwards.
        let _top = self.top;
        match self.store.checkpoint(joined, reserve) {
            Ok(()) => {
                self.waiting = ChangeLists::new(self.alloc);
                self.end = 0;
                Ok(())
            }
            Err(fault) => Err(fault),
        }
    }

    /// Commits all that waits and a batch to the pages, under the next root, behind which the journal has no record. A stop at
    /// any moment leaves the contents before the batch or those after it, and from `Ok` on those after it alone. After a fault
    /// that is not Device nothing has changed, and what waits waits still. With `Ok` nothing waits. The sectors beside are left
    /// alone. Full: the pages had no room for all of it at once, or, with a batch that changes something, none beside the
    /// reserve: what waits by itself may take that. Number: no number is left. Device: the device failed.
    pub fn checkpoint(&mut self, batch: &Batch) -> Result<(), StoreFault>
        requires { (journal_state self.old).has_failed ≡ false }
        ensures commits { Commits result (changed_by_batch batch.now (stored (journal_state self.old)))
            (journal_state self.old) (journal_state self.new) }
        ensures anew { OnOk result (root_number self.new ≡ root_number self.old + 1) }
        ensures top { self.new.top ≡ self.old.top }
        ensures cleared { OnOk result (self.new.waiting ≡ []) }
        ensures waits { OnErr result (self.new.waiting ≡ self.old.waiting) }
        ensures history { KeepsHistory (device_under self.old) (device_under self.new) }
        ensures root { IsSoundJournal self.old → result ≡ Err StoreFault.Full
            → root_number self.new ≡ root_number self.old }
        ensures room { IsSoundJournal self.old → result ≡ Err StoreFault.Full
            → HadNoRoomFor batch.now self.old }
        ensures spares { IsSoundJournal self.old → OnOk result (KeepsReserve (reserve_for batch.now)
            (pages_of self.old.store) (pages_of self.new.store)) }
    {
        let reserve = reserve_with(batch);
        if self.waiting.is_empty() {
            return self.commit_joined(batch, reserve);
        }
        let Ok(joined) = self.waiting.join_with(batch) else {
            return Err(StoreFault::Memory);
        };
        self.commit_joined(&joined, reserve)
    }
}
