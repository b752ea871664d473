//! Reads of a store with a journal: of its pages under what waits.
ghost use Rattle.std.specs.Prelude.{◌≡◌, is_some};
ghost use Rattle.store.specs.Records.{Records, entry_at, entries_where, first_from, is_from, lookup};
ghost use Rattle.store.specs.Steps.{Goes, Takes};
ghost use Rattle.store.specs.Store.{Reads};
ghost use Rattle.store.specs.Walks.{count_to, span};
ghost use Rattle.cow_pages.specs.Cow.{device_of};
ghost use Rattle.kv_store.specs.TreeStore.{pages_of};
ghost use Rattle.journal_store.specs.Stores.{journal_state};
ghost use Rattle.journal_store.specs.Reads.{KeepsJournal, IsStill, IsAhead, IsAheadWithin, IsFoundIn, keeps_same, keeps_joined, ahead_stays, ahead_cut, records_rise, present_in};

use crate::stores::JournalStore;
use crate::under::{
    contains_under, count_under, get_under, scan_under, seek_under, step_under, step_within_under,
};
use page_tree::TreeWalk;
use sector_device::Device;
use store::{Entry, EntryRef, Map, StoreFault};
use transactions::{ViewPlace, entry_at};

impl<D: Device> Map for JournalStore<D> {
    type Place = ViewPlace<TreeWalk>;

    ghost state = { λ s. journal_state s };

    ghost preserved = { λ s later. KeepsJournal s later };

    ghost preserved_same = { λ s. keeps_same s };

    ghost preserved_joined = { λ s mid later first second. keeps_joined s mid later first second };

    ghost cost = { λ s later most. Unit {0} };

    ghost cost_none = { λ s. tt };

    ghost cost_joined = { λ s mid later first second one other. tt };

    ghost cost_within = { λ s later less most below spent. tt };

    ghost ahead = { λ s place records. IsAhead s place records };

    ghost ahead_within = { λ s stop place records. IsAheadWithin s stop place records };

    ghost found_at = { λ s place found. IsFoundIn place found };

    ghost ahead_stays = { λ s later place records keeps is.
        ahead_stays s later place records keeps is };

    ghost ahead_cut = { λ s stop place records rise is. ahead_cut s stop place records rise is };

    ghost ordered = { λ s sound. records_rise s sound };

    ghost only_now = { λ s sound.
        present_in s (D.only_now (device_of (pages_of s.store)) sound.pages.faithful) };

    /// Reads the entry of `key`, as `Map` says, and writes nothing, whatever it answers. Once the store has answered Device
    /// nothing changes.
    fn get(&mut self, key: &[u8], out: &mut Entry) -> Result<bool, StoreFault>
        ensures preserved { KeepsJournal self.old self.new }
        ensures reads { Reads (entry_at key.now (journal_state self.old).map) result out.new
            (journal_state self.old) (journal_state self.new) }
        ensures still { IsStill result self.old self.new }
    {
        if self.has_failed() {
            return Err(StoreFault::Device);
        }
        let lists = self.waiting.as_slice();
        get_under(self.alloc, &mut self.store, lists, key, out)
    }

    /// Reads the least entry at `key` or after it, as `Map` says, and writes nothing, whatever it answers. Once the store
    /// has answered Device nothing changes.
    fn scan_from(&mut self, key: &[u8], out: &mut Entry) -> Result<bool, StoreFault>
        ensures preserved { KeepsJournal self.old self.new }
        ensures reads { Reads (first_from key.now (journal_state self.old).map) result out.new
            (journal_state self.old) (journal_state self.new) }
        ensures still { IsStill result self.old self.new }
    {
        if self.has_failed() {
            return Err(StoreFault::Device);
        }
        let lists = self.waiting.as_slice();
        scan_under(self.alloc, &mut self.store, lists, key, out)
    }

    /// Whether `key` has an entry, as `Map` says. It writes nothing, whatever it answers. Once the store has answered Device
    /// nothing changes.
    fn contains(&mut self, key: &[u8]) -> Result<bool, StoreFault>
        ensures preserved { KeepsJournal self.old self.new }
        ensures goes { Goes (λ found. found ≡ is_some (lookup key.now (journal_state self.old).map))
            result (journal_state self.old) (journal_state self.new) }
        ensures still { IsStill result self.old self.new }
    {
        if self.has_failed() {
            return Err(StoreFault::Device);
        }
        let lists = self.waiting.as_slice();
        contains_under(self.alloc, &mut self.store, lists, key)
    }

    /// Counts the records of a span up to `most`, as `Map` says, and writes nothing, whatever it answers. Once the store has answered
    /// Device nothing changes.
    fn count_to(&mut self, start: &[u8], stop: &[u8], most: u64) -> Result<u64, StoreFault>
        ensures preserved { KeepsJournal self.old self.new }
        ensures goes { Goes (λ count. count
            ≡ count_to most (span start.now stop.now (journal_state self.old).map))
            result (journal_state self.old) (journal_state self.new) }
        ensures still { IsStill result self.old self.new }
    {
        if self.has_failed() {
            return Err(StoreFault::Device);
        }
        let lists = self.waiting.as_slice();
        count_under(self.alloc, &mut self.store, lists, start, stop, most)
    }

    /// Begins a walk at `key`, as `Map` says. It writes nothing. Once the store has answered Device nothing changes.
    fn seek(&mut self, key: &[u8]) -> Result<ViewPlace<TreeWalk>, StoreFault>
        ensures preserved { KeepsJournal self.old self.new }
        ensures goes { Goes (λ place. IsAhead self.new place
            (entries_where (is_from key.now) (journal_state self.old).map))
            result (journal_state self.old) (journal_state self.new) }
        ensures still { IsStill result self.old self.new }
    {
        if self.has_failed() {
            return Err(StoreFault::Device);
        }
        let lists = self.waiting.as_slice();
        seek_under(self.alloc, &mut self.store, lists, key)
    }

    /// Goes on with a walk, as `Map` says, and writes nothing, whatever it answers. Once the store has answered Device
    /// nothing changes.
    fn step(&mut self, place: &mut ViewPlace<TreeWalk>) -> Result<bool, StoreFault>
        ensures preserved { KeepsJournal self.old self.new }
        ensures goes { Goes (λ found. (records : Records) → IsAhead self.old place.old records
            → Takes (IsFoundIn place.new) (IsAhead self.new place.new) found records)
            result (journal_state self.old) (journal_state self.new) }
        ensures still { IsStill result self.old self.new }
    {
        if self.has_failed() {
            return Err(StoreFault::Device);
        }
        let lists = self.waiting.as_slice();
        step_under(self.alloc, &mut self.store, lists, place)
    }

    /// Goes on with a walk up to a stop, as `Map` says, and writes nothing, whatever it answers. Once the store has answered
    /// Device nothing changes.
    fn step_within(
        &mut self,
        place: &mut ViewPlace<TreeWalk>,
        stop: &[u8],
    ) -> Result<bool, StoreFault>
        ensures preserved { KeepsJournal self.old self.new }
        ensures goes { Goes (λ found. (records : Records) → IsAheadWithin self.old stop.now place.old records
            → Takes (IsFoundIn place.new) (IsAheadWithin self.new stop.now place.new) found records)
            result (journal_state self.old) (journal_state self.new) }
        ensures still { IsStill result self.old self.new }
    {
        if self.has_failed() {
            return Err(StoreFault::Device);
        }
        let lists = self.waiting.as_slice();
        step_within_under(self.alloc, &mut self.store, lists, place, stop)
    }

    fn entry<'a>(&'a self, place: &'a ViewPlace<TreeWalk>) -> EntryRef<'a> {
        entry_at(&self.store, place)
    }
}
