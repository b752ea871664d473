//! A store in pages on a device without a journal.
ghost use Rattle.std.specs.Prelude.{◌≡◌, false};
ghost use Rattle.kv_store.specs.Contents.{is_journaled};
ghost use Rattle.kv_store.specs.TreeStore.{pages_of as tree_pages};

use crate::tree_store::TreeStore;
use cow_pages::{DEFAULT_CACHE_PAGES, MAX_CACHE_PAGES, OpenFault};
use page_tree::TreeWalk;
use sector_device::{Device, ProtectedSectors};
use std::alloc::Global;
use store::{Batch, Entry, EntryRef, Map, RecordFormat, Store, StoreFault};

/// A store in pages on a device whose root says that there is no journal: the records of the pages are those of the device. No
/// call makes a root that says otherwise.
#[derive(Drop)]
pub struct PageStore<D: Device> {
    tree: TreeStore<D>,
    ghost plain: { is_journaled (tree_pages tree) ≡ false },
}

impl<D: Device> PageStore<D> {
    ghost use Rattle.std.specs.Prelude.{◌≤◌};
    ghost use Rattle.cow_pages.specs.Cow.{device_of};
    ghost use Rattle.kv_store.specs.PageStore.{pages_of, store_state};
    ghost use Rattle.kv_store.specs.Opening.{Opens};

    /// Opens a device. It is synced before it is read, and nothing is written. A refusal hands it back with the content that
    /// it had: `WrongSize`, `NotADatabase`, `NewerFormat` and `Damaged` name the first fault that stands in the content, in
    /// this order: the size, the magic of the root sectors, the root sectors, the size that the root names, the map, that
    /// the root says that there is a journal, the tree of records. With `Ok` none of these faults stands in the content of a
    /// faithful device. `Device` says that the device failed, and `Memory` that memory was refused. The cache has
    /// `DEFAULT_CACHE_PAGES`.
    pub fn open(alloc: Global, device: D) -> Result<PageStore<D>, (D, OpenFault)>
        ensures { Opens (D.state device) result }
    {
        PageStore::open_with(alloc, device, DEFAULT_CACHE_PAGES)
    }

    /// Opens a device as `open` does, with a cache of so many pages.
    pub fn open_with(
        alloc: Global,
        device: D,
        cache_pages: usize,
    ) -> Result<PageStore<D>, (D, OpenFault)>
        requires some { 1 ≤ cache_pages }
        requires most { cache_pages ≤ MAX_CACHE_PAGES }
        ensures { Opens (D.state device) result }
    {
        match TreeStore::open_with(alloc, device, false, cache_pages) {
            Ok(tree) => Ok(PageStore { tree }),
            Err(refused) => Err(refused),
        }
    }

    /// Whether it has answered Device. Then it answers nothing else.
    pub fn has_failed(&self) -> bool
        ensures { result ≡ (store_state self.now).has_failed }
    {
        self.tree.has_failed()
    }

    /// The device below.
    pub fn device(&self) -> &D
        ensures { result.now ≡ device_of (pages_of self.now) }
    {
        self.tree.device()
    }

    /// Gives the device back, as it is.
    pub fn into_device(self) -> D
        ensures { result ≡ device_of (pages_of self) }
    {
        let PageStore { tree } = self;
        tree.into_device()
    }
}

impl<D: Device> Map for PageStore<D> {
    ghost use Rattle.std.proofs.Common.{refl};
    ghost use Rattle.std.specs.Prelude.{is_some};
    ghost use Rattle.cow_pages.specs.Cow.{device_of};
    ghost use Rattle.page_tree.specs.Ahead.{IsFoundBy};
    ghost use Rattle.store.specs.Records.{Records, entry_at, entries_where, is_from, lookup};
    ghost use Rattle.store.specs.Records.{first_from as first_record_from};
    ghost use Rattle.store.specs.Steps.{Goes, Takes};
    ghost use Rattle.store.specs.Store.{Reads};
    ghost use Rattle.store.specs.Walks.{count_to, span};
    ghost use Rattle.kv_store.specs.PageStore.{pages_of, store_state};
    ghost use Rattle.kv_store.specs.StoreLaws.{present_now};
    ghost use Rattle.kv_store.specs.TreeLaws.{keys_rise};
    ghost use Rattle.kv_store.specs.TreeStore.{CountsRead, IsStill};
    ghost use Rattle.kv_store.specs.Unwritten.{WritesNothing};
    ghost use Rattle.kv_store.specs.UnwrittenLaws.{nothing_written, nothing_written_joined};
    ghost use Rattle.kv_store.specs.Walks.{AreAhead, AreAheadWithin, ahead_later};

    type Place = TreeWalk;

    ghost state = { λ s. store_state s };

    ghost preserved = { λ s later. WritesNothing (pages_of s) (pages_of later) };

    ghost preserved_same = { λ s. nothing_written (pages_of s) };

    ghost preserved_joined = { λ s mid later first second.
        nothing_written_joined (pages_of s) (pages_of mid) (pages_of later) first second };

    ghost cost = { λ s later most. Unit {0} };

    ghost cost_none = { λ s. tt };

    ghost cost_joined = { λ s mid later first second one other. tt };

    ghost cost_within = { λ s later less most below spent. tt };

    ghost ahead = { λ s walk records. AreAhead s.tree walk records };

    ghost ahead_within = { λ s stop walk records. AreAheadWithin s.tree stop walk records };

    ghost found_at = { λ s walk found. IsFoundBy walk found };

    ghost ahead_stays = { λ s later walk records nothing ahead.
        ahead_later s.tree later.tree walk records nothing ahead };

    ghost ahead_cut = { λ s stop walk records rise ahead. (records, refl, rise, ahead) };

    ghost ordered = { λ s sound. keys_rise s.tree sound };

    ghost only_now = { λ s sound.
        present_now s (D.only_now (device_of (pages_of s)) sound.faithful) };

    /// Reads the entry of `key`, as `Map` says, and writes nothing, whatever it answers. Once the store has answered Device
    /// nothing changes, and `failures` rises with an answer Device alone.
    fn get(&mut self, key: &[u8], out: &mut Entry) -> Result<bool, StoreFault>
        ensures preserved { WritesNothing (pages_of self.old) (pages_of self.new) }
        ensures reads { Reads (entry_at key.now (store_state self.old).map) result out.new
            (store_state self.old) (store_state self.new) }
        ensures still { IsStill result self.old.tree self.new.tree }
        ensures counts { CountsRead result self.old.tree self.new.tree }
    {
        self.tree.get(key, out)
    }

    /// Reads the least entry at `key` or after it, as `Map` says, and writes nothing, whatever it answers. Once the store has
    /// answered Device nothing changes, and `failures` rises with an answer Device alone.
    fn scan_from(&mut self, key: &[u8], out: &mut Entry) -> Result<bool, StoreFault>
        ensures preserved { WritesNothing (pages_of self.old) (pages_of self.new) }
        ensures reads { Reads (first_record_from key.now (store_state self.old).map) result out.new
            (store_state self.old) (store_state self.new) }
        ensures still { IsStill result self.old.tree self.new.tree }
        ensures counts { CountsRead result self.old.tree self.new.tree }
    {
        self.tree.scan_from(key, out)
    }

    /// Whether `key` has an entry, as `Map` says. It writes nothing, whatever it answers. Once the store has answered Device
    /// nothing changes, and `failures` rises with an answer Device alone.
    fn contains(&mut self, key: &[u8]) -> Result<bool, StoreFault>
        ensures preserved { WritesNothing (pages_of self.old) (pages_of self.new) }
        ensures goes { Goes (λ found. found ≡ is_some (lookup key.now (store_state self.old).map))
            result (store_state self.old) (store_state self.new) }
        ensures still { IsStill result self.old.tree self.new.tree }
        ensures counts { CountsRead result self.old.tree self.new.tree }
    {
        self.tree.contains(key)
    }

    /// Counts the records of a span up to `most`, as `Map` says, and writes nothing, whatever it answers. Once the store has answered Device
    /// nothing changes, and `failures` rises with an answer Device alone.
    fn count_to(&mut self, start: &[u8], stop: &[u8], most: u64) -> Result<u64, StoreFault>
        ensures preserved { WritesNothing (pages_of self.old) (pages_of self.new) }
        ensures goes { Goes (λ count. count
            ≡ count_to most (span start.now stop.now (store_state self.old).map))
            result (store_state self.old) (store_state self.new) }
        ensures still { IsStill result self.old.tree self.new.tree }
        ensures counts { CountsRead result self.old.tree self.new.tree }
    {
        self.tree.count_to(start, stop, most)
    }

    /// Begins a walk at `key`, as `Map` says. No page is read yet, and nothing changes.
    fn seek(&mut self, key: &[u8]) -> Result<TreeWalk, StoreFault>
        ensures preserved { WritesNothing (pages_of self.old) (pages_of self.new) }
        ensures goes { Goes (λ walk. AreAhead self.new.tree walk
            (entries_where (is_from key.now) (store_state self.old).map))
            result (store_state self.old) (store_state self.new) }
        ensures same { self.new.tree ≡ self.old.tree }
        ensures still { IsStill result self.old.tree self.new.tree }
    {
        self.tree.seek(key)
    }

    /// Goes on with a walk, as `Map` says, and writes nothing, whatever it answers. Once the store has answered Device
    /// nothing changes, and `failures` rises with an answer Device alone.
    fn step(&mut self, walk: &mut TreeWalk) -> Result<bool, StoreFault>
        ensures preserved { WritesNothing (pages_of self.old) (pages_of self.new) }
        ensures goes { Goes (λ found. (records : Records) → AreAhead self.old.tree walk.old records
            → Takes (IsFoundBy walk.new) (AreAhead self.new.tree walk.new) found records)
            result (store_state self.old) (store_state self.new) }
        ensures still { IsStill result self.old.tree self.new.tree }
        ensures counts { CountsRead result self.old.tree self.new.tree }
    {
        self.tree.step(walk)
    }

    /// Goes on with a walk up to a stop, as `Map` says, and writes nothing, whatever it answers. Once the store has answered
    /// Device nothing changes, and `failures` rises with an answer Device alone.
    fn step_within(&mut self, walk: &mut TreeWalk, stop: &[u8]) -> Result<bool, StoreFault>
        ensures preserved { WritesNothing (pages_of self.old) (pages_of self.new) }
        ensures goes { Goes (λ found. (records : Records)
            → AreAheadWithin self.old.tree stop.now walk.old records
            → Takes (IsFoundBy walk.new) (AreAheadWithin self.new.tree stop.now walk.new) found records)
            result (store_state self.old) (store_state self.new) }
        ensures still { IsStill result self.old.tree self.new.tree }
        ensures counts { CountsRead result self.old.tree self.new.tree }
    {
        self.tree.step_within(walk, stop)
    }

    fn entry<'a>(&'a self, walk: &'a TreeWalk) -> EntryRef<'a> {
        self.tree.entry(walk)
    }
}

impl<D: Device> Store for PageStore<D> {
    ghost use Rattle.std.specs.Prelude.{◌≢◌, ◌+◌, [], Ok, OnOk, OnErr};
    ghost use Rattle.storage_sizes.specs.declared.record_format.RecordFormat.TheVariants.{V1, V2};
    ghost use Rattle.store.specs.Contents.{changed_by_batch, changed_in};
    ghost use Rattle.store.specs.Records.{applied};
    ghost use Rattle.store.specs.Store.{Commits, stored};
    ghost use Rattle.kv_store.specs.declared.reserve.Reserve.TheVariants.{Kept, Open};
    ghost use Rattle.kv_store.specs.PageStore.{store_state};
    ghost use Rattle.kv_store.specs.StoreLaws.{settled_now};
    ghost use Rattle.kv_store.specs.TreeStore.{CountsCommit, CommitsWhole, IsStill};

    ghost closes = { λ s. tt };

    ghost settled = { λ s x sound worked left. settled_now s x sound worked left };

    fn number(&self) -> u64 {
        self.tree.number()
    }

    fn fulls(&self) -> u64 {
        self.tree.fulls()
    }

    fn failures(&self) -> u64 {
        self.tree.failures()
    }

    fn record_format(&self) -> RecordFormat {
        self.tree.record_format()
    }

    /// Commits all changes of a batch, or none of them, as `Store` says. With `Ok` a batch that changes the records of a
    /// sound store raises the number by exactly one. Over pages that hold contents it is said of each image that a stop
    /// leaves what contents it has. Full is answered where a page was wanted and none was left, and where more pages would be in
    /// use than before, and fewer free than the reserve has: so removals may take it. Once the store has answered Device nothing
    /// changes. `fulls` rises with an answer Full alone, and `failures` with Device.
    fn commit(&mut self, batch: &mut Batch) -> Result<(), StoreFault>
        ensures commits { Commits result (changed_by_batch batch.old (stored (store_state self.old)))
            (store_state self.old) (store_state self.new) }
        ensures empty { batch.old ≡ [] → (store_state self.old).has_failed ≡ false
            → (result ≡ Ok tt) × (self.new ≡ self.old) }
        ensures batch { CommitsWhole Kept batch.old (changed_by_batch batch.old) result
            self.old.tree self.new.tree }
        ensures still { IsStill result self.old.tree self.new.tree }
        ensures counts { CountsCommit result self.old.tree self.new.tree }
        ensures rises { (store_state self.old).sound
            → (store_state self.old).map ≢ applied batch.old (store_state self.old).map
            → OnOk result ((store_state self.new).number ≡ (store_state self.old).number + 1) }
        ensures given_back { OnErr result (batch.new ≡ batch.old) }
    {
        self.tree.commit(batch)
    }

    /// Commits all changes of a batch and that the records are of record format 2, or nothing, as `Store` says. With
    /// `Ok` a sound store whose records were of record format 1 has the next number, whatever the batch. It may take the
    /// reserve. All else is as at `commit`.
    fn commit_migration(&mut self, batch: &Batch) -> Result<(), StoreFault>
        ensures commits { Commits result (changed_in V2 batch.now (stored (store_state self.old)))
            (store_state self.old) (store_state self.new) }
        ensures batch { CommitsWhole Open batch.now (changed_in V2 batch.now) result
            self.old.tree self.new.tree }
        ensures still { IsStill result self.old.tree self.new.tree }
        ensures counts { CountsCommit result self.old.tree self.new.tree }
        ensures rises { (store_state self.old).sound → (store_state self.old).record_format ≡ V1
            → OnOk result ((store_state self.new).number ≡ (store_state self.old).number + 1) }
    {
        self.tree.commit_migration(batch)
    }
}

impl<D: ProtectedSectors> PageStore<D> {
    ghost use Rattle.std.specs.Prelude.{◌≡◌, IfErr, OnOk};
    ghost use Rattle.sector_device.specs.Device.{IsSynced};
    ghost use Rattle.cow_pages.specs.Cow.{device_below};
    ghost use Rattle.store.specs.Steps.{Goes};
    ghost use Rattle.kv_store.specs.PageStore.{pages_of, store_state};
    ghost use Rattle.kv_store.specs.TreeStore.{CountsRead, IsStill};
    ghost use Rattle.kv_store.specs.Unwritten.{WritesNothing};

    /// Writes the first page of the device again as it is read, and brings it to the medium. To whoever reads the store or
    /// what a stop leaves of it, it is a read; after `Ok` a stop leaves each sector as it is read. `Device`: as at
    /// `TreeStore::renew`.
    pub fn renew(&mut self) -> Result<(), StoreFault>
        ensures preserved { WritesNothing (pages_of self.old) (pages_of self.new) }
        ensures goes { Goes (λ _. Unit {0}) result (store_state self.old) (store_state self.new) }
        ensures still { IsStill result self.old.tree self.new.tree }
        ensures counts { CountsRead result self.old.tree self.new.tree }
        ensures fault { IfErr result (λ fault. fault ≡ StoreFault.Device) }
        ensures synced { (device_below (pages_of self.old)).faithful
            → OnOk result (IsSynced (device_below (pages_of self.new))) }
    {
        self.tree.renew()
    }
}
