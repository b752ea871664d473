//! A store in pages on a device, whose root says whether there is a journal.
ghost use Rattle.std.proofs.Common.{refl};
ghost use Rattle.std.specs.Prelude.{◌≡◌, ◌≢◌, ◌≤◌, ◌+◌, [], true, false, Ok, Err, IfOk, OnOk, OnErr, is_some};
ghost use Rattle.storage_sizes.specs.declared.record_format.RecordFormat.TheVariants.{V1, V2};
ghost use Rattle.page_roots.specs.Formats.{record_format_of, has_journal};
ghost use Rattle.store.specs.Store.{Contents, Reads, Commits, stored};
ghost use Rattle.store.specs.Contents.{changed_by_batch, changed_in};
ghost use Rattle.store.specs.Records.{Records, entry_at, entries_where, is_from, lookup, applied};
ghost use Rattle.store.specs.Steps.{Goes, Takes};
ghost use Rattle.store.specs.Walks.{count_to, span};
ghost use Rattle.page_tree.specs.Ahead.{IsFoundBy};
ghost use Rattle.kv_store.specs.Walks.{AreAhead, AreAheadWithin, ahead_later};
ghost use Rattle.store.specs.Records.{first_from as first_record_from};
ghost use Rattle.kv_store.specs.Contents.{HoldsContents, is_journaled};
ghost use Rattle.kv_store.specs.declared.reserve.Reserve.TheVariants.{Kept, Open};
ghost use Rattle.sector_device.specs.Device.{KeepsHistory};
ghost use Rattle.cow_pages.specs.Cow.{device_of, device_below};
ghost use Rattle.kv_store.specs.TreeStore.{store_state, pages_of, RefusesRead, RefusesCommit, CountsRefusal, CountsAlone, CountsRead, CountsCommit, CommitsWhole, IsStill};
ghost use Rattle.kv_store.specs.Opening.{OpensWith};
ghost use Rattle.kv_store.specs.Numbered.{LeavesNumbered};
ghost use Rattle.kv_store.specs.Changing.{ChangesStore};
ghost use Rattle.kv_store.specs.Unwritten.{WritesNothing};
ghost use Rattle.kv_store.specs.UnwrittenLaws.{nothing_written, nothing_written_joined};
ghost use Rattle.kv_store.specs.TreeLaws.{keys_rise, present_now, settled_now};

use crate::commit::{RootWrite, commit_batch};
use crate::read_only::ReadOnlyPages;
use crate::refusals::refuse_open;
use crate::reserve::Reserve;
use cow_pages::{CowPages, Format, MAX_CACHE_PAGES, OpenFault, PageFault, preserved_stays};
use page_tree::{
    Scratch, TreeCursor, TreeWalk, check_tree, contains, count_to, first_on, get, step,
};
use sector_device::Device;
use std::alloc::Global;
use store::{Batch, Entry, EntryRef, Map, RecordFormat, Store, StoreFault, is_within};

/// A store in pages on a device: its records are the entries of the tree from logical page 0 of the durable array. Where its
/// root says that there is a journal, these are the records of the pages alone, and no call but `write_protected` touches the
/// journal. No commit but `commit_kind` changes what the root says of it. Once it has answered Device it answers nothing else. Its cursor keeps the leaf of the last scan until a commit, so that a scan
/// that goes on in that leaf reads no page.
pub struct TreeStore<D: Device> {
    pub(crate) pages: ReadOnlyPages<D>,
    scratch: Scratch,
    value: Vec<u8>,
    cursor: TreeCursor,
    pub(crate) has_failed: bool,
    fulls: u64,
    failures: u64,
}

// Written and not derived: where a value is dropped this is one call, and not its parts one by one.
impl<D: Device + Drop> Drop for TreeStore<D> {
    fn drop(self) {
        let TreeStore {
            pages: _,
            scratch: _,
            value: _,
            cursor: _,
            has_failed: _,
            fulls: _,
            failures: _,
        } = self;
    }
}

// Copies an entry.
fn copy_to(out: &mut Entry, key: &[u8], value: &[u8]) -> Result<bool, StoreFault>
    ensures found { IfOk result (λ found. (found ≡ true) × (out.new ≡ (key.now, value.now))) }
    ensures memory { OnErr result (result ≡ Err StoreFault.Memory) }
{
    out.set(key, value)?;
    Ok(true)
}

impl<D: Device> TreeStore<D> {
    /// The store in these pages. Where they hold contents it is sound, and has these.
    pub fn new(alloc: Global, pages: CowPages<D>) -> Self
        ensures pages { pages_of result ≡ pages }
        ensures works { (store_state result).has_failed ≡ false }
        ensures counts { ((store_state result).fulls ≡ 0) × ((store_state result).failures ≡ 0) }
        ensures sound { (contents : Contents) → HoldsContents contents pages
            → (store_state result).sound × (stored (store_state result) ≡ contents) }
    {
        TreeStore {
            pages: ReadOnlyPages { below: pages },
            scratch: Scratch::new(alloc),
            value: Vec::new(alloc),
            cursor: TreeCursor::new(alloc),
            has_failed: false,
            fulls: 0,
            failures: 0,
        }
    }

    /// Opens the pages of a device whose root says that there is a journal, or of one whose root says that there is none. It
    /// is synced before it is read, and nothing is written. A refusal hands it back with the content that it had:
    /// `WrongSize`, `NotADatabase`, `NewerFormat` and `Damaged` name the first fault that stands in the content, in this
    /// order: the size, the magic of the root sectors, the root sectors, the size that the root names, the map, what the
    /// root says of a journal, the tree of records. With `Ok` none of these faults stands in the content of a faithful
    /// device. `Device` says that the device failed, and `Memory` that memory was refused. The cache has so many pages.
    pub fn open_with(
        alloc: Global,
        device: D,
        journal: bool,
        cache_pages: usize,
    ) -> Result<TreeStore<D>, (D, OpenFault)>
        requires some { 1 ≤ cache_pages }
        requires most { cache_pages ≤ MAX_CACHE_PAGES }
        ensures opens { OpensWith journal (D.state device) result }
        ensures kind { IfOk result (λ s. is_journaled (pages_of s) ≡ journal) }
    {
        let mut pages = CowPages::open_with(alloc, device, cache_pages)?;
        let kind = pages.format().has_journal();
        if kind != journal {
            return Err((pages.into_device(), OpenFault::Damaged));
        }
        let checked = check_tree(alloc, &mut pages);
        // For the proof: what the calls before left alone is still as it was.
        preserved_stays(&pages);
        match checked {
            Ok(true) => Ok(TreeStore::new(alloc, pages)),
            Ok(false) => Err((pages.into_device(), OpenFault::Damaged)),
            Err(fault) => {
                let refused = refuse_open(fault, pages.has_failed());
                Err((pages.into_device(), refused))
            }
        }
    }

    // The answer to a fault of a read: Memory where an allocation failed and the device works, or else Device, which is
    // counted, and stays.
    pub(crate) fn refuse_read(&mut self, fault: PageFault) -> StoreFault
        ensures pages { self.new.pages ≡ self.old.pages }
        ensures cursor { self.new.cursor ≡ self.old.cursor }
        ensures fulls { self.new.fulls ≡ self.old.fulls }
        ensures failures { self.old.failures ≤ self.new.failures }
        ensures refused { RefusesRead fault result self.old self.new }
        ensures counts { CountsRefusal fault result self.old self.new }
    {
        if fault == PageFault::Memory && !self.pages.below.has_failed() {
            return StoreFault::Memory;
        }
        self.has_failed = true;
        self.failures = self.failures.saturating_add(1);
        StoreFault::Device
    }

    // Counts the fault of a commit.
    pub(crate) fn count(&mut self, fault: StoreFault)
        ensures pages { self.new.pages ≡ self.old.pages }
        ensures cursor { self.new.cursor ≡ self.old.cursor }
        ensures fulls { self.old.fulls ≤ self.new.fulls }
        ensures failures { self.old.failures ≤ self.new.failures }
        ensures counted { RefusesCommit fault self.old self.new }
        ensures alone { CountsAlone fault self.old self.new }
    {
        match fault {
            StoreFault::Full => self.fulls = self.fulls.saturating_add(1),
            StoreFault::Device => {
                self.has_failed = true;
                self.failures = self.failures.saturating_add(1);
            }
            StoreFault::Memory | StoreFault::Number => {}
        }
    }

    /// Whether it has answered Device. Then it answers nothing else.
    pub fn has_failed(&self) -> bool
        ensures { result ≡ (store_state self.now).has_failed }
    {
        self.has_failed
    }

    /// The device below.
    pub fn device(&self) -> &D
        ensures { result.now ≡ device_of (pages_of self.now) }
    {
        self.pages.below.device()
    }

    /// Gives the device back, as it is.
    pub fn into_device(self) -> D
        ensures { result ≡ device_of (pages_of self) }
    {
        let TreeStore {
            pages,
            scratch: _,
            value: _,
            cursor: _,
            has_failed: _,
            fulls: _,
            failures: _,
        } = self;
        pages.below.into_device()
    }
}

impl<D: Device> Map for TreeStore<D> {
    type Place = TreeWalk;

    ghost state = { λ s. store_state s };

    ghost preserved = { λ s later. WritesNothing (pages_of s) (pages_of later) };

    ghost preserved_same = { λ s. nothing_written (pages_of s) };

    ghost preserved_joined = { λ s mid later first second.
        nothing_written_joined (pages_of s) (pages_of mid) (pages_of later) first second };

    ghost cost = { λ s later most. Unit {0} };

    ghost cost_none = { λ s. tt };

    ghost cost_joined = { λ s mid later first second one other. tt };

    ghost cost_within = { λ s later less most below spent. tt };

    ghost ahead = { λ s walk records. AreAhead s walk records };

    ghost ahead_within = { λ s stop walk records. AreAheadWithin s stop walk records };

    ghost found_at = { λ s walk found. IsFoundBy walk found };

    ghost ahead_stays = { λ s later walk records nothing ahead.
        ahead_later s later walk records nothing ahead };

    ghost ahead_cut = { λ s stop walk records rise ahead. (records, refl, rise, ahead) };

    ghost ordered = { λ s sound. keys_rise s sound };

    ghost only_now = { λ s sound.
        present_now s (D.only_now (device_of (pages_of s)) sound.faithful) };

    /// Reads the entry of `key`, as `Map` says, and writes nothing, whatever it answers. Once the store has answered Device
    /// nothing changes, and `failures` rises with an answer Device alone.
    fn get(&mut self, key: &[u8], out: &mut Entry) -> Result<bool, StoreFault>
        ensures preserved { WritesNothing (pages_of self.old) (pages_of self.new) }
        ensures reads { Reads (entry_at key.now (store_state self.old).map) result out.new
            (store_state self.old) (store_state self.new) }
        ensures still { IsStill result self.old self.new }
        ensures counts { CountsRead result self.old self.new }
    {
        if self.has_failed {
            return Err(StoreFault::Device);
        }
        match get(&mut self.pages, key, &mut self.value) {
            Ok(true) => copy_to(out, key, self.value.as_slice()),
            Ok(false) => Ok(false),
            Err(fault) => Err(self.refuse_read(fault)),
        }
    }

    /// Reads the least entry at `key` or after it, as `Map` says, and writes nothing, whatever it answers. Once the store has
    /// answered Device nothing changes, and `failures` rises with an answer Device alone.
    fn scan_from(&mut self, key: &[u8], out: &mut Entry) -> Result<bool, StoreFault>
        ensures preserved { WritesNothing (pages_of self.old) (pages_of self.new) }
        ensures reads { Reads (first_record_from key.now (store_state self.old).map) result out.new
            (store_state self.old) (store_state self.new) }
        ensures still { IsStill result self.old self.new }
        ensures counts { CountsRead result self.old self.new }
    {
        if self.has_failed {
            return Err(StoreFault::Device);
        }
        match first_on(&mut self.pages, key, &mut self.cursor) {
            Ok(true) => copy_to(out, self.cursor.key(), self.cursor.value()),
            Ok(false) => Ok(false),
            Err(fault) => Err(self.refuse_read(fault)),
        }
    }

    /// Whether `key` has an entry, as `Map` says. It writes nothing, whatever it answers. Once the store has answered Device
    /// nothing changes, and `failures` rises with an answer Device alone.
    fn contains(&mut self, key: &[u8]) -> Result<bool, StoreFault>
        ensures preserved { WritesNothing (pages_of self.old) (pages_of self.new) }
        ensures goes { Goes (λ found. found ≡ is_some (lookup key.now (store_state self.old).map))
            result (store_state self.old) (store_state self.new) }
        ensures still { IsStill result self.old self.new }
        ensures counts { CountsRead result self.old self.new }
    {
        if self.has_failed {
            return Err(StoreFault::Device);
        }
        match contains(&mut self.pages, key) {
            Ok(found) => Ok(found),
            Err(fault) => Err(self.refuse_read(fault)),
        }
    }

    /// Counts the records of a span up to `most`, as `Map` says, and writes nothing, whatever it answers. Once the store has answered Device
    /// nothing changes, and `failures` rises with an answer Device alone.
    fn count_to(&mut self, start: &[u8], stop: &[u8], most: u64) -> Result<u64, StoreFault>
        ensures preserved { WritesNothing (pages_of self.old) (pages_of self.new) }
        ensures goes { Goes (λ count. count
            ≡ count_to most (span start.now stop.now (store_state self.old).map))
            result (store_state self.old) (store_state self.new) }
        ensures still { IsStill result self.old self.new }
        ensures counts { CountsRead result self.old self.new }
    {
        if self.has_failed {
            return Err(StoreFault::Device);
        }
        let alloc = *self.value.allocator();
        match count_to(alloc, &mut self.pages, start, stop, most) {
            Ok(count) => Ok(count),
            Err(fault) => Err(self.refuse_read(fault)),
        }
    }

    /// Begins a walk at `key`, as `Map` says. No page is read yet, and nothing changes.
    fn seek(&mut self, key: &[u8]) -> Result<TreeWalk, StoreFault>
        ensures preserved { WritesNothing (pages_of self.old) (pages_of self.new) }
        ensures goes { Goes (λ walk. AreAhead self.new walk
            (entries_where (is_from key.now) (store_state self.old).map))
            result (store_state self.old) (store_state self.new) }
        ensures same { self.new ≡ self.old }
        ensures still { IsStill result self.old self.new }
    {
        if self.has_failed {
            return Err(StoreFault::Device);
        }
        Ok(TreeWalk::from_key(*self.value.allocator(), key)?)
    }

    /// Goes on with a walk, as `Map` says, and writes nothing, whatever it answers. Once the store has answered Device
    /// nothing changes, and `failures` rises with an answer Device alone.
    fn step(&mut self, walk: &mut TreeWalk) -> Result<bool, StoreFault>
        ensures preserved { WritesNothing (pages_of self.old) (pages_of self.new) }
        ensures goes { Goes (λ found. (records : Records) → AreAhead self.old walk.old records
            → Takes (IsFoundBy walk.new) (AreAhead self.new walk.new) found records)
            result (store_state self.old) (store_state self.new) }
        ensures still { IsStill result self.old self.new }
        ensures counts { CountsRead result self.old self.new }
    {
        if self.has_failed {
            return Err(StoreFault::Device);
        }
        match step(&mut self.pages, walk) {
            Ok(found) => Ok(found),
            Err(fault) => Err(self.refuse_read(fault)),
        }
    }

    /// Goes on with a walk up to a stop, as `Map` says, and writes nothing, whatever it answers. Once the store has answered
    /// Device nothing changes, and `failures` rises with an answer Device alone.
    fn step_within(&mut self, walk: &mut TreeWalk, stop: &[u8]) -> Result<bool, StoreFault>
        ensures preserved { WritesNothing (pages_of self.old) (pages_of self.new) }
        ensures goes { Goes (λ found. (records : Records)
            → AreAheadWithin self.old stop.now walk.old records
            → Takes (IsFoundBy walk.new) (AreAheadWithin self.new stop.now walk.new) found records)
            result (store_state self.old) (store_state self.new) }
        ensures still { IsStill result self.old self.new }
        ensures counts { CountsRead result self.old self.new }
    {
        match self.step(walk) {
            Ok(true) => Ok(is_within(stop, self.entry(walk).key)),
            Ok(false) => Ok(false),
            Err(fault) => Err(fault),
        }
    }

    fn entry<'a>(&'a self, walk: &'a TreeWalk) -> EntryRef<'a> {
        let (key, value) = walk.entry();
        EntryRef { key, value }
    }
}

impl<D: Device> TreeStore<D> {
    // Commits all changes of a batch, in this format, which says of a journal what the root says, or none of them. The answer
    // is counted.
    fn change(
        &mut self,
        format: Format,
        switch: RootWrite,
        reserve: Reserve,
        batch: &Batch,
    ) -> Result<(), StoreFault>
        requires works { (store_state self.old).has_failed ≡ false }
        requires kind { has_journal format ≡ is_journaled (pages_of self.old) }
        ensures { ChangesStore (record_format_of format) switch reserve batch.now result self.old self.new }
    {
        self.cursor.reset();
        let pages = &mut self.pages.below;
        match commit_batch(pages, &mut self.scratch, format, switch, reserve, batch) {
            Ok(()) => Ok(()),
            Err(fault) => {
                self.count(fault);
                Err(fault)
            }
        }
    }
}

impl<D: Device> Store for TreeStore<D> {
    ghost closes = { λ s. tt };

    ghost settled = { λ s x sound worked left. settled_now s x sound worked left };

    fn number(&self) -> u64 {
        self.pages.below.number()
    }

    fn fulls(&self) -> u64 {
        self.fulls
    }

    fn failures(&self) -> u64 {
        self.failures
    }

    fn record_format(&self) -> RecordFormat {
        self.pages.below.format().record_format()
    }

    /// Commits all changes of a batch, or none of them, as `Store` says. With `Ok` a batch that changes the records of a
    /// sound store raises the number by exactly one. Over pages that hold contents it is said of each image that a stop
    /// leaves what contents it has. Full is answered where a page was wanted and none was left, and where more pages would be in
    /// use than before, and fewer free than the reserve has: so removals may take it. Once the store has answered Device nothing
    /// changes. `fulls` rises with an answer Full alone, and `failures` with Device.
    fn commit(&mut self, batch: &mut Batch) -> Result<(), StoreFault>
        ensures commits { Commits result (changed_by_batch batch.old (stored (store_state self.old)))
            (store_state self.old) (store_state self.new) }
        ensures empty { batch.old ≡ [] → (store_state self.old).has_failed ≡ false
            → (result ≡ Ok tt) × (self.new ≡ self.old) }
        ensures batch { CommitsWhole Kept batch.old (changed_by_batch batch.old) result
            self.old self.new }
        ensures still { IsStill result self.old self.new }
        ensures counts { CountsCommit result self.old self.new }
        ensures rises { (store_state self.old).sound
            → (store_state self.old).map ≢ applied batch.old (store_state self.old).map
            → OnOk result ((store_state self.new).number ≡ (store_state self.old).number + 1) }
        ensures kind { is_journaled (pages_of self.new) ≡ is_journaled (pages_of self.old) }
        ensures given_back { OnErr result (batch.new ≡ batch.old) }
    {
        if self.has_failed {
            return Err(StoreFault::Device);
        }
        if batch.is_empty() {
            return Ok(());
        }
        let format = self.pages.below.format();
        self.change(format, RootWrite::IfChanged, Reserve::Kept, batch)
    }

    /// Commits all changes of a batch and that the records are of record format 2, or nothing, as `Store` says. With
    /// `Ok` a sound store whose records were of record format 1 has the next number, whatever the batch. It may take the
    /// reserve. All else is as at `commit`.
    fn commit_migration(&mut self, batch: &Batch) -> Result<(), StoreFault>
        ensures commits { Commits result (changed_in V2 batch.now (stored (store_state self.old)))
            (store_state self.old) (store_state self.new) }
        ensures batch { CommitsWhole Open batch.now (changed_in V2 batch.now) result
            self.old self.new }
        ensures still { IsStill result self.old self.new }
        ensures counts { CountsCommit result self.old self.new }
        ensures rises { (store_state self.old).sound → (store_state self.old).record_format ≡ V1
            → OnOk result ((store_state self.new).number ≡ (store_state self.old).number + 1) }
        ensures kind { is_journaled (pages_of self.new) ≡ is_journaled (pages_of self.old) }
    {
        if self.has_failed {
            return Err(StoreFault::Device);
        }
        let format = self.pages.below.format().migrated();
        self.change(format, RootWrite::IfChanged, Reserve::Open, batch)
    }
}

impl<D: Device> TreeStore<D> {
    /// Commits all changes of a batch, or none of them, as `commit` does, and with `Ok` always under the next number,
    /// whatever the batch: also where it changes nothing. It keeps the reserve, or may take it. It is said of each image that a
    /// stop leaves under which number it has its contents: those before under the old number, those after under the next one.
    pub fn checkpoint(&mut self, batch: &Batch, reserve: Reserve) -> Result<(), StoreFault>
        ensures commits { Commits result (changed_by_batch batch.now (stored (store_state self.old)))
            (store_state self.old) (store_state self.new) }
        ensures anew { OnOk result ((store_state self.new).number ≡ (store_state self.old).number + 1) }
        ensures numbered { (store_state self.old).has_failed ≡ false
            → (contents : Contents) → HoldsContents contents (pages_of self.old)
            → LeavesNumbered result contents (changed_by_batch batch.now contents)
            (pages_of self.old) (pages_of self.new) }
        ensures batch { CommitsWhole reserve batch.now (changed_by_batch batch.now) result
            self.old self.new }
        ensures history { KeepsHistory
            (device_below (pages_of self.old)) (device_below (pages_of self.new)) }
        ensures still { IsStill result self.old self.new }
        ensures counts { CountsCommit result self.old self.new }
        ensures kind { is_journaled (pages_of self.new) ≡ is_journaled (pages_of self.old) }
    {
        if self.has_failed {
            return Err(StoreFault::Device);
        }
        let durable = self.pages.below.format();
        self.change(durable, RootWrite::Always, reserve, batch)
    }
}
