//! An array of pages over a device: the array that is durable, the one that is worked on, and the calls on both.

ghost use Rattle.std.specs.Prelude.{◌≡◌, ◌<◌, ◌≤◌, ◌+◌, ◌*◌, ℕ, None, IfOk};
ghost use Rattle.cow_pages.specs.PageMap.{IsIdle};
ghost use Rattle.cow_pages.specs.Dirty.{AreOutsideReach};
ghost use Rattle.cow_pages.specs.DirtyPages.{dirty_bytes, HasSpace};
ghost use Rattle.page_cache.specs.Held.{held_bytes};
ghost use Rattle.cow_pages.specs.Cached.{AgreesWith};

use crate::changes::{write_changes, write_pages};
use crate::dirty_pages::DirtyPages;
use crate::open::{OpenFault, load};
use crate::page_map::{CommitFault, PageMap};
use page_cache::PageCache;
use page_nodes::PageView;
use page_roots::Format;
use pages::{PAGE_SIZE, PageFault};
use sector_device::{
    Device, DeviceFault, ProtectedSectors, SECTOR_SIZE, SECTORS_PER_PAGE, read_page,
};
use std::alloc::{AllocError, Global};

/// The pages of a cache for which no other number is asked: 1 MiB, and a twentieth of it for offsets of their cells.
pub const DEFAULT_CACHE_PAGES: usize = 256;

/// The most pages of a cache: as many as the largest file has, 256 MiB, and a twentieth of it for offsets of their cells.
pub const MAX_CACHE_PAGES: usize = 65_536;

// Where in memory the page is that was fetched last.
#[derive(Clone, Copy, Drop)]
pub(crate) enum PageLocation {
    // Among the dirty pages, at this index.
    Dirty(usize),
    // In this slot of the cache.
    Cached(usize),
    // Where the page is that was read from the device last.
    Read,
}

/// An array of logical pages of 4,096 bytes on a device.
///
/// The durable array is what every stop leaves. The working array is read and written, and `commit` makes it the
/// durable one at one moment: a stop leaves the one or the other. After the first fault of the device no call makes
/// another device call, and `read`, `write`, `new_page`, `free_page` and `commit` answer `Device`.
///
/// A page that was written is dirty: its bytes are in memory alone until a commit, or a write that finds no room, writes
/// all dirty pages to the device. At most `MAX_DIRTY_PAGES` have room at once, and a page that was given back keeps its
/// room until then. Pages of the device that were read or written last are in a cache, and are read from there. All memory
/// that a call needs is taken by `open`: where the cache is refused memory, it holds less.
pub struct CowPages<D: Device> {
    device: D,
    pub(crate) map: PageMap,
    dirty: DirtyPages,
    cache: PageCache,
    // The page that was fetched last, and the page that was read from the device last. A commit spells map pages there.
    place: PageLocation,
    page: [u8; PAGE_SIZE],
    has_failed: bool,
    ghost sized: { (D.state device).sectors ≡ 8 * map.root.pages },
    ghost idle: { IsIdle map.reserved },
    ghost outside: { AreOutsideReach map.root.pages map.root.maps map.durable.items (dirty_bytes dirty) },
    ghost cached: { (D.state device).faithful → AgreesWith cache (D.state device).content },
}

// Written and not derived: where a value is dropped this is one call, and not its parts one by one.
impl<D: Device + Drop> Drop for CowPages<D> {
    fn drop(self) {
        let CowPages {
            device: _,
            map: _,
            dirty: _,
            cache: _,
            place: _,
            page: _,
            has_failed: _,
        } = self;
    }
}

// The memory of an array: no dirty page, and an empty cache, which has no more slots than there are pages.
fn take_memory(
    alloc: Global,
    pages: u32,
    cache_pages: usize,
) -> Result<(DirtyPages, PageCache), AllocError>
    requires some { 0 < pages }
    ensures clean { IfOk result (λ memory. (page : ℕ) → dirty_bytes memory.0 page ≡ None) }
    ensures space { IfOk result (λ memory. HasSpace memory.0) }
    ensures empty { IfOk result (λ memory. (page : ℕ) → held_bytes memory.1 page ≡ None) }
{
    let dirty = DirtyPages::new(alloc, pages)?;
    let cache = PageCache::new(alloc, cache_pages.min(pages as usize))?;
    Ok((dirty, cache))
}

impl<D: Device> CowPages<D> {
    ghost use Rattle.std.specs.Prelude.{◌⊎◌, ◌↔◌, ◌∷◌, [], IsTrue, IsSome, OnOk, IfErr};
    ghost use Rattle.pages.specs.State.{GetOwn};
    ghost use Rattle.cow_pages.specs.Dirty.{IsOutsideReach};
    ghost use Rattle.cow_pages.specs.DirtyPages.{HasRoom};
    ghost use Rattle.cow_pages.specs.Cow.{root_of, has_failed, device_of, device_below, own_pages, fetched_bytes, IsDirty, IsCached, IsOpen, HasDirtySpace, MakesNoDeviceCall, LeavesBeforeOrAfter, working_array};
    ghost use Rattle.page_nodes.specs.Views.{bytes_of};
    ghost use Rattle.cow_pages.specs.Preserved.{IsPreserved};
    ghost use Rattle.cow_pages.specs.Calls.{Opens, ReadsPage, OnlyReadsPages, MakesRoom, PutsPage, FailsToWrite, WritesPage, TakesPage, FreesPage, IsAbandoned, Commits, CommitsNothing, IsClosed};
    ghost use Rattle.sector_device.specs.Device.{KeepsHistory};

    /// Opens a device. It is synced before it is read, and its content stays. A refusal hands it back, with the content
    /// that it had: `WrongSize`, `NotADatabase`, `NewerFormat` and `Damaged` name the first fault that stands in the
    /// content, in the order of the definition; `Device` says that the device failed, and `Memory` that memory was
    /// refused, and comes only where the content has no fault or is damaged. The cache has `DEFAULT_CACHE_PAGES`.
    pub fn open(alloc: Global, device: D) -> Result<CowPages<D>, (D, OpenFault)>
        ensures { Opens (D.state device) result }
    {
        CowPages::open_with(alloc, device, DEFAULT_CACHE_PAGES)
    }

    /// Opens a device as `open` does, with a cache of so many pages, or as many as the device has.
    pub fn open_with(
        alloc: Global,
        device: D,
        cache_pages: usize,
    ) -> Result<CowPages<D>, (D, OpenFault)>
        requires some { 1 ≤ cache_pages }
        requires most { cache_pages ≤ MAX_CACHE_PAGES }
        ensures { Opens (D.state device) result }
    {
        let mut device = device;
        let map = match load(alloc, &mut device) {
            Ok(map) => map,
            Err(fault) => return Err((device, fault)),
        };
        match take_memory(alloc, map.root.pages(), cache_pages) {
            Ok((dirty, cache)) => Ok(CowPages {
                device,
                map,
                dirty,
                cache,
                place: PageLocation::Read,
                page: [0; PAGE_SIZE],
                has_failed: false,
            }),
            Err(_) => Err((device, OpenFault::Memory)),
        }
    }

    /// Whether a page of the working array is in use. No device call is made.
    pub fn is_used(&self, page: u32) -> bool
        ensures { IsTrue result ↔ IsSome (working_array self.now page) }
    {
        self.map.page(page) != 0
    }

    /// Fetches a page of the working array: `fetched` lends it until the next call. A page that is dirty or in the cache
    /// is lent from there, and no device call is made. `Malformed` says that the page is not in use, and `Device` that the
    /// device failed in this call or an earlier one.
    #[tactic(auto, using(crate::specs::PreservedLaws::preserved_same))]
    pub fn fetch(&mut self, page: u32) -> Result<(), PageFault>
        ensures preserved { IsPreserved self.old self.new }
        ensures only_reads { OnlyReadsPages self.old self.new }
        ensures outcome { ReadsPage page (fetched_bytes self.new) result self.old self.new }
        ensures no_device_call { IsDirty page self.old ⊎ IsCached page self.old
            → MakesNoDeviceCall self.old self.new }
        ensures closed { IsClosed PageFault.Device result self.old self.new }
    {
        if self.has_failed {
            return Err(PageFault::Device);
        }
        let physical = self.map.page(page);
        if physical == 0 {
            return Err(PageFault::Malformed);
        }
        if let Some(index) = self.dirty.find(physical) {
            self.place = PageLocation::Dirty(index);
            return Ok(());
        }
        if let Some(slot) = self.cache.find(physical) {
            self.place = PageLocation::Cached(slot);
            return Ok(());
        }
        self.place = PageLocation::Read;
        let sector = SECTORS_PER_PAGE * physical;
        match read_page(&mut self.device, sector, &mut self.page) {
            Ok(()) => {
                self.cache.put(physical, &self.page);
                Ok(())
            }
            Err(_) => {
                self.has_failed = true;
                Err(PageFault::Device)
            }
        }
    }

    /// The page that was fetched last, where no other call came since. From the cache it comes with the offsets of its cells.
    pub fn fetched(&self) -> PageView<'_>
        ensures { bytes_of result ≡ fetched_bytes self.now }
    {
        let held = match self.place {
            PageLocation::Dirty(index) => match self.dirty.lend(index) {
                Some(bytes) => Some(PageView::plain(bytes)),
                None => None,
            },
            PageLocation::Cached(slot) => self.cache.lend(slot),
            PageLocation::Read => None,
        };
        match held {
            Some(page) => page,
            None => PageView::plain(&self.page),
        }
    }

    /// Reads a page of the working array, as `fetch` does, and copies its bytes. After an error nothing is said of `bytes`.
    pub fn read(&mut self, page: u32, bytes: &mut [u8; PAGE_SIZE]) -> Result<(), PageFault>
        ensures preserved { IsPreserved self.old self.new }
        ensures only_reads { OnlyReadsPages self.old self.new }
        ensures outcome { ReadsPage page bytes.new result self.old self.new }
        ensures no_device_call { IsDirty page self.old ⊎ IsCached page self.old
            → MakesNoDeviceCall self.old self.new }
        ensures closed { IsClosed PageFault.Device result self.old self.new }
    {
        self.fetch(page)?;
        *bytes = *self.fetched().bytes();
        Ok(())
    }

    // Makes room in memory for a physical page: where there is none, all dirty pages are written to the device.
    #[tactic(auto, using(crate::specs::PreservedLaws::preserved_same))]
    fn make_room(&mut self, physical: u32) -> Result<(), PageFault>
        ensures preserved { IsPreserved self.old self.new }
        ensures map { self.new.map ≡ self.old.map }
        ensures room { OnOk result (MakesRoom physical self.old self.new) }
        ensures fault { IfErr result (λ fault. FailsToWrite fault self.old self.new) }
        ensures no_device_call { HasRoom self.old.dirty physical
            → MakesNoDeviceCall self.old self.new }
    {
        if self.dirty.has_room(physical) {
            return Ok(());
        }
        match write_pages(&mut self.device, &mut self.cache, &self.dirty) {
            Ok(()) => {
                self.dirty.clear();
                Ok(())
            }
            Err(_) => {
                self.has_failed = true;
                Err(PageFault::Device)
            }
        }
    }

    // Puts the bytes of a physical page into memory: the page is dirty.
    fn put(&mut self, physical: u32, bytes: &[u8; PAGE_SIZE]) -> Result<(), PageFault>
        requires outside { IsOutsideReach self.old.map.root.pages self.old.map.root.maps
            self.old.map.durable.items physical }
        ensures preserved { IsPreserved self.old self.new }
        ensures map { self.new.map ≡ self.old.map }
        ensures put { OnOk result (PutsPage physical bytes.now self.old self.new) }
        ensures fault { IfErr result (λ fault. FailsToWrite fault self.old self.new) }
        ensures no_device_call { HasRoom self.old.dirty physical
            → MakesNoDeviceCall self.old self.new }
    {
        self.make_room(physical)?;
        self.dirty.put(physical, bytes);
        Ok(())
    }

    /// Writes a page of the working array that is in use: it is dirty. No device call is made where it was dirty before or
    /// there is room for one dirty page more; where there is none, all dirty pages are written first. `Malformed` says that the page is not in use; `Full` that it
    /// still has its durable physical page, and each page of the device from 1 on is in the durable reach or named by the
    /// working map; `Device` that the device failed in this call or an earlier one. The durable array stays as it is,
    /// whatever happens.
    #[tactic(auto, using(crate::specs::PreservedLaws::preserved_same))]
    pub fn write(&mut self, page: u32, bytes: &[u8; PAGE_SIZE]) -> Result<(), PageFault>
        ensures preserved { IsPreserved self.old self.new }
        ensures outcome { WritesPage page bytes.now result self.old self.new }
        ensures own { OnOk result (GetOwn (page ∷ []) (own_pages self.old) (own_pages self.new)) }
        ensures no_device_call { IsDirty page self.old ⊎ HasDirtySpace self.old
            → MakesNoDeviceCall self.old self.new }
        ensures closed { IsClosed PageFault.Device result self.old self.new }
    {
        if self.has_failed {
            return Err(PageFault::Device);
        }
        if self.map.page(page) == 0 {
            return Err(PageFault::Malformed);
        }
        match self.map.own_page(page) {
            Ok(physical) => self.put(physical, bytes),
            Err(_) => Err(PageFault::Full),
        }
    }

    /// Takes a page that is not in use in the working array, and writes it as `write` does. `Full` says that each page
    /// of the device from 1 on is in the durable reach or named by the working map; `Device` that the device failed in
    /// this call or an earlier one. The durable array stays as it is, whatever happens.
    #[tactic(auto, using(crate::specs::PreservedLaws::preserved_same))]
    pub fn new_page(&mut self, bytes: &[u8; PAGE_SIZE]) -> Result<u32, PageFault>
        ensures preserved { IsPreserved self.old self.new }
        ensures outcome { TakesPage bytes.now result self.old self.new }
        ensures own { IfOk result (λ page. GetOwn (page ∷ []) (own_pages self.old) (own_pages self.new)) }
        ensures no_device_call { HasDirtySpace self.old → MakesNoDeviceCall self.old self.new }
        ensures closed { IsClosed PageFault.Device result self.old self.new }
    {
        if self.has_failed {
            return Err(PageFault::Device);
        }
        let Ok((page, physical)) = self.map.take_new() else {
            return Err(PageFault::Full);
        };
        self.put(physical, bytes)?;
        Ok(page)
    }

    /// Gives back a page of the working array that is in use. Its dirty bytes are discarded. `Malformed` says that it is
    /// not in use, and `Device` that the device failed in an earlier call. No device call is made.
    #[tactic(auto, using(crate::specs::PreservedLaws::preserved_same))]
    pub fn free_page(&mut self, page: u32) -> Result<(), PageFault>
        ensures preserved { IsPreserved self.old self.new }
        ensures outcome { FreesPage page result self.old self.new }
        ensures own { OnOk result (GetOwn [] (own_pages self.old) (own_pages self.new)) }
        ensures no_device_call { MakesNoDeviceCall self.old self.new }
        ensures open { IsOpen self.old → IsOpen self.new }
        ensures closed { IsClosed PageFault.Device result self.old self.new }
    {
        if self.has_failed {
            return Err(PageFault::Device);
        }
        let physical = self.map.page(page);
        if physical == 0 {
            return Err(PageFault::Malformed);
        }
        self.dirty.discard(physical);
        self.map.release(page);
        Ok(())
    }

    /// Commits as `commit_anew` does, but where the map and the format are the durable ones: then it succeeds, unless the
    /// device has failed, no device call is made, and the number stays.
    pub fn commit(&mut self, format: Format) -> Result<(), CommitFault>
        ensures history { KeepsHistory (device_below self.old) (device_below self.new) }
        ensures any_moment { IsOpen self.old → LeavesBeforeOrAfter format self.old self.new }
        ensures outcome { Commits format result self.old self.new }
        ensures nothing { CommitsNothing format result self.old self.new }
        ensures closed { IsClosed CommitFault.Device result self.old self.new }
    {
        if self.has_failed {
            return Err(CommitFault::Device);
        }
        if self.map.root.format() != format || self.map.has_changes() {
            return self.commit_anew(format);
        }
        self.dirty.clear();
        Ok(())
    }

    /// Makes the working array the durable one, in this format and under the next number, also where nothing has changed. A
    /// stop at any moment leaves the one or the other, and from `Ok` on the new one alone. All dirty pages are written.
    ///
    /// Nothing is changed by a refusal: `NoFirstPage` says that logical page 0 is not in use, `Number` that the number
    /// is the last one, and `Full` that each page of the device from 1 on is in the durable reach, named by the working
    /// map, or needed for a map page of the next root. `Device` says that the device failed in this call or an earlier
    /// one. After each of them the device is recoverable: a stop leaves the durable array, which is as it was, or one of the
    /// next number.
    pub fn commit_anew(&mut self, format: Format) -> Result<(), CommitFault>
        ensures history { KeepsHistory (device_below self.old) (device_below self.new) }
        ensures any_moment { IsOpen self.old → LeavesBeforeOrAfter format self.old self.new }
        ensures outcome { Commits format result self.old self.new }
        ensures anew { OnOk result ((root_of self.new).number ≡ (root_of self.old).number + 1) }
        ensures closed { IsClosed CommitFault.Device result self.old self.new }
    {
        if self.has_failed {
            return Err(CommitFault::Device);
        }
        let next = self.map.prepare(format)?;
        let written = write_changes(
            &mut self.device,
            &mut self.cache,
            &mut self.page,
            &self.dirty,
            &self.map,
            &next,
        );
        match written {
            Ok(()) => {
                self.dirty.clear();
                self.map.advance(next);
                Ok(())
            }
            Err(_) => {
                self.map.unreserve();
                self.has_failed = true;
                Err(CommitFault::Device)
            }
        }
    }

    /// Makes the durable array the working one again. All dirty bytes are discarded. No device call is made.
    pub fn abandon(&mut self)
        ensures preserved { IsPreserved self.old self.new }
        ensures outcome { IsAbandoned self.old self.new }
    {
        self.dirty.clear();
        self.map.restore();
    }

    /// Whether a call of the device has failed. Then every call that would make one answers `Device`.
    pub fn has_failed(&self) -> bool
        ensures { result ≡ has_failed self.now }
    {
        self.has_failed
    }

    /// The format of the durable root.
    pub fn format(&self) -> Format
        ensures { result ≡ (root_of self.now).format }
    {
        self.map.root.format()
    }

    /// The number of the durable root, at least 1.
    pub fn number(&self) -> u64
        ensures { result ≡ (root_of self.now).number }
    {
        self.map.root.number()
    }

    /// The device below.
    pub fn device(&self) -> &D
        ensures { result.now ≡ device_of self.now }
    {
        &self.device
    }

    /// Gives the device back, as it is. Changes that were not committed are lost.
    pub fn into_device(self) -> D
        ensures { result ≡ device_of self }
    {
        let CowPages {
            device,
            map: _,
            dirty: _,
            cache: _,
            place: _,
            page: _,
            has_failed: _,
        } = self;
        device
    }
}

impl<D: ProtectedSectors> CowPages<D> {
    ghost use Rattle.std.specs.Prelude.{true, false, length, IsErr, MatchResult};
    ghost use Rattle.cow_pages.specs.Calls.{WritesProtected};
    ghost use Rattle.cow_pages.specs.Cow.{device_below, has_failed, working_array, KeepsDurableArray, KeepsMemory, IsFaulted, MakesNoDeviceCall};
    ghost use Rattle.cow_pages.specs.Preserved.{HoldsDurable};

    /// Writes sectors that the device keeps beside, one after the other, from `first` on, and makes them last with one
    /// sync. A stop during the call or after it leaves in each of them, by itself, what it might have left before or the
    /// bytes written to it; after `Ok` these alone. Neither array changes, and a stop leaves the durable one. The error
    /// says that the device failed in this call or an earlier one.
    pub fn write_protected(
        &mut self,
        first: u32,
        sectors: &[[u8; SECTOR_SIZE]],
    ) -> Result<(), DeviceFault>
        requires room { SECTORS_PER_PAGE ≤ (device_below self.old).sectors }
        requires beside { (i : ℕ) → i < length sectors.now → (device_below self.old).beside (first + i) }
        ensures device { WritesProtected first sectors.now result (device_below self.old) (device_below self.new) }
        ensures memory { KeepsMemory self.old self.new }
        ensures array { (device_below self.old).faithful
            → (l : ℕ) → working_array self.new l ≡ working_array self.old l }
        ensures durable { HoldsDurable self.old → KeepsDurableArray self.old self.new }
        ensures outcome { MatchResult result (λ _. has_failed self.new ≡ false) (λ _. IsFaulted self.old self.new) }
        ensures closed { has_failed self.old ≡ true → IsErr result × MakesNoDeviceCall self.old self.new }
    {
        if self.has_failed {
            return Err(DeviceFault);
        }
        match self.device.write_protected(first, sectors) {
            Ok(()) => Ok(()),
            Err(_) => {
                self.has_failed = true;
                Err(DeviceFault)
            }
        }
    }
}
