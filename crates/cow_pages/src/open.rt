//! Opening a device: its root sectors and its map are read and checked.

ghost use Rattle.std.specs.Prelude.{◌≡◌, ◌≤◌, ◌<◌, ◌*◌, ◌+◌, ◌/◌, ◌↔◌, ◌⊎◌, true, false, IfSome, IfNone, IfOk, IfErr, IsTrue, All, ℕ, List, [], Some, None, Err, OnOk, OnErr, MatchResult, length, vec_len, slice_index, IsErrOf};
ghost use Rattle.sector_device.specs.Device.{KeepsHistory, IsSynced, HasFailed, Image};
ghost use Rattle.cow_pages.specs.Image.{is_size, IsSizeOf, first_fault, fault_of_image, fault_of_root, bytes_of_page};
ghost use Rattle.cow_pages.specs.Held.{KeepsContent, SpellsEach, AreSpelled, IsSettled};
ghost use Rattle.page_roots.specs.MapPage.{entries_in};
ghost use Rattle.page_roots.specs.Reach.{IsPage, is_reached};
ghost use Rattle.page_allocator.specs.TakenPages.{IsTaken, AreReached};
ghost use Rattle.cow_pages.specs.PageMap.{IsIdle};
ghost use Rattle.cow_pages.specs.Opening.{IsMapOf, IsOfReading, IsRootFound, NamesFault};

use crate::page_map::PageMap;
use crate::spans::Span;
use page_allocator::PageAllocator;
use page_roots::{
    ENTRIES_PER_MAP_PAGE, MAX_MAP_PAGES, Root, choose, has_magic, is_sound_reach, later_format,
    read_map_page, read_root,
};
use sector_device::{Device, DeviceFault, PAGE_SIZE, SECTOR_SIZE, SECTORS_PER_PAGE, read_page};
use std::alloc::{AllocError, Global};
use storage_sizes::{MAX_PAGES, MIN_PAGES};

/// The most entries that a map has.
pub(crate) const MAX_ENTRIES: usize = ENTRIES_PER_MAP_PAGE * MAX_MAP_PAGES;

/// Why a device was not opened.
#[derive(Clone, Copy, Debug, Drop, PartialEq, Eq)]
pub enum OpenFault {
    /// It has no whole number of pages from 64 to 65,536, or another number than its root says.
    WrongSize,
    /// Neither root sector begins with the magic of a root.
    NotADatabase,
    /// It is of this format, above those that this program knows: a root sector begins as a root of
    /// it, and the other holds no newer root.
    NewerFormat(u32),
    /// A root sector is neither empty nor well formed, or the map is malformed.
    Damaged,
    /// The device failed.
    Device,
    /// Memory was refused.
    Memory,
}

impl From<AllocError> for OpenFault {
    ghost use Rattle.cow_pages.specs.declared.open.OpenFault.TheVariants.{Memory};

    ghost from_gives = { λ _ fault. fault ≡ Memory };

    fn from(_: AllocError) -> Self {
        OpenFault::Memory
    }
}

impl From<DeviceFault> for OpenFault {
    ghost use Rattle.cow_pages.specs.declared.open.OpenFault.TheVariants.{Device};

    ghost from_gives = { λ _ fault. fault ≡ Device };

    fn from(_: DeviceFault) -> Self {
        OpenFault::Device
    }
}

/// How many pages so many sectors are. None where they are no whole number of pages from 64 to 65,536.
pub fn page_count(sectors: u32) -> Option<u32>
    ensures some { IfSome result (λ pages. IsSizeOf sectors pages) }
    ensures none { IfNone result (is_size sectors ≡ false) }
{
    let pages = sectors / SECTORS_PER_PAGE;
    if sectors % SECTORS_PER_PAGE != 0 || pages < MIN_PAGES || pages > MAX_PAGES {
        return None;
    }
    Some(pages)
}

// Reads both root sectors, after a sync. After an error nothing is said of the bytes.
pub(crate) fn read_roots<D: Device>(
    device: &mut D,
    even: &mut [u8; SECTOR_SIZE],
    odd: &mut [u8; SECTOR_SIZE],
) -> Result<(), DeviceFault>
    requires room { 2 ≤ (D.state device.old).sectors }
    ensures history { KeepsHistory (D.state device.old) (D.state device.new) }
    ensures reads { (D.state device.old).faithful
        → KeepsContent (D.state device.old) (D.state device.new) }
    ensures synced { (D.state device.old).faithful → OnOk result (IsSynced (D.state device.new)) }
    ensures even { (D.state device.old).faithful
        → OnOk result (even.new ≡ (D.state device.old).content 0) }
    ensures odd { (D.state device.old).faithful
        → OnOk result (odd.new ≡ (D.state device.old).content 1) }
    ensures cause { OnErr result (HasFailed (D.state device.old) (D.state device.new)) }
{
    device.sync()?;
    device.read(0, even)?;
    device.read(1, odd)
}

// The root that is chosen, or the first fault of the root sectors.
pub(crate) fn find_root(
    pages: u32,
    even: &[u8; SECTOR_SIZE],
    odd: &[u8; SECTOR_SIZE],
) -> Result<Root, OpenFault>
    ensures found { MatchResult result (λ root. IsRootFound pages even.now odd.now root)
        (λ fault. (image : Image) → image 0 ≡ even.now → image 1 ≡ odd.now
        → fault_of_image pages image ≡ Some fault) }
    ensures content { IsErrOf result OpenFault.Device → ⊥ }
    ensures memory { IsErrOf result OpenFault.Memory → ⊥ }
{
    if !has_magic(even) && !has_magic(odd) {
        return Err(OpenFault::NotADatabase);
    }
    match choose(read_root(0, even), read_root(1, odd)) {
        Some(root) => {
            if root.pages() != pages {
                return Err(OpenFault::WrongSize);
            }
            Ok(root)
        }
        None => match later_format(even, odd) {
            Some(format) => Err(OpenFault::NewerFormat(format)),
            None => Err(OpenFault::Damaged),
        },
    }
}

// Whether these are pages of a device of so many.
pub(crate) fn are_inside(maps: &[u32], pages: u32) -> bool
    ensures { IsTrue result ↔ All (λ page. page < pages) maps.now }
{
    maps.iter().all(|page| *page < pages)
}

// The entries of the map pages of a root, one map page after the other.
pub(crate) fn read_maps<D: Device>(
    alloc: Global,
    device: &mut D,
    root: &Root,
) -> Result<Vec<u32>, OpenFault>
    requires sized { (D.state device.old).sectors ≡ 8 * root.now.pages }
    requires most { root.now.pages ≤ 65536 }
    requires inside { All (λ page. page < root.now.pages) root.now.maps }
    ensures history { KeepsHistory (D.state device.old) (D.state device.new) }
    ensures reads { (D.state device.old).faithful
        → KeepsContent (D.state device.old) (D.state device.new) }
    ensures count { IfOk result (λ entries. length entries.items ≡ 1024 * length root.now.maps) }
    ensures spelled { (D.state device.old).faithful → IfOk result (λ entries.
        SpellsEach (bytes_of_page (D.state device.old).content) root.now.maps entries.items) }
    ensures fault { IfErr result (λ fault.
        IsOfReading fault (D.state device.old) (D.state device.new)) }
{
    let maps = root.maps();
    let mut entries = Vec::with_capacity(alloc, MAX_ENTRIES)?;
    for page in maps {
        let mut bytes = [0; PAGE_SIZE];
        let mut part = [0; ENTRIES_PER_MAP_PAGE];
        read_page(device, SECTORS_PER_PAGE * *page, &mut bytes)?;
        read_map_page(&bytes, &mut part);
        entries.extend_from_slice(&part)?;
    }
    Ok(entries)
}

// The map of a root whose reach is sound, with an entry for each logical page that a map may have.
pub(crate) fn read_map<D: Device>(
    alloc: Global,
    device: &mut D,
    root: &Root,
) -> Result<Vec<u32>, OpenFault>
    requires sized { (D.state device.old).sectors ≡ 8 * root.now.pages }
    requires most { root.now.pages ≤ 65536 }
    ensures history { KeepsHistory (D.state device.old) (D.state device.new) }
    ensures reads { (D.state device.old).faithful
        → KeepsContent (D.state device.old) (D.state device.new) }
    ensures map { IfOk result (λ entries. IsMapOf root.now entries.items) }
    ensures spelled { (D.state device.old).faithful → IfOk result (λ entries.
        AreSpelled (bytes_of_page (D.state device.old).content) root.now.maps entries.items) }
    ensures fault { (D.state device.old).faithful → NamesFault result
        (fault_of_root root.now.pages (D.state device.old).content (Some root.now)) }
    ensures cause { IsErrOf result OpenFault.Device
        → HasFailed (D.state device.old) (D.state device.new) }
{
    let maps = root.maps();
    if !are_inside(maps, root.pages()) {
        return Err(OpenFault::Damaged);
    }
    let mut entries = read_maps(alloc, device, root)?;
    if !is_sound_reach(alloc, root.pages(), maps, &entries)? {
        return Err(OpenFault::Damaged);
    }
    entries.resize(MAX_ENTRIES, 0)?;
    Ok(entries)
}

// Takes each of these pages. A number that is no page is left out.
pub(crate) fn protect_all(allocator: &mut PageAllocator, pages: &[u32])
    ensures count { length allocator.new ≡ length allocator.old }
    ensures taken { (page : ℕ) → 1 ≤ page → page < length allocator.old
        → (IsTaken allocator.new page ↔ (IsTaken allocator.old page ⊎ IsPage pages.now page)) }
{
    for page in pages {
        // For the proof: the page is in use from now on.
        let _is_new = allocator.protect(*page);
    }
}

// The pages of a device of so many, where those in the reach of a root are taken.
pub(crate) fn reserve(
    alloc: Global,
    pages: u32,
    maps: &[u32],
    entries: &[u32],
) -> Result<PageAllocator, AllocError>
    requires some { 1 ≤ pages }
    requires most { pages ≤ 65536 }
    ensures count { IfOk result (λ allocator. length allocator ≡ pages) }
    ensures taken { IfOk result (λ allocator.
        AreReached allocator (is_reached maps.now entries.now) (is_reached [] entries.now)) }
{
    let mut allocator = PageAllocator::new(alloc, pages)?;
    protect_all(&mut allocator, maps);
    protect_all(&mut allocator, entries);
    Ok(allocator)
}

// Where the durable map is the working one.
fn arrange(alloc: Global, root: Root, durable: Vec<u32>) -> Result<PageMap, AllocError>
    requires least { 64 ≤ root.pages }
    requires most { root.pages ≤ 65536 }
    requires map { IsMapOf root durable.items }
    ensures root { IfOk result (λ map. map.root ≡ root) }
    ensures durable { IfOk result (λ map. map.durable.items ≡ durable.items) }
    ensures working { IfOk result (λ map. map.working.items ≡ durable.items) }
    ensures idle { IfOk result (λ map. IsIdle map.reserved) }
{
    let mut working = Vec::with_capacity(alloc, MAX_ENTRIES)?;
    working.extend_from_slice(&durable)?;
    let allocator = reserve(alloc, root.pages(), root.maps(), &durable)?;
    Ok(PageMap {
        root,
        durable,
        working,
        changed_parts: [false; MAX_MAP_PAGES],
        changed: Span::none(),
        unused_from: 0,
        reserved: [0; MAX_MAP_PAGES],
        allocator,
    })
}

// What the device holds, or why it is refused. It is synced first, and nothing is written.
pub(crate) fn load<D: Device>(alloc: Global, device: &mut D) -> Result<PageMap, OpenFault>
    ensures history { KeepsHistory (D.state device.old) (D.state device.new) }
    ensures sized { IfOk result (λ map. (D.state device.new).sectors ≡ 8 * map.root.pages) }
    ensures same { IfOk result (λ map. map.working.items ≡ map.durable.items) }
    ensures idle { IfOk result (λ map. IsIdle map.reserved) }
    ensures reads { (D.state device.old).faithful
        → KeepsContent (D.state device.old) (D.state device.new) }
    ensures settled { (D.state device.old).faithful
        → IfOk result (λ map. IsSettled (D.state device.new) map.root map.durable.items) }
    ensures fault { (D.state device.old).faithful → NamesFault result
        (first_fault (D.state device.old).sectors (D.state device.old).content) }
    ensures cause { IsErrOf result OpenFault.Device
        → HasFailed (D.state device.old) (D.state device.new) }
{
    let Some(pages) = page_count(device.sectors()) else {
        return Err(OpenFault::WrongSize);
    };
    let mut even = [0; SECTOR_SIZE];
    let mut odd = [0; SECTOR_SIZE];
    read_roots(device, &mut even, &mut odd)?;
    let root = find_root(pages, &even, &odd)?;
    let durable = read_map(alloc, device, &root)?;
    Ok(arrange(alloc, root, durable)?)
}
