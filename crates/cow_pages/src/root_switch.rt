//! How the durable root changes.

ghost use Rattle.std.specs.Prelude.{◌≡◌, ◌<◌, ◌≤◌, ◌*◌, ◌+◌, ℕ, List, OnOk, OnErr, slice_index, length, take};
ghost use Rattle.sector_device.specs.Timeline.{LeavesOnly};
ghost use Rattle.sector_device.specs.Device.{KeepsHistory, HasFailed, timeline};
ghost use Rattle.sector_device.specs.Page.{IsAlone};
ghost use Rattle.page_roots.specs.Root.{RootFields};
ghost use Rattle.page_roots.specs.MapPage.{entries_in};
ghost use Rattle.cow_pages.specs.Image.{bytes_of_page};
ghost use Rattle.cow_pages.specs.Held.{part_of};
ghost use Rattle.cow_pages.specs.Cached.{AgreesWith};
ghost use Rattle.cow_pages.specs.Commit.{IsApart, AgreesApart, CanSwitch, SwitchesRoot, CanCommit, CanWriteMaps, WritesNext};

use crate::page_map::PageMap;
use page_cache::PageCache;
use page_roots::{ENTRIES_PER_MAP_PAGE, MAX_MAP_PAGES, Root, put_map_page};
use pages::PAGE_SIZE;
use sector_device::{Device, DeviceFault, SECTORS_PER_PAGE, write_page};

// Spells the map page of this index.
fn put_map(entries: &[u32], index: usize, bytes: &mut [u8; PAGE_SIZE])
    requires inside { index < 64 }
    requires count { length entries.now ≡ 65536 }
    ensures { entries_in bytes.new ≡ part_of entries.now index }
{
    let start = ENTRIES_PER_MAP_PAGE * index;
    put_map_page(&entries[start..start + ENTRIES_PER_MAP_PAGE], bytes);
}

// Writes the parts of the entries to the pages of their indexes, where 0 is none; each is spelled in scratch. The cache
// forgets these pages.
fn write_maps<D: Device>(
    device: &mut D,
    cache: &mut PageCache,
    scratch: &mut [u8; PAGE_SIZE],
    pages: &[u32; MAX_MAP_PAGES],
    entries: &[u32],
) -> Result<(), DeviceFault>
    requires { CanWriteMaps (D.state device.old) pages.now entries.now }
    ensures history { KeepsHistory (D.state device.old) (D.state device.new) }
    ensures any_moment { (D.state device.old).faithful
        → LeavesOnly (AgreesApart pages.now (D.state device.old))
        (timeline (D.state device.old)) (timeline (D.state device.new)) }
    ensures alone { (D.state device.old).faithful → (s : ℕ) → IsApart pages.now s
        → IsAlone (D.state device.old) (D.state device.new) s }
    ensures written { (D.state device.old).faithful → OnOk result ((j : ℕ)
        → 0 < slice_index pages.now j
        → entries_in (bytes_of_page (D.state device.new).content (slice_index pages.now j))
        ≡ part_of entries.now j) }
    ensures cached { (D.state device.old).faithful
        → AgreesWith cache.old (D.state device.old).content
        → AgreesWith cache.new (D.state device.new).content }
    ensures cause { OnErr result (HasFailed (D.state device.old) (D.state device.new)) }
{
    for index in 0..MAX_MAP_PAGES {
        let page = pages[index];
        if page != 0 {
            cache.invalidate(page);
            put_map(entries, index, scratch);
            write_page(device, SECTORS_PER_PAGE * page, scratch)?;
        }
    }
    Ok(())
}

// Makes durable what was written, and then the next root with it. After an error the device is recoverable for the old
// root.
fn switch<D: Device>(device: &mut D, next: &Root) -> Result<(), DeviceFault>
    requires room { 2 ≤ (D.state device.old).sectors }
    ensures history { KeepsHistory (D.state device.old) (D.state device.new) }
    ensures switches { (root : RootFields) (durable working : List ℕ)
        → CanSwitch (D.state device.old) root durable next.now working
        → SwitchesRoot root durable next.now working result
        (D.state device.old) (D.state device.new) }
    ensures others { (D.state device.old).faithful → (s : ℕ) → 2 ≤ s
        → (D.state device.new).content s ≡ (D.state device.old).content s }
    ensures cause { OnErr result (HasFailed (D.state device.old) (D.state device.new)) }
{
    device.sync()?;
    device.write(next.sector(), &next.bytes())?;
    device.sync()
}

// Writes the reserved map pages of the next root, each spelled in scratch, and then the root. A stop at any moment leaves
// the array before or after, and after an error the device is recoverable for the old root.
pub(crate) fn write_next<D: Device>(
    device: &mut D,
    cache: &mut PageCache,
    scratch: &mut [u8; PAGE_SIZE],
    map: &PageMap,
    next: &Root,
) -> Result<(), DeviceFault>
    requires sized { (D.state device.old).sectors ≡ 8 * map.now.root.pages }
    ensures history { KeepsHistory (D.state device.old) (D.state device.new) }
    ensures writes { CanCommit (D.state device.old) map.now next.now
        → WritesNext map.now next.now result (D.state device.old) (D.state device.new) }
    ensures cached { (D.state device.old).faithful
        → AgreesWith cache.old (D.state device.old).content
        → AgreesWith cache.new (D.state device.new).content }
    ensures cause { OnErr result (HasFailed (D.state device.old) (D.state device.new)) }
{
    write_maps(device, cache, scratch, &map.reserved, &map.working)?;
    switch(device, next)
}
