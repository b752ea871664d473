//! How the changes of a commit are written.

ghost use Rattle.std.specs.Prelude.{◌≡◌, ◌≤◌, ◌+◌, ◌*◌, ℕ, List, Some, IsSome, OnOk, OnErr};
ghost use Rattle.sector_device.specs.Timeline.{LeavesOnly};
ghost use Rattle.sector_device.specs.Device.{KeepsHistory, HasFailed, timeline};
ghost use Rattle.sector_device.specs.Page.{IsAlone};
ghost use Rattle.cow_pages.specs.Image.{bytes_of_page};
ghost use Rattle.cow_pages.specs.Commit.{CanCommit, WritesChanges};
ghost use Rattle.cow_pages.specs.Dirty.{AreOutsideReach, IsClean, AgreesOnClean};
ghost use Rattle.cow_pages.specs.DirtyPages.{dirty_bytes};
ghost use Rattle.cow_pages.specs.Cached.{AgreesWith};

use crate::dirty_pages::DirtyPages;
use crate::page_map::PageMap;
use crate::root_switch::write_next;
use page_cache::PageCache;
use page_roots::Root;
use pages::PAGE_SIZE;
use sector_device::{Device, DeviceFault, SECTORS_PER_PAGE, write_page};

// Writes all dirty pages. The cache forgets each before it is written, and holds its new bytes from then on.
pub(crate) fn write_pages<D: Device>(
    device: &mut D,
    cache: &mut PageCache,
    dirty: &DirtyPages,
) -> Result<(), DeviceFault>
    requires inside { (page : ℕ) → IsSome (dirty_bytes dirty.now page)
        → (1 ≤ page) × (8 * page + 8 ≤ (D.state device.old).sectors) }
    requires size { (D.state device.old).sectors ≤ 524288 }
    ensures history { KeepsHistory (D.state device.old) (D.state device.new) }
    ensures any_moment { (D.state device.old).faithful
        → LeavesOnly (AgreesOnClean (dirty_bytes dirty.now) (D.state device.old))
        (timeline (D.state device.old)) (timeline (D.state device.new)) }
    ensures alone { (D.state device.old).faithful → (s : ℕ) → IsClean (dirty_bytes dirty.now) s
        → IsAlone (D.state device.old) (D.state device.new) s }
    ensures written { (D.state device.old).faithful → OnOk result ((page : ℕ) (bytes : List ℕ)
        → dirty_bytes dirty.now page ≡ Some bytes
        → bytes_of_page (D.state device.new).content page ≡ bytes) }
    ensures cached { (D.state device.old).faithful
        → AgreesWith cache.old (D.state device.old).content
        → AgreesWith cache.new (D.state device.new).content }
    ensures cause { OnErr result (HasFailed (D.state device.old) (D.state device.new)) }
{
    for index in 0..dirty.len() {
        if let Some((page, bytes)) = dirty.page_at(index) {
            cache.invalidate(page);
            write_page(device, SECTORS_PER_PAGE * page, bytes)?;
            cache.put(page, bytes);
        }
    }
    Ok(())
}

// Writes all dirty pages, the reserved map pages of the next root, each spelled in scratch, and then the root. A stop at
// any moment leaves the array before or after, and after an error the device is recoverable for the old root.
pub(crate) fn write_changes<D: Device>(
    device: &mut D,
    cache: &mut PageCache,
    scratch: &mut [u8; PAGE_SIZE],
    dirty: &DirtyPages,
    map: &PageMap,
    next: &Root,
) -> Result<(), DeviceFault>
    requires sized { (D.state device.old).sectors ≡ 8 * map.now.root.pages }
    requires outside { AreOutsideReach map.now.root.pages map.now.root.maps map.now.durable.items
        (dirty_bytes dirty.now) }
    ensures history { KeepsHistory (D.state device.old) (D.state device.new) }
    ensures writes { CanCommit (D.state device.old) map.now next.now
        → WritesChanges (dirty_bytes dirty.now) map.now next.now result
        (D.state device.old) (D.state device.new) }
    ensures cached { (D.state device.old).faithful
        → AgreesWith cache.old (D.state device.old).content
        → AgreesWith cache.new (D.state device.new).content }
    ensures cause { OnErr result (HasFailed (D.state device.old) (D.state device.new)) }
{
    write_pages(device, cache, dirty)?;
    write_next(device, cache, scratch, map, next)
}
