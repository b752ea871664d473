//! How the store on a device is opened.
ghost use Rattle.std.specs.Prelude.{◌≡◌, ◌≤◌};
ghost use Rattle.journal_store.specs.DeviceOpening.{Opens, OpensJournaled, is_damaged as damaged};

use crate::device_stores::DeviceStore;
use crate::devices::JournalDevice;
use crate::stores::JournalStore;
use kv_store::{DEFAULT_CACHE_PAGES, MAX_CACHE_PAGES, OpenFault, PageStore};
use sector_device::Device;
use std::alloc::Global;

impl<D: JournalDevice> DeviceStore<D> {
    /// Opens a device, and the store of the kind that its root names. It is synced before it is read, and nothing is
    /// written. A refusal hands it back with the content that it had: `WrongSize`, `NotADatabase` and `Damaged` name the
    /// first fault that stands in the content, in this order: the size, the magic of the root sectors, the root sectors, the
    /// size that the root names, the map, the tree of records, and where the root says that there is a journal its sectors
    /// and the batches of its records. With `Ok` none of these faults stands in the content of a faithful device. `Device`
    /// says that the device failed, and `Memory` that memory was refused. The cache has `DEFAULT_CACHE_PAGES`.
    pub fn open(alloc: Global, device: D) -> Result<DeviceStore<D>, (D, OpenFault)>
        ensures { Opens (D.state device) result }
    {
        DeviceStore::open_with(alloc, device, DEFAULT_CACHE_PAGES)
    }

    /// Opens a device as `open` does, with a cache of so many pages.
    pub fn open_with(
        alloc: Global,
        device: D,
        cache_pages: usize,
    ) -> Result<DeviceStore<D>, (D, OpenFault)>
        requires some { 1 ≤ cache_pages }
        requires most { cache_pages ≤ MAX_CACHE_PAGES }
        ensures { Opens (D.state device) result }
    {
        match PageStore::open_with(alloc, device, cache_pages) {
            Ok(store) => Ok(DeviceStore::Pages(store)),
            Err((device, fault)) => {
                if is_damaged(fault) {
                    open_journaled(alloc, device, cache_pages)
                } else {
                    Err((device, fault))
                }
            }
        }
    }
}

// Opens a device as one whose root says that there is a journal.
fn open_journaled<D: JournalDevice>(
    alloc: Global,
    device: D,
    cache_pages: usize,
) -> Result<DeviceStore<D>, (D, OpenFault)>
    requires some { 1 ≤ cache_pages }
    requires most { cache_pages ≤ MAX_CACHE_PAGES }
    ensures { OpensJournaled (D.state device) result }
{
    match JournalStore::open_with(alloc, device, cache_pages) {
        Ok(store) => Ok(DeviceStore::Journaled(store)),
        Err(refused) => Err(refused),
    }
}

// Whether the fault is that the content is damaged, or only that the root says that there is a journal.
fn is_damaged(fault: OpenFault) -> bool
    ensures { result ≡ damaged fault }
{
    match fault {
        OpenFault::Damaged => true,
        OpenFault::WrongSize
        | OpenFault::NotADatabase
        | OpenFault::NewerFormat(_)
        | OpenFault::Device
        | OpenFault::Memory => false,
    }
}
